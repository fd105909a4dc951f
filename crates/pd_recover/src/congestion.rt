//! The congestion window and what loss recovery keeps.
ghost use Rattle.std.specs.Prelude.{◌≡◌, ◌-◌, ◌<◌, ◌≤◌, ◌^◌};
ghost use Rattle.pd_recover.specs.Cong.{IsCongView, rfc5681_initial_segments, initial_window_by_rule, initial_cwnd_smss_if_syn_ack_resent, idle_restart_rule, begun, begun_settings, timed_out, restarted, entered_to, with_limited, is_prr_recovering, with_prr_out, sndcnt, with_prr_cwnd};
ghost use Rattle.pd_recover.specs.Prr.{uses_prr, unforced_sndcnt};

mod next_seg;
mod on_ack;

use crate::prr::PrrState;
use pd_seg::Span;
use pd_settings::{InitialWindow, RecoveryAlgorithm, SettingSet, Settings};
use std::alloc::AllocError;
use std::marker::Model;

/// The greatest window that growth leads to, in octets.
const MAX_WINDOW: u32 = 0x4000_0000;

/// No connection has more octets than this.
const MAX_OCTETS: u32 = 0x8000_0000;

/// The congestion window, the slow start threshold, and the variables of loss recovery of one connection.
///
/// No call takes memory.
pub struct Cong {
    /// cwnd, the congestion window, in octets: 1 to 2^31 (RFC 5681, section 3.1), from 0 on where recovery goes on by PRR
    /// (RFC 9937, section 6).
    cwnd: u32,
    /// ssthresh, the slow start threshold, in octets: 1 to 2^30 (RFC 5681, section 3.1).
    ssthresh: u32,
    /// DupAcks: how many duplicates came since the last ACK of new octets or expiry; DupThresh + 1 stands for more too
    /// (RFC 6675, section 5).
    dup_acks: u32,
    /// Whether duplicates before DupThresh send new data: limited transmit (RFC 3042).
    limited_transmit: bool,
    /// How many octets limited transmit has sent since then (RFC 6675, section 5, step 3; RFC 3042).
    limited_octets: u32,
    /// Whether loss recovery goes on (RFC 5681, section 3.2; RFC 6675, section 5).
    recovering: bool,
    /// RecoveryPoint, as the number after its octet (RFC 6675, section 5, step 4.1; an expiry's, section 5.1).
    recovery_point: u32,
    /// HighRxt, as the number after its octet (RFC 6675, section 2).
    high_rxt: u32,
    /// RescueRxt, as the number after its octet (RFC 6675, section 2).
    rescue_rxt: u32,
    /// Whether the timer has expired since the establishment and the last ACK of new octets (RFC 5681, section 3.1).
    expired: bool,
    /// L, in segments: by how many an ACK widens the window at most in slow start (RFC 3465, section 2.2).
    abc_limit: u8,
    /// Whether slow start began at an expiry last (RFC 3465, section 2.3).
    follows_expiry: bool,
    /// The rule for IW, where the window restarts by it after an idle time (RFC 5681, section 4.1).
    idle_restart_rule: Option<InitialWindow>,
    /// The algorithm of recovery with SACK (RFC 6675, section 5; RFC 9937, section 6).
    recovery_algorithm: RecoveryAlgorithm,
    /// The state of PRR in a recovery with SACK (RFC 9937, section 6).
    prr: PrrState,
}

impl Model for Cong {
    ghost use Rattle.pd_recover.specs.Cong.{CongView, IsRanged, is_prr_recovering};

    ghost Value = { CongView };

    ghost view = { λ c. record { cwnd = c.cwnd; ssthresh = c.ssthresh; dup_acks = c.dup_acks; limited_transmit = c.limited_transmit; limited_octets = c.limited_octets; recovering = c.recovering; recovery_point = c.recovery_point; high_rxt = c.high_rxt; rescue_rxt = c.rescue_rxt; expired = c.expired; abc_limit = c.abc_limit; follows_expiry = c.follows_expiry; idle_restart_rule = c.idle_restart_rule; recovery_algorithm = c.recovery_algorithm; prr = c.prr } };

    ghost invariant = { λ c. IsRanged c.cwnd c.ssthresh c.dup_acks c.limited_octets (is_prr_recovering c.recovering c.recovery_algorithm) c.prr };

    ghost inverse = { λ c. record { cwnd = c.cwnd; ssthresh = c.ssthresh; dup_acks = c.dup_acks; limited_transmit = c.limited_transmit; limited_octets = c.limited_octets; recovering = c.recovering; recovery_point = c.recovery_point; high_rxt = c.high_rxt; rescue_rxt = c.rescue_rxt; expired = c.expired; abc_limit = c.abc_limit; follows_expiry = c.follows_expiry; idle_restart_rule = c.idle_restart_rule; recovery_algorithm = c.recovery_algorithm; prr = c.prr } };
}

impl Clone for Cong {
    fn clone(&self) -> Result<Self, AllocError> {
        Ok(*self)
    }
}

impl Copy for Cong {}

/// RFC 6928's initial window in octets, where ten segments are more and two are less (section 2).
const LARGER_INITIAL_WINDOW: u32 = 14_600;

/// How many segments the initial window of RFC 5681 holds, at this SMSS in octets (section 3.1).
fn rfc5681_initial_segments(smss: u16) -> u32
    ensures { result ≡ rfc5681_initial_segments smss }
{
    if smss > 2_190 {
        2
    } else if smss > 1_095 {
        3
    } else {
        4
    }
}

/// The initial window by a rule, in octets as SMSS is.
fn initial_window_by_rule(rule: InitialWindow, smss: u16) -> u32
    ensures { result ≡ initial_window_by_rule rule smss }
{
    let segment = u32::from(smss);
    match rule {
        InitialWindow::Rfc5681 => rfc5681_initial_segments(smss) * segment,
        InitialWindow::Rfc6928 => (10 * segment).min((2 * segment).max(LARGER_INITIAL_WINDOW)),
    }
}

/// The same, or one segment where the SYN/ACK was sent again.
fn initial_cwnd_smss_if_syn_ack_resent(rule: InitialWindow, smss: u16, syn_ack_resent: bool) -> u32
    ensures { result ≡ initial_cwnd_smss_if_syn_ack_resent rule smss syn_ack_resent }
{
    if syn_ack_resent {
        u32::from(smss)
    } else {
        initial_window_by_rule(rule, smss)
    }
}

/// IW's rule, where the setting is on.
fn initial_window_rule_if_idle_restart_on(on: bool, rule: InitialWindow) -> Option<InitialWindow>
    ensures { result ≡ idle_restart_rule on rule }
{
    if on { Some(rule) } else { None }
}

impl Cong {
    /// The state at establishment: the initial window (RFC 5681, section 3.1; RFC 6928, section 2), one segment where
    /// the SYN/ACK was sent again. SMSS is in octets. Of the settings it looks at those of
    /// `consulted_settings_plus_those_new_reads` alone.
    pub fn new(settings: &Settings, smss: u16, syn_ack_resent: bool) -> Cong
        requires from { 64 ≤ smss }
        requires to { smss ≤ 65495 }
        ensures value { result ≡ begun settings.now smss syn_ack_resent }
        ensures known { IsCongView result }
    {
        settings.law_ssthresh_and_rto_bounds_are_allowed();
        Cong {
            cwnd: initial_cwnd_smss_if_syn_ack_resent(
                settings.initial_window,
                smss,
                syn_ack_resent,
            ),
            ssthresh: settings.initial_ssthresh,
            dup_acks: 0,
            limited_transmit: settings.limited_transmit,
            limited_octets: 0,
            recovering: false,
            recovery_point: 0,
            high_rxt: 0,
            rescue_rxt: 0,
            expired: false,
            abc_limit: settings.abc_limit,
            follows_expiry: false,
            idle_restart_rule: initial_window_rule_if_idle_restart_on(
                settings.slow_start_after_idle,
                settings.initial_window,
            ),
            recovery_algorithm: settings.recovery_algorithm,
            prr: PrrState::NONE,
        }
    }

    /// With the settings that `new` consults.
    pub fn consulted_settings_plus_those_new_reads(consulted_settings: SettingSet) -> SettingSet
        ensures { result ≡ begun_settings consulted_settings }
    {
        SettingSet {
            initial_ssthresh: true,
            initial_window: true,
            limited_transmit: true,
            abc_limit: true,
            slow_start_after_idle: true,
            recovery_algorithm: true,
            ..consulted_settings
        }
    }

    /// The invariant: windows and counts lie in their ranges. It does nothing.
    pub fn law_invariant(&self)
        ensures { IsCongView self.now }
    {
        let _cwnd = self.cwnd();
    }

    /// The congestion window, in octets.
    pub fn cwnd(&self) -> u32
        ensures value { result ≡ self.now.cwnd }
        ensures known { IsCongView self.now }
    {
        self.cwnd
    }

    /// The slow start threshold, in octets.
    pub fn ssthresh(&self) -> u32
        ensures { result ≡ self.now.ssthresh }
    {
        self.ssthresh
    }

    /// DupAcks: how many duplicates came since the last ACK of new octets or expiry; DupThresh + 1 stands for more too
    /// (RFC 6675, section 5).
    pub fn dup_acks(&self) -> u32
        ensures { result ≡ self.now.dup_acks }
    {
        self.dup_acks
    }

    /// Whether loss recovery goes on.
    pub fn is_recovering(&self) -> bool
        ensures { result ≡ self.now.recovering }
    {
        self.recovering
    }

    /// RecoveryPoint, as the number after its octet (RFC 6675, section 5, step 4.1; an expiry's, section 5.1).
    pub fn recovery_point(&self) -> u32
        ensures { result ≡ self.now.recovery_point }
    {
        self.recovery_point
    }

    /// HighRxt, as the number after the highest octet that this recovery has sent again; `una` at the duplicates
    /// before one begins (RFC 6675, sections 2 and 5).
    pub fn high_rxt(&self) -> u32
        ensures { result ≡ self.now.high_rxt }
    {
        self.high_rxt
    }

    /// The timer has expired, with this SMSS in octets and the octets from `una` up to `top` outstanding (RFC 5681,
    /// section 3.1; RFC 6675, section 5.1).
    pub fn on_timeout(&mut self, smss: u16, una: u32, top: u32)
        requires from { 64 ≤ smss }
        requires to { smss ≤ 65495 }
        requires sent { una ≤ top }
        requires small { top < 2 ^ 31 }
        ensures { self.new ≡ timed_out smss una top self.old }
    {
        let smss = u32::from(smss);
        if !self.expired {
            self.ssthresh = ((top - una) / 2).max(2 * smss);
        }
        self.cwnd = smss;
        self.dup_acks = 0;
        self.limited_octets = 0;
        self.recovering = false;
        self.recovery_point = top;
        self.expired = true;
        self.follows_expiry = true;
        self.prr = PrrState::NONE;
    }

    /// Sending begins, with this SMSS in octets. After an idle time cwnd is RW, the restart window, at most, where the
    /// setting was on (RFC 5681, section 4.1).
    pub fn restart_cwnd_if_idle(&mut self, smss: u16, idle: bool)
        requires from { 64 ≤ smss }
        requires to { smss ≤ 65495 }
        ensures { self.new ≡ restarted smss idle self.old }
    {
        if !idle {
            return;
        }
        if let Some(rule) = self.idle_restart_rule {
            self.cwnd = initial_window_by_rule(rule, smss).min(self.cwnd);
            self.follows_expiry = false;
        }
    }

    /// The algorithm of recovery with SACK.
    pub fn sack_recovery_algorithm(&self) -> RecoveryAlgorithm
        ensures { result ≡ self.now.recovery_algorithm }
    {
        self.recovery_algorithm
    }

    /// The state of PRR in a recovery with SACK.
    pub fn prr(&self) -> PrrState
        ensures { result ≡ self.now.prr }
    {
        self.prr
    }

    /// Whether recovery with SACK goes by PRR.
    pub fn uses_prr(&self) -> bool
        ensures { result ≡ uses_prr self.now.recovery_algorithm }
    {
        match self.recovery_algorithm {
            RecoveryAlgorithm::Rfc6675 => false,
            RecoveryAlgorithm::Rfc9937 => true,
        }
    }

    /// An entry has sent the segment at SND.UNA again (RFC 6675, section 5, step 4.3).
    pub fn set_high_and_rescue_rxt_and_count_prr_out(&mut self, segment: Span)
        ensures { self.new ≡ entered_to segment self.old }
    {
        self.high_rxt = segment.end;
        self.rescue_rxt = segment.end;
        self.count_prr_out(segment);
    }

    /// The octets of a segment were sent in recovery.
    fn count_prr_out(&mut self, segment: Span)
        ensures { self.new ≡ with_prr_out (segment.end - segment.start) self.old }
    {
        if self.uses_prr() {
            self.prr = self
                .prr
                .count_sent(segment.end.saturating_sub(segment.start));
        }
    }

    /// sndcnt: how many octets an ACK in recovery lets out, with this SMSS and pipe, in octets (RFC 9937, section 6). Where
    /// nothing was sent and nothing would be, one segment is forced.
    fn sndcnt(&self, smss: u16, pipe: u32) -> u64
        ensures { result ≡ sndcnt smss pipe self.now }
    {
        let octets = self.unforced_sndcnt(smss, pipe);
        if self.prr.prr_out == 0 && octets == 0 {
            u64::from(smss)
        } else {
            octets
        }
    }

    /// sndcnt before a segment is forced.
    fn unforced_sndcnt(&self, smss: u16, pipe: u32) -> u64
        ensures { result ≡ unforced_sndcnt smss pipe self.now.ssthresh self.now.prr }
    {
        if pipe > self.ssthresh {
            return self
                .prr
                .proportional_ssthresh(self.ssthresh)
                .saturating_sub(u64::from(self.prr.prr_out));
        }
        u64::from(self.ssthresh - pipe).min(self.prr.sndcnt_limit_plus_smss_if_safe_ack(smss))
    }

    /// Whether recovery goes on by PRR, where `set_cwnd_pipe_plus_sndcnt_if_prr` sets the window. Without SACK nothing calls
    /// it.
    pub fn is_prr_recovering(&self) -> bool
        ensures { result ≡ is_prr_recovering self.now.recovering self.now.recovery_algorithm }
    {
        self.recovering && self.uses_prr()
    }

    /// An ACK in recovery with SACK, with this SMSS and pipe in octets: by PRR it sets the window, before anything is sent (RFC
    /// 9937, section 6).
    pub fn set_cwnd_pipe_plus_sndcnt_if_prr(&mut self, smss: u16, pipe: u32)
        ensures { self.new ≡ with_prr_cwnd smss pipe self.old }
    {
        if self.is_prr_recovering() {
            let octets = u64::from(pipe).saturating_add(self.sndcnt(smss, pipe));
            self.cwnd = octets.min(u64::from(MAX_WINDOW)) as u32;
        }
    }

    /// Limited transmit has sent this many octets; without SACK `on_ack` counts them itself.
    pub fn count_limited_transmit_octets(&mut self, octets: u32)
        requires { octets ≤ 65495 }
        ensures { self.new ≡ with_limited octets self.old }
    {
        self.limited_octets = (self.limited_octets + octets).min(MAX_OCTETS);
    }
}
