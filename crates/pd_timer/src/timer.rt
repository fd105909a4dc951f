//! The timer: its timeout, and the moment of the next expiry while it runs.
ghost use Rattle.std.specs.Prelude.{◌≡◌, ◌<◌, ◌^◌};
ghost use Rattle.pd_timer.specs.Rto.{IsRtoView, initial, clamped, sampled, started, restarted, stopped, expired_rto, reinitialized, timeout_in};

use crate::estimate::{Estimate, Timeout};
use pd_settings::Settings;
use std::alloc::AllocError;
use std::marker::Model;

/// The timeout before any measurement, in microseconds (RFC 6298, section 2.1).
const FIRST_TIMEOUT_US: u64 = 1_000_000;

/// The timeout at establishment where the timer expired in the handshake, in microseconds (RFC 6298, section 5.7).
const TIMEOUT_AFTER_HANDSHAKE_EXPIRY_US: u64 = 3_000_000;

/// The retransmission timer of one connection. Moments are microseconds since the start of the run.
///
/// No call takes memory.
pub struct Rto {
    /// SRTT and RTTVAR, once a round trip was measured (RFC 6298, section 2).
    estimate: Option<Estimate>,
    /// RTO, the retransmission timeout, in microseconds, within the bounds (RFC 6298, section 2).
    rto: u64,
    /// The least RTO, in microseconds: 1,000 to 60,000,000 (RFC 6298, section 2.4).
    min_rto_us: u64,
    /// The greatest RTO, in microseconds: 60,000,000 to 3,600,000,000 (RFC 6298, section 2.5).
    max_rto_us: u64,
    /// The moment of the next expiry, in microseconds since the start of the run, while the timer runs.
    deadline: Option<u64>,
}

impl Model for Rto {
    ghost use Rattle.pd_timer.specs.Rto.{RtoView, IsBounded};

    ghost Value = { RtoView };

    ghost view = { λ t. record { estimate = t.estimate; rto = t.rto; min_rto_us = t.min_rto_us; max_rto_us = t.max_rto_us; deadline = t.deadline } };

    ghost invariant = { λ t. IsBounded t.estimate t.rto t.min_rto_us t.max_rto_us };

    ghost inverse = { λ t. record { estimate = t.estimate; rto = t.rto; min_rto_us = t.min_rto_us; max_rto_us = t.max_rto_us; deadline = t.deadline } };
}

impl Clone for Rto {
    fn clone(&self) -> Result<Self, AllocError> {
        Ok(*self)
    }
}

impl Copy for Rto {}

/// A timeout within its bounds, in microseconds (RFC 6298, sections 2.4 and 2.5).
fn clamp(timeout_us: u128, min_rto_us: u64, max_rto_us: u64) -> u64
    ensures { result ≡ clamped min_rto_us max_rto_us timeout_us }
{
    timeout_us
        .max(u128::from(min_rto_us))
        .min(u128::from(max_rto_us)) as u64
}

impl Rto {
    /// A timer that doesn't run, with the timeout that is before any measurement. Of the settings it looks at
    /// `min_rto_us` and `max_rto_us` alone.
    pub fn new(settings: &Settings) -> Rto
        ensures value { result ≡ initial settings.now.min_rto_us settings.now.max_rto_us }
        ensures known { IsRtoView result }
    {
        settings.law_ssthresh_and_rto_bounds_are_allowed();
        Rto {
            estimate: None,
            rto: clamp(
                u128::from(FIRST_TIMEOUT_US),
                settings.min_rto_us,
                settings.max_rto_us,
            ),
            min_rto_us: settings.min_rto_us,
            max_rto_us: settings.max_rto_us,
            deadline: None,
        }
    }

    /// RTO, the retransmission timeout, in microseconds.
    pub fn rto(&self) -> u64
        ensures value { result ≡ self.now.rto }
        ensures known { IsRtoView self.now }
    {
        self.rto
    }

    /// The moment of the next expiry, while the timer runs.
    pub fn deadline(&self) -> Option<u64>
        ensures value { result ≡ self.now.deadline }
        ensures known { IsRtoView self.now }
    {
        self.deadline
    }

    /// How the timeout comes from what was measured, with a clock of this granularity in microseconds; nothing before any
    /// measurement.
    pub fn rto_derivation_before_backoff(&self, granularity_us: u64) -> Option<Timeout>
        ensures { result ≡ timeout_in granularity_us self.now }
    {
        match self.estimate {
            None => None,
            Some(estimate) => {
                let computed_us = estimate.rto_before_clamp(granularity_us);
                Some(Timeout {
                    estimate,
                    granularity_us: estimate.granularity_if_above_variation(granularity_us),
                    computed_us,
                    bounded_us: clamp(computed_us, self.min_rto_us, self.max_rto_us),
                })
            }
        }
    }

    /// Takes a measured round-trip time and the clock's granularity, both in microseconds (RFC 6298, sections 2.2
    /// and 2.3).
    pub fn sample(&mut self, time: u64, granularity_us: u64)
        requires { time < 2 ^ 62 }
        ensures { self.new ≡ sampled time granularity_us self.old }
    {
        let estimate = match self.estimate {
            None => Estimate::from_first_sample(time),
            Some(estimate) => estimate.with_next_sample(time),
        };
        self.estimate = Some(estimate);
        self.rto = clamp(
            estimate.rto_before_clamp(granularity_us),
            self.min_rto_us,
            self.max_rto_us,
        );
    }

    /// Octets were sent: the timer starts, unless it runs (RFC 6298, section 5.1).
    pub fn start(&mut self, now: u64)
        requires { now < 2 ^ 62 }
        ensures { self.new ≡ started now self.old }
    {
        if self.deadline.is_none() {
            self.restart(now);
        }
    }

    /// New octets were acknowledged and others are outstanding: the timer starts anew (RFC 6298, section 5.3).
    pub fn restart(&mut self, now: u64)
        requires { now < 2 ^ 62 }
        ensures { self.new ≡ restarted now self.old }
    {
        self.deadline = Some(now + self.rto);
    }

    /// The timer stops (RFC 6298, section 5.2).
    pub fn stop(&mut self)
        ensures { self.new ≡ stopped self.old }
    {
        self.deadline = None;
    }

    /// The timer expires: the timeout is doubled up to the greatest one, and the timer starts anew (RFC 6298,
    /// sections 5.5 and 5.6).
    pub fn expire(&mut self, now: u64)
        requires { now < 2 ^ 62 }
        ensures { self.new ≡ expired_rto now self.old }
    {
        self.rto = (2 * self.rto).min(self.max_rto_us);
        self.restart(now);
    }

    /// The timeout at establishment where the timer expired in the handshake (RFC 6298, section 5.7).
    pub fn set_timeout_after_handshake_expiry(&mut self)
        ensures { self.new ≡ reinitialized self.old }
    {
        self.rto = clamp(
            u128::from(TIMEOUT_AFTER_HANDSHAKE_EXPIRY_US),
            self.min_rto_us,
            self.max_rto_us,
        );
    }
}
