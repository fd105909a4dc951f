//! The segments that the handshake and its checks put out.
ghost use Rattle.std.specs.Prelude.{◌≡◌, ◌≤◌, [], IfOk, OnOk};
ghost use Rattle.pd_host.specs.Inner.{IsScalable};
ghost use Rattle.pd_host.specs.Packets.{own_window_shift, own_window_field, ack_of, syn_ack_of, refusal_of};

use super::Connection;
use crate::connection::Scaling;
use pd_seg::{Flags, SegOption, SegOptions, Segment};
use std::alloc::{AllocError, Global};

/// The greatest window field.
pub(super) const MAX_WINDOW_FIELD: u32 = 65_535;

/// The flags of a segment that has none.
pub(super) const NO_FLAGS: Flags = Flags {
    syn: false,
    fin: false,
    rst: false,
    psh: false,
    ack: false,
};

/// By how much the windows that we send are shifted.
fn own_window_shift(scaling: Option<Scaling>) -> u8
    requires { IsScalable scaling }
    ensures count { result ≡ own_window_shift scaling }
    ensures small { result ≤ 14 }
{
    match scaling {
        None => 0,
        Some(scaling) => scaling.own,
    }
}

/// The RST that refuses an ack number.
pub fn rst_refusing_ack_number(ack: u32, alloc: Global) -> Segment
    ensures { result ≡ refusal_of ack }
{
    Segment {
        flags: Flags {
            rst: true,
            ..NO_FLAGS
        },
        start: ack,
        end: ack,
        ack: 0,
        win: 0,
        options: SegOptions::new(alloc),
    }
}

impl Connection {
    /// The SYN/ACK.
    ///
    /// # Errors
    /// `AllocError` where a growth for its options is refused.
    pub fn syn_ack(&self, alloc: Global) -> Result<Segment, AllocError>
        ensures { IfOk result (λ segment. segment ≡ syn_ack_of self.now) }
    {
        let mut options = SegOptions::new(alloc);
        self.push_syn_ack_options(&mut options)?;
        Ok(Segment {
            flags: Flags {
                syn: true,
                ack: true,
                ..NO_FLAGS
            },
            start: 0,
            end: 0,
            ack: 1,
            win: self.rcv_wnd.min(MAX_WINDOW_FIELD) as u16,
            options,
        })
    }

    /// Puts down the options of the SYN/ACK.
    fn push_syn_ack_options(&self, options: &mut SegOptions) -> Result<(), AllocError>
        requires { options.old ≡ [] }
        ensures { OnOk result (options.new ≡ (syn_ack_of self.now).options) }
    {
        options.push(SegOption::Mss(self.own_mss))?;
        if self.sack {
            options.push(SegOption::Nop)?;
            options.push(SegOption::Nop)?;
            options.push(SegOption::SackOk)?;
        }
        if let Some(scaling) = self.scaling {
            options.push(SegOption::Nop)?;
            options.push(SegOption::Wscale(scaling.own))?;
        }
        Ok(())
    }

    /// The window field of a segment that is no SYN.
    pub(super) fn own_window_field(&self) -> u16
        ensures { result ≡ own_window_field self.now }
    {
        let shifted = self.rcv_wnd >> own_window_shift(self.scaling);
        shifted.min(MAX_WINDOW_FIELD) as u16
    }

    /// An ACK of what was received.
    pub fn pure_ack_segment_at_top(&self, alloc: Global) -> Segment
        ensures { result ≡ ack_of self.now }
    {
        Segment {
            flags: Flags {
                ack: true,
                ..NO_FLAGS
            },
            start: self.board.top(),
            end: self.board.top(),
            ack: self.rcv_nxt(),
            win: self.own_window_field(),
            options: SegOptions::new(alloc),
        }
    }
}
