//! TCP segments.
ghost use Rattle.std.specs.Prelude.{◌≡◌, ◌-◌, ◌↔◌, IsTrue, IfOk};

use crate::flags::Flags;
use crate::option_list::SegOptions;
use crate::send_rule::SendRule;
use std::alloc::AllocError;

/// A TCP segment. Sequence numbers are relative, both initial ones at 0.
#[derive(Drop)]
pub struct Segment {
    /// The control bits.
    pub flags: Flags,
    /// The number of the first octet of data.
    pub start: u32,
    /// The number after the last octet of data; SYN and FIN don't count.
    pub end: u32,
    /// The acknowledgment number. The sender puts 0 where the ACK flag isn't set; a segment that arrives may have any.
    pub ack: u32,
    /// The window field as it stands in the segment, not scaled.
    pub win: u16,
    /// The TCP options in order.
    pub options: SegOptions,
}

/// A segment that was put out, when, and by which rule.
#[derive(Drop)]
pub struct Sent {
    /// The segment.
    pub segment: Segment,
    /// Microseconds since the start of the run.
    pub at: u64,
    /// The rule that let it go.
    pub rule: SendRule,
}

impl Segment {
    /// How many octets of data the segment has.
    pub fn data_len(&self) -> u32
        ensures { result ≡ self.now.end - self.now.start }
    {
        self.end.saturating_sub(self.start)
    }

    /// Whether both agree in every field.
    pub fn is_same(&self, other: &Segment) -> bool
        ensures { IsTrue result ↔ (self.now ≡ other.now) }
    {
        self.flags.is_same(&other.flags)
            && self.start == other.start
            && self.end == other.end
            && self.ack == other.ack
            && self.win == other.win
            && self.options.is_same(&other.options)
    }

    /// The same segment once more.
    ///
    /// # Errors
    /// `AllocError` where a growth is refused.
    pub fn copy(&self) -> Result<Segment, AllocError>
        ensures { IfOk result (λ copy. copy ≡ self.now) }
    {
        Ok(Segment {
            flags: self.flags,
            start: self.start,
            end: self.end,
            ack: self.ack,
            win: self.win,
            options: self.options.copy()?,
        })
    }
}

impl Sent {
    /// Whether both agree in the segment, the moment and the rule.
    pub fn is_same(&self, other: &Sent) -> bool
        ensures { IsTrue result ↔ (self.now ≡ other.now) }
    {
        self.at == other.at && self.rule == other.rule && self.segment.is_same(&other.segment)
    }

    /// The same segment with the same time and rule once more.
    ///
    /// # Errors
    /// `AllocError` where a growth is refused.
    #[inline(always)]
    pub fn copy(&self) -> Result<Sent, AllocError>
        ensures { IfOk result (λ copy. copy ≡ self.now) }
    {
        Ok(Sent {
            segment: self.segment.copy()?,
            at: self.at,
            rule: self.rule,
        })
    }
}
