//! The segments that loss recovery chooses.
ghost use Rattle.std.specs.Prelude.{◌≡◌};
ghost use Rattle.pd_recover.specs.NextSeg.{segment_of};

use pd_seg::Span;

/// A segment that loss recovery sends, by the rule of NextSeg that gave it (RFC 6675, section 4).
#[derive(Clone, Copy)]
pub enum NextSegment {
    /// Rule 1: octets that count as lost, again.
    Lost(Span),
    /// Rule 2: new data.
    New(Span),
    /// Rule 3: octets below a SACKed one, again.
    Hole(Span),
    /// Rule 4: the rescue retransmission, one a recovery.
    Rescue(Span),
}

impl NextSegment {
    /// The octets of the segment.
    pub fn segment(&self) -> Span
        ensures { result ≡ segment_of self.now }
    {
        match *self {
            NextSegment::Lost(segment) => segment,
            NextSegment::New(segment) => segment,
            NextSegment::Hole(segment) => segment,
            NextSegment::Rescue(segment) => segment,
        }
    }
}
