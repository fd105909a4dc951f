//! The ways in which an event can fail.
ghost use Rattle.std.specs.Prelude.{◌≡◌};
ghost use Rattle.pd_match.specs.Kinds.{kind_word};

/// The kind of a failure.
#[derive(Clone, Copy, PartialEq, Eq)]
pub enum Kind {
    /// The packet was sent too early or too late.
    Time,
    /// The control bits differ.
    Flags,
    /// The start, the end or the length differs.
    Seq,
    /// The acknowledgment number differs.
    Ack,
    /// The window field differs.
    Win,
    /// The options differ.
    Options,
    /// The call answered something else.
    Result,
    /// No packet was sent.
    Missing,
    /// The event's time lies before that of the event before it.
    Backwards,
}

impl Kind {
    /// Its word in a report.
    pub fn word(self) -> &'static str
        ensures { result.now ≡ kind_word self }
    {
        match self {
            Kind::Time => "time",
            Kind::Flags => "flags",
            Kind::Seq => "seq",
            Kind::Ack => "ack",
            Kind::Win => "win",
            Kind::Options => "options",
            Kind::Result => "result",
            Kind::Missing => "missing",
            Kind::Backwards => "backwards",
        }
    }
}
