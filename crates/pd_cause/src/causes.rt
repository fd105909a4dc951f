//! Why a run came to its verdict.
ghost use Rattle.std.specs.Prelude.{◌≡◌, [], IfOk};
ghost use Rattle.pd_cause.specs.Causes.{IsCauseOf, HasHistoryOf};

mod aligned_packets;
mod failure;
mod find_failure;
mod not_sent_reason;
mod outlook;
mod sentences;
mod source_text;
mod unmatched;

pub use self::failure::{
    ExpectedTime, Failed, Failure, MissingPacket, SenderSnapshot, TimeBackwards, Unmatched,
    WrongPacket, WrongResult,
};
use self::find_failure::failure_unless_stopped_by_rule;
pub(crate) use self::find_failure::{run_in_stop_reason_or_before_event, sender_snapshot_of_run};
pub use self::not_sent_reason::NotSentReason;
pub use self::outlook::{Outlook, applied_rto_bound, computed_rto_us_capped_at_u64, span_text};
pub use self::sentences::{Phrase, put_concatenated_phrases};
use self::source_text::texts_of_event_its_time_and_its_result;
pub(crate) use self::unmatched::list_first_unmatched_after_skipped;
use crate::dropped::DroppedSegment;
use crate::origins::Origin;
use pd_lex::Place;
use pd_refusal::{Refusal, RuleViolation, rule_that_stopped_run_at_event, violation_at_event};
use pd_reparse::ParsedEvent;
use pd_run::StopPoint;
use pd_text::Lines;
use std::alloc::{AllocError, Global};

/// Why a run came to its verdict.
#[derive(Drop)]
pub enum Cause {
    /// The text is no script.
    Syntax(Refusal),
    /// A rule by which the script isn't run.
    Rule(RuleViolation),
    /// An event didn't happen as written.
    Failed(Failure),
}

/// Why an event stopped a run. It stands at a place of its text, and something follows it at another one.
///
/// # Errors
/// `AllocError` where a growth is refused.
pub fn cause_of_event_stop(
    alloc: Global,
    lines: &Lines,
    place: Place,
    parsed_event: &ParsedEvent,
    stop: &StopPoint,
) -> Result<Cause, AllocError>
    ensures { IfOk result (IsCauseOf lines.now place parsed_event.now.event stop.now) }
{
    let event = &parsed_event.event;
    let source_text = texts_of_event_its_time_and_its_result(
        alloc,
        lines,
        place,
        parsed_event.after,
    )?;
    match failure_unless_stopped_by_rule(alloc, event, stop, source_text)? {
        Some(failure) => Ok(Cause::Failed(failure)),
        None => {
            let rule = rule_that_stopped_run_at_event(event, stop);
            Ok(Cause::Rule(violation_at_event(alloc, lines, place, event, rule)?))
        }
    }
}

impl Cause {
    /// The same cause, without what let packets go and which segments were dropped.
    pub fn without_origins_and_dropped(self, alloc: Global) -> Cause
        ensures { HasHistoryOf self [] [] result }
    {
        with_origins_and_dropped(self, Vec::new(alloc), Vec::new(alloc))
    }
}

/// The same cause, with what let the packets go that nobody has taken, and which segments were dropped.
pub(crate) fn with_origins_and_dropped(
    cause: Cause,
    origins: Vec<Origin>,
    dropped: Vec<DroppedSegment>,
) -> Cause
    ensures { HasHistoryOf cause origins.items dropped.items result }
{
    match cause {
        Cause::Failed(failure) => Cause::Failed(Failure {
            origins,
            dropped,
            ..failure
        }),
        Cause::Syntax(refusal) => Cause::Syntax(refusal),
        Cause::Rule(violation) => Cause::Rule(violation),
    }
}
