//! Which rule makes a header item or an event `unsupported` or `limit`: the first that applies.
ghost use Rattle.std.specs.Prelude.{◌≡◌};
ghost use Rattle.pd_refusal.specs.Rules.{unsupported_header_item_rule, rule_that_stopped_run_at_event};

mod limited_numbers;
mod unsupported_inputs;
mod unsupported_shapes;

pub use self::limited_numbers::LimitedNumber;
use self::limited_numbers::first_number_over_limit;
pub(crate) use self::limited_numbers::is_time_long;
pub use self::unsupported_inputs::UnsupportedInput;
use self::unsupported_inputs::unsupported_input_of_halted_action;
pub use self::unsupported_shapes::UnsupportedShape;
use self::unsupported_shapes::find_unsupported_shape_of_event;
use pd_host::Halt;
use pd_run::{StopPoint, StopReason};
use pd_script::{Event, HeaderItem, HeaderKind};

/// A rule by which a script stops with `limit` or `unsupported`.
#[derive(Clone, Copy)]
pub enum Rule {
    /// A number is over its limit: `limit`.
    Over(LimitedNumber),
    /// A shape that isn't run, whatever the sender's state: `unsupported`.
    NotRun(UnsupportedShape),
    /// The sender doesn't run this in its state: `unsupported`.
    NotTaken(UnsupportedInput),
}

impl Rule {
    /// The rule in the words of the documents.
    pub fn words(self) -> &'static str {
        match self {
            Rule::Over(number) => number.words(),
            Rule::NotRun(shape) => shape.words(),
            Rule::NotTaken(input) => input.words(),
        }
    }

    /// The rule's name in JSON.
    pub fn key(self) -> &'static str {
        match self {
            Rule::Over(number) => number.key(),
            Rule::NotRun(shape) => shape.key(),
            Rule::NotTaken(input) => input.key(),
        }
    }

    /// How a script may be mended, in words, where no edit by hand is the way.
    pub fn import_advice_if_header_rule(self) -> Option<&'static str> {
        match self {
            Rule::NotRun(UnsupportedShape::HeaderCommand | UnsupportedShape::HeaderOption) => {
                Some("`pdsuite import` takes a kernel's set-up over as settings")
            }
            _ => None,
        }
    }

    /// The meaning that others give to it, in words.
    pub fn flag_meanings_text_if_flag_rule(self) -> Option<&'static str> {
        match self {
            Rule::NotRun(UnsupportedShape::Flag) => {
                Some("E, W and C are flags of ECN (RFC 3168), and U is the urgent one")
            }
            _ => None,
        }
    }

    /// The limit that a number is over; of a time in seconds.
    pub fn limit(self) -> Option<u64> {
        match self {
            Rule::Over(number) => Some(number.limit()),
            Rule::NotRun(_) | Rule::NotTaken(_) => None,
        }
    }
}

/// The rule by which a header item isn't run.
pub(crate) fn unsupported_header_item_rule(item: &HeaderItem) -> Rule
    ensures { result ≡ unsupported_header_item_rule item.now.kind }
{
    match item.kind {
        HeaderKind::Command => Rule::NotRun(UnsupportedShape::HeaderCommand),
        HeaderKind::OtherOption | HeaderKind::Tolerance(_) => Rule::NotRun(
            UnsupportedShape::HeaderOption,
        ),
    }
}

/// The rule by which an event stops a run with `limit` or `unsupported`: the first that applies, in the order in which the
/// step and the sender look.
pub fn rule_that_stopped_run_at_event(event: &Event, stop: &StopPoint) -> Rule
    ensures { result ≡ rule_that_stopped_run_at_event event.now stop.now }
{
    if let Some(number) = first_number_over_limit(event) {
        return Rule::Over(number);
    }
    if let Some(shape) = find_unsupported_shape_of_event(event) {
        return Rule::NotRun(shape);
    }
    match (
        &stop.stop_reason,
        unsupported_input_of_halted_action(&event.action, stop.before.host()),
    ) {
        (StopReason::Halted(Halt::Unsupported), Some(input)) => Rule::NotTaken(input),
        _ => Rule::Over(LimitedNumber::Outbox),
    }
}
