//! Which part of a text each rule is about.
ghost use Rattle.std.specs.Prelude.{◌≡◌};
ghost use Rattle.pd_refusal.specs.Parts.{overlong_time_or_blocking_end_part, part_of_number_over_limit, part_of_unsupported_shape, part_of_unsupported_input, part_of, rule_part_of_header_item};

use crate::parts::rule_part::RulePart;
use crate::rules::{LimitedNumber, Rule, UnsupportedInput, UnsupportedShape, is_time_long};
use pd_script::{Event, HeaderKind};

/// The part of an event that the rule which stops a script there is about.
pub fn rule_part_of_event(rule: Rule, event: &Event) -> RulePart
    ensures { result ≡ part_of rule event.now }
{
    match rule {
        Rule::Over(number) => part_of_number_over_limit(number, event),
        Rule::NotRun(shape) => part_of_unsupported_shape(shape),
        Rule::NotTaken(input) => part_of_unsupported_input(input),
    }
}

/// The part of a header item that the rule which stops a script there is about.
pub fn rule_part_of_header_item(kind: HeaderKind) -> RulePart
    ensures { result ≡ rule_part_of_header_item kind }
{
    match kind {
        HeaderKind::Command => RulePart::Command,
        HeaderKind::OtherOption => RulePart::HeaderOption,
        HeaderKind::Tolerance(_) => RulePart::HeaderOption,
    }
}

/// A number over its limit; a full outbox is about the event.
fn part_of_number_over_limit(number: LimitedNumber, event: &Event) -> RulePart
    ensures { result ≡ part_of_number_over_limit number event.now }
{
    match number {
        LimitedNumber::Time => overlong_time_or_blocking_end_part(event),
        LimitedNumber::Start => RulePart::Start,
        LimitedNumber::End => RulePart::End,
        LimitedNumber::Ack => RulePart::AckNumber,
        LimitedNumber::Window => RulePart::Window,
        LimitedNumber::Options => RulePart::Options,
        LimitedNumber::Mss => RulePart::LargeMss,
        LimitedNumber::Shift => RulePart::LargeShift,
        LimitedNumber::Blocks => RulePart::FifthBlock,
        LimitedNumber::Edge => RulePart::LargeEdge,
        LimitedNumber::Write => RulePart::ThirdArgument,
        LimitedNumber::Outbox => RulePart::First,
    }
}

/// A time over its limit, or else the end of a blocking call.
fn overlong_time_or_blocking_end_part(event: &Event) -> RulePart
    ensures { result ≡ overlong_time_or_blocking_end_part event.now }
{
    if is_time_long(event.time) {
        RulePart::First
    } else {
        RulePart::Dots
    }
}

fn part_of_unsupported_shape(shape: UnsupportedShape) -> RulePart
    ensures { result ≡ part_of_unsupported_shape shape }
{
    match shape {
        UnsupportedShape::HeaderOption => RulePart::HeaderOption,
        UnsupportedShape::HeaderCommand => RulePart::Command,
        UnsupportedShape::Blocking => RulePart::Dots,
        UnsupportedShape::Command => RulePart::Command,
        UnsupportedShape::Code => RulePart::Code,
        UnsupportedShape::InboundTime => RulePart::First,
        UnsupportedShape::CallTime => RulePart::First,
        UnsupportedShape::Flag => RulePart::Word,
        UnsupportedShape::CallName => RulePart::Word,
        UnsupportedShape::CallShape => RulePart::Word,
    }
}

/// An input that isn't run in the sender's state: the call's name, or of a packet what makes it so.
fn part_of_unsupported_input(input: UnsupportedInput) -> RulePart
    ensures { result ≡ part_of_unsupported_input input }
{
    match input {
        UnsupportedInput::SecondSocket => RulePart::Word,
        UnsupportedInput::ListenerClose => RulePart::Word,
        UnsupportedInput::NotListening => RulePart::Arrow,
        UnsupportedInput::NotSyn => RulePart::Arrow,
        UnsupportedInput::SmallMss => RulePart::OfferedMss,
        UnsupportedInput::Payload => RulePart::Length,
        UnsupportedInput::SecondSyn => RulePart::Word,
        UnsupportedInput::StrayFin => RulePart::Word,
        UnsupportedInput::AfterReset => RulePart::Arrow,
        UnsupportedInput::AfterFins => RulePart::Arrow,
    }
}
