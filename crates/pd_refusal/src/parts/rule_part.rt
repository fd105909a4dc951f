//! The parts of an event, and of a header, that rules are about.
ghost use Rattle.std.specs.Prelude.{◌≡◌};
ghost use Rattle.pd_refusal.specs.Parts.{is_part, begins_with_token_if_of_option_or_call};

use crate::parts::nesting::Nesting;
use crate::parts::token_roles::TokenRole;
use crate::rules::LimitedNumber;

/// A part of an event, or of a header, that a rule is about.
#[derive(Clone, Copy)]
pub enum RulePart {
    /// The first token: of an event its time.
    First,
    /// `...`, which the end of a blocking call follows.
    Dots,
    /// A command.
    Command,
    /// Code.
    Code,
    /// An option of the header, but for a tolerance within its limit.
    HeaderOption,
    /// The first word: the name of a call, or the letters of flags.
    Word,
    /// `<`, which a packet that arrives follows.
    Arrow,
    /// The number of a packet's first octet.
    Start,
    /// The number after its last octet.
    End,
    /// How many octets it has.
    Length,
    /// The number of `ack`.
    AckNumber,
    /// The number of `win`.
    Window,
    /// The name of the first option.
    Options,
    /// The number of the first `mss`.
    OfferedMss,
    /// The first number of an `mss` that is over its limit.
    LargeMss,
    /// The first number of a `wscale` that is over its limit.
    LargeShift,
    /// The left end of the fifth block of a `sack`.
    FifthBlock,
    /// The first end of a block that is over its limit.
    LargeEdge,
    /// The third argument of a call.
    ThirdArgument,
}

/// How many blocks stand before the fifth one.
const WHOLE_BLOCKS: usize = 4;

impl RulePart {
    /// Whether this part begins with a token, where this stands before it.
    pub fn begins_with_token(self, before: Nesting, role: TokenRole) -> bool
        ensures { result ≡ is_part self before role }
    {
        match self {
            RulePart::First => true,
            RulePart::Dots => role.is_dots(),
            RulePart::Command => role.is_command(),
            RulePart::Code => role.is_code(),
            RulePart::HeaderOption => role.is_unsupported_header_option(),
            RulePart::Word => role.is_word(),
            RulePart::Arrow => role.is_inbound_arrow(),
            RulePart::Start => before.last.can_end_flags() && role.is_whole_number(),
            RulePart::End => before.last.is_colon(),
            RulePart::Length => before.last.is_opening_parenthesis(),
            RulePart::AckNumber => before.last.is_ack(),
            RulePart::Window => before.last.is_win(),
            RulePart::Options => role.is_named_option(),
            _ => self.begins_with_token_if_of_option_or_call(before, role),
        }
    }

    /// The same of the parts of an option and of a call.
    fn begins_with_token_if_of_option_or_call(self, before: Nesting, role: TokenRole) -> bool
        ensures { result ≡ begins_with_token_if_of_option_or_call self before role }
    {
        match self {
            RulePart::OfferedMss => before.last.is_mss(),
            RulePart::LargeMss => {
                before.last.is_mss() && role.is_number_above(LimitedNumber::Mss.limit())
            }
            RulePart::LargeShift => {
                before.last.is_wscale() && role.is_number_above(LimitedNumber::Shift.limit())
            }
            RulePart::FifthBlock => {
                before.last.is_whole_number()
                    && role.is_whole_number()
                    && before.colons == WHOLE_BLOCKS
            }
            RulePart::LargeEdge => {
                before.last.can_precede_edge() && role.is_number_above(LimitedNumber::Edge.limit())
            }
            RulePart::ThirdArgument => {
                before.last.is_comma() && before.depth == 1 && before.commas == 2
            }
            _ => false,
        }
    }
}
