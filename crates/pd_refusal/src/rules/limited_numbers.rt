//! The numbers of an event that have limits.
ghost use Rattle.std.specs.Prelude.{◌≡◌};
ghost use Rattle.std.specs.List.{list_any};
ghost use Rattle.pd_run.specs.Limits.{is_long, written_times, written_blocking_end, is_action_number_over_limit, is_block_over};
ghost use Rattle.pd_refusal.specs.Rules.{limit_of, where_so, if_exceeded_by, if_exceeded_by_some, number_over_in_option, first_number_over_in_listed_options, number_over_in_options, number_over_in_packet, number_over_in_action, first_number_over_limit};
ghost use Rattle.pd_refusal.specs.declared.rules.limited_numbers.LimitedNumber.TheVariants.{Edge};

use pd_script::{
    Action, Argument, BlockingEnd, Call, Event, Function, Options, Packet, PacketOption, SackBlock,
    Time,
};

/// A number that has a limit.
#[derive(Clone, Copy)]
pub enum LimitedNumber {
    /// A written time, or the end of a blocking call.
    Time,
    /// The number of a packet's first octet.
    Start,
    /// The number after its last octet.
    End,
    /// Its acknowledgment number.
    Ack,
    /// Its window field.
    Window,
    /// How many options it has.
    Options,
    /// The number after `mss`.
    Mss,
    /// The number after `wscale`.
    Shift,
    /// How many blocks a `sack` has.
    Blocks,
    /// The left or the right end of a block.
    Edge,
    /// The third argument of a `write`.
    Write,
    /// How many packets are unmatched.
    Outbox,
}

/// The greatest written time, in microseconds.
const MAX_TIME_US: u64 = 3_600_000_000;

impl LimitedNumber {
    pub fn words(self) -> &'static str {
        match self {
            LimitedNumber::Time => "a written time above 3,600 s",
            LimitedNumber::Start => "a start above 2,147,483,647",
            LimitedNumber::End => "an end above 2,147,483,647",
            LimitedNumber::Ack => "an acknowledgment number above 2,147,483,647",
            LimitedNumber::Window => "a window above 65,535",
            LimitedNumber::Options => "more than 16 options",
            LimitedNumber::Mss => "an `mss` above 65,535",
            LimitedNumber::Shift => "a `wscale` above 255",
            LimitedNumber::Blocks => "more than 4 blocks in one `sack`",
            LimitedNumber::Edge => "a block number above 2,147,483,647",
            LimitedNumber::Write => "a `write` whose third argument is above 262,144",
            LimitedNumber::Outbox =>
                "more than 1,024 packets that the sender has put out stand untaken",
        }
    }

    pub fn key(self) -> &'static str {
        match self {
            LimitedNumber::Time => "time",
            LimitedNumber::Start => "start",
            LimitedNumber::End => "end",
            LimitedNumber::Ack => "ack",
            LimitedNumber::Window => "win",
            LimitedNumber::Options => "options",
            LimitedNumber::Mss => "mss",
            LimitedNumber::Shift => "wscale",
            LimitedNumber::Blocks => "blocks",
            LimitedNumber::Edge => "block",
            LimitedNumber::Write => "write",
            LimitedNumber::Outbox => "outbox",
        }
    }

    /// Its limit; of a time in seconds.
    pub fn limit(self) -> u64
        ensures { result ≡ limit_of self }
    {
        match self {
            LimitedNumber::Time => 3_600,
            LimitedNumber::Start | LimitedNumber::End | LimitedNumber::Ack | LimitedNumber::Edge =>
                2_147_483_647,
            LimitedNumber::Window | LimitedNumber::Mss => 65_535,
            LimitedNumber::Options => 16,
            LimitedNumber::Shift => 255,
            LimitedNumber::Blocks => 4,
            LimitedNumber::Write => 262_144,
            LimitedNumber::Outbox => 1_024,
        }
    }

    /// The number, where it is above its limit.
    fn if_exceeded_by(self, value: u64) -> Option<LimitedNumber>
        ensures { result ≡ if_exceeded_by self value }
    {
        if value > self.limit() {
            Some(self)
        } else {
            None
        }
    }

    /// The same, where it is written.
    fn if_exceeded_by_some(self, value: Option<u32>) -> Option<LimitedNumber>
        ensures { result ≡ if_exceeded_by_some self value }
    {
        match value {
            None => None,
            Some(value) => self.if_exceeded_by(u64::from(value)),
        }
    }
}

/// The first number of an event that is over its limit.
pub fn first_number_over_limit(event: &Event) -> Option<LimitedNumber>
    ensures { result ≡ first_number_over_limit event.now }
{
    if is_time_long(event.time) || is_blocking_end_long(event.blocking_end) {
        return Some(LimitedNumber::Time);
    }
    number_over_in_action(&event.action)
}

/// Whether a written time is over the limit.
pub fn is_time_long(time: Time) -> bool
    ensures { result ≡ list_any is_long (written_times time) }
{
    match time {
        Time::Any => false,
        Time::Absolute(t) | Time::Relative(t) => t > MAX_TIME_US,
        Time::AbsoluteRange(first, last) | Time::RelativeRange(first, last) => {
            first > MAX_TIME_US || last > MAX_TIME_US
        }
    }
}

fn is_blocking_end_long(blocking_end: Option<BlockingEnd>) -> bool
    ensures { result ≡ list_any is_long (written_blocking_end blocking_end) }
{
    match blocking_end {
        None => false,
        Some(BlockingEnd::Absolute(t)) => t > MAX_TIME_US,
        Some(BlockingEnd::Relative(t)) => t > MAX_TIME_US,
    }
}

fn number_over_in_action(action: &Action) -> Option<LimitedNumber>
    ensures { result ≡ number_over_in_action action.now }
{
    match action {
        Action::Inbound(packet) => number_over_in_packet(packet),
        Action::Outbound(packet) => number_over_in_packet(packet),
        Action::Call(call) => {
            if is_write_count_over(call) {
                Some(LimitedNumber::Write)
            } else {
                None
            }
        }
        Action::Command => None,
        Action::Code => None,
    }
}

fn is_write_count_over(call: &Call) -> bool
    ensures { result ≡ is_action_number_over_limit (Action.Call call.now) }
{
    match (call.function, call.arguments.as_slice().get(2)) {
        (Function::Write, Some(Argument::Int(count))) => *count > LimitedNumber::Write.limit(),
        _ => false,
    }
}

fn number_over_in_packet(packet: &Packet) -> Option<LimitedNumber>
    ensures { result ≡ number_over_in_packet packet.now }
{
    LimitedNumber::Start
        .if_exceeded_by(u64::from(packet.start))
        .or(LimitedNumber::End.if_exceeded_by(u64::from(packet.end)))
        .or(LimitedNumber::Ack.if_exceeded_by_some(packet.ack))
        .or(LimitedNumber::Window.if_exceeded_by_some(packet.win))
        .or(number_over_in_options(&packet.options))
}

fn number_over_in_options(options: &Options) -> Option<LimitedNumber>
    ensures { result ≡ number_over_in_options options.now }
{
    match options {
        Options::Listed(list) => {
            if let Some(number) = LimitedNumber::Options.if_exceeded_by(list.len() as u64) {
                return Some(number);
            }
            first_number_over_in_listed_options(list.as_slice())
        }
        Options::Absent => None,
        Options::Any => None,
    }
}

fn first_number_over_in_listed_options(options: &[PacketOption]) -> Option<LimitedNumber>
    ensures { result ≡ first_number_over_in_listed_options options.now }
{
    for option in options {
        if let Some(number) = number_over_in_option(option) {
            return Some(number);
        }
    }
    None
}

fn number_over_in_option(option: &PacketOption) -> Option<LimitedNumber>
    ensures { result ≡ number_over_in_option option.now }
{
    match option {
        PacketOption::Mss(octets) => LimitedNumber::Mss.if_exceeded_by(*octets),
        PacketOption::Wscale(count) => LimitedNumber::Shift.if_exceeded_by(*count),
        PacketOption::Sack(blocks) => {
            LimitedNumber::Blocks
                .if_exceeded_by(blocks.len() as u64)
                .or(number_over_in_blocks(blocks.as_slice()))
        }
        _ => None,
    }
}

fn number_over_in_blocks(blocks: &[SackBlock]) -> Option<LimitedNumber>
    ensures { result ≡ where_so (list_any is_block_over blocks.now) Edge }
{
    if has_sack_edge_over_31_bits(blocks) {
        Some(LimitedNumber::Edge)
    } else {
        None
    }
}

fn has_sack_edge_over_31_bits(blocks: &[SackBlock]) -> bool
    ensures { result ≡ list_any is_block_over blocks.now }
{
    let highest = LimitedNumber::Edge.limit();
    blocks
        .iter()
        .any(|block| block.left > highest || block.right > highest)
}
