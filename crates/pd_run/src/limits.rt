//! The limits of an event's numbers, of how many options a packet has, and of how many blocks a SACK option has.
ghost use Rattle.std.specs.Prelude.{◌≡◌};
ghost use Rattle.std.specs.List.{list_any};
ghost use Rattle.pd_run.specs.Limits.{is_long, written_times, written_blocking_end, is_present_number_over, is_block_over, is_option_over_limits, are_options_over_limits, is_packet_number_over_limit, is_write, is_count_over, is_action_number_over_limit, is_any_event_number_over_limit};

use pd_script::{
    Action, Argument, BlockingEnd, Call, Event, Function, Options, Packet, PacketOption, SackBlock,
    Time,
};

/// The greatest written time, in microseconds.
const MAX_TIME_US: u64 = 3_600_000_000;

/// The greatest sequence, ack or SACK number.
const MAX_NUMBER: u32 = 2_147_483_647;

/// The greatest window field.
const MAX_WINDOW_FIELD: u32 = 65_535;

/// The greatest MSS that an option can name, in octets.
const MAX_MSS: u64 = 65_535;

/// The greatest shift count that an option can name.
const MAX_SHIFT: u64 = 255;

/// The most options of a packet.
const MAX_OPTIONS: usize = 16;

/// The most blocks of a SACK option.
const MAX_BLOCKS: usize = 4;

/// The greatest count of one `write`, in octets.
const MAX_WRITE: u64 = 262_144;

/// Whether some number of the event is over its limit.
#[inline(always)]
pub fn is_any_event_number_over_limit(event: &Event) -> bool
    ensures { result ≡ is_any_event_number_over_limit event.now }
{
    is_time_over_limit(event.time)
        || is_blocking_end_over_limit(event.blocking_end)
        || is_action_number_over_limit(&event.action)
}

fn is_time_over_limit(time: Time) -> bool
    ensures { result ≡ list_any is_long (written_times time) }
{
    match time {
        Time::Any => false,
        Time::Absolute(t) | Time::Relative(t) => t > MAX_TIME_US,
        Time::AbsoluteRange(first, last) | Time::RelativeRange(first, last) => {
            first > MAX_TIME_US || last > MAX_TIME_US
        }
    }
}

fn is_blocking_end_over_limit(blocking_end: Option<BlockingEnd>) -> bool
    ensures { result ≡ list_any is_long (written_blocking_end blocking_end) }
{
    match blocking_end {
        None => false,
        Some(BlockingEnd::Absolute(t)) => t > MAX_TIME_US,
        Some(BlockingEnd::Relative(t)) => t > MAX_TIME_US,
    }
}

fn is_action_number_over_limit(action: &Action) -> bool
    ensures { result ≡ is_action_number_over_limit action.now }
{
    match action {
        Action::Inbound(packet) => is_packet_number_over_limit(packet),
        Action::Outbound(packet) => is_packet_number_over_limit(packet),
        Action::Call(call) => is_write_count_over_limit(call),
        Action::Command => false,
        Action::Code => false,
    }
}

fn is_write_count_over_limit(call: &Call) -> bool
    ensures { result ≡ is_action_number_over_limit (Action.Call call.now) }
{
    match (call.function, call.arguments.as_slice().get(2)) {
        (Function::Write, Some(Argument::Int(count))) => *count > MAX_WRITE,
        _ => false,
    }
}

fn is_packet_number_over_limit(packet: &Packet) -> bool
    ensures { result ≡ is_packet_number_over_limit packet.now }
{
    packet.start > MAX_NUMBER
        || packet.end > MAX_NUMBER
        || is_present_number_over(MAX_NUMBER, packet.ack)
        || is_present_number_over(MAX_WINDOW_FIELD, packet.win)
        || are_options_over_limits(&packet.options)
}

fn is_present_number_over(most: u32, number: Option<u32>) -> bool
    ensures { result ≡ is_present_number_over most number }
{
    match number {
        None => false,
        Some(n) => n > most,
    }
}

fn are_options_over_limits(options: &Options) -> bool
    ensures { result ≡ are_options_over_limits options.now }
{
    match options {
        Options::Listed(list) => list.len() > MAX_OPTIONS
            || is_any_option_over_limits(list.as_slice()),
        Options::Absent => false,
        Options::Any => false,
    }
}

fn is_any_option_over_limits(options: &[PacketOption]) -> bool
    ensures { result ≡ list_any is_option_over_limits options.now }
{
    options.iter().any(|option| is_option_over_limits(option))
}

fn is_option_over_limits(option: &PacketOption) -> bool
    ensures { result ≡ is_option_over_limits option.now }
{
    match option {
        PacketOption::Mss(n) => *n > MAX_MSS,
        PacketOption::Wscale(n) => *n > MAX_SHIFT,
        PacketOption::Sack(blocks) => blocks.len() > MAX_BLOCKS
            || is_any_sack_edge_over_limit(blocks.as_slice()),
        _ => false,
    }
}

fn is_any_sack_edge_over_limit(blocks: &[SackBlock]) -> bool
    ensures { result ≡ list_any is_block_over blocks.now }
{
    let highest = u64::from(MAX_NUMBER);
    blocks
        .iter()
        .any(|block| block.left > highest || block.right > highest)
}
