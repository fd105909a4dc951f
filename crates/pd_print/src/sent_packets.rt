//! Segments that were sent, as packets of a script.
ghost use Rattle.std.specs.Prelude.{◌≡◌, ◌≤◌, map, IfOk, IsTrue};
ghost use Rattle.std.specs.List.{AllByRecursion};
ghost use Rattle.pd_match.specs.Agreement.{block_of, option_of};
ghost use Rattle.pd_text.specs.Text.{has_no_newline};
ghost use Rattle.pd_script.specs.Grammar.{IsEvent};
ghost use Rattle.pd_print.specs.Packets.{event_text, action_of};
ghost use Rattle.pd_print.specs.Sent.{packet_of, options_of, written_flags};
ghost use Rattle.pd_print.specs.RoundTrip.{IsReadAs, FitsTime, IsSmall, FitsBlock, IsSmallOption, AreSmallOptions, FitsPacket, FitsSegment, event_of};

use crate::packet_texts::{Direction, render_packet_event};
use pd_script::{
    OptionList, Options, Packet, PacketFlags, PacketOption, SackBlock, SackBlockList, Time,
};
use pd_seg::{SegOption, SegOptions, Segment, Span};
use std::alloc::{AllocError, Global};

/// The packet of a script that is a segment in every field: all of them written, the options in their order.
///
/// # Errors
/// `AllocError` where a growth is refused.
pub fn script_packet_of_segment(alloc: Global, segment: &Segment) -> Result<Packet, AllocError>
    ensures packet { IfOk result (λ packet. packet ≡ packet_of segment.now) }

    // A script can write it, where its end is no less than its start and each SACK option has a block.
    ensures fits { IfOk result (λ packet. FitsSegment segment.now → FitsPacket Direction.Outbound packet) }
{
    Ok(Packet {
        flags: script_flags_of(&segment.flags),
        start: segment.start,
        end: unchanged_number_proven_in_range(segment.end),
        length: segment.data_len(),
        ack: Some(unchanged_number_proven_in_range(segment.ack)),
        win: Some(u32::from(segment.win)),
        options: script_options_of(alloc, &segment.options)?,
    })
}

/// The event of a script in which a segment leaves at a time, with every field written.
///
/// # Errors
/// `AllocError` where a growth is refused.
pub fn render_sent_segment_event(
    alloc: Global,
    time: Time,
    segment: &Segment,
) -> Result<Vec<u8>, AllocError>
    ensures octets { IfOk result (λ text. text.items ≡ event_text time Direction.Outbound (packet_of segment.now)) }

    // It has no newline.
    ensures line { IfOk result (λ text. FitsTime time → FitsSegment segment.now → IsTrue (has_no_newline text.items)) }

    // At the end of a line just this event is read.
    ensures back { IfOk result (λ text. FitsTime time → FitsSegment segment.now → IsReadAs IsEvent (event_of time (action_of Direction.Outbound (packet_of segment.now))) text.items) }
{
    let packet = script_packet_of_segment(alloc, segment)?;
    render_packet_event(alloc, time, Direction::Outbound, &packet)
}

/// The number, which has 32 bits, so that a script can write it.
fn unchanged_number_proven_in_range(number: u32) -> u32
    ensures same { result ≡ number }
    ensures small { IsSmall result }
{
    number
}

fn script_flags_of(flags: &pd_seg::Flags) -> PacketFlags
    ensures { result ≡ written_flags flags.now }
{
    PacketFlags {
        syn: flags.syn,
        fin: flags.fin,
        rst: flags.rst,
        psh: flags.psh,
        ack: flags.ack,
        other: false,
    }
}

fn script_options_of(alloc: Global, options: &SegOptions) -> Result<Options, AllocError>
    ensures options { IfOk result (λ written. written ≡ options_of options.now) }
    ensures small { IfOk result (λ written. AreSmallOptions written) }
{
    if options.as_slice().is_empty() {
        Ok(Options::Absent)
    } else {
        Ok(Options::Listed(script_option_list_of(alloc, options.as_slice())?))
    }
}

fn script_option_list_of(alloc: Global, options: &[SegOption]) -> Result<OptionList, AllocError>
    ensures list { IfOk result (λ list. list ≡ map option_of options.now) }
    ensures small { IfOk result (λ list. AllByRecursion IsSmallOption list) }
{
    let mut list = OptionList::new(alloc);
    for option in options {
        list.push(script_option_of(alloc, option)?)?;
    }
    Ok(list)
}

fn script_option_of(alloc: Global, option: &SegOption) -> Result<PacketOption, AllocError>
    ensures option { IfOk result (λ written. written ≡ option_of option.now) }
    ensures small { IfOk result (λ written. IsSmallOption written) }
{
    Ok(match option {
        SegOption::Mss(mss) => PacketOption::Mss(u64::from(*mss)),
        SegOption::Wscale(shift) => PacketOption::Wscale(u64::from(*shift)),
        SegOption::SackOk => PacketOption::SackOk,
        SegOption::Nop => PacketOption::Nop,
        SegOption::Eol => PacketOption::Eol,
        SegOption::Timestamp(value, echo) => {
            PacketOption::Timestamp(u64::from(*value), u64::from(*echo))
        }
        SegOption::Sack(spans) => PacketOption::Sack(script_sack_blocks_of(
            alloc,
            spans.as_slice(),
        )?),
    })
}

fn script_sack_blocks_of(alloc: Global, spans: &[Span]) -> Result<SackBlockList, AllocError>
    ensures blocks { IfOk result (λ blocks. blocks ≡ map block_of spans.now) }
    ensures small { IfOk result (λ blocks. AllByRecursion FitsBlock blocks) }
{
    let mut blocks = SackBlockList::new(alloc);
    for span in spans {
        blocks.push(script_sack_block_of(*span))?;
    }
    Ok(blocks)
}

fn script_sack_block_of(span: Span) -> SackBlock
    ensures block { result ≡ block_of span }
    ensures small { FitsBlock result }
{
    SackBlock {
        left: u64::from(span.start),
        right: u64::from(span.end),
    }
}
