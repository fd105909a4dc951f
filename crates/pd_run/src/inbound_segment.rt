//! The segment that a packet of a script is, where it arrives.
ghost use Rattle.std.specs.Prelude.{◌≡◌, ◌^◌, ◌-◌, false, min, map, IfOk};
ghost use Rattle.std.specs.List.{list_any};
ghost use Rattle.pd_match.specs.Agreement.{flags_of};
ghost use Rattle.pd_run.specs.InboundSegment.{saturated_to_32_bits, span_in, option_in, options_in, segment_in};
ghost use Rattle.pd_run.specs.Limits.{is_block_over, is_option_over_limits, are_options_over_limits, is_packet_number_over_limit};

use pd_script::{Options, Packet, PacketOption, SackBlock};
use pd_seg::{Flags, SackSpans, SegOption, SegOptions, Segment, Span};
use std::alloc::{AllocError, Global};

/// The segment of a packet within the limits; a number that isn't written is 0.
///
/// # Errors
/// `AllocError` where a growth is refused.
#[inline(always)]
pub fn segment_of_script_packet(alloc: Global, packet: &Packet) -> Result<Segment, AllocError>
    requires fits { is_packet_number_over_limit packet.now ≡ false }
    ensures { IfOk result (λ segment. segment ≡ segment_in packet.now) }
{
    Ok(Segment {
        flags: segment_flags_of_script_flags(packet.flags),
        start: packet.start,
        end: packet.end,
        ack: packet.ack.unwrap_or(0),
        win: packet.win.unwrap_or(0) as u16,
        options: segment_options_of_listed_or_none(alloc, &packet.options)?,
    })
}

fn segment_flags_of_script_flags(written: pd_script::PacketFlags) -> Flags
    ensures { result ≡ flags_of written }
{
    Flags {
        syn: written.syn,
        fin: written.fin,
        rst: written.rst,
        psh: written.psh,
        ack: written.ack,
    }
}

#[inline(always)]
fn segment_options_of_listed_or_none(
    alloc: Global,
    options: &Options,
) -> Result<SegOptions, AllocError>
    requires fits { are_options_over_limits options.now ≡ false }
    ensures { IfOk result (λ list. list ≡ options_in options.now) }
{
    match options {
        Options::Listed(list) => segment_options_of_option_list(alloc, list.as_slice()),
        Options::Absent | Options::Any => Ok(SegOptions::new(alloc)),
    }
}

#[tactic(auto, using(crate::proofs::WithinLimits::none_at))]
fn segment_options_of_option_list(
    alloc: Global,
    options: &[PacketOption],
) -> Result<SegOptions, AllocError>
    requires fits { list_any is_option_over_limits options.now ≡ false }
    ensures { IfOk result (λ list. list ≡ map option_in options.now) }
{
    let mut list = SegOptions::new(alloc);
    for option in options {
        list.push(segment_option_of_packet_option(alloc, option)?)?;
    }
    Ok(list)
}

fn segment_option_of_packet_option(
    alloc: Global,
    option: &PacketOption,
) -> Result<SegOption, AllocError>
    requires fits { is_option_over_limits option.now ≡ false }
    ensures { IfOk result (λ segment_option. segment_option ≡ option_in option.now) }
{
    Ok(match option {
        PacketOption::Mss(octets) => SegOption::Mss(*octets as u16),
        PacketOption::Wscale(count) => SegOption::Wscale(*count as u8),
        PacketOption::SackOk => SegOption::SackOk,
        PacketOption::Nop => SegOption::Nop,
        PacketOption::Eol => SegOption::Eol,
        PacketOption::Timestamp(value, echo) => {
            SegOption::Timestamp(saturated_to_32_bits(*value), saturated_to_32_bits(*echo))
        }
        PacketOption::Sack(blocks) => SegOption::Sack(sack_spans_of_blocks(
            alloc,
            blocks.as_slice(),
        )?),
    })
}

/// A number of 32 bits; a larger one, which no text has, stands as the largest.
fn saturated_to_32_bits(number: u64) -> u32
    ensures { result ≡ saturated_to_32_bits number }
{
    number.min(u64::from(u32::MAX)) as u32
}

#[tactic(auto, using(crate::proofs::WithinLimits::none_at))]
fn sack_spans_of_blocks(alloc: Global, blocks: &[SackBlock]) -> Result<SackSpans, AllocError>
    requires fits { list_any is_block_over blocks.now ≡ false }
    ensures { IfOk result (λ spans. spans ≡ map span_in blocks.now) }
{
    let mut spans = SackSpans::new(alloc);
    for block in blocks {
        spans.push(span_of_sack_block(*block))?;
    }
    Ok(spans)
}

fn span_of_sack_block(block: SackBlock) -> Span
    requires fits { is_block_over block ≡ false }
    ensures { result ≡ span_in block }
{
    Span {
        start: block.left as u32,
        end: block.right as u32,
    }
}
