//! The options that were sent against those that a script writes.
ghost use Rattle.std.specs.Prelude.{◌≡◌};
ghost use Rattle.pd_match.specs.Packets.{each_pair, same_block, same_option, same_options};

use pd_script::{Options, PacketOption, SackBlock};
use pd_seg::{SegOption, SegOptions, Span};

/// Whether the options that were sent are those that a script writes: any for `<...>`, none where it writes no angle
/// brackets, else the same ones in the same order.
pub fn has_exactly_written_options_unless_any(written: &Options, sent: &SegOptions) -> bool
    ensures { result ≡ same_options written.now sent.now }
{
    match written {
        Options::Any => true,
        Options::Absent => sent.as_slice().is_empty(),
        Options::Listed(options) => are_written_options(options.as_slice(), sent.as_slice()),
    }
}

fn are_written_options(written: &[PacketOption], sent: &[SegOption]) -> bool
    ensures { result ≡ each_pair same_option written.now sent.now }
{
    written.len() == sent.len()
        && written
            .iter()
            .zip(sent)
            .all(|(w, s)| is_written_option(w, s))
}

fn is_written_option(written: &PacketOption, sent: &SegOption) -> bool
    ensures { result ≡ same_option written.now sent.now }
{
    match (written, sent) {
        (PacketOption::Mss(number), SegOption::Mss(mss)) => *number == u64::from(*mss),
        (PacketOption::Wscale(number), SegOption::Wscale(shift)) => *number == u64::from(*shift),
        (PacketOption::SackOk, SegOption::SackOk)
        | (PacketOption::Nop, SegOption::Nop)
        | (PacketOption::Eol, SegOption::Eol) => true,
        (PacketOption::Timestamp(number, reply), SegOption::Timestamp(value, echo)) => {
            *number == u64::from(*value) && *reply == u64::from(*echo)
        }
        (PacketOption::Sack(blocks), SegOption::Sack(spans)) => {
            are_written_sack_blocks(blocks.as_slice(), spans.as_slice())
        }
        _ => false,
    }
}

fn are_written_sack_blocks(written: &[SackBlock], sent: &[Span]) -> bool
    ensures { result ≡ each_pair same_block written.now sent.now }
{
    written.len() == sent.len()
        && written
            .iter()
            .zip(sent)
            .all(|(w, s)| is_written_sack_block(w, s))
}

fn is_written_sack_block(written: &SackBlock, sent: &Span) -> bool
    ensures { result ≡ same_block written.now sent.now }
{
    written.left == u64::from(sent.start) && written.right == u64::from(sent.end)
}
