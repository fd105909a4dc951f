//! The rules of options that a segment comes to: of a SYN, and of the blocks of SACK; and the first congestion window.
ghost use Rattle.std.specs.Prelude.{◌≡◌, fold, option_map, OnOk};
ghost use Rattle.std.specs.List.{list_any};
ghost use Rattle.pd_explain.specs.Inner.{names_of};
ghost use Rattle.pd_explain.specs.RuleNames.{with_name};
ghost use Rattle.pd_explain.specs.RuleSegments.{above_top_name, below_una_name, block_names, counted_block_name, empty_block_name, has_block_above_top, has_block_below_una, has_counted_block, has_empty_block, initial_window_name, initial_window_name_by, is_above_top, is_below_una, is_counted, is_empty_block, is_eol, is_large_wscale, is_mss, is_sack_ok, is_wscale, names_of_blocks, names_of_listed, sack_name, scaling_name, smss_name, syn_names};

use super::names::{put_name_if_some, put_name_unless_there};
use pd_script::{Options, PacketOption, SackBlock};
use pd_settings::{InitialWindow, Settings};
use std::alloc::AllocError;

fn is_eol(option: &PacketOption) -> bool
    ensures { result ≡ is_eol option.now }
{
    matches!(option, PacketOption::Eol)
}

fn has_eol(options: &[PacketOption]) -> bool
    ensures { result ≡ list_any is_eol options.now }
{
    options.iter().any(|option| is_eol(option))
}

fn is_mss(option: &PacketOption) -> bool
    ensures { result ≡ is_mss option.now }
{
    matches!(option, PacketOption::Mss(_))
}

fn has_mss(options: &[PacketOption]) -> bool
    ensures { result ≡ list_any is_mss options.now }
{
    options.iter().any(|option| is_mss(option))
}

fn is_sack_ok(option: &PacketOption) -> bool
    ensures { result ≡ is_sack_ok option.now }
{
    matches!(option, PacketOption::SackOk)
}

fn has_sack_ok(options: &[PacketOption]) -> bool
    ensures { result ≡ list_any is_sack_ok options.now }
{
    options.iter().any(|option| is_sack_ok(option))
}

fn is_wscale(option: &PacketOption) -> bool
    ensures { result ≡ is_wscale option.now }
{
    matches!(option, PacketOption::Wscale(_))
}

fn has_wscale(options: &[PacketOption]) -> bool
    ensures { result ≡ list_any is_wscale options.now }
{
    options.iter().any(|option| is_wscale(option))
}

fn is_large_wscale(option: &PacketOption) -> bool
    ensures { result ≡ is_large_wscale option.now }
{
    match option {
        PacketOption::Wscale(count) => *count > 14,
        _ => false,
    }
}

fn has_large_wscale(options: &[PacketOption]) -> bool
    ensures { result ≡ list_any is_large_wscale options.now }
{
    options.iter().any(|option| is_large_wscale(option))
}

fn smss_name(mss: u16, smss: u16, options: &[PacketOption]) -> &'static str
    ensures { result.now ≡ smss_name mss smss options.now }
{
    if smss == mss {
        "rfc9293.smss.ours"
    } else if has_mss(options) {
        "rfc9293.smss.peers"
    } else {
        "rfc9293.smss.default"
    }
}

fn sack_name(sack: bool, options: &[PacketOption]) -> &'static str
    ensures { result.now ≡ sack_name sack options.now }
{
    if has_sack_ok(options) {
        if sack {
            "rfc2018.sack.agreed"
        } else {
            "rfc2018.sack.switched-off"
        }
    } else {
        "rfc2018.sack.not-offered"
    }
}

fn scaling_name(options: &[PacketOption]) -> &'static str
    ensures { result.now ≡ scaling_name options.now }
{
    if has_large_wscale(options) {
        "rfc7323.scaling.above-14"
    } else if has_wscale(options) {
        "rfc7323.scaling.agreed"
    } else {
        "rfc7323.scaling.not-offered"
    }
}

fn put_names_of_listed(
    names: &mut Vec<&'static str>,
    settings: &Settings,
    smss: u16,
    options: &[PacketOption],
) -> Result<(), AllocError>
    ensures { OnOk result (names_of names.new.items ≡ fold with_name (names_of names.old.items) (names_of_listed settings.now smss options.now)) }
{
    if has_eol(options) {
        return put_name_unless_there(names, "rfc9293.options.end-of-list");
    }
    put_name_unless_there(names, smss_name(settings.mss, smss, options))?;
    put_name_unless_there(names, sack_name(settings.sack, options))?;
    put_name_unless_there(names, scaling_name(options))
}

/// Adds what a SYN with these options agrees, on a connection with this SMSS in octets.
///
/// # Errors
/// `AllocError` where a growth is refused.
pub fn put_syn_names(
    names: &mut Vec<&'static str>,
    settings: &Settings,
    smss: u16,
    options: &Options,
) -> Result<(), AllocError>
    ensures { OnOk result (names_of names.new.items ≡ fold with_name (names_of names.old.items) (syn_names settings.now smss options.now)) }
{
    match options {
        Options::Listed(list) => put_names_of_listed(names, settings, smss, list.as_slice()),
        Options::Absent | Options::Any => put_names_of_listed(names, settings, smss, &[]),
    }
}

fn initial_window_name_by(rule: InitialWindow, smss: u16, cwnd: u32) -> &'static str
    ensures { result.now ≡ initial_window_name_by rule smss cwnd }
{
    match rule {
        InitialWindow::Rfc6928 => "rfc6928.initial-window",
        InitialWindow::Rfc5681 => {
            if cwnd == 2 * u32::from(smss) {
                "rfc5681.initial-window.two-segments"
            } else if cwnd == 3 * u32::from(smss) {
                "rfc5681.initial-window.three-segments"
            } else {
                "rfc5681.initial-window.four-segments"
            }
        }
    }
}

/// The name of a first congestion window, in octets as SMSS.
pub fn initial_window_name(rule: InitialWindow, smss: u16, cwnd: u32) -> &'static str
    ensures { result.now ≡ initial_window_name rule smss cwnd }
{
    if cwnd == u32::from(smss) {
        "rfc5681.initial-window.one-segment"
    } else {
        initial_window_name_by(rule, smss, cwnd)
    }
}

fn is_empty_block(block: &SackBlock) -> bool
    ensures { result ≡ is_empty_block block.now }
{
    block.right <= block.left
}

fn is_any_empty(blocks: &[SackBlock]) -> bool
    ensures { result ≡ list_any is_empty_block blocks.now }
{
    blocks.iter().any(|block| is_empty_block(block))
}

fn has_empty_block(option: &PacketOption) -> bool
    ensures { result ≡ has_empty_block option.now }
{
    match option {
        PacketOption::Sack(blocks) => is_any_empty(blocks.as_slice()),
        _ => false,
    }
}

fn have_empty_block(options: &[PacketOption]) -> bool
    ensures { result ≡ list_any has_empty_block options.now }
{
    options.iter().any(|option| has_empty_block(option))
}

fn is_above_top(top: u32, block: &SackBlock) -> bool
    ensures { result ≡ is_above_top top block.now }
{
    u64::from(top) < block.right
}

fn is_any_above_top(top: u32, blocks: &[SackBlock]) -> bool
    ensures { result ≡ list_any (is_above_top top) blocks.now }
{
    blocks.iter().any(|block| is_above_top(top, block))
}

fn has_block_above_top(top: u32, option: &PacketOption) -> bool
    ensures { result ≡ has_block_above_top top option.now }
{
    match option {
        PacketOption::Sack(blocks) => is_any_above_top(top, blocks.as_slice()),
        _ => false,
    }
}

fn have_block_above_top(top: u32, options: &[PacketOption]) -> bool
    ensures { result ≡ list_any (has_block_above_top top) options.now }
{
    options
        .iter()
        .any(|option| has_block_above_top(top, option))
}

fn is_below_una(una: u32, block: &SackBlock) -> bool
    ensures { result ≡ is_below_una una block.now }
{
    block.right <= u64::from(una)
}

fn is_any_below_una(una: u32, blocks: &[SackBlock]) -> bool
    ensures { result ≡ list_any (is_below_una una) blocks.now }
{
    blocks.iter().any(|block| is_below_una(una, block))
}

fn has_block_below_una(una: u32, option: &PacketOption) -> bool
    ensures { result ≡ has_block_below_una una option.now }
{
    match option {
        PacketOption::Sack(blocks) => is_any_below_una(una, blocks.as_slice()),
        _ => false,
    }
}

fn have_block_below_una(una: u32, options: &[PacketOption]) -> bool
    ensures { result ≡ list_any (has_block_below_una una) options.now }
{
    options
        .iter()
        .any(|option| has_block_below_una(una, option))
}

fn is_counted(una: u32, top: u32, block: &SackBlock) -> bool
    ensures { result ≡ is_counted una top block.now }
{
    block.left < block.right && block.right <= u64::from(top) && u64::from(una) < block.right
}

fn is_any_counted(una: u32, top: u32, blocks: &[SackBlock]) -> bool
    ensures { result ≡ list_any (is_counted una top) blocks.now }
{
    blocks.iter().any(|block| is_counted(una, top, block))
}

fn has_counted_block(una: u32, top: u32, option: &PacketOption) -> bool
    ensures { result ≡ has_counted_block una top option.now }
{
    match option {
        PacketOption::Sack(blocks) => is_any_counted(una, top, blocks.as_slice()),
        _ => false,
    }
}

fn have_counted_block(una: u32, top: u32, options: &[PacketOption]) -> bool
    ensures { result ≡ list_any (has_counted_block una top) options.now }
{
    options
        .iter()
        .any(|option| has_counted_block(una, top, option))
}

fn empty_block_name(options: &[PacketOption]) -> Option<&'static str>
    ensures { option_map (λ name. name.now) result ≡ empty_block_name options.now }
{
    if have_empty_block(options) {
        Some("rfc2018.block.empty")
    } else {
        None
    }
}

fn above_top_name(top: u32, options: &[PacketOption]) -> Option<&'static str>
    ensures { option_map (λ name. name.now) result ≡ above_top_name top options.now }
{
    if have_block_above_top(top, options) {
        Some("rfc2018.block.above-top")
    } else {
        None
    }
}

fn below_una_name(una: u32, options: &[PacketOption]) -> Option<&'static str>
    ensures { option_map (λ name. name.now) result ≡ below_una_name una options.now }
{
    if have_block_below_una(una, options) {
        Some("rfc2883.block.below-una")
    } else {
        None
    }
}

fn counted_block_name(una: u32, top: u32, options: &[PacketOption]) -> Option<&'static str>
    ensures { option_map (λ name. name.now) result ≡ counted_block_name una top options.now }
{
    if have_counted_block(una, top, options) {
        Some("rfc2018.block.counted")
    } else {
        None
    }
}

fn put_names_of_blocks(
    names: &mut Vec<&'static str>,
    una: u32,
    top: u32,
    options: &[PacketOption],
) -> Result<(), AllocError>
    ensures { OnOk result (names_of names.new.items ≡ fold with_name (names_of names.old.items) (names_of_blocks una top options.now)) }
{
    if has_eol(options) {
        return Ok(());
    }
    put_name_if_some(names, empty_block_name(options))?;
    put_name_if_some(names, above_top_name(top, options))?;
    put_name_if_some(names, below_una_name(una, options))?;
    put_name_if_some(names, counted_block_name(una, top, options))
}

/// Adds what the blocks of SACK among options come to, with SND.UNA and the number after all that was sent.
///
/// # Errors
/// `AllocError` where a growth is refused.
pub fn put_block_names(
    names: &mut Vec<&'static str>,
    una: u32,
    top: u32,
    options: &Options,
) -> Result<(), AllocError>
    ensures { OnOk result (names_of names.new.items ≡ fold with_name (names_of names.old.items) (block_names una top options.now)) }
{
    match options {
        Options::Listed(list) => put_names_of_blocks(names, una, top, list.as_slice()),
        Options::Absent | Options::Any => Ok(()),
    }
}
