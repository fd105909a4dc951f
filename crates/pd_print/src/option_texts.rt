//! The TCP options of a packet.
ghost use Rattle.std.specs.Prelude.{◌≡◌, ◌++◌, OnOk, flat_map};
ghost use Rattle.std.specs.Fmt.{decimal};
ghost use Rattle.pd_print.specs.Options.{block_text, option_text, next_option_text, list_text, options_text};

use crate::digits::put_number;
use pd_script::{Options, PacketOption, SackBlock};
use std::alloc::AllocError;

/// Adds the options of a packet in angle brackets; nothing where it writes none.
pub fn put_options(out: &mut Vec<u8>, options: &Options) -> Result<(), AllocError>
    ensures { OnOk result (out.new.items ≡ out.old.items ++ options_text options.now) }
{
    match options {
        Options::Absent => Ok(()),
        Options::Any => out.extend_from_slice(b" <...>"),
        Options::Listed(options) => {
            out.extend_from_slice(b" <")?;
            put_comma_separated_options(out, options.as_slice())?;
            out.extend_from_slice(b">")
        }
    }
}

/// Adds options with commas between them.
fn put_comma_separated_options(
    out: &mut Vec<u8>,
    options: &[PacketOption],
) -> Result<(), AllocError>
    ensures { OnOk result (out.new.items ≡ out.old.items ++ list_text options.now) }
{
    match options {
        [] => Ok(()),
        [first, others @ ..] => {
            put_option(out, first)?;
            put_following_options(out, others)
        }
    }
}

/// Adds options with a comma before each.
fn put_following_options(out: &mut Vec<u8>, others: &[PacketOption]) -> Result<(), AllocError>
    ensures { OnOk result (out.new.items ≡ out.old.items ++ flat_map next_option_text others.now) }
{
    for option in others {
        out.extend_from_slice(b",")?;
        put_option(out, option)?;
    }
    Ok(())
}

/// Adds an option.
fn put_option(out: &mut Vec<u8>, option: &PacketOption) -> Result<(), AllocError>
    ensures { OnOk result (out.new.items ≡ out.old.items ++ option_text option.now) }
{
    match option {
        PacketOption::Mss(mss) => put_prefix_and_number(out, b"mss ", *mss),
        PacketOption::Wscale(shift) => put_prefix_and_number(out, b"wscale ", *shift),
        PacketOption::SackOk => out.extend_from_slice(b"sackOK"),
        PacketOption::Nop => out.extend_from_slice(b"nop"),
        PacketOption::Eol => out.extend_from_slice(b"eol"),
        PacketOption::Timestamp(value, echo) => {
            put_prefix_and_number(out, b"TS val ", *value)?;
            put_prefix_and_number(out, b" ecr ", *echo)
        }
        PacketOption::Sack(blocks) => {
            out.extend_from_slice(b"sack")?;
            put_sack_blocks(out, blocks.as_slice())
        }
    }
}

/// Adds SACK blocks with a blank before each.
fn put_sack_blocks(out: &mut Vec<u8>, blocks: &[SackBlock]) -> Result<(), AllocError>
    ensures { OnOk result (out.new.items ≡ out.old.items ++ flat_map block_text blocks.now) }
{
    for block in blocks {
        put_prefix_and_number(out, b" ", block.left)?;
        put_prefix_and_number(out, b":", block.right)?;
    }
    Ok(())
}

/// Adds a word and a number.
fn put_prefix_and_number(out: &mut Vec<u8>, word: &[u8], n: u64) -> Result<(), AllocError>
    ensures { OnOk result (out.new.items ≡ out.old.items ++ (word.now ++ decimal n)) }
{
    out.extend_from_slice(word)?;
    put_number(out, n)
}
