//! Events in which a packet arrives or leaves.
ghost use Rattle.std.specs.Prelude.{◌≡◌, ◌++◌, IfOk, OnOk, IsTrue};
ghost use Rattle.std.specs.Fmt.{decimal};
ghost use Rattle.pd_text.specs.Text.{has_no_newline};
ghost use Rattle.pd_script.specs.Grammar.{IsEvent};
ghost use Rattle.pd_print.specs.Packets.{arrow, flag_letter, point_text, flags_text, octets_text, fields_text, numbered, packet_text, event_text, action_of};
ghost use Rattle.pd_print.specs.RoundTrip.{IsReadAs, FitsTime, FitsPacket, event_of};

use crate::digits::put_number;
use crate::option_texts::put_options;
use crate::times::put_time;
use pd_script::{Packet, PacketFlags, Time};
use std::alloc::{AllocError, Global};

/// Which way a packet goes.
#[derive(Clone, Copy, PartialEq, Eq)]
pub enum Direction {
    /// `<`: it arrives.
    Inbound,
    /// `>`: it leaves.
    Outbound,
}

/// The event of a script in which a packet arrives or leaves at a time, with all that is written of it.
///
/// # Errors
/// `AllocError` where a growth is refused.
pub fn render_packet_event(
    alloc: Global,
    time: Time,
    direction: Direction,
    packet: &Packet,
) -> Result<Vec<u8>, AllocError>
    ensures octets { IfOk result (λ text. text.items ≡ event_text time direction packet.now) }

    // It has no newline.
    ensures line { IfOk result (λ text. FitsTime time → FitsPacket direction packet.now → IsTrue (has_no_newline text.items)) }

    // At the end of a line just this event is read.
    ensures back { IfOk result (λ text. FitsTime time → FitsPacket direction packet.now → IsReadAs IsEvent (event_of time (action_of direction packet.now)) text.items) }
{
    let mut out = Vec::new(alloc);
    put_event(&mut out, time, direction, packet)?;
    Ok(out)
}

/// Adds the event of a script in which a packet arrives or leaves at a time.
///
/// # Errors
/// `AllocError` where a growth is refused; some octets may have been added then.
pub fn put_event(
    out: &mut Vec<u8>,
    time: Time,
    direction: Direction,
    packet: &Packet,
) -> Result<(), AllocError>
    ensures { OnOk result (out.new.items ≡ out.old.items ++ event_text time direction packet.now) }
{
    put_time(out, time)?;
    put_arrow(out, direction)?;
    put_packet(out, packet)
}

/// Adds the arrow of a direction between blanks.
fn put_arrow(out: &mut Vec<u8>, direction: Direction) -> Result<(), AllocError>
    ensures { OnOk result (out.new.items ≡ out.old.items ++ arrow direction) }
{
    match direction {
        Direction::Inbound => out.extend_from_slice(b" < "),
        Direction::Outbound => out.extend_from_slice(b" > "),
    }
}

/// Adds a packet.
fn put_packet(out: &mut Vec<u8>, packet: &Packet) -> Result<(), AllocError>
    ensures { OnOk result (out.new.items ≡ out.old.items ++ packet_text packet.now) }
{
    put_flags(out, packet.flags)?;
    put_start_end_and_length(out, packet)?;
    put_ack_and_win(out, packet)?;
    put_options(out, &packet.options)
}

/// Adds the letters of flags in the order F, S, R and P, and the point of ACK; `-` where none is set.
pub fn put_flags(out: &mut Vec<u8>, flags: PacketFlags) -> Result<(), AllocError>
    ensures { OnOk result (out.new.items ≡ out.old.items ++ flags_text flags) }
{
    put_letter_if_wanted(out, flags.fin, b'F')?;
    put_letter_if_wanted(out, flags.syn, b'S')?;
    put_letter_if_wanted(out, flags.rst, b'R')?;
    put_letter_if_wanted(out, flags.psh, b'P')?;
    put_ack_point_or_dash(out, flags)
}

/// Adds the octet if it is wanted.
fn put_letter_if_wanted(out: &mut Vec<u8>, wanted: bool, octet: u8) -> Result<(), AllocError>
    ensures { OnOk result (out.new.items ≡ out.old.items ++ flag_letter wanted octet) }
{
    if wanted {
        out.push(octet)?;
    }
    Ok(())
}

/// Adds the point of ACK, or `-` where no flag is set.
fn put_ack_point_or_dash(out: &mut Vec<u8>, flags: PacketFlags) -> Result<(), AllocError>
    ensures { OnOk result (out.new.items ≡ out.old.items ++ point_text flags) }
{
    if flags.ack {
        out.extend_from_slice(b".")
    } else if flags.fin || flags.syn || flags.rst || flags.psh {
        Ok(())
    } else {
        out.extend_from_slice(b"-")
    }
}

/// Adds the start, the end and the length.
pub fn put_start_end_and_length(out: &mut Vec<u8>, packet: &Packet) -> Result<(), AllocError>
    ensures { OnOk result (out.new.items ≡ out.old.items ++ octets_text packet.now) }
{
    put_prefix_and_number(out, b" ", packet.start)?;
    put_prefix_and_number(out, b":", packet.end)?;
    put_prefix_and_number(out, b"(", packet.length)?;
    out.extend_from_slice(b")")
}

/// Adds the acknowledgment number and the window where they are written.
fn put_ack_and_win(out: &mut Vec<u8>, packet: &Packet) -> Result<(), AllocError>
    ensures { OnOk result (out.new.items ≡ out.old.items ++ fields_text packet.now) }
{
    put_prefix_and_number_if_any(out, b" ack ", packet.ack)?;
    put_prefix_and_number_if_any(out, b" win ", packet.win)
}

/// Adds a word and a number where one is written.
pub fn put_prefix_and_number_if_any(
    out: &mut Vec<u8>,
    word: &[u8],
    number: Option<u32>,
) -> Result<(), AllocError>
    ensures { OnOk result (out.new.items ≡ out.old.items ++ numbered word.now number) }
{
    match number {
        None => Ok(()),
        Some(number) => put_prefix_and_number(out, word, number),
    }
}

/// Adds a word and a number.
fn put_prefix_and_number(out: &mut Vec<u8>, word: &[u8], n: u32) -> Result<(), AllocError>
    ensures { OnOk result (out.new.items ≡ out.old.items ++ (word.now ++ decimal n)) }
{
    out.extend_from_slice(word)?;
    put_number(out, u64::from(n))
}
