//! The parts of a packet, each by itself.
ghost use Rattle.std.specs.Prelude.{◌≡◌, codes, IfOk};
ghost use Rattle.pd_print.specs.Options.{options_text};
ghost use Rattle.pd_print.specs.Packets.{flags_text, octets_text, numbered};

use crate::option_texts::put_options;
use crate::packet_texts::{put_flags, put_prefix_and_number_if_any, put_start_end_and_length};
use pd_script::Packet;
use std::alloc::{AllocError, Global};

/// The parts of a packet, which make the packet one after the other. All but the flags begin with a blank; one that isn't
/// written is empty.
#[derive(Drop)]
pub struct PacketParts {
    /// The flags.
    pub flags: Vec<u8>,
    /// The start, the end and the length.
    pub octets: Vec<u8>,
    /// The acknowledgment number.
    pub ack: Vec<u8>,
    /// The window.
    pub win: Vec<u8>,
    /// The options.
    pub options: Vec<u8>,
}

/// The parts of a packet as a script writes it.
///
/// # Errors
/// `AllocError` where a growth is refused.
pub fn render_packet_parts(alloc: Global, packet: &Packet) -> Result<PacketParts, AllocError>
    ensures flags { IfOk result (λ parts. parts.flags.items ≡ flags_text packet.now.flags) }
    ensures octets { IfOk result (λ parts. parts.octets.items ≡ octets_text packet.now) }
    ensures ack { IfOk result (λ parts. parts.ack.items ≡ numbered (codes " ack ") packet.now.ack) }
    ensures win { IfOk result (λ parts. parts.win.items ≡ numbered (codes " win ") packet.now.win) }
    ensures options { IfOk result (λ parts. parts.options.items ≡ options_text packet.now.options) }
{
    let mut flags = Vec::new(alloc);
    put_flags(&mut flags, packet.flags)?;
    let mut octets = Vec::new(alloc);
    put_start_end_and_length(&mut octets, packet)?;
    let mut ack = Vec::new(alloc);
    put_prefix_and_number_if_any(&mut ack, b" ack ", packet.ack)?;
    let mut win = Vec::new(alloc);
    put_prefix_and_number_if_any(&mut win, b" win ", packet.win)?;
    let mut options = Vec::new(alloc);
    put_options(&mut options, &packet.options)?;
    Ok(PacketParts {
        flags,
        octets,
        ack,
        win,
        options,
    })
}
