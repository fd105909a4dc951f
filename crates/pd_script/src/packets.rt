//! Packets as a script writes them.
ghost use Rattle.std.specs.Prelude.{◌≡◌, ◌==◌, ◌||◌, [], ◌∷◌, ◌++◌, length, IfOk, OnOk};
ghost use Rattle.std.specs.List.{list_any, list_all};
ghost use Rattle.pd_script.specs.Values.{is_flag_letter};

use std::alloc::{AllocError, Global};
use std::marker::Model;

/// A TCP segment as written. Sequence numbers are relative, the SYN at 0.
#[derive(Drop)]
pub struct Packet {
    /// The TCP options as written.
    pub options: Options,
    /// The flags as written.
    pub flags: PacketFlags,
    /// The number of the first octet of data.
    pub start: u32,
    /// The number after the last octet of data, at least `start`; SYN and FIN don't count.
    pub end: u32,
    /// `end` less `start`, in octets.
    pub length: u32,
    /// The acknowledgment number, if written.
    pub ack: Option<u32>,
    /// The window field, if written; an inbound packet always has one.
    pub win: Option<u32>,
}

impl Packet {
    /// The same packet once more.
    ///
    /// # Errors
    /// `AllocError` where a growth is refused.
    pub fn copy(&self) -> Result<Packet, AllocError>
        ensures { IfOk result (λ copy. copy ≡ self.now) }
    {
        Ok(Packet {
            flags: self.flags,
            start: self.start,
            end: self.end,
            length: self.length,
            ack: self.ack,
            win: self.win,
            options: self.options.copy()?,
        })
    }
}

/// The flags of a packet.
#[derive(Clone, Copy)]
pub struct PacketFlags {
    /// `S`.
    pub syn: bool,
    /// `F`.
    pub fin: bool,
    /// `R`.
    pub rst: bool,
    /// `P`.
    pub psh: bool,
    /// `.`.
    pub ack: bool,
    /// One of `U`, `E`, `W` and `C` is written.
    pub other: bool,
}

/// Whether a letter is among them.
fn has_letter(letters: &[u8], letter: u8) -> bool
    ensures { result ≡ list_any (λ octet. octet == letter) letters.now }
{
    letters.iter().any(|octet| *octet == letter)
}

/// Whether a letter of a flag that isn't run is among them.
fn has_unsupported_flag_letter(letters: &[u8]) -> bool
    ensures { result ≡ list_any (λ octet. (octet == 85) || (octet == 69) || (octet == 87) || (octet == 67)) letters.now }
{
    letters.iter().any(|octet| *octet == b'U' || *octet == b'E' || *octet == b'W' || *octet == b'C')
}

impl PacketFlags {
    ghost use Rattle.pd_script.specs.Values.{flags_of, with_ack};

    /// The flags that letters name, without ACK.
    #[tactic(auto, unfolding(crate::specs::Values::flags_of))]
    pub fn of_letters_without_ack(letters: &[u8]) -> PacketFlags
        ensures { result ≡ flags_of letters.now }
    {
        PacketFlags {
            syn: has_letter(letters, b'S'),
            fin: has_letter(letters, b'F'),
            rst: has_letter(letters, b'R'),
            psh: has_letter(letters, b'P'),
            ack: false,
            other: has_unsupported_flag_letter(letters),
        }
    }

    /// The same flags with ACK.
    pub fn with_ack_set(self) -> PacketFlags
        ensures { result ≡ with_ack self }
    {
        PacketFlags { ack: true, ..self }
    }
}

fn is_flag_letter(octet: u8) -> bool
    ensures { result ≡ is_flag_letter octet }
{
    matches!(octet, b'F' | b'S' | b'R' | b'P' | b'U' | b'E' | b'W' | b'C')
}

/// Whether the octets are letters of flags alone.
pub fn are_flag_letters(octets: &[u8]) -> bool
    ensures { result ≡ list_all is_flag_letter octets.now }
{
    octets.iter().all(|octet| is_flag_letter(*octet))
}

/// The TCP options of a packet.
#[derive(Drop)]
pub enum Options {
    /// No angle brackets are written.
    Absent,
    /// `<...>`.
    Any,
    /// The options in order; `<>` has none.
    Listed(OptionList),
}

/// TCP options in order.
#[derive(Drop)]
pub struct OptionList {
    /// The options in order.
    options: Vec<PacketOption>,
}

impl Model for OptionList {
    ghost use Rattle.std.specs.Prelude.{List};
    ghost use Rattle.pd_script.specs.declared.packets.PacketOption.{PacketOption};

    ghost Value = { List PacketOption };

    ghost view = { λ l. l.options.items };
}

/// A TCP option with its numbers as written, each at most 4,294,967,295.
#[derive(Drop)]
pub enum PacketOption {
    /// `mss`, in octets.
    Mss(u64),
    /// `wscale`, a number of bits.
    Wscale(u64),
    /// `sackOK`.
    SackOk,
    /// `nop`.
    Nop,
    /// `eol`.
    Eol,
    /// `TS val .. ecr ..`.
    Timestamp(u64, u64),
    /// `sack` with one or more blocks.
    Sack(SackBlockList),
}

/// The blocks of a `sack` option, in order.
#[derive(Drop)]
pub struct SackBlockList {
    /// The blocks in order.
    blocks: Vec<SackBlock>,
}

impl Model for SackBlockList {
    ghost use Rattle.std.specs.Prelude.{List};
    ghost use Rattle.pd_script.specs.declared.packets.SackBlock.{SackBlock};

    ghost Value = { List SackBlock };

    ghost view = { λ l. l.blocks.items };
}

/// A run of octets: the number of its first, and the number after its last.
#[derive(Clone, Copy)]
pub struct SackBlock {
    /// The number of the first octet, as written.
    pub left: u64,
    /// The number after the last octet, as written.
    pub right: u64,
}

impl Options {
    /// The same options once more.
    ///
    /// # Errors
    /// `AllocError` where a growth is refused.
    pub fn copy(&self) -> Result<Options, AllocError>
        ensures { IfOk result (λ copy. copy ≡ self.now) }
    {
        Ok(match self {
            Options::Absent => Options::Absent,
            Options::Any => Options::Any,
            Options::Listed(options) => Options::Listed(options.copy()?),
        })
    }
}

impl PacketOption {
    /// The same option once more.
    ///
    /// # Errors
    /// `AllocError` where a growth is refused.
    pub fn copy(&self) -> Result<PacketOption, AllocError>
        ensures { IfOk result (λ copy. copy ≡ self.now) }
    {
        Ok(match self {
            PacketOption::Mss(mss) => PacketOption::Mss(*mss),
            PacketOption::Wscale(shift) => PacketOption::Wscale(*shift),
            PacketOption::SackOk => PacketOption::SackOk,
            PacketOption::Nop => PacketOption::Nop,
            PacketOption::Eol => PacketOption::Eol,
            PacketOption::Timestamp(value, echo) => PacketOption::Timestamp(*value, *echo),
            PacketOption::Sack(blocks) => PacketOption::Sack(blocks.copy()?),
        })
    }
}

impl OptionList {
    /// No options.
    pub fn new(alloc: Global) -> OptionList
        ensures { result ≡ [] }
    {
        OptionList {
            options: Vec::new(alloc),
        }
    }

    /// Puts an option after the others.
    ///
    /// # Errors
    /// `AllocError` where a growth is refused.
    pub fn push(&mut self, option: PacketOption) -> Result<(), AllocError>
        ensures { OnOk result (self.new ≡ self.old ++ option ∷ []) }
    {
        self.options.push(option)?;
        Ok(())
    }

    /// How many they are.
    pub fn len(&self) -> usize
        ensures { result ≡ length self.now }
    {
        self.options.len()
    }

    /// The options in order.
    pub fn as_slice(&self) -> &[PacketOption]
        ensures { result.now ≡ self.now }
    {
        self.options.as_slice()
    }

    /// The same options once more.
    ///
    /// # Errors
    /// `AllocError` where a growth is refused.
    pub fn copy(&self) -> Result<OptionList, AllocError>
        ensures { IfOk result (λ copy. copy ≡ self.now) }
    {
        let mut copy = OptionList::new(*self.options.allocator());
        for option in self.options.as_slice() {
            copy.push(option.copy()?)?;
        }
        Ok(copy)
    }
}

impl SackBlockList {
    /// No blocks.
    pub fn new(alloc: Global) -> SackBlockList
        ensures { result ≡ [] }
    {
        SackBlockList {
            blocks: Vec::new(alloc),
        }
    }

    /// Puts a block after the others.
    ///
    /// # Errors
    /// `AllocError` where a growth is refused.
    pub fn push(&mut self, block: SackBlock) -> Result<(), AllocError>
        ensures { OnOk result (self.new ≡ self.old ++ block ∷ []) }
    {
        self.blocks.push(block)?;
        Ok(())
    }

    /// How many they are.
    pub fn len(&self) -> usize
        ensures { result ≡ length self.now }
    {
        self.blocks.len()
    }

    /// The blocks in order.
    pub fn as_slice(&self) -> &[SackBlock]
        ensures { result.now ≡ self.now }
    {
        self.blocks.as_slice()
    }
    /// The same blocks once more.
    ///
    /// # Errors
    /// `AllocError` where a growth is refused.
    pub fn copy(&self) -> Result<SackBlockList, AllocError>
        ensures { IfOk result (λ copy. copy ≡ self.now) }
    {
        Ok(SackBlockList {
            blocks: self.blocks.clone()?,
        })
    }
}
