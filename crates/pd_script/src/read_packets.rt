//! Reading packets.
ghost use Rattle.std.specs.Prelude.{◌≡◌, codes, true, false};
ghost use Rattle.pd_script.specs.PacketReading.{flags_at, lettered_at, octets_at, numbered_at, ack_at, win_at, block_at, blocks_at, timestamp_at, option_rest_at, option_at, next_option_at, some_options_at, list_at, options_at, packet_at};
ghost use Rattle.pd_script.specs.Cursor.{Leaves};

use crate::cursor::Cursor;
use crate::names::OptionName;
use crate::packets::{
    OptionList, Options, Packet, PacketFlags, PacketOption, SackBlock, SackBlockList,
};
use crate::parse_error::ParseError;
use pd_lex::{Lexed, Token, TokenKind};
use std::alloc::Global;

impl<'a> Cursor<'a> {
    #[tactic(auto, using(crate::proofs::Symbols::one_octet), unfolding(crate::specs::PacketReading::flags_at, pd_lex::specs::Lexing::lexeme_of))]
    fn take_dash_dot_or_lettered_flags(&mut self) -> Result<PacketFlags, ParseError>
        ensures { Leaves result self.new (flags_at self.old) }
    {
        match self.peek() {
            Lexed::Token(
                Token {
                    kind: TokenKind::Symbol,
                    symbol: b'-',
                    ..
                },
            ) => {
                self.take_this_symbol_giving_line(b'-')?;
                Ok(PacketFlags::of_letters_without_ack(&[]))
            }
            Lexed::Token(
                Token {
                    kind: TokenKind::Symbol,
                    symbol: b'.',
                    ..
                },
            ) => {
                self.take_this_symbol_giving_line(b'.')?;
                Ok(PacketFlags::of_letters_without_ack(&[]).with_ack_set())
            }
            _ => self.take_lettered_flags_with_ack_dot(),
        }
    }

    /// Takes flags that are written in letters.
    fn take_lettered_flags_with_ack_dot(&mut self) -> Result<PacketFlags, ParseError>
        ensures { Leaves result self.new (lettered_at self.old) }
    {
        let flags = self.take_flag_letters()?;
        if !self.is_symbol(b'.') {
            return Ok(flags);
        }
        self.take_this_symbol_giving_line(b'.')?;
        Ok(flags.with_ack_set())
    }

    /// Takes the start, the end and the length.
    #[tactic(auto, unfolding(crate::specs::PacketReading::octets_at))]
    fn take_seq_range_and_length(&mut self) -> Result<(u32, u32, u32), ParseError>
        ensures { Leaves result self.new (octets_at self.old) }
    {
        let start = self.take_int()?;
        self.take_this_symbol_giving_line(b':')?;
        let end = self.take_int_at_least(start)?;
        self.take_this_symbol_giving_line(b'(')?;
        let length = self.take_int_equal_to(end.saturating_sub(start))?;
        self.take_this_symbol_giving_line(b')')?;
        Ok((start, end, length))
    }

    #[tactic(auto, unfolding(crate::specs::PacketReading::ack_at))]
    fn take_ack(&mut self) -> Result<Option<u32>, ParseError>
        ensures { Leaves result self.new (ack_at self.old) }
    {
        if !self.is_this_word(b"ack") {
            return Ok(None);
        }
        self.take_this_word(b"ack")?;
        Ok(Some(self.take_int()?))
    }

    /// Takes the window, which an inbound packet has.
    #[tactic(auto, unfolding(crate::specs::PacketReading::win_at))]
    fn take_win_if_inbound_or_written(&mut self, inbound: bool) -> Result<Option<u32>, ParseError>
        ensures { Leaves result self.new (win_at inbound self.old) }
    {
        if !inbound && !self.is_this_word(b"win") {
            return Ok(None);
        }
        self.take_this_word(b"win")?;
        Ok(Some(self.take_int()?))
    }

    fn take_sack_block(&mut self) -> Result<SackBlock, ParseError>
        ensures { Leaves result self.new (block_at self.old) }
    {
        let left = self.take_int()?;
        self.take_this_symbol_giving_line(b':')?;
        let right = self.take_int()?;
        Ok(SackBlock {
            left: u64::from(left),
            right: u64::from(right),
        })
    }

    /// Takes one block or more.
    fn take_sack_blocks(&mut self, alloc: Global) -> Result<SackBlockList, ParseError>
        ensures { Leaves result self.new (blocks_at self.old) }
    {
        let mut blocks = SackBlockList::new(alloc);
        blocks.push(self.take_sack_block()?)?;
        'more: while self.is_next_int_within_u32() {
            let sack_block = self.take_sack_block()?;
            blocks.push(sack_block)?;
        }
        Ok(blocks)
    }

    fn take_timestamp(&mut self) -> Result<PacketOption, ParseError>
        ensures { Leaves result self.new (timestamp_at self.old) }
    {
        self.take_this_word(b"val")?;
        let val = self.take_int()?;
        self.take_this_word(b"ecr")?;
        let ecr = self.take_int()?;
        Ok(PacketOption::Timestamp(u64::from(val), u64::from(ecr)))
    }

    /// Takes what follows the name of an option.
    #[tactic(auto, unfolding(crate::specs::PacketReading::option_rest_at))]
    fn take_option_rest(
        &mut self,
        alloc: Global,
        name: OptionName,
    ) -> Result<PacketOption, ParseError>
        ensures { Leaves result self.new (option_rest_at name self.old) }
    {
        match name {
            OptionName::Mss => Ok(PacketOption::Mss(u64::from(self.take_int()?))),
            OptionName::Wscale => Ok(PacketOption::Wscale(u64::from(self.take_int()?))),
            OptionName::SackOk => Ok(PacketOption::SackOk),
            OptionName::Nop => Ok(PacketOption::Nop),
            OptionName::Eol => Ok(PacketOption::Eol),
            OptionName::Timestamp => self.take_timestamp(),
            OptionName::Sack => Ok(PacketOption::Sack(self.take_sack_blocks(alloc)?)),
        }
    }

    #[tactic(auto, unfolding(crate::specs::PacketReading::option_at))]
    fn take_packet_option(&mut self, alloc: Global) -> Result<PacketOption, ParseError>
        ensures { Leaves result self.new (option_at self.old) }
    {
        let name = self.take_option_name()?;
        self.take_option_rest(alloc, name)
    }

    fn take_option_after_comma(&mut self, alloc: Global) -> Result<PacketOption, ParseError>
        ensures { Leaves result self.new (next_option_at self.old) }
    {
        self.take_this_symbol_giving_line(b',')?;
        self.take_packet_option(alloc)
    }

    /// Takes one option or more.
    fn take_one_or_more_options(&mut self, alloc: Global) -> Result<OptionList, ParseError>
        ensures { Leaves result self.new (some_options_at self.old) }
    {
        let mut options = OptionList::new(alloc);
        options.push(self.take_packet_option(alloc)?)?;
        'more: while self.is_symbol(b',') {
            let packet_option = self.take_option_after_comma(alloc)?;
            options.push(packet_option)?;
        }
        Ok(options)
    }

    /// Takes options up to the bracket that ends them.
    fn take_listed_options_to_closing_bracket(
        &mut self,
        alloc: Global,
    ) -> Result<Options, ParseError>
        ensures { Leaves result self.new (list_at self.old) }
    {
        if self.is_symbol(b'>') {
            self.take_this_symbol_giving_line(b'>')?;
            return Ok(Options::Listed(OptionList::new(alloc)));
        }
        let options = self.take_one_or_more_options(alloc)?;
        self.take_this_symbol_giving_line(b'>')?;
        Ok(Options::Listed(options))
    }

    /// Takes the options, if any are written.
    #[tactic(auto, unfolding(crate::specs::PacketReading::options_at))]
    fn take_options_listed_absent_or_any_if_outbound(
        &mut self,
        alloc: Global,
        inbound: bool,
    ) -> Result<Options, ParseError>
        ensures { Leaves result self.new (options_at inbound self.old) }
    {
        if !self.is_symbol(b'<') {
            return Ok(Options::Absent);
        }
        self.take_this_symbol_giving_line(b'<')?;
        if !inbound && self.is_dots() {
            self.take_dots()?;
            self.take_this_symbol_giving_line(b'>')?;
            return Ok(Options::Any);
        }
        self.take_listed_options_to_closing_bracket(alloc)
    }

    /// Takes a packet; an inbound one has a window and lists its options.
    ///
    /// # Errors
    /// `Syntax` where no packet goes on, and the cursor is there; `OutOfMemory` where a growth is refused.
    #[tactic(auto, unfolding(crate::specs::PacketReading::packet_at))]
    pub fn take_packet(&mut self, alloc: Global, inbound: bool) -> Result<Packet, ParseError>
        ensures { Leaves result self.new (packet_at inbound self.old) }
    {
        let flags = self.take_dash_dot_or_lettered_flags()?;
        let (start, end, length) = self.take_seq_range_and_length()?;
        let ack = self.take_ack()?;
        let win = self.take_win_if_inbound_or_written(inbound)?;
        let options = self.take_options_listed_absent_or_any_if_outbound(alloc, inbound)?;
        Ok(Packet {
            flags,
            start,
            end,
            length,
            ack,
            win,
            options,
        })
    }
}
