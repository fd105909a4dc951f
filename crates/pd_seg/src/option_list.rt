//! The TCP options of a segment.
ghost use Rattle.std.specs.Prelude.{◌≡◌, ◌↔◌, [], ◌∷◌, ◌++◌, length, IsTrue, IfOk, OnOk, OnErr};

use crate::sack_spans::SackSpans;
use std::alloc::{AllocError, Global};
use std::marker::Model;

/// A TCP option.
#[derive(Drop)]
pub enum SegOption {
    /// Maximum segment size, in octets (RFC 9293, section 3.7.1).
    Mss(u16),
    /// Window scale, a number of bits (RFC 7323, section 2).
    Wscale(u8),
    /// SACK is permitted (RFC 2018, section 2).
    SackOk,
    /// No operation (RFC 9293, section 3.2).
    Nop,
    /// End of the options (RFC 9293, section 3.2).
    Eol,
    /// TSval and TSecr (RFC 7323, section 3).
    Timestamp(u32, u32),
    /// SACK (RFC 2018, section 3).
    Sack(SackSpans),
}

impl SegOption {
    /// Whether both are the same option with the same values.
    pub fn is_same(&self, other: &SegOption) -> bool
        ensures { IsTrue result ↔ (self.now ≡ other.now) }
    {
        match (self, other) {
            (SegOption::Mss(mine), SegOption::Mss(its)) => mine == its,
            (SegOption::Wscale(mine), SegOption::Wscale(its)) => mine == its,
            (SegOption::SackOk, SegOption::SackOk)
            | (SegOption::Nop, SegOption::Nop)
            | (SegOption::Eol, SegOption::Eol) => true,
            (SegOption::Timestamp(mine, echo), SegOption::Timestamp(its, its_echo)) => {
                mine == its && echo == its_echo
            }
            (SegOption::Sack(mine), SegOption::Sack(its)) => mine.is_same(its),
            _ => false,
        }
    }

    /// The same option once more.
    ///
    /// # Errors
    /// `AllocError` where a growth is refused.
    pub fn copy(&self) -> Result<SegOption, AllocError>
        ensures { IfOk result (λ copy. copy ≡ self.now) }
    {
        Ok(match self {
            SegOption::Mss(mss) => SegOption::Mss(*mss),
            SegOption::Wscale(shift) => SegOption::Wscale(*shift),
            SegOption::SackOk => SegOption::SackOk,
            SegOption::Nop => SegOption::Nop,
            SegOption::Eol => SegOption::Eol,
            SegOption::Timestamp(value, echo) => SegOption::Timestamp(*value, *echo),
            SegOption::Sack(blocks) => SegOption::Sack(blocks.copy()?),
        })
    }
}

/// The options of a segment in order.
#[derive(Drop)]
pub struct SegOptions {
    /// The options in order.
    options: Vec<SegOption>,
}

impl Model for SegOptions {
    ghost use Rattle.std.specs.Prelude.{List};
    ghost use Rattle.pd_seg.specs.declared.option_list.SegOption.{SegOption};

    ghost Value = { List SegOption };

    ghost view = { λ l. l.options.items };
}

impl SegOptions {
    /// No options.
    pub fn new(alloc: Global) -> SegOptions
        ensures { result ≡ [] }
    {
        SegOptions {
            options: Vec::new(alloc),
        }
    }

    /// Adds an option after the others.
    ///
    /// # Errors
    /// `AllocError` where a growth is refused; the options are as before then.
    pub fn push(&mut self, option: SegOption) -> Result<(), AllocError>
        ensures ok { OnOk result (self.new ≡ self.old ++ option ∷ []) }
        ensures err { OnErr result (self.new ≡ self.old) }
    {
        self.options.push(option)?;
        Ok(())
    }

    /// The options in their order.
    pub fn as_slice(&self) -> &[SegOption]
        ensures { result.now ≡ self.now }
    {
        self.options.as_slice()
    }

    /// Whether both have the same options in the same order.
    pub fn is_same(&self, other: &SegOptions) -> bool
        ensures { IsTrue result ↔ (self.now ≡ other.now) }
    {
        are_same_options(self.options.as_slice(), other.options.as_slice())
    }

    /// The same options once more.
    ///
    /// # Errors
    /// `AllocError` where a growth is refused.
    pub fn copy(&self) -> Result<SegOptions, AllocError>
        ensures { IfOk result (λ copy. copy ≡ self.now) }
    {
        let mut copy = SegOptions::new(*self.options.allocator());
        for option in self.options.as_slice() {
            copy.push(option.copy()?)?;
        }
        Ok(copy)
    }
}

fn are_same_options(mine: &[SegOption], its: &[SegOption]) -> bool
    ensures { IsTrue result ↔ (mine.now ≡ its.now) }
{
    mine.len() == its.len()
        && mine
            .iter()
            .zip(its)
            .all(|(option, other)| option.is_same(other))
}
