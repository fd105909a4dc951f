//! Runs of octets, and the blocks of a SACK option.
ghost use Rattle.std.specs.Prelude.{◌≡◌, ◌↔◌, [], ◌∷◌, ◌++◌, length, IsTrue, IfOk, OnOk, OnErr};

use std::alloc::{AllocError, Global};
use std::marker::Model;

/// The octets from `start` up to `end`, which isn't one of them.
#[derive(Clone, Copy, PartialEq, Eq)]
pub struct Span {
    /// The number of the first octet.
    pub start: u32,
    /// The number after the last octet.
    pub end: u32,
}

impl Span {
    /// Whether both have the same start and end.
    pub fn is_same(&self, other: &Span) -> bool
        ensures { IsTrue result ↔ (self.now ≡ other.now) }
    {
        self == other
    }
}

/// The blocks of a SACK option in order (RFC 2018, section 3).
#[derive(Drop)]
pub struct SackSpans {
    /// The blocks in order.
    blocks: Vec<Span>,
}

impl Model for SackSpans {
    ghost use Rattle.std.specs.Prelude.{List};
    ghost use Rattle.pd_seg.specs.declared.sack_spans.Span.{Span};

    ghost Value = { List Span };

    ghost view = { λ l. l.blocks.items };
}

impl SackSpans {
    /// No blocks.
    pub fn new(alloc: Global) -> SackSpans
        ensures { result ≡ [] }
    {
        SackSpans {
            blocks: Vec::new(alloc),
        }
    }

    /// Adds a block after the others.
    ///
    /// # Errors
    /// `AllocError` where a growth is refused; the blocks are as before then.
    pub fn push(&mut self, block: Span) -> Result<(), AllocError>
        ensures ok { OnOk result (self.new ≡ self.old ++ block ∷ []) }
        ensures err { OnErr result (self.new ≡ self.old) }
    {
        self.blocks.push(block)?;
        Ok(())
    }

    /// The blocks in their order.
    pub fn as_slice(&self) -> &[Span]
        ensures { result.now ≡ self.now }
    {
        self.blocks.as_slice()
    }

    /// Whether both have the same blocks in the same order.
    pub fn is_same(&self, other: &SackSpans) -> bool
        ensures { IsTrue result ↔ (self.now ≡ other.now) }
    {
        are_same_blocks(self.blocks.as_slice(), other.blocks.as_slice())
    }

    /// The same blocks once more.
    ///
    /// # Errors
    /// `AllocError` where a growth is refused.
    pub fn copy(&self) -> Result<SackSpans, AllocError>
        ensures { IfOk result (λ copy. copy ≡ self.now) }
    {
        Ok(SackSpans {
            blocks: self.blocks.clone()?,
        })
    }
}

fn are_same_blocks(mine: &[Span], its: &[Span]) -> bool
    ensures { IsTrue result ↔ (mine.now ≡ its.now) }
{
    mine.len() == its.len()
        && mine
            .iter()
            .zip(its)
            .all(|(block, other)| block.is_same(other))
}
