//! A range of a text's lines, which gives its first line and, apart from it, the range of those that follow.
ghost use Rattle.std.specs.Prelude.{◌≡◌, ◌∷◌, [], MatchOption};
ghost use Rattle.pd_layout.specs.Canonical.{lines_between};
ghost use Rattle.pd_layout.specs.Internal.{lines_of};

use pd_text::Lines;

/// The lines of a text from one up to another.
#[derive(Clone, Copy)]
pub struct LineCursor<'a> {
    /// The text.
    pub lines: &'a Lines,
    /// The first of the lines, counted from 0.
    pub from: usize,
    /// The one after the last.
    pub until: usize,
}

impl<'a> LineCursor<'a> {
    /// The lines of a text from one up to another, counted from 0.
    pub fn new(lines: &'a Lines, from: usize, until: usize) -> LineCursor<'a>
        ensures { lines_of result ≡ lines_between lines.now from until }
    {
        LineCursor { lines, from, until }
    }

    /// The first line and those after it; nothing where there is none.
    #[inline(always)]
    pub fn split_first(self) -> Option<(&'a [u8], LineCursor<'a>)>
        ensures { MatchOption result (lines_of self.entry ≡ []) (λ x. lines_of self.entry ≡ x.0.now ∷ lines_of x.1) }
    {
        if self.from >= self.until {
            return None;
        }
        let next = self.from + 1;
        let line = self.lines.line(next)?;
        let rest = LineCursor { from: next, ..self };
        Some((line, rest))
    }
}
