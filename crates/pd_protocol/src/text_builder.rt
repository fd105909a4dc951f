//! The lines of a command as they come.
ghost use Rattle.std.specs.Prelude.{◌≡◌, ◌∷◌, ◌++◌, [], None, Some, IfOk, OnOk, option_and_then, length};
ghost use Rattle.pd_protocol.specs.LinePieces.{NoNewline};
ghost use Rattle.pd_protocol.specs.Commands.{fitted};

use pd_text::{LineList, MAX_LINES, MAX_OCTETS};
use std::alloc::{AllocError, Global};
use std::marker::Model;

/// For how many octets of a line room is made.
const LINE_ROOM: usize = 32;

/// The lines so far; none once they are over the limits of a text.
#[derive(Drop)]
pub struct TextBuilder {
    /// The lines, as long as they are within the limits.
    lines: LineList,
    /// The octets of these lines, each counted with one more for its end.
    octets: usize,
    /// Whether they are over the limits.
    is_too_large: bool,
}

impl Model for TextBuilder {
    ghost use Rattle.std.specs.Prelude.{◌≡◌, ◌≤◌, List, ℕ, Option, Some, None, if◌then◌else◌, length};
    ghost use Rattle.pd_text.specs.Text.{octets_of};

    ghost Value = { Option (List (List ℕ)) };

    ghost view = { λ g. if g.is_too_large then None else Some g.lines };

    ghost invariant = { λ g. (g.octets ≡ octets_of g.lines) × (g.octets ≤ 65536) × (length g.lines ≤ 4096) };
}

impl TextBuilder {
    /// No lines.
    pub fn new(alloc: Global) -> TextBuilder
        ensures { result ≡ Some [] }
    {
        TextBuilder {
            lines: LineList::new(alloc),
            octets: 0,
            is_too_large: false,
        }
    }

    /// No lines, and room for so many of 32 octets, or for as many as a text may have.
    ///
    /// # Errors
    /// `AllocError` where the room is refused.
    pub fn with_line_capacity(alloc: Global, lines: usize) -> Result<TextBuilder, AllocError>
        ensures { IfOk result (λ text_builder. text_builder ≡ Some []) }
    {
        let most = lines.min(MAX_LINES);
        let mut room = LineList::new(alloc);
        room.reserve(most, most * LINE_ROOM)?;
        Ok(TextBuilder {
            lines: room,
            octets: 0,
            is_too_large: false,
        })
    }

    /// Adds a line.
    ///
    /// # Errors
    /// `AllocError` where a growth is refused.
    pub fn add_line_or_mark_too_large(&mut self, line: &[u8]) -> Result<(), AllocError>
        requires { NoNewline line.now }
        ensures { OnOk result (self.new ≡ option_and_then (λ t. fitted (t ++ line.now ∷ [])) self.old) }
    {
        if self.is_too_large {
            return Ok(());
        }
        let n = line.len();
        if self.lines.len() >= MAX_LINES || n >= MAX_OCTETS - self.octets {
            self.is_too_large = true;
            return Ok(());
        }
        self.lines.push(line)?;
        self.octets += n + 1;
        Ok(())
    }

    /// Adds a line that alone is over the limits.
    pub fn mark_text_too_large(&mut self)
        ensures { self.new ≡ None }
    {
        self.is_too_large = true;
    }

    /// The lines, in no more room than they take.
    pub fn into_lines_unless_too_large(self) -> Option<LineList>
        ensures { result ≡ self }
    {
        let TextBuilder {
            mut lines,
            is_too_large,
            ..
        } = self;
        if is_too_large {
            return None;
        }
        lines.shrink_to_fit();
        Some(lines)
    }
}
