//! The header of a script.
ghost use Rattle.std.specs.Prelude.{◌≡◌, [], ◌∷◌, ◌++◌, length, IfOk, OnOk};
ghost use Rattle.pd_lex.specs.Places.{first_place};

use crate::numbers::is_nonempty_digits;
use pd_lex::{Place, saturating_decimal_value};
use std::alloc::{AllocError, Global};
use std::marker::Model;

/// An option or a command that is before a script's events.
#[derive(Clone, Copy)]
pub struct HeaderItem {
    /// The line of its first octet, counted from 1.
    pub line: usize,
    /// Its kind.
    pub kind: HeaderKind,
}

/// The kinds of header items.
#[derive(Clone, Copy)]
pub enum HeaderKind {
    /// `--tolerance_usecs=N` with one or more digits: at most 1,000,000 microseconds.
    Tolerance(u64),
    /// Any other option.
    OtherOption,
    /// A shell command in backquotes.
    Command,
}

/// The items of a header, in order, and its end.
#[derive(Drop)]
pub struct Header {
    /// The items in order.
    items: Vec<HeaderItem>,
    /// The place after the last item, or of the text's first octet.
    end: Place,
}

impl Model for Header {
    ghost use Rattle.pd_script.specs.Header.{HeaderView};

    ghost Value = { HeaderView };

    ghost view = { λ h. record { items = h.items.items; end = h.end } };
}

/// The greatest tolerance, in microseconds.
const MAX_TOLERANCE: u64 = 1_000_000;

/// The opening of a tolerance, before its number.
const TOLERANCE: &[u8] = b"--tolerance_usecs=";

impl HeaderKind {
    ghost use Rattle.std.specs.Prelude.{ℕ, List};
    ghost use Rattle.pd_script.specs.Header.{option_kind};

    /// The kind of an option that is written so.
    #[tactic(auto, unfolding(crate::specs::Header::option_kind))]
    pub fn tolerance_or_other_option(text: &[u8]) -> HeaderKind
        ensures { result ≡ option_kind text.now }
    {
        if !text.starts_with(TOLERANCE) {
            return HeaderKind::OtherOption;
        }
        let digits = &text[TOLERANCE.len()..];
        if !is_nonempty_digits(digits) {
            return HeaderKind::OtherOption;
        }
        let number = saturating_decimal_value(digits);
        if number > MAX_TOLERANCE {
            return HeaderKind::OtherOption;
        }
        HeaderKind::Tolerance(number)
    }
}

impl Header {
    /// No items; the end is where the text begins.
    pub fn new(alloc: Global) -> Header
        ensures { result ≡ record { items = []; end = first_place } }
    {
        Header {
            items: Vec::new(alloc),
            end: Place::first(),
        }
    }

    /// Puts one more item after the others, with the place after it.
    ///
    /// # Errors
    /// `AllocError` where a growth is refused.
    pub fn push(&mut self, item: HeaderItem, end: Place) -> Result<(), AllocError>
        ensures { OnOk result (self.new ≡ record { items = self.old.items ++ item ∷ []; end = end }) }
    {
        self.items.push(item)?;
        self.end = end;
        Ok(())
    }

    /// How many items it has.
    pub fn len(&self) -> usize
        ensures { result ≡ length self.now.items }
    {
        self.items.len()
    }

    /// The items in order.
    pub fn as_slice(&self) -> &[HeaderItem]
        ensures { result.now ≡ self.now.items }
    {
        self.items.as_slice()
    }

    /// The place after the last item, where the first event is looked for; without items the
    /// first place of a text.
    pub fn end(&self) -> Place
        ensures { result ≡ self.now.end }
    {
        self.end
    }

    /// The same header once more.
    ///
    /// # Errors
    /// `AllocError` where a growth is refused.
    pub fn copy(&self) -> Result<Header, AllocError>
        ensures { IfOk result (λ copy. copy ≡ self.now) }
    {
        Ok(Header {
            items: self.items.clone()?,
            end: self.end,
        })
    }
}
