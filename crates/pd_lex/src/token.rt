//! Tokens, their places, and what the lexer answers.
ghost use Rattle.std.specs.Prelude.{◌≡◌, true, [], ◌∷◌};
ghost use Rattle.pd_lex.specs.declared.token.TokenKind.TheVariants.{Int, Symbol};
ghost use Rattle.pd_lex.specs.Numbers.{capped_number};
ghost use Rattle.pd_lex.specs.Kinds.{stays_in_line};
ghost use Rattle.pd_lex.specs.Places.{first_place};

/// The kind of a token, in packetdrill's grammar.
#[derive(Clone, Copy)]
pub enum TokenKind {
    /// One or more digits.
    Int,
    /// `0x` and one or more hexadecimal digits.
    Hex,
    /// A run of letters, digits and `_` that is neither an Int nor a Hex.
    Word,
    /// Digits, if any, a point and one or more digits.
    Decimal,
    /// Three points.
    Dots,
    /// An option of a script's header, as `--tolerance_usecs=4000`.
    Opt,
    /// A text in double quotes.
    Str,
    /// A shell command in backquotes.
    Cmd,
    /// Code between `%{` and `}%`.
    Code,
    /// One printable octet that begins nothing else.
    Symbol,
}

/// A place in a text: a line, counted from 1, and the number of octets before the place in that
/// line.
#[derive(Clone, Copy)]
pub struct Place {
    /// The line, counted from 1.
    pub line: usize,
    /// How many octets of the line lie before the place.
    pub at: usize,
}

impl Place {
    /// The place of a text's first octet.
    pub fn first() -> Place
        ensures { result ≡ first_place }
    {
        Place { line: 1, at: 0 }
    }

    /// The place of a line's first octet.
    pub fn line_start(line: usize) -> Place
        ensures { result ≡ record { line = line; at = 0 } }
    {
        Place { line, at: 0 }
    }
}

/// A token: what it is, its octets, where it begins, and the place after it.
#[derive(Clone, Copy)]
pub struct Token<'a> {
    /// Its kind.
    pub kind: TokenKind,
    /// The octet of a Symbol.
    pub symbol: u8,
    /// The number of an Int; one above the greatest `u64` counts as that.
    pub number: u64,
    /// As written, where its kind stays in its line; of a Str, a Cmd and Code none.
    pub text: &'a [u8],
    /// Where it begins.
    pub from: Place,
    /// The place after it.
    pub to: Place,
    ghost symbol_is: { kind ≡ Symbol → text.now ≡ symbol ∷ [] },
    ghost number_is: { kind ≡ Int → number ≡ capped_number text.now },
    ghost in_line: { stays_in_line kind ≡ true → to.line ≡ from.line },
}

/// The item at a place, once blanks and comments are passed over.
#[derive(Clone, Copy)]
pub enum Lexed<'a> {
    /// A token.
    Token(Token<'a>),
    /// The end of the text.
    End,
    /// Something that begins no token, in this line.
    Bad(usize),
}

/// The next item of a text, and the line of the place after it.
#[derive(Clone, Copy)]
pub struct Lookahead<'a> {
    /// The octets of the line in which the place after a token lies; none past the last line.
    pub line: &'a [u8],
    /// The next item.
    pub next: Lexed<'a>,
}
