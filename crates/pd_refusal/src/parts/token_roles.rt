//! The role of a token in the search for the part that a rule is about.
ghost use Rattle.std.specs.Prelude.{◌≡◌};
ghost use Rattle.std.specs.Str.{bytes_eq};
ghost use Rattle.pd_refusal.specs.Parts.{role_of, word_role, octet_role, header_option_role, is_number_above, is_whole_number, is_word, is_named_option, can_end_flags, can_precede_edge, is_dots, is_command, is_code, is_unsupported_header_option, is_inbound_arrow, is_colon, is_comma, is_opening_parenthesis, is_ack, is_win, is_mss, is_wscale};

use pd_lex::{Token, TokenKind};
use pd_script::HeaderKind;

/// The role of a token, as far as parts of an event differ by it.
#[derive(Clone, Copy)]
pub enum TokenRole {
    /// A whole number; one above the greatest `u64` counts as that.
    Whole(u64),
    /// `ack`.
    Ack,
    /// `win`.
    Win,
    /// `mss`.
    Mss,
    /// `wscale`.
    Wscale,
    /// `sack`.
    Sack,
    /// Another word that names a TCP option.
    OtherOption,
    /// Any other word.
    Word,
    /// `.` or `-`.
    Point,
    /// `:`.
    Colon,
    /// `,`.
    Comma,
    /// `(`.
    Parenthesis,
    /// `[` or `{`.
    Bracket,
    /// `)`, `]` or `}`.
    Closing,
    /// `<`.
    Arrow,
    /// `...`.
    Dots,
    /// A command in backquotes.
    Command,
    /// Code.
    Code,
    /// An option of the header that is a tolerance within its limit.
    Tolerance,
    /// Any other option of the header.
    HeaderOption,
    /// Anything else.
    Other,
}

impl TokenRole {
    /// The role of a token.
    pub fn of(token: &Token<'_>) -> TokenRole
        ensures { result ≡ role_of token.now.kind token.now.text.now }
    {
        match token.kind {
            TokenKind::Int => TokenRole::Whole(token.number),
            TokenKind::Word => word_role(token.text),
            TokenKind::Symbol => octet_role(token.symbol),
            TokenKind::Dots => TokenRole::Dots,
            TokenKind::Cmd => TokenRole::Command,
            TokenKind::Code => TokenRole::Code,
            TokenKind::Opt => header_option_role(HeaderKind::tolerance_or_other_option(token.text)),
            TokenKind::Hex => TokenRole::Other,
            TokenKind::Decimal => TokenRole::Other,
            TokenKind::Str => TokenRole::Other,
        }
    }

    /// A whole number above a limit.
    pub fn is_number_above(self, limit: u64) -> bool
        ensures { result ≡ is_number_above limit self }
    {
        match self {
            TokenRole::Whole(number) => number > limit,
            _ => false,
        }
    }

    /// A whole number.
    pub fn is_whole_number(self) -> bool
        ensures { result ≡ is_whole_number self }
    {
        matches!(self, TokenRole::Whole(_))
    }

    /// A word.
    pub fn is_word(self) -> bool
        ensures { result ≡ is_word self }
    {
        match self {
            TokenRole::Ack | TokenRole::Win | TokenRole::Word => true,
            _ => self.is_named_option(),
        }
    }

    /// A word that names a TCP option.
    pub fn is_named_option(self) -> bool
        ensures { result ≡ is_named_option self }
    {
        matches!(
            self,
            TokenRole::Mss | TokenRole::Wscale | TokenRole::Sack | TokenRole::OtherOption
        )
    }

    /// The tokens with which flags may end.
    pub fn can_end_flags(self) -> bool
        ensures { result ≡ can_end_flags self }
    {
        matches!(self, TokenRole::Word | TokenRole::Point)
    }

    /// The tokens that the number of a SACK block may follow.
    pub fn can_precede_edge(self) -> bool
        ensures { result ≡ can_precede_edge self }
    {
        matches!(
            self,
            TokenRole::Sack | TokenRole::Colon | TokenRole::Whole(_)
        )
    }

    /// `...`.
    pub fn is_dots(self) -> bool
        ensures { result ≡ is_dots self }
    {
        matches!(self, TokenRole::Dots)
    }

    /// A command.
    pub fn is_command(self) -> bool
        ensures { result ≡ is_command self }
    {
        matches!(self, TokenRole::Command)
    }

    /// Code.
    pub fn is_code(self) -> bool
        ensures { result ≡ is_code self }
    {
        matches!(self, TokenRole::Code)
    }

    /// An option of the header, but for a tolerance within its limit.
    pub fn is_unsupported_header_option(self) -> bool
        ensures { result ≡ is_unsupported_header_option self }
    {
        matches!(self, TokenRole::HeaderOption)
    }

    /// `<`.
    pub fn is_inbound_arrow(self) -> bool
        ensures { result ≡ is_inbound_arrow self }
    {
        matches!(self, TokenRole::Arrow)
    }

    /// `:`.
    pub fn is_colon(self) -> bool
        ensures { result ≡ is_colon self }
    {
        matches!(self, TokenRole::Colon)
    }

    /// `,`.
    pub fn is_comma(self) -> bool
        ensures { result ≡ is_comma self }
    {
        matches!(self, TokenRole::Comma)
    }

    /// `(`.
    pub fn is_opening_parenthesis(self) -> bool
        ensures { result ≡ is_opening_parenthesis self }
    {
        matches!(self, TokenRole::Parenthesis)
    }

    /// `ack`.
    pub fn is_ack(self) -> bool
        ensures { result ≡ is_ack self }
    {
        matches!(self, TokenRole::Ack)
    }

    /// `win`.
    pub fn is_win(self) -> bool
        ensures { result ≡ is_win self }
    {
        matches!(self, TokenRole::Win)
    }

    /// `mss`.
    pub fn is_mss(self) -> bool
        ensures { result ≡ is_mss self }
    {
        matches!(self, TokenRole::Mss)
    }

    /// `wscale`.
    pub fn is_wscale(self) -> bool
        ensures { result ≡ is_wscale self }
    {
        matches!(self, TokenRole::Wscale)
    }
}

fn octets_equal(text: &[u8], name: &[u8]) -> bool
    ensures { result ≡ bytes_eq text.now name.now }
{
    text == name
}

fn word_role(text: &[u8]) -> TokenRole
    ensures { result ≡ word_role text.now }
{
    if octets_equal(text, b"ack") {
        TokenRole::Ack
    } else if octets_equal(text, b"win") {
        TokenRole::Win
    } else if octets_equal(text, b"mss") {
        TokenRole::Mss
    } else if octets_equal(text, b"wscale") {
        TokenRole::Wscale
    } else if octets_equal(text, b"sack") {
        TokenRole::Sack
    } else if octets_equal(text, b"sackOK")
        || octets_equal(text, b"nop")
        || octets_equal(text, b"eol")
        || octets_equal(text, b"TS")
    {
        TokenRole::OtherOption
    } else {
        TokenRole::Word
    }
}

fn octet_role(octet: u8) -> TokenRole
    ensures { result ≡ octet_role octet }
{
    if octet == b':' {
        TokenRole::Colon
    } else if octet == b',' {
        TokenRole::Comma
    } else if octet == b'<' {
        TokenRole::Arrow
    } else if octet == b'.' || octet == b'-' {
        TokenRole::Point
    } else if octet == b'(' {
        TokenRole::Parenthesis
    } else if octet == b'[' || octet == b'{' {
        TokenRole::Bracket
    } else if octet == b')' || octet == b']' || octet == b'}' {
        TokenRole::Closing
    } else {
        TokenRole::Other
    }
}

fn header_option_role(kind: HeaderKind) -> TokenRole
    ensures { result ≡ header_option_role kind }
{
    match kind {
        HeaderKind::Tolerance(_) => TokenRole::Tolerance,
        HeaderKind::OtherOption => TokenRole::HeaderOption,
        HeaderKind::Command => TokenRole::HeaderOption,
    }
}
