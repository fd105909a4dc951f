//! How each kind of piece of a text is spelled.
use OctetSet::*;
use SpellingPart::{Any, Is, Many, One, Quoted, Text, To, Unless};

/// A kind of piece: what parts tokens, a token, or nothing.
#[derive(Clone, Copy)]
pub enum PieceKind {
    Blanks,
    LineComment,
    BlockComment,
    Int,
    Hex,
    Word,
    Decimal,
    Dots,
    Opt,
    Str,
    Cmd,
    Code,
    Symbol,
    Nothing,
}

static NAMES: [&str; 14] = [
    "Blanks",
    "LineComment",
    "BlockComment",
    "Int",
    "Hex",
    "Word",
    "Decimal",
    "Dots",
    "Opt",
    "Str",
    "Cmd",
    "Code",
    "Symbol",
    "Nothing",
];

/// A class of octets.
#[derive(Clone, Copy)]
pub enum OctetSet {
    Digit,
    HexDigit,
    /// Letters, digits and `_`.
    Run,
    /// The letters of flags.
    Flag,
    Blank,
    /// Any but a blank.
    Solid,
    /// Any but a newline.
    InLine,
    /// An octet that prints, but `_`, and those that open something to be closed.
    Mark,
}

/// A step of how a piece is spelled.
#[derive(Clone, Copy)]
pub enum SpellingPart {
    /// These octets.
    Text(&'static [u8]),
    /// One octet of a class; one or more; as many as there are.
    One(OctetSet),
    Many(OctetSet),
    Any(OctetSet),
    /// Everything up to the first of these octets, and they.
    To(&'static [u8]),
    /// Everything up to the first `"` that no backslash takes, and it.
    Quoted,
    /// Nothing, where these octets don't come next.
    Unless(&'static [u8]),
    /// The steps since the last such one spell a piece of this kind.
    Is(PieceKind),
}

/// How pieces are spelled. Of two that are equally long the first is taken.
#[rattlefmt::skip]
pub static SPELLINGS: [SpellingPart; 42] = [
    Many(Blank), Is(PieceKind::Blanks),
    Text(b"//"), Any(InLine), Is(PieceKind::LineComment),
    Text(b"/*"), To(b"*/"), Is(PieceKind::BlockComment),
    Many(Digit), Is(PieceKind::Int),
    Text(b"0x"), Many(HexDigit), Is(PieceKind::Hex),
    Many(Run), Is(PieceKind::Word),
    Any(Digit), Text(b"."), Many(Digit), Is(PieceKind::Decimal),
    Text(b"..."), Is(PieceKind::Dots),
    Text(b"--"), Many(Run), Is(PieceKind::Opt),
    Text(b"--"), Many(Run), Text(b"="), Any(Solid), Is(PieceKind::Opt),
    Text(b"\""), Quoted, Is(PieceKind::Str),
    Text(b"`"), To(b"`"), Is(PieceKind::Cmd),
    Text(b"%{"), To(b"}%"), Is(PieceKind::Code),
    Unless(b"/*"), Unless(b"%{"), One(Mark), Is(PieceKind::Symbol),
];

impl PieceKind {
    pub fn is(self, kind: PieceKind) -> bool {
        self as u8 == kind as u8
    }

    /// Whether it only parts tokens.
    pub fn is_gap(self) -> bool {
        self as u8 <= PieceKind::BlockComment as u8
    }

    pub fn name(self) -> &'static str {
        NAMES[self as usize]
    }
}

impl OctetSet {
    fn has(self, octet: u8) -> bool {
        match self {
            Digit => octet.is_ascii_digit(),
            HexDigit => octet.is_ascii_hexdigit(),
            Run => octet.is_ascii_alphanumeric() || octet == b'_',
            Flag => b"FSRPUEWC".contains(&octet),
            Blank => b" \t\r\n".contains(&octet),
            Solid => !b" \t\r\n".contains(&octet),
            InLine => octet != b'\n',
            Mark => octet.is_ascii_punctuation() && !b"\"`_".contains(&octet),
        }
    }

    /// How many octets of this class are at the front.
    pub fn front_len(self, octets: &[u8]) -> usize {
        for at in 0..octets.len() {
            if !self.has(octets[at]) {
                return at;
            }
        }
        octets.len()
    }
}

impl SpellingPart {
    /// How many octets are taken after this step too, if it is spelled so after those that were taken before.
    pub fn after(self, text: &[u8], matched_len: usize) -> Option<usize> {
        let rest = text.get(matched_len..).unwrap_or(&[]);
        let (octets, is_spelled) = match self {
            Text(octets) => (octets.len(), rest.starts_with(octets)),
            One(class) => (1, class.front_len(rest) > 0),
            Many(class) => length_and_whether_any(class.front_len(rest)),
            Any(class) => (class.front_len(rest), true),
            To(closing) => length_and_whether_any(len_through_first_closing(rest, closing, false)),
            Quoted => length_and_whether_any(len_through_first_closing(rest, b"\"", true)),
            Unless(octets) => (0, !rest.starts_with(octets)),
            Is(_) => (0, true),
        };
        if is_spelled {
            Some(matched_len.saturating_add(octets))
        } else {
            None
        }
    }
}

/// So many octets, if there are any.
fn length_and_whether_any(octets: usize) -> (usize, bool) {
    (octets, octets > 0)
}

/// How many octets there are up to the end of the first closing, 0 without one; a backslash may take the octet after it.
fn len_through_first_closing(text: &[u8], closing: &[u8], skips_escaped: bool) -> usize {
    let mut is_escaped = false;
    for at in 0..text.len() {
        if is_escaped {
            is_escaped = false;
        } else if text[at..].starts_with(closing) {
            return at.saturating_add(closing.len());
        } else {
            is_escaped = skips_escaped && text[at] == b'\\';
        }
    }
    0
}
