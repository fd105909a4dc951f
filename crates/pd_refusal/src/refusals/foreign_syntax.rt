//! Syntax that people write in scripts and the grammar doesn't have, named.
ghost use Rattle.std.specs.Prelude.{◌≡◌};
ghost use Rattle.pd_refusal.specs.ForeignSyntax.{foreign_syntax_of_octet_after, foreign_syntax_at};

/// Syntax where no script goes on, which has a meaning elsewhere.
#[derive(Clone, Copy)]
pub enum ForeignSyntax {
    /// The byte order mark of UTF-8.
    ByteOrderMark,
    /// `#`, with which a comment begins elsewhere.
    Hash,
    /// `;`, with which a statement ends elsewhere.
    Semicolon,
    /// `?`, packetdrill's result that isn't compared.
    AnyResult,
    /// A bracket that follows an arrow: packetdrill's bits of ECN.
    EcnBits,
}

impl ForeignSyntax {
    /// The foreign syntax with which some octets begin, which follow a token with this octet, if that is a symbol.
    pub fn at_start_of(octets: &[u8], after: u8) -> Option<ForeignSyntax>
        ensures { result ≡ foreign_syntax_at after octets.now }
    {
        match octets {
            [] => None,
            [0xef, 0xbb, 0xbf, ..] => Some(ForeignSyntax::ByteOrderMark),
            [octet, ..] => foreign_syntax_of_octet_after(after, *octet),
        }
    }

    /// Its description, in words.
    pub fn words(self) -> &'static str {
        match self {
            ForeignSyntax::ByteOrderMark => "a byte order mark; a script begins without one",
            ForeignSyntax::Hash => "`#`; a comment is `// ..` or `/* .. */`",
            ForeignSyntax::Semicolon => "`;`; an event ends where the next one's time begins",
            ForeignSyntax::AnyResult => "`= ?`, any result; here a result is a number",
            ForeignSyntax::EcnBits => "bits of ECN (RFC 3168), which this sender hasn't",
        }
    }
}

fn foreign_syntax_of_octet_after(after: u8, octet: u8) -> Option<ForeignSyntax>
    ensures { result ≡ foreign_syntax_of_octet_after after octet }
{
    if octet == b'#' {
        Some(ForeignSyntax::Hash)
    } else if octet == b';' {
        Some(ForeignSyntax::Semicolon)
    } else if octet == b'?' && after == b'=' {
        Some(ForeignSyntax::AnyResult)
    } else if octet == b'[' && (after == b'<' || after == b'>') {
        Some(ForeignSyntax::EcnBits)
    } else {
        None
    }
}
