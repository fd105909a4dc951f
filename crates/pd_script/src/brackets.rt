//! Pairs of brackets.
ghost use Rattle.std.specs.Prelude.{◌≡◌, ◌<◌, ◌≤◌, [], ◌∷◌, length, Some, None, IfSome, IfNone, OnOk, OnErr, nat_eq, ◌==◌};
ghost use Rattle.pd_script.specs.Brackets.{bracket_opened_by, is_closing_bracket, closing_octet, pairs_after};
ghost use Rattle.pd_script.specs.Cursor.{shown};

use crate::parse_error::ParseError;
use crate::token_tests::is_symbol;
use arrayvec::ArrayVec;
use pd_lex::Token;
use std::marker::Model;

/// The greatest number of pairs inside one another.
pub const MAX_DEPTH: usize = 16;

/// A pair of brackets.
#[derive(Clone, Copy, Default)]
pub enum Bracket {
    #[default]
    Round,
    Square,
    Curly,
}

impl Bracket {
    ghost use Rattle.pd_script.specs.Brackets.{closing_octet};

    fn closing_octet(self) -> u8
        ensures { result ≡ closing_octet self }
    {
        match self {
            Bracket::Round => b')',
            Bracket::Square => b']',
            Bracket::Curly => b'}',
        }
    }
}

/// The pair that a token opens.
fn bracket_opened_by(token: &Token) -> Option<Bracket>
    ensures { result ≡ bracket_opened_by (shown token.now) }
{
    if is_symbol(token, b'(') {
        Some(Bracket::Round)
    } else if is_symbol(token, b'[') {
        Some(Bracket::Square)
    } else if is_symbol(token, b'{') {
        Some(Bracket::Curly)
    } else {
        None
    }
}

fn is_closing_bracket(token: &Token) -> bool
    ensures { result ≡ is_closing_bracket (shown token.now) }
{
    is_symbol(token, b')') || is_symbol(token, b']') || is_symbol(token, b'}')
}

/// The pairs that are open, the innermost first; at most 16.
#[derive(Drop)]
pub struct OpenPairs {
    /// The opening brackets, the outermost first.
    pairs: ArrayVec<Bracket, 16>,
}

impl Model for OpenPairs {
    ghost use Rattle.std.specs.Prelude.{List, reverse};
    ghost use Rattle.pd_script.specs.declared.brackets.Bracket.{Bracket};

    ghost Value = { List Bracket };

    ghost view = { λ p. reverse p.pairs.items };
}

impl OpenPairs {
    /// No pair is open.
    pub fn new() -> OpenPairs
        ensures { result ≡ [] }
    {
        OpenPairs {
            pairs: ArrayVec::new(),
        }
    }

    /// Whether no pair is open.
    pub fn is_empty(&self) -> bool
        ensures { result ≡ (length self.now == 0) }
    {
        self.pairs.len() == 0
    }

    fn len(&self) -> usize
        ensures { result ≡ length self.now }
    {
        self.pairs.len()
    }

    fn push(&mut self, bracket: Bracket)
        requires { length self.old < 16 }
        ensures { self.new ≡ bracket ∷ self.old }
    {
        self.pairs.push(bracket);
    }

    fn pop(&mut self) -> Option<Bracket>
        ensures some { IfSome result (λ bracket. self.old ≡ bracket ∷ self.new) }
        ensures none { IfNone result (self.old ≡ []) }
    {
        self.pairs.pop()
    }

    /// Goes over a token, where at most so many pairs may be open.
    ///
    /// # Errors
    /// `Syntax` where the token opens a pair while so many are open, or closes another than the innermost, or none is open.
    #[inline(always)]
    pub fn update_by_token_within_depth(
        &mut self,
        token: &Token,
        most: usize,
    ) -> Result<(), ParseError>
        requires { most ≤ 16 }
        ensures ok { OnOk result (pairs_after most self.old (shown token.now) ≡ Some self.new) }
        ensures err { OnErr result (pairs_after most self.old (shown token.now) ≡ None) }
        ensures syntax { OnErr result (result ≡ Err ParseError.Syntax) }
    {
        if let Some(bracket) = bracket_opened_by(token) {
            if self.len() >= most {
                return Err(ParseError::Syntax);
            }
            self.push(bracket);
        } else if is_closing_bracket(token) {
            let Some(bracket) = self.pop() else {
                return Err(ParseError::Syntax);
            };
            if !is_symbol(token, bracket.closing_octet()) {
                return Err(ParseError::Syntax);
            }
        }
        Ok(())
    }
}
