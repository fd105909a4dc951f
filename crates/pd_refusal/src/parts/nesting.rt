//! The brackets and commas before a token of an event.
ghost use Rattle.std.specs.Prelude.{◌≡◌};
ghost use Rattle.pd_refusal.specs.Parts.{before_first_token, capped_increment, depth_after, commas_at_depth_one_after, colons_since_sack_after, after_role};

use crate::parts::token_roles::TokenRole;

/// The brackets, commas and colons before a token, and the token just before it. Each count stops at 32, which no count that
/// matters reaches in a script that is read.
#[derive(Clone, Copy)]
pub struct Nesting {
    /// The token just before it.
    pub last: TokenRole,
    /// How many brackets are open.
    pub depth: usize,
    /// How many commas came where one bracket was open.
    pub commas: usize,
    /// How many colons came since the last `sack`.
    pub colons: usize,
}

/// Where counts stop.
const MOST: usize = 32;

impl Nesting {
    /// Before the first token.
    pub fn before_first_token() -> Nesting
        ensures { result ≡ before_first_token }
    {
        Nesting {
            last: TokenRole::Other,
            depth: 0,
            commas: 0,
            colons: 0,
        }
    }

    /// Before the token after this one.
    pub fn after_token(self, role: TokenRole) -> Nesting
        ensures { result ≡ after_role self role }
    {
        Nesting {
            last: role,
            depth: depth_after(self.depth, role),
            commas: commas_at_depth_one_after(self.depth, self.commas, role),
            colons: colons_since_sack_after(self.colons, role),
        }
    }
}

fn capped_increment(count: usize) -> usize
    ensures { result ≡ capped_increment count }
{
    if count < MOST { count + 1 } else { count }
}

fn depth_after(depth: usize, role: TokenRole) -> usize
    ensures { result ≡ depth_after depth role }
{
    match role {
        TokenRole::Parenthesis | TokenRole::Bracket => capped_increment(depth),
        TokenRole::Closing => depth.saturating_sub(1),
        _ => depth,
    }
}

fn commas_at_depth_one_after(depth: usize, commas: usize, role: TokenRole) -> usize
    ensures { result ≡ commas_at_depth_one_after depth commas role }
{
    match role {
        TokenRole::Comma => {
            if depth == 1 {
                capped_increment(commas)
            } else {
                commas
            }
        }
        _ => commas,
    }
}

fn colons_since_sack_after(colons: usize, role: TokenRole) -> usize
    ensures { result ≡ colons_since_sack_after colons role }
{
    match role {
        TokenRole::Sack => 0,
        TokenRole::Colon => capped_increment(colons),
        _ => colons,
    }
}
