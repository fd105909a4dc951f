//! The tokens of a packetdrill script.
//!
//! `next_token` passes over blanks and comments, and gives the token at a `Place` of a text, the
//! end of the text, or the line where no token can be read (`Lexed`). A `Token` has its kind, its
//! octets, the meaning of a symbol or a whole number, and the place after it. `next_token_and_octets_of_its_end_line` and
//! `advance_lookahead_from_place_in_its_line` are for a reader that goes on from token to token: they hand on the line of that
//! place, so that it isn't looked up again.
//!
//! A token is the longest piece that the text has at its place: `IsLongest` (specs/Spellings.antt).
//! A text has the items that follow from that, and no others: `AreItemsOf` (specs/Tokens.antt), the
//! law `law_tokens_are_exactly_longest_pieces`. Texts with equal first lines have the same tokens there: `AgreeTo`
//! (specs/Agreement.antt), the law `law_first_lines_fix_tokens_in_order`.
//!
//! Why it is so:
//! - No list of tokens is made. A place is all that is needed to go on, so the lexer keeps no state
//!   and takes no memory, and an edited text can be read again from the middle.
//! - `next_token` has no condition on its place, so that callers need no proof of it. A place past
//!   the end of a line reads as its newline, one past the last line as the end, and line 0 as the
//!   first place.
//! - The module `plain` reads the common tokens by the class of their first octet. `step` reads
//!   every kind, those that span lines, too. Both are held to one definition, `IsReadAt`
//!   (specs/Next.antt), so the quick way can't differ from the other.
//! - A string, a command and code may span lines, and no rule reads what is in them. Their tokens
//!   have no octets.
#![tactic(auto)]

mod classes;
mod closing;
mod fast_path;
mod laws;
mod next;
mod numbers;
mod places;
mod scan;
mod step;
mod token;

pub use laws::{
    law_first_lines_fix_tokens_in_order, law_lexing_resumes_at_token_end,
    law_tokens_are_exactly_longest_pieces,
};
pub use next::{
    advance_lookahead_from_place_in_its_line, next_token, next_token_and_octets_of_its_end_line,
};
pub use numbers::{digit_value, saturating_decimal_value, saturating_value_with_more_digits};
pub use token::{Lexed, Lookahead, Place, Token, TokenKind};
