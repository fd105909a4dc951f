//! The next token of a text.
ghost use Rattle.std.specs.Prelude.{◌≡◌, ◌≤◌, true, [], ◌∷◌, length, take, IfSome};
ghost use Rattle.pd_lex.specs.Numbers.{capped_number};
ghost use Rattle.pd_lex.specs.Scanned.{first_octet_or_zero, IsLeftInLine};
ghost use Rattle.pd_lex.specs.Pieces.{piece};
ghost use Rattle.pd_lex.specs.declared.scan.Piece.TheVariants.{Whole};
ghost use Rattle.pd_lex.specs.declared.token.TokenKind.TheVariants.{Int, Symbol};
ghost use Rattle.pd_lex.specs.Lexing.{IsNext};
ghost use Rattle.pd_text.specs.Text.{AreLines};
ghost use Rattle.pd_lex.specs.Next.{IsCut, IsReadAt, HasLine, HasText, HasLineAfter};
ghost use Rattle.pd_lex.specs.Places.{line_at};

use crate::classes::{OctetClass, class_of};
use crate::fast_path::{
    FastToken, int_or_decimal_token_if_few_whole_digits, symbol_token_trusting_first_octet,
    three_dots_or_point_before_blank_token, word_token_trusting_first_octet,
};
use crate::numbers::number_if_int_or_zero;
use crate::places::{first_nonblank_from, line_or_empty};
use crate::scan::is_digit;
use crate::step::{LexStep, step_at};
use crate::token::{Lexed, Lookahead, Place, Token};
use pd_text::Lines;

/// The first token from a place on, with the place after it: blanks and comments are passed over.
/// At a place of line 0 it starts at the text's first octet, past the end of a line at that line's
/// newline. It ends at the text's end, or at the line where no token can be read: at an octet that
/// begins none, or where a comment, a string, a command or code is opened and never closed.
pub fn next_token<'a>(lines: &'a Lines, place: Place) -> Lexed<'a>
    ensures next { IsNext lines.now place result }
    ensures cut { IsCut lines.now place result }
    ensures line { HasLine lines.now result }
    ensures text { HasText lines.now result }
{
    next_token_and_octets_of_its_end_line(lines, place).next
}

/// `next_token`, with the line of the place after it.
pub fn next_token_and_octets_of_its_end_line<'a>(lines: &'a Lines, place: Place) -> Lookahead<'a>
    ensures next { IsNext lines.now place result.next }
    ensures cut { IsCut lines.now place result.next }
    ensures line { HasLine lines.now result.next }
    ensures text { HasText lines.now result.next }
    ensures after { HasLineAfter lines.now result.next result.line.now }
{
    let mut lookahead = Lookahead {
        line: &[],
        next: Lexed::End,
    };
    set_lookahead_to_token_past_blank_lines(lines, place, &mut lookahead);
    lookahead
}

/// The same, put in the place of what was read before, where the line of the place is known.
#[inline(always)]
pub fn advance_lookahead_from_place_in_its_line<'a>(
    lines: &'a Lines,
    place: Place,
    lookahead: &mut Lookahead<'a>,
)
    requires one { 1 ≤ place.line }
    requires known { lookahead.old.line.now ≡ line_at lines.now place.line }
    ensures next { IsNext lines.now place lookahead.new.next }
    ensures cut { IsCut lines.now place lookahead.new.next }
    ensures line { HasLine lines.now lookahead.new.next }
    ensures text { HasText lines.now lookahead.new.next }
    ensures after { HasLineAfter lines.now lookahead.new.next lookahead.new.line.now }
{
    lines.law_invariant();
    let octets = lookahead.line;
    let at = first_nonblank_from(octets, place.at);
    if at >= octets.len() {
        return set_lookahead_to_token_past_blank_lines(lines, place, lookahead);
    }
    let from = Place {
        line: place.line,
        at,
    };
    set_lookahead_by_class_of_first_octet(lines, from, &octets[at..], lookahead);
}

/// Looks lines up until one has more than blanks. It is apart, since it comes once a line.
#[inline(never)]
fn set_lookahead_to_token_past_blank_lines<'a>(
    lines: &'a Lines,
    place: Place,
    lookahead: &mut Lookahead<'a>,
)
    ensures { IsReadAt lines.now place lookahead.new.next lookahead.new.line.now }
{
    let mut here = place;
    'lines: loop {
        let Some(octets) = lines.line(here.line) else {
            return set_lookahead_past_blanks_and_comments(lines, here, lookahead);
        };
        let at = first_nonblank_from(octets, here.at);
        if at >= octets.len() {
            here = Place::line_start(here.line + 1);
            continue;
        }
        let from = Place {
            line: here.line,
            at,
        };
        lookahead.line = octets;
        return set_lookahead_by_class_of_first_octet(lines, from, &octets[at..], lookahead);
    }
}

/// Reads the token at a place in a line, of which this much is left, by its first octet.
#[inline(always)]
fn set_lookahead_by_class_of_first_octet<'a>(
    lines: &'a Lines,
    from: Place,
    rest: &'a [u8],
    lookahead: &mut Lookahead<'a>,
)
    requires left { IsLeftInLine lines.now from rest.now }
    requires plain { AreLines lines.now }
    requires known { lookahead.old.line.now ≡ line_at lines.now from.line }
    ensures { IsReadAt lines.now from lookahead.new.next lookahead.new.line.now }
{
    match class_of(rest[0]) {
        OctetClass::Symbol => set_fast_token_or_read_any(
            lines,
            from,
            rest,
            symbol_token_trusting_first_octet(rest),
            lookahead,
        ),
        _ => set_lookahead_to_token_of_non_symbol_class(lines, from, rest, lookahead),
    }
}

/// Reads a token that its first octet doesn't show to be a symbol. It is apart, since a symbol
/// needs fewer registers.
#[inline(never)]
fn set_lookahead_to_token_of_non_symbol_class<'a>(
    lines: &'a Lines,
    from: Place,
    rest: &'a [u8],
    lookahead: &mut Lookahead<'a>,
)
    requires left { IsLeftInLine lines.now from rest.now }
    requires plain { AreLines lines.now }
    requires known { lookahead.old.line.now ≡ line_at lines.now from.line }
    ensures { IsReadAt lines.now from lookahead.new.next lookahead.new.line.now }
{
    if is_digit(rest[0]) {
        return set_lookahead_to_token_beginning_with_digit(lines, from, rest, lookahead);
    }
    match class_of(rest[0]) {
        OctetClass::Letter => set_fast_token_or_read_any(
            lines,
            from,
            rest,
            word_token_trusting_first_octet(rest),
            lookahead,
        ),
        _ => set_lookahead_to_dots_point_or_any(lines, from, rest, lookahead),
    }
}

/// Reads a piece that begins with a digit. It is apart, since a word needs fewer registers.
#[inline(never)]
fn set_lookahead_to_token_beginning_with_digit<'a>(
    lines: &'a Lines,
    from: Place,
    rest: &'a [u8],
    lookahead: &mut Lookahead<'a>,
)
    requires left { IsLeftInLine lines.now from rest.now }
    requires plain { AreLines lines.now }
    requires known { lookahead.old.line.now ≡ line_at lines.now from.line }
    ensures { IsReadAt lines.now from lookahead.new.next lookahead.new.line.now }
{
    set_fast_token_or_read_any(
        lines,
        from,
        rest,
        int_or_decimal_token_if_few_whole_digits(rest),
        lookahead,
    );
}

/// Reads what begins with a point, or with an octet of no class.
#[inline(never)]
fn set_lookahead_to_dots_point_or_any<'a>(
    lines: &'a Lines,
    from: Place,
    rest: &'a [u8],
    lookahead: &mut Lookahead<'a>,
)
    requires left { IsLeftInLine lines.now from rest.now }
    requires plain { AreLines lines.now }
    requires known { lookahead.old.line.now ≡ line_at lines.now from.line }
    ensures { IsReadAt lines.now from lookahead.new.next lookahead.new.line.now }
{
    set_fast_token_or_read_any(
        lines,
        from,
        rest,
        three_dots_or_point_before_blank_token(rest),
        lookahead,
    );
}

/// Puts the token that was found at the front of what is left of a line in the place of what was
/// read before; reads any where none was found.
#[inline(always)]
fn set_fast_token_or_read_any<'a>(
    lines: &'a Lines,
    from: Place,
    rest: &'a [u8],
    found: Option<FastToken>,
    lookahead: &mut Lookahead<'a>,
)
    requires left { IsLeftInLine lines.now from rest.now }
    requires plain { AreLines lines.now }
    requires known { lookahead.old.line.now ≡ line_at lines.now from.line }
    requires piece { IfSome found (λ p. Whole p.kind p.len ≡ piece rest.now) }
    requires within { IfSome found (λ p. p.len ≤ length rest.now) }
    requires number { IfSome found (λ p. p.kind ≡ Int → p.number ≡ capped_number (take p.len rest.now)) }
    requires symbol { IfSome found (λ p. p.kind ≡ Symbol → take p.len rest.now ≡ p.symbol ∷ []) }
    ensures { IsReadAt lines.now from lookahead.new.next lookahead.new.line.now }
{
    let Some(plain) = found else {
        return set_lookahead_past_blanks_and_comments(lines, from, lookahead);
    };
    lookahead.next = Lexed::Token(Token {
        kind: plain.kind,
        symbol: plain.symbol,
        number: plain.number,
        text: &rest[..plain.len],
        from,
        to: Place {
            line: from.line,
            at: from.at + plain.len,
        },
    });
}

/// Reads any token, also after comments.
#[inline(never)]
fn set_lookahead_past_blanks_and_comments<'a>(
    lines: &'a Lines,
    place: Place,
    lookahead: &mut Lookahead<'a>,
)
    ensures { IsReadAt lines.now place lookahead.new.next lookahead.new.line.now }
{
    let mut here = if place.line == 0 {
        Place::first()
    } else {
        place
    };
    'gaps: loop {
        let Some(line) = lines.line(here.line) else {
            lookahead.next = Lexed::End;
            return;
        };
        let at = first_nonblank_from(line, here.at);
        if at >= line.len() {
            here = Place::line_start(here.line + 1);
            continue;
        }
        let from = Place {
            line: here.line,
            at,
        };
        match step_at(lines, from, &line[at..]) {
            LexStep::Gap(after) => here = after,
            LexStep::Token(kind, text, to) => {
                lookahead.line = line_or_empty(lines, to.line);
                lookahead.next = Lexed::Token(Token {
                    kind,
                    symbol: first_octet_or_zero(text),
                    number: number_if_int_or_zero(kind, text),
                    text,
                    from,
                    to,
                });
                return;
            }
            LexStep::Stray => {
                lookahead.next = Lexed::Bad(from.line);
                return;
            }
        }
    }
}

/// The first octet of a token, or 0.
fn first_octet_or_zero(text: &[u8]) -> u8
    ensures { result ≡ first_octet_or_zero text.now }
{
    match text {
        [octet, ..] => *octet,
        [] => 0,
    }
}
