//! Octets of a script as they are shown, so that no script writes to a terminal what its reader didn't ask for.
ghost use Rattle.std.specs.Prelude.{◌≡◌, ◌≤◌, ◌+◌, ◌-◌, ◌++◌, true, false, length, None, IfOk, OnOk};
ghost use Rattle.pd_refusal.specs.Escape.{is_printable, are_printable, hex_digit, escaped_octet, escaped};

use std::alloc::{AllocError, Global};

/// How many shown octets of a line are printed at most.
const MAX_PRINTED: usize = 200;

/// How many of them are before a mark that is far along a line.
const BEFORE_MARK: usize = 100;

/// How many octets `\xHH` has.
const ESCAPED: usize = 4;

fn is_printable(octet: u8) -> bool
    ensures { result ≡ is_printable octet }
{
    matches!(octet, 0x20..=0x7e)
}

fn hex_digit(value: u8) -> u8
    ensures { result ≡ hex_digit value }
{
    if value < 10 {
        b'0' + value
    } else {
        b'a' + value.saturating_sub(10).min(5)
    }
}

/// Adds octets as they are shown: a printable one as itself, any other as `\xHH`.
///
/// # Errors
/// `AllocError` where a growth is refused.
fn put_with_unprintables_as_hex(out: &mut Vec<u8>, octets: &[u8]) -> Result<(), AllocError>
    ensures { OnOk result (out.new.items ≡ out.old.items ++ escaped octets.now) }
{
    for octet in octets {
        put_octet_as_hex_unless_printable(out, *octet)?;
    }
    Ok(())
}

/// Octets as they are shown.
///
/// # Errors
/// `AllocError` where a growth is refused.
pub fn escaped(alloc: Global, octets: &[u8]) -> Result<Vec<u8>, AllocError>
    ensures { IfOk result (λ text. text.items ≡ escaped octets.now) }
{
    let mut text = Vec::new(alloc);
    put_with_unprintables_as_hex(&mut text, octets)?;
    Ok(text)
}

fn put_octet_as_hex_unless_printable(out: &mut Vec<u8>, octet: u8) -> Result<(), AllocError>
    ensures { OnOk result (out.new.items ≡ out.old.items ++ escaped_octet octet) }
{
    if is_printable(octet) {
        out.push(octet)?;
        return Ok(());
    }
    out.extend_from_slice(&[b'\\', b'x', hex_digit(octet / 16), hex_digit(octet % 16)])
}

/// A shown line, cut at 200 octets; `..` is in the place of what is cut off.
///
/// # Errors
/// `AllocError` where a growth is refused.
pub fn truncated(alloc: Global, line: &[u8]) -> Result<Vec<u8>, AllocError>
    ensures printable { IfOk result (λ cut. are_printable line.now ≡ true → are_printable cut.items ≡ true) }
    ensures short { IfOk result (λ cut. length line.now ≤ 200 → cut.items ≡ line.now) }
{
    let (cut, _) = truncated_around_mark_and_new_column(alloc, line, 0)?;
    Ok(cut)
}

/// A shown line, cut to 200 octets around the one at `mark`, and where that one stands then.
///
/// # Errors
/// `AllocError` where a growth is refused.
pub fn truncated_around_mark_and_new_column(
    alloc: Global,
    line: &[u8],
    mark: usize,
) -> Result<(Vec<u8>, usize), AllocError>
    ensures printable { IfOk result (λ cut. are_printable line.now ≡ true → are_printable cut.0.items ≡ true) }
    ensures short { IfOk result (λ cut. mark ≡ 0 → length line.now ≤ 200 → cut.0.items ≡ line.now) }
{
    let start = truncation_start(line, mark);
    let end = truncation_end(line, start);
    let mut cut = Vec::new(alloc);
    put_ellipsis_if_cut(&mut cut, start > 0)?;
    let column = mark.saturating_sub(start).saturating_add(cut.len());
    append_given_octets(&mut cut, clamped_part(line, start, end))?;
    put_ellipsis_if_cut(&mut cut, end < line.len())?;
    Ok((cut, column))
}

/// Adds a part of a line.
#[tactic(auto, using(crate::proofs::EscapeLemmas::joined))]
fn append_given_octets(out: &mut Vec<u8>, clamped_part: &[u8]) -> Result<(), AllocError>
    ensures printable { OnOk result (are_printable out.old.items ≡ true → are_printable clamped_part.now ≡ true → are_printable out.new.items ≡ true) }
    ensures octets { OnOk result (out.new.items ≡ out.old.items ++ clamped_part.now) }
{
    out.extend_from_slice(clamped_part)
}

/// Adds what is in the place of what is cut off, if something is.
fn put_ellipsis_if_cut(out: &mut Vec<u8>, is_cut: bool) -> Result<(), AllocError>
    ensures printable { OnOk result (are_printable out.old.items ≡ true → are_printable out.new.items ≡ true) }
    ensures none { OnOk result (is_cut ≡ false → out.new.items ≡ out.old.items) }
{
    if is_cut {
        append_given_octets(out, b"..")?;
    }
    Ok(())
}

/// The octets from a place up to another.
#[tactic(auto, using(crate::proofs::EscapeLemmas::ranged))]
pub(crate) fn clamped_part(line: &[u8], start: usize, end: usize) -> &[u8]
    ensures printable { are_printable line.now ≡ true → are_printable result.now ≡ true }
    ensures whole { start ≡ 0 → length line.now ≤ end → result.now ≡ line.now }
    ensures most { length result.now ≤ length line.now - start }
{
    let end = end.min(line.len());
    let start = start.min(end);
    &line[start..end]
}

/// Where what is shown of a line begins: at its begin where the mark is near, else a little before the mark, or so that it
/// ends with the line.
fn truncation_start(line: &[u8], mark: usize) -> usize
    ensures { mark ≡ 0 → result ≡ 0 }
{
    if mark < MAX_PRINTED - BEFORE_MARK / 2 {
        return 0;
    }
    let wanted = mark.saturating_sub(BEFORE_MARK);
    let start = wanted.min(line.len().saturating_sub(MAX_PRINTED));
    match find_torn_escape_start(line, start) {
        Some(escape) => escape.saturating_add(ESCAPED),
        None => start,
    }
}

/// Where what is shown from a place on ends.
fn truncation_end(line: &[u8], start: usize) -> usize
    ensures { start ≡ 0 → length line.now ≤ 200 → result ≡ length line.now }
{
    let end = start.saturating_add(MAX_PRINTED).min(line.len());
    find_torn_escape_start(line, end).unwrap_or(end)
}

/// Where the `\xHH` begins that a cut before an octet would tear.
fn find_torn_escape_start(line: &[u8], at: usize) -> Option<usize>
    ensures { at ≡ length line.now → result ≡ None }
{
    for back in 1..ESCAPED {
        if at >= back && begins_with_escape(clamped_part(line, at - back, line.len())) {
            return Some(at - back);
        }
    }
    None
}

/// Whether a line begins with `\xHH`.
fn begins_with_escape(line: &[u8]) -> bool
    ensures { result ≡ true → 4 ≤ length line.now }
{
    match line {
        [b'\\', b'x', high, low, ..] => high.is_ascii_hexdigit() && low.is_ascii_hexdigit(),
        _ => false,
    }
}
