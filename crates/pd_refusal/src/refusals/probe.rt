//! Whether a script goes on with some octets, by the grammar's reader.
use pd_script::parse;
use pd_text::{LineList, Lines};
use std::alloc::{AllocError, Global};

/// The line on which a candidate stands, in the text that is tried.
const TRIED: usize = 2;

/// Whether a script goes on with a candidate after these octets. One for which a text has no room isn't tried.
///
/// # Errors
/// `AllocError` where a growth is refused.
pub fn script_goes_on_with(
    alloc: Global,
    before: &[u8],
    candidate: &[u8],
) -> Result<bool, AllocError> {
    match fault_line_of_text_with_candidate(alloc, before, candidate)? {
        Some(line) => Ok(line > TRIED),
        None => Ok(true),
    }
}

/// Whether these octets are a script.
///
/// # Errors
/// `AllocError` where a growth is refused.
pub fn is_script(alloc: Global, octets: &[u8]) -> Result<bool, AllocError> {
    Ok(fault_line_of_text_with_candidate(alloc, octets, b"")?.is_none())
}

/// Whether no script begins with these octets.
///
/// # Errors
/// `AllocError` where a growth is refused.
pub fn begins_no_script(alloc: Global, octets: &[u8]) -> Result<bool, AllocError> {
    match fault_line_of_text_with_candidate(alloc, octets, b"")? {
        Some(line) => Ok(line < TRIED),
        None => Ok(false),
    }
}

/// The fault of a text of three lines: these octets, a candidate, and nothing, so that the end of the text is on a line of
/// its own. A text that has no room for them is refused at the candidate. None of those that are tried has a newline.
fn fault_line_of_text_with_candidate(
    alloc: Global,
    before: &[u8],
    candidate: &[u8],
) -> Result<Option<usize>, AllocError> {
    let mut list = LineList::new(alloc);
    list.push_or_ignore_if_newline_inside(before)?;
    list.push_or_ignore_if_newline_inside(candidate)?;
    list.push_or_ignore_if_newline_inside(b"")?;
    match Lines::new(list) {
        Ok(lines) => Ok(parse(alloc, &lines)?.fault),
        Err(_) => Ok(Some(TRIED)),
    }
}
