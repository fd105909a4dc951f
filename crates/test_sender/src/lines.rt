//! Texts of one line.
use pd_text::{LineList, Lines, TextFault};
use std::alloc::Global;

/// The text of these octets as one line; where they aren't one, it is empty.
pub fn one_line(alloc: Global, octets: &[u8]) -> Result<Lines, TextFault> {
    let mut list = LineList::new(alloc);
    list.push_or_ignore_if_newline_inside(octets)?;
    Lines::new(list)
}
