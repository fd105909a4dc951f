//! Texts, made of octets.
use crate::octet_buffer::split_at_mark;
use pd_text::{LineList, Lines, TextFault};
use std::alloc::{AllocError, Global};

/// The text whose lines are parted by the newlines of these octets.
pub fn text(alloc: Global, octets: &[u8]) -> Result<Lines, TextFault> {
    match line_list(alloc, octets) {
        Ok(list) => Lines::new(list),
        Err(_) => Err(TextFault::OutOfMemory),
    }
}

/// The lines that are parted by the newlines of these octets; none where there is no octet.
pub fn line_list(alloc: Global, octets: &[u8]) -> Result<LineList, AllocError> {
    let mut list = LineList::new(alloc);
    if octets.is_empty() || add_lines(&mut list, octets).is_ok() {
        Ok(list)
    } else {
        Err(AllocError)
    }
}

fn add_lines(list: &mut LineList, octets: &[u8]) -> Result<(), AllocError> {
    let mut left = octets;
    for _line in 0..=octets.len() {
        let (line, rest) = split_at_mark(left, b'\n');
        list.push_or_ignore_if_newline_inside(line)?;
        if line.len() == left.len() {
            return Ok(());
        }
        left = rest;
    }
    Ok(())
}
