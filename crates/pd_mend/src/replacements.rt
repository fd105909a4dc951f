//! Fields of a line that are written anew, each in its column.
use crate::tokens::{Columns, octets_from, octets_in_columns};
use pd_text::Lines;
use std::alloc::{AllocError, Global};

/// A line with some of its fields written anew, from left to right. Where two blanks or more follow a field, what is after them
/// keeps its column as long as one blank is left.
#[derive(Drop)]
pub struct FieldEdits<'a> {
    /// The line as it was.
    octets: &'a [u8],
    /// How many of its octets were taken over.
    at: usize,
    /// The octets written so far.
    out: Vec<u8>,
    /// How many blanks come next.
    blanks: usize,
    /// The column of what follows the first field, if that is known.
    column: Option<usize>,
    /// How many octets the fields since the last column had.
    width: usize,
    /// How many they have now.
    new_width: usize,
}

impl<'a> FieldEdits<'a> {
    /// Of a line, before its first field; the octets after it get this column, if one is named.
    pub fn new(alloc: Global, octets: &'a [u8], column: Option<usize>) -> FieldEdits<'a> {
        FieldEdits {
            octets,
            at: 0,
            out: Vec::new(alloc),
            blanks: 0,
            column,
            width: 0,
            new_width: 0,
        }
    }

    /// Writes a field anew.
    ///
    /// # Errors
    /// `AllocError` where a growth is refused.
    pub fn replace_field(&mut self, columns: Columns, field: &[u8]) -> Result<(), AllocError> {
        self.copy_octets_up_to(columns.from)?;
        self.put_pending_blanks_keeping_column()?;
        self.out.extend_from_slice(field)?;
        self.at = columns.to;
        self.width = self
            .width
            .saturating_add(columns.to.saturating_sub(columns.from));
        self.new_width = self.new_width.saturating_add(field.len());
        Ok(())
    }

    /// The line, of which an event ends at a place: the octets right after it keep their column too.
    ///
    /// # Errors
    /// `AllocError` where a growth is refused.
    pub fn finish(self, end: usize) -> Result<Vec<u8>, AllocError> {
        let mut field_edits = self;
        field_edits.copy_octets_up_to(end)?;
        let after = octets_from(field_edits.octets, field_edits.at);
        let blanks = after.iter().take_while(|octet| **octet == b' ').count();
        if blanks < after.len() {
            field_edits.blanks = blanks;
            field_edits.at = field_edits.at.saturating_add(blanks);
            field_edits.put_pending_blanks_keeping_column()?;
        }
        let FieldEdits {
            octets,
            at,
            out,
            ..
        } = field_edits;
        let mut out = out;
        out.extend_from_slice(octets_from(octets, at))?;
        Ok(out)
    }

    /// Takes over the octets up to a place.
    fn copy_octets_up_to(&mut self, to: usize) -> Result<(), AllocError> {
        let columns = Columns { from: self.at, to };
        for octet in octets_in_columns(self.octets, columns) {
            if *octet == b' ' {
                self.blanks = self.blanks.saturating_add(1);
            } else {
                self.put_pending_blanks_keeping_column()?;
                self.out.push(*octet)?;
            }
        }
        self.at = self.at.max(to);
        Ok(())
    }

    /// Writes the blanks that come next, as many as keep the column.
    fn put_pending_blanks_keeping_column(&mut self) -> Result<(), AllocError> {
        if self.blanks == 0 {
            return Ok(());
        }
        let mut count = self.blanks;
        if let Some(column) = self.column {
            count = column.saturating_sub(self.out.len()).max(1);
        } else if self.blanks > 1 {
            count = count
                .saturating_add(self.width)
                .saturating_sub(self.new_width)
                .max(1);
        }
        if self.column.is_some() || self.blanks > 1 {
            self.width = 0;
            self.new_width = 0;
        }
        self.column = None;
        self.blanks = 0;
        for _ in 0..count {
            self.out.push(b' ')?;
        }
        Ok(())
    }
}

/// The column of what follows the first field of a line, where the line before or after it has it there too, or has it where that
/// field goes beyond.
pub fn second_column_if_aligned_with_neighbours(
    lines: &Lines,
    number: usize,
    octets: &[u8],
) -> Option<usize> {
    let own = second_field_column(octets)?;
    let before = lines.line(number.saturating_sub(1)).unwrap_or(&[]);
    let after = lines.line(number.saturating_add(1)).unwrap_or(&[]);
    let beside = match second_field_column(before) {
        Some(column) => Some(column),
        None => second_field_column(after),
    };
    if second_field_column(after) == Some(own) {
        return Some(own);
    }
    let first = first_field_length(octets);
    match beside {
        Some(column) if column == own => Some(own),
        Some(column) if column <= first && own == first.saturating_add(1) => Some(column),
        _ => None,
    }
}

fn first_field_length(octets: &[u8]) -> usize {
    octets.iter().take_while(|octet| **octet != b' ').count()
}

/// Where the second field of a line begins.
fn second_field_column(octets: &[u8]) -> Option<usize> {
    let first = first_field_length(octets);
    let blanks = octets_from(octets, first)
        .iter()
        .take_while(|octet| **octet == b' ')
        .count();
    let at = first.saturating_add(blanks);
    if first > 0 && at < octets.len() {
        Some(at)
    } else {
        None
    }
}
