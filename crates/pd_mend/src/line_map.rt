//! Which line of a text as it was given each line of a mended one comes from.
use std::alloc::{AllocError, Global};

/// The line of the given text from which each line comes, counted from 1.
#[derive(Drop)]
pub struct LineMap {
    lines: Vec<usize>,
}

impl LineMap {
    /// Of a text of so many lines, before its first mend.
    ///
    /// # Errors
    /// `AllocError` where a growth is refused.
    pub fn new(alloc: Global, count: usize) -> Result<LineMap, AllocError> {
        let mut lines = Vec::new(alloc);
        for number in 1..=count {
            lines.push(number)?;
        }
        Ok(LineMap { lines })
    }

    /// Where a line comes from.
    pub fn origin_line_or_line_itself(&self, line: usize) -> usize {
        match self.lines.get(line.saturating_sub(1)) {
            Some(origin) => *origin,
            None => line,
        }
    }

    /// After so many lines were put in the place of one, from which they come, or before it, with none taken away.
    ///
    /// # Errors
    /// `AllocError` where a growth is refused.
    pub fn after_edit(
        &self,
        alloc: Global,
        line: usize,
        removed: usize,
        count: usize,
    ) -> Result<LineMap, AllocError> {
        let mut lines = Vec::new(alloc);
        let mut number = 0usize;
        for origin in &self.lines {
            number = number.saturating_add(1);
            if number == line {
                for _ in 0..count {
                    lines.push(*origin)?;
                }
            }
            if number != line || removed == 0 {
                lines.push(*origin)?;
            }
        }
        if line > number {
            for _ in 0..count {
                lines.push(self.origin_line_or_line_itself(number))?;
            }
        }
        Ok(LineMap { lines })
    }
}
