//! Names, texts and edits, and the words that stand for lines.
use crate::arguments::CallArguments;
use pd_text::{LineEdit, LineList, Lines, Name, TextFault};
use std::alloc::{AllocError, Global};

/// A word, and the lines that it stands for.
#[derive(Drop)]
struct Meaning {
    word: String,
    lines: LineList,
}

/// The words that stand for lines, the newest last.
#[derive(Drop)]
pub struct Texts {
    pub alloc: Global,
    meanings: Vec<Meaning>,
}

impl Texts {
    pub fn new(alloc: Global) -> Texts {
        Texts {
            alloc,
            meanings: Vec::new(alloc),
        }
    }

    /// From now on a word stands for these lines.
    pub fn define(&mut self, word: &str, lines: &str) -> Result<(), AllocError> {
        let word = String::from_str(self.alloc, word)?;
        let lines = self.line_list_of_written(lines)?;
        self.meanings
            .push(Meaning { word, lines })
            .or(Err(AllocError))
    }

    /// The lines that a word stands for, if it does.
    fn meaning(&self, word: &str) -> Option<&LineList> {
        let mut lines = None;
        for meaning in self.meanings.iter() {
            if meaning.word.as_str() == word {
                lines = Some(&meaning.lines);
            }
        }
        lines
    }

    /// The list of the lines and words that are written, parted by ` | `.
    fn line_list_of_written(&self, written: &str) -> Result<LineList, AllocError> {
        let mut list = LineList::new(self.alloc);
        let mut is_whole = true;
        for word in written.split(" | ") {
            is_whole &= self.add(&mut list, word).is_ok();
        }
        if is_whole { Ok(list) } else { Err(AllocError) }
    }

    /// Adds the lines that a word stands for, or it as a line.
    fn add(&self, list: &mut LineList, word: &str) -> Result<(), AllocError> {
        match self.meaning(word) {
            Some(lines) => list.push_line_range_of_other(lines, 0, lines.len()),
            None => self.add_line(list, word),
        }
    }

    /// Adds a line, unless nothing is written: `(empty)` is the empty one, `(blanks) N` one of so many blanks.
    fn add_line(&self, list: &mut LineList, written: &str) -> Result<(), AllocError> {
        let mut arguments = CallArguments::new(written);
        match arguments.word() {
            "" => Ok(()),
            "(empty)" => list.push_or_ignore_if_newline_inside(b""),
            "(blanks)" => self.add_line_of_blanks(list, arguments.number() as usize),
            _ => list.push_or_ignore_if_newline_inside(written.as_bytes()),
        }
    }

    fn add_line_of_blanks(&self, list: &mut LineList, count: usize) -> Result<(), AllocError> {
        let mut blanks = Vec::new(self.alloc);
        blanks.resize(count, b' ')?;
        list.push_or_ignore_if_newline_inside(blanks.as_slice())
    }

    /// The text that is written.
    ///
    /// # Errors
    /// `TooLarge` where it is over the limits of a text.
    pub fn text(&self, written: &str) -> Result<Lines, TextFault> {
        Lines::new(self.line_list_of_written(written)?)
    }

    /// The edit that is written: its first line, how many lines go, and those that come.
    pub fn edit(&self, arguments: &mut CallArguments<'_>) -> Result<LineEdit, AllocError> {
        Ok(LineEdit {
            from: arguments.number() as usize,
            remove: arguments.number() as usize,
            insert: self.line_list_of_written(arguments.rest)?,
        })
    }

    /// The name of these octets, valid or not.
    pub fn name(&self, octets: &[u8]) -> Result<Name, AllocError> {
        let mut own = Vec::new(self.alloc);
        own.extend_from_slice(octets)?;
        Name::new(own)
    }
}
