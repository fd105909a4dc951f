//! The text to print.
use std::alloc::{AllocError, Global};
use std::{io, str};

/// The text so far.
#[derive(Drop)]
pub struct OutputText {
    text: String,
    /// Whether everything to print was read and found room.
    pub is_whole: bool,
}

impl OutputText {
    pub fn new(alloc: Global) -> OutputText {
        OutputText {
            text: String::new(alloc),
            is_whole: true,
        }
    }

    pub fn as_str(&self) -> &str {
        self.text.as_str()
    }

    pub fn push_str(&mut self, piece: &str) {
        if self.text.push_str(piece).is_err() {
            self.is_whole = false;
        }
    }

    pub fn number(&mut self, number: u64) {
        if write!(self.text, "{number}").is_err() {
            self.is_whole = false;
        }
    }

    pub fn octets(&mut self, octets: &[u8]) {
        self.push_str(str::from_utf8(octets).unwrap_or("(not in letters)"));
    }

    /// Says what was written, if it found room.
    pub fn written(&mut self, written: Result<Vec<u8>, AllocError>) {
        match written {
            Ok(octets) => self.octets(octets.as_slice()),
            Err(_) => self.is_whole = false,
        }
    }

    /// Prints the text.
    ///
    /// # Errors
    /// Where the output fails, or something to print wasn't read or found no room.
    pub fn print(&self, rt: &impl Print) -> io::Result<()> {
        if self.is_whole {
            rt.print(self.as_str())
        } else {
            Err(AllocError.into())
        }
    }
}
