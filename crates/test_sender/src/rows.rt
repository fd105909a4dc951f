//! Rows of words, parted by single blanks: a call with its arguments, and then its wanted answer.
use pd_seg::Span;

/// The answer in a row where a call found no memory.
pub const NO_MEMORY: &str = "memory";

/// The words of a row that aren't read yet, and the first difference from its words.
#[derive(Drop)]
pub struct RowReader<'a> {
    rest: &'a str,
    pub difference: Option<&'static str>,
}

impl<'a> RowReader<'a> {
    pub fn new(row: &'a str) -> RowReader<'a> {
        RowReader {
            rest: row,
            difference: None,
        }
    }

    /// The next word; empty where there is none.
    pub fn word(&mut self) -> &'a str {
        let (word, rest) = self.rest.split_once(" ").unwrap_or((self.rest, ""));
        self.rest = rest;
        word
    }

    /// All words that are left.
    pub fn take_all_words_left(&mut self) -> &'a str {
        let rest = self.rest;
        self.rest = "";
        rest
    }

    /// The next word as a number; 0 where it is none.
    pub fn number(&mut self) -> u64 {
        self.word().parse::<u64>().unwrap_or(0)
    }

    /// The same as an octet's number, or as a count of octets.
    pub fn octet_number_or_count(&mut self) -> u32 {
        self.word().parse::<u32>().unwrap_or(0)
    }

    /// The same as a number of 16 bits.
    pub fn short(&mut self) -> u16 {
        self.word().parse::<u16>().unwrap_or(0)
    }

    /// Whether the next word is `1`.
    pub fn is_set(&mut self) -> bool {
        self.word() == "1"
    }

    /// Notes that this differs.
    pub fn note(&mut self, what: &'static str) {
        if self.difference.is_none() {
            self.difference = Some(what);
        }
    }

    /// Notes that this differs, unless it is right.
    pub fn check(&mut self, what: &'static str, is_right: bool) {
        if !is_right {
            self.note(what);
        }
    }

    /// Compares an answer with the next word.
    pub fn expect_word(&mut self, what: &'static str, answer: &str) {
        if self.word() != answer {
            self.note(what);
        }
    }

    pub fn expect(&mut self, what: &'static str, answer: u32) {
        if self.octet_number_or_count() != answer {
            self.note(what);
        }
    }

    /// Compares a number with the next word, or that there is none with `-`.
    pub fn expect_some(&mut self, what: &'static str, answer: Option<u32>) {
        match answer {
            Some(number) => self.expect(what, number),
            None => self.expect_word(what, "-"),
        }
    }

    /// Compares a segment with the next two words, or that there is none with `-`.
    pub fn expect_segment(&mut self, what: &'static str, answer: Option<Span>) {
        match answer {
            Some(segment) => {
                self.expect(what, segment.start);
                self.expect(what, segment.end);
            }
            None => self.expect_word(what, "-"),
        }
    }
}
