//! Answers as texts.
use std::alloc::{AllocError, Global};
use std::str;

/// The answer of a call that found no memory and changed nothing.
pub const OUT_OF_MEMORY: &str = "19 OutOfMemory";

/// The answer of a call for which a transcript has no such thing.
pub const NO_SUCH_THING: &str = "(the story has no such thing)";

/// How many octets have room before a call is made.
const ROOM: usize = 4096;

/// The factor where octets are summed up (Fowler, Noll and Vo's hash of 32 bits, FNV-1a), and the beginning of the sum.
const PRIME: u32 = 16_777_619;

const BASIS: u32 = 2_166_136_261;

/// How many digits a number has at most, and what the first of so many counts.
const DIGITS: usize = 20;

const FIRST: u64 = 10_000_000_000_000_000_000;

/// How much is written of verdicts and jobs.
#[derive(Clone, Copy)]
pub enum AnswerForm {
    /// The class of a verdict and its number, as `fail 3`.
    Short,
    /// Also what failed, as `Fail(3, Ack)`, and the tolerance of a job.
    Full,
}

/// The answer so far.
#[derive(Drop)]
pub struct AnswerText {
    text: String,
    pub form: AnswerForm,
    /// Whether all that was to be kept found room.
    pub is_whole: bool,
}

impl AnswerText {
    pub fn new(alloc: Global, form: AnswerForm) -> Result<AnswerText, AllocError> {
        Ok(AnswerText {
            text: String::with_capacity(alloc, ROOM)?,
            form,
            is_whole: true,
        })
    }

    pub fn as_str(&self) -> &str {
        self.text.as_str()
    }

    /// The answer so far.
    ///
    /// # Errors
    /// Where something that was to be kept found no room.
    pub fn whole(&self) -> Result<&str, AllocError> {
        if self.is_whole {
            Ok(self.as_str())
        } else {
            Err(AllocError)
        }
    }

    pub fn clear(&mut self) {
        self.text.clear();
    }

    pub fn push_str(&mut self, piece: &str) {
        self.is_whole &= self.text.push_str(piece).is_ok();
    }

    pub fn push_octets(&mut self, octets: &[u8]) {
        self.push_str(str::from_utf8(octets).unwrap_or("(not in letters)"));
    }

    /// Says a number in decimal digits.
    pub fn number(&mut self, number: u64) {
        let mut counts = FIRST;
        for _digit in 0..DIGITS {
            if number >= counts || counts == 1 {
                self.digit(number.checked_div(counts).unwrap_or(0));
            }
            counts /= 10;
        }
    }

    /// Says the last digit of a number.
    fn digit(&mut self, number: u64) {
        let digit = b'0' + (number % 10) as u8;
        self.is_whole &= self.text.push(char::from(digit)).is_ok();
    }

    /// Says a number, what is before it and what after it.
    pub fn count(&mut self, before: &str, number: u64, after: &str) {
        self.push_str(before);
        self.number(number);
        self.push_str(after);
    }

    /// Whether the call found no memory.
    pub fn is_out_of_memory_answer(&self) -> bool {
        self.as_str() == OUT_OF_MEMORY
    }

    /// Puts the sum of the answer in its place.
    pub fn replace_by_sum(&mut self) {
        let mut sum = BASIS;
        for octet in self.text.as_bytes() {
            sum = (sum ^ u32::from(*octet)).wrapping_mul(PRIME);
        }
        self.clear();
        self.number(u64::from(sum));
    }
}
