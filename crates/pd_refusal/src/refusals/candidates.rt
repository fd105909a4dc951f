//! The candidates where no script goes on, each tried by reading a text with it.
ghost use Rattle.std.specs.Prelude.{◌≡◌, ◌++◌, codes, IfOk};
ghost use Rattle.std.specs.Fmt.{decimal};

use crate::refusals::probe::{is_script, script_goes_on_with};
use itoa::Buffer;
use std::alloc::{AllocError, Global};

/// A token that is nowhere but inside an argument or a note.
const ONLY_INSIDE: &[u8] = b";";

/// A word that is no name that counts.
const SOME_WORD: &[u8] = b"f";

/// The candidates after the name of a call, and after no name of an error.
const SOME_CALL: &[u8] = b"f()=";

/// A time, as no event but the next begins.
const SOME_TIME: &[u8] = b"*";

/// Inside an argument or a note: any token, and what may end it.
const INSIDE: [(&str, &str); 5] = [
    (";", "a token of an argument or a note"),
    (",", "`,`"),
    (")", "`)`"),
    ("]", "`]`"),
    ("}", "`}`"),
];

/// The first candidates of the list.
const FIRST: [(&str, &str); 3] = [
    ("--a", "an option of the header"),
    ("~", "`~`"),
    ("...", "`...`"),
];

/// The candidates before the numbers.
const BEFORE_NUMBERS: [(&str, &str); 3] = [("``", "a command"), ("%{}%", "code"), (".", "`.`")];

/// The candidates after the numbers.
const AFTER_NUMBERS: [(&str, &str); 5] = [
    ("0x0", "a hexadecimal number up to 0xffffffff"),
    ("-", "`-`"),
    (":", "`:`"),
    ("(", "`(`"),
    (")", "`)`"),
];

/// The words that have a meaning each at its place; where any word may stand they aren't listed.
const NAMES: [(&str, &str); 11] = [
    ("ack", "`ack`"),
    ("win", "`win`"),
    ("mss", "`mss`"),
    ("wscale", "`wscale`"),
    ("sackOK", "`sackOK`"),
    ("nop", "`nop`"),
    ("eol", "`eol`"),
    ("TS", "`TS`"),
    ("sack", "`sack`"),
    ("val", "`val`"),
    ("ecr", "`ecr`"),
];

/// The last candidates but for a time and the end of the text.
const LAST: [(&str, &str); 4] = [("=", "`=`"), (",", "`,`"), ("<", "`<`"), (">", "`>`")];

/// The candidates that were tried.
#[derive(Drop)]
struct Candidates<'a> {
    alloc: Global,
    /// The octets after which they are tried.
    before: &'a [u8],
    /// The names of those with which a script goes on.
    expected: Vec<Vec<u8>>,
}

/// The candidates that could follow the octets of a script's first tokens, in the order of the tables. The end less the start is
/// given where a packet's length comes next.
///
/// # Errors
/// `AllocError` where a growth is refused.
pub fn list_candidates_that_can_follow(
    alloc: Global,
    before: &[u8],
    expected_packet_length: Option<u64>,
) -> Result<Vec<Vec<u8>>, AllocError> {
    let mut candidates = Candidates {
        alloc,
        before,
        expected: Vec::new(alloc),
    };
    if candidates.script_goes_on_with(ONLY_INSIDE)? {
        candidates.put_candidates_if_accepted(&INSIDE)?;
    } else {
        candidates.put_accepted_outside_arguments(expected_packet_length)?;
    }
    Ok(candidates.expected)
}

impl Candidates<'_> {
    fn script_goes_on_with(&self, candidate: &[u8]) -> Result<bool, AllocError> {
        script_goes_on_with(self.alloc, self.before, candidate)
    }

    fn push_expected_words(&mut self, words: &str) -> Result<(), AllocError> {
        let words = Vec::from_slice(self.alloc, words.as_bytes())?;
        self.expected.push(words)?;
        Ok(())
    }

    fn put_candidates_if_accepted(
        &mut self,
        candidates: &[(&'static str, &'static str)],
    ) -> Result<(), AllocError> {
        for (candidate, words) in candidates {
            if self.script_goes_on_with(candidate.as_bytes())? {
                self.push_expected_words(words)?;
            }
        }
        Ok(())
    }

    /// Outside arguments and notes. Where an event may begin, a time stands for its parts.
    fn put_accepted_outside_arguments(
        &mut self,
        expected_packet_length: Option<u64>,
    ) -> Result<(), AllocError> {
        let begins_event = self.script_goes_on_with(SOME_TIME)?;
        let is_word = self.script_goes_on_with(SOME_WORD)?;
        self.put_accepted_before_numbers(is_word)?;
        if !begins_event {
            self.put_plus_and_number_if_accepted(expected_packet_length)?;
        }
        self.put_accepted_after_numbers(is_word)?;
        self.put_next_time_and_end_if_accepted(begins_event)
    }

    fn put_accepted_before_numbers(&mut self, is_word: bool) -> Result<(), AllocError> {
        self.put_candidates_if_accepted(&FIRST)?;
        if is_word {
            self.put_call_name_or_else_error_name()?;
        } else {
            self.put_flags_if_accepted()?;
        }
        self.put_candidates_if_accepted(&BEFORE_NUMBERS)
    }

    fn put_accepted_after_numbers(&mut self, is_word: bool) -> Result<(), AllocError> {
        self.put_candidates_if_accepted(&AFTER_NUMBERS)?;
        if !is_word {
            self.put_candidates_if_accepted(&NAMES)?;
        }
        self.put_candidates_if_accepted(&LAST)
    }

    /// The candidates after a whole event: the time of the next one, and the end of the text.
    fn put_next_time_and_end_if_accepted(&mut self, begins_event: bool) -> Result<(), AllocError> {
        if begins_event {
            self.push_expected_words("a time")?;
        }
        if is_script(self.alloc, self.before)? {
            self.push_expected_words("the end of the text")?;
        }
        Ok(())
    }

    fn put_call_name_or_else_error_name(&mut self) -> Result<(), AllocError> {
        if self.script_goes_on_with(SOME_CALL)? {
            self.push_expected_words("the name of a call")
        } else {
            self.push_expected_words("the name of an error")
        }
    }

    fn put_flags_if_accepted(&mut self) -> Result<(), AllocError> {
        if self.script_goes_on_with(b"S")? {
            self.push_expected_words("letters of flags")?;
        }
        Ok(())
    }

    /// A number is tried by the least and the greatest that are written in 32 bits.
    fn put_plus_and_number_if_accepted(
        &mut self,
        expected_packet_length: Option<u64>,
    ) -> Result<(), AllocError> {
        if self.script_goes_on_with(b"+")? {
            self.push_expected_words("`+`")?;
        }
        if self.script_goes_on_with(b"4294967295.999999")? {
            if self.script_goes_on_with(b"0.0")? {
                self.push_expected_words("seconds below 4,294,967,296")
            } else {
                self.push_expected_words("seconds from the first number on, below 4,294,967,296")
            }
        } else {
            self.put_packet_length_or_whole_number(expected_packet_length)
        }
    }

    /// Where a packet's length comes, it is the only number.
    fn put_packet_length_or_whole_number(
        &mut self,
        expected_packet_length: Option<u64>,
    ) -> Result<(), AllocError> {
        let Some(octets) = expected_packet_length else {
            return self.put_whole_number_if_accepted();
        };
        let mut buffer = Buffer::new();
        if !self.script_goes_on_with(buffer.format(octets).as_bytes())? {
            return self.put_whole_number_if_accepted();
        }
        let words = backquoted_number(self.alloc, octets)?;
        self.expected.push(words)?;
        Ok(())
    }

    fn put_whole_number_if_accepted(&mut self) -> Result<(), AllocError> {
        if !self.script_goes_on_with(b"4294967295")? {
            return Ok(());
        }
        if self.script_goes_on_with(b"0")? {
            self.push_expected_words("a whole number up to 4,294,967,295")
        } else {
            self.push_expected_words("a whole number from the start up to 4,294,967,295")
        }
    }
}

/// A number in backquotes.
fn backquoted_number(alloc: Global, number: u64) -> Result<Vec<u8>, AllocError>
    ensures { IfOk result (λ words. words.items ≡ (codes "`" ++ decimal number) ++ codes "`") }
{
    let mut buffer = Buffer::new();
    let mut words = Vec::new(alloc);
    words.extend_from_slice(b"`")?;
    words.extend_from_slice(buffer.format(number).as_bytes())?;
    words.extend_from_slice(b"`")?;
    Ok(words)
}
