//! The arguments of a call.
use pd_settings::Value;

/// The arguments of a call that aren't read yet, parted by single blanks.
#[derive(Drop)]
pub struct CallArguments<'a> {
    pub rest: &'a str,
    /// Whether each number that was read was one.
    pub are_right: bool,
}

impl<'a> CallArguments<'a> {
    pub fn new(call: &'a str) -> CallArguments<'a> {
        CallArguments {
            rest: call,
            are_right: true,
        }
    }

    /// The next argument; empty where there is none.
    pub fn word(&mut self) -> &'a str {
        let (word, rest) = self.rest.split_once(" ").unwrap_or((self.rest, ""));
        self.rest = rest;
        word
    }

    /// The next argument as a number; 0 where it is none.
    pub fn number(&mut self) -> u64 {
        match self.word().parse::<u64>() {
            Ok(number) => number,
            Err(_) => {
                self.are_right = false;
                0
            }
        }
    }

    /// The next argument as a script's name: `(nothing)` is the empty one, `(spaced)` one with a blank in it.
    pub fn name(&mut self) -> &'a [u8] {
        match self.word() {
            "(nothing)" => b"",
            "(spaced)" => b"a b",
            word => word.as_bytes(),
        }
    }

    /// The next argument as a value of a setting.
    pub fn value(&mut self) -> Value {
        match self.word() {
            "true" => Value::Boolean(true),
            "false" => Value::Boolean(false),
            word => match word.parse::<u64>() {
                Ok(number) => Value::Number(number),
                Err(_) => Value::from_word_or_other(word.as_bytes()),
            },
        }
    }
}
