//! The values that a setting can be set to.
ghost use Rattle.std.specs.Prelude.{◌≡◌};
ghost use Rattle.pd_settings.specs.Table.{value_of};
ghost use Rattle.pd_settings.specs.Words.{algorithm_word_value, word_value};
ghost use Rattle.toml.specs.View.{view};

use crate::initial_window::InitialWindow;
use crate::recovery_algorithm::RecoveryAlgorithm;

/// A value for a setting, as written.
#[derive(Clone, Copy, PartialEq, Eq)]
pub enum Value {
    /// A whole number.
    Number(u64),
    /// `true` or `false`.
    Boolean(bool),
    /// The word of a rule for the initial window.
    WindowRule(InitialWindow),
    /// The word of a rule for the rate of loss recovery.
    Algorithm(RecoveryAlgorithm),
    /// Anything else, which each setting refuses.
    Other,
}

impl Value {
    /// The value of a word: the rule that it names, or nothing that a setting takes.
    pub fn from_word_or_other(word: &[u8]) -> Value
        ensures { result ≡ word_value word.now }
    {
        match InitialWindow::from_word(word) {
            Some(window) => Value::WindowRule(window),
            None => Value::from_algorithm_word_or_other(word),
        }
    }

    /// The value of a word that names no rule for the initial window.
    fn from_algorithm_word_or_other(word: &[u8]) -> Value
        ensures { result ≡ algorithm_word_value word.now }
    {
        match RecoveryAlgorithm::from_word(word) {
            Some(algorithm) => Value::Algorithm(algorithm),
            None => Value::Other,
        }
    }

    /// The value of a TOML value: a whole number from 0 on, a truth value, a word, or none of these.
    pub fn from_toml_or_other(value: &toml::Value) -> Value
        ensures { result ≡ value_of (view value.now) }
    {
        match value {
            toml::Value::Integer(number) => match u64::try_from(*number) {
                Ok(number) => Value::Number(number),
                Err(_) => Value::Other,
            },
            toml::Value::Boolean(truth) => Value::Boolean(*truth),
            toml::Value::String(word) => Value::from_word_or_other(word.as_bytes()),
            _ => Value::Other,
        }
    }
}
