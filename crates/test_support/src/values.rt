//! Settings and their values as they are written in answers.
use crate::output::AnswerText;
use pd_settings::{Key, Settings, SettingsFault, Value};

/// Settings with another value of one of them. The promises of this call stay in here.
pub fn with(settings: &Settings, key: &[u8], value: Value) -> Result<Settings, SettingsFault> {
    settings.with(key, value)
}

pub fn value_of_setting(settings: &Settings, key: Key) -> Value {
    settings.value_at(key)
}

pub fn write_value(output: &mut AnswerText, value: Value) {
    match value {
        Value::Number(number) => output.number(number),
        Value::Boolean(true) => output.push_str("true"),
        Value::Boolean(false) => output.push_str("false"),
        Value::WindowRule(window) => output.push_octets(window.word()),
        Value::Algorithm(algorithm) => output.push_octets(algorithm.word()),
        Value::Other => output.push_str("other"),
    }
}

/// Says a setting and its value.
pub fn write_setting(output: &mut AnswerText, key: Key, value: Value) {
    output.push_octets(key.name());
    output.push_str(" ");
    write_value(output, value);
}

/// Says what each setting is set to.
pub fn write_settings(output: &mut AnswerText, settings: &Settings) {
    for key in Key::ALL.iter() {
        write_setting(output, *key, value_of_setting(settings, *key));
        output.push_str(", ");
    }
}
