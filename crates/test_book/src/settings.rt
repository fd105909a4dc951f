//! The calls of settings and names.
use pd_settings::{Key, Settings};
use pd_text::Name;
use std::alloc::Global;
use test_support::{
    AnswerText, CallArguments, NO_SUCH_THING, OUT_OF_MEMORY, Texts, value_of_setting, with,
    write_value,
};
use toml::Table;

/// Makes a call of settings, or of a name; whether there is such a call.
pub fn answer_if_settings_or_name_call(
    settings: &mut Settings,
    texts: &Texts,
    word: &str,
    arguments: &mut CallArguments<'_>,
    output: &mut AnswerText,
) -> bool {
    match word {
        "get" => get(settings, arguments.rest, output),
        "with" => output.push_str(change(settings, arguments)),
        "toml" => output.push_str(compare_with_written_table(
            texts.alloc,
            settings,
            arguments.rest,
        )),
        "name" => output.push_str(validity_of_script_name(texts, arguments.name())),
        _ => return false,
    }
    true
}

/// Says what the setting of a name is set to.
fn get(settings: &Settings, name: &str, output: &mut AnswerText) {
    match Key::from_name(name.as_bytes()) {
        Some(key) => write_value(output, value_of_setting(settings, key)),
        None => output.push_str(NO_SUCH_THING),
    }
}

/// Sets a setting.
fn change(settings: &mut Settings, arguments: &mut CallArguments<'_>) -> &'static str {
    let key = arguments.word().as_bytes();
    match with(settings, key, arguments.value()) {
        Ok(changed) => {
            *settings = changed;
            "ok"
        }
        Err(fault) => fault.number_and_name(),
    }
}

/// Whether a table, its lines parted by ` | `, gives these settings.
fn compare_with_written_table(alloc: Global, settings: &Settings, written: &str) -> &'static str {
    match written.replace(alloc, " | ", "\n") {
        Ok(text) => compare_with_toml_text(alloc, settings, text.as_str()),
        Err(_) => OUT_OF_MEMORY,
    }
}

fn compare_with_toml_text(alloc: Global, settings: &Settings, text: &str) -> &'static str {
    match toml::table_from_str(alloc, text) {
        Ok(table) => compare_with_toml_table(settings, &table),
        Err(error) if error.is_memory() => OUT_OF_MEMORY,
        Err(_) => "(not a table)",
    }
}

fn compare_with_toml_table(settings: &Settings, table: &Table) -> &'static str {
    match Settings::from_table(table) {
        Ok(read) => same_or_other_settings(&read, settings),
        Err(fault) => fault.number_and_name(),
    }
}

fn same_or_other_settings(one: &Settings, other: &Settings) -> &'static str {
    if one.is_same(other) { "same" } else { "other" }
}

/// Whether a name is a script's, by a copy of it.
fn validity_of_script_name(texts: &Texts, octets: &[u8]) -> &'static str {
    match texts.name(octets) {
        Ok(name) => validity_of_shared_name(&name),
        Err(_) => OUT_OF_MEMORY,
    }
}

fn validity_of_shared_name(name: &Name) -> &'static str {
    match name.share() {
        Ok(copy) => validity_if_copy_is_same(name, &copy),
        Err(_) => OUT_OF_MEMORY,
    }
}

fn validity_if_copy_is_same(name: &Name, copy: &Name) -> &'static str {
    if !copy.is_same(name) {
        "other"
    } else if copy.is_valid() {
        "valid"
    } else {
        "refused"
    }
}
