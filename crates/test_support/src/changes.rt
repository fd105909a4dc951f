//! Changes of a book.
use crate::arguments::CallArguments;
use crate::calls::Calls;
use crate::output::{AnswerText, OUT_OF_MEMORY};
use crate::texts::Texts;
use pd_text::Name;

/// Makes a change; whether there is such a call.
pub fn answer_if_change<C: Calls>(
    book: &mut C,
    texts: &Texts,
    word: &str,
    arguments: &mut CallArguments<'_>,
    output: &mut AnswerText,
) -> bool {
    match word {
        "set" => set(book, arguments, output),
        "add" | "edit" | "remove" => output.push_str(change_script(book, texts, word, arguments)),
        _ => return false,
    }
    true
}

fn set<C: Calls>(book: &mut C, arguments: &mut CallArguments<'_>, output: &mut AnswerText) {
    let key = arguments.word().as_bytes();
    output.push_str(book.set(key, arguments.value()));
}

/// Adds, edits or removes the script that is named.
fn change_script<C: Calls>(
    book: &mut C,
    texts: &Texts,
    word: &str,
    arguments: &mut CallArguments<'_>,
) -> &'static str {
    match texts.name(arguments.name()) {
        Ok(name) => match word {
            "add" => add(book, texts, name, arguments.rest),
            "edit" => edit(book, texts, &name, arguments),
            _ => book.remove(&name),
        },
        Err(_) => OUT_OF_MEMORY,
    }
}

fn add<C: Calls>(book: &mut C, texts: &Texts, name: Name, written: &str) -> &'static str {
    match texts.text(written) {
        Ok(text) => book.add(name, text),
        Err(fault) => fault.number_and_name(),
    }
}

fn edit<C: Calls>(
    book: &mut C,
    texts: &Texts,
    name: &Name,
    arguments: &mut CallArguments<'_>,
) -> &'static str {
    match texts.edit(arguments) {
        Ok(edit) => book.edit(name, &edit),
        Err(_) => OUT_OF_MEMORY,
    }
}
