//! Changes that a thread makes over and over, of a script of its own.
use crate::callers::DeskCalls;
use crate::progress::ThreadProgress;
use pd_text::Name;
use std::alloc::Global;
use std::sync::atomic::Ordering;
use test_support::{AnswerText, CallArguments, Calls, OUT_OF_MEMORY, Texts};

/// How often a thread that changes scripts does so.
const CHANGES: u64 = 1_000;

/// The script of a thread, and an edit of it.
const LINE: &str = "0 socket(..., SOCK_STREAM, IPPROTO_TCP) = 3";

const EDIT: &str = "1 1 +0 listen(3, 1) = 0";

/// Adds a script named by the number of the seat, edits it and gives up a job if that is asked for, and removes it, over and
/// over. Says `changed`, or `refused` where a change was.
pub fn change_often(
    desk_caller: &mut impl DeskCalls,
    alloc: Global,
    progress: &ThreadProgress,
    is_edited: bool,
    out: &mut AnswerText,
) {
    let texts = Texts::new(alloc);
    out.number(desk_caller.number() as u64);
    let name = texts.name(out.as_str().as_bytes());
    out.clear();
    out.push_str(match name {
        Ok(name) => repeat_changes_to_the_end(desk_caller, progress, &texts, &name, is_edited),
        Err(_) => OUT_OF_MEMORY,
    });
}

fn repeat_changes_to_the_end(
    book: &mut impl Calls,
    progress: &ThreadProgress,
    texts: &Texts,
    name: &Name,
    is_edited: bool,
) -> &'static str {
    let mut are_made = true;
    for _change in 0..CHANGES {
        are_made = are_add_edit_and_remove_accepted(book, texts, name, is_edited) && are_made;
        progress.changes.fetch_add(1, Ordering::SeqCst);
    }
    if are_made { "changed" } else { "refused" }
}

/// Adds the script, edits it if that is asked for, and removes it; whether nothing was refused.
fn are_add_edit_and_remove_accepted(
    book: &mut impl Calls,
    texts: &Texts,
    name: &Name,
    is_edited: bool,
) -> bool {
    let is_added = add(book, texts, name) == "ok";
    let is_left = !is_edited || (edit(book, texts, name) == "ok" && give_up(book) == "ok");
    let is_removed = book.remove(name) == "ok";
    is_added && is_left && is_removed
}

fn add(book: &mut impl Calls, texts: &Texts, name: &Name) -> &'static str {
    match texts.text(LINE) {
        Ok(lines) => match name.share() {
            Ok(name) => book.add(name, lines),
            Err(_) => OUT_OF_MEMORY,
        },
        Err(_) => OUT_OF_MEMORY,
    }
}

fn edit(book: &mut impl Calls, texts: &Texts, name: &Name) -> &'static str {
    match texts.edit(&mut CallArguments::new(EDIT)) {
        Ok(edit) => book.edit(name, &edit),
        Err(_) => OUT_OF_MEMORY,
    }
}

/// Starts a job and gives it up, if one waits: `ok`, or a refusal.
fn give_up(book: &mut impl Calls) -> &'static str {
    match book.start() {
        Ok(task) => book.abandon(task.job.number(), task.seat),
        Err(_) => "ok",
    }
}
