//! Runs transcripts of a book, alone and as seats share it, and of the parts below it: makes the call of each row and compares
//! its answer with the one that is written after it. Runs those of the input, of the file
//! `random_lists.txt`, and once more of its own. With the argument `stories` it runs the first alone,
//! with the argument `memory` the last; a status of 2 says that not all were run.
//!
//! A transcript begins with its title, and from nothing: each has books and texts of its own. `TranscriptTables`
//! reads the rows, the module `transcript` finds out which call a row makes, and `test_support` makes the
//! calls of a book and compares the answers. The other modules have the calls that `test_support`
//! doesn't have: of books that seats share, of settings, of tokens, scripts and runs.
//!
//! Why it is so:
//! - The promises of a book are about any list of calls. The rows say by examples what that means,
//!   and the random lists compare it with a plain model (tests/model/book.py).
//! - The rows that run out of memory (`ROWS`) can be run by themselves: outside of the gate each
//!   allocation is refused in turn, and then a call must change nothing and give its answer when it
//!   is made again.
//! - A desk has a program of its own, `test_desk`, since its transcripts need threads and `pd_cli`.
#![tactic(auto)]

mod fixture;
mod lower_calls;
mod memory;
mod scripts;
mod settings;
mod shared_calls;
mod shared_fixture;
mod tables;
mod transcript;

use crate::memory::ROWS;
use crate::tables::TranscriptTables;
use std::process::ExitCode;
use std::rt::{Env, Files};
use std::{env, fs, io};

/// The random lists of calls, as `tools/random_lists.py` writes them.
const LISTS: &str = "random_lists.txt";

/// The status where the input or the output failed, or the program was out of memory.
const NOT_RUN: u8 = 2;

/// The rows that are run.
#[derive(Clone, Copy)]
enum RowSelection {
    All,
    Memory,
    Transcripts,
}

fn main(rt: HostRuntime) -> ExitCode {
    let selection = match read_word(&rt) {
        Ok(selection) => selection,
        Err(_) => read_word(&rt).unwrap_or(RowSelection::All),
    };
    match run_selection_in_new_tables(&rt, selection) {
        Ok(true) => ExitCode::SUCCESS,
        Ok(false) => ExitCode::FAILURE,
        Err(_) => {
            let _ = rt.eprint("not told: the input or the output failed, or there is no memory\n");
            ExitCode::from(NOT_RUN)
        }
    }
}

/// The selection of the program's argument.
fn read_word(rt: &(impl Env + AllocGlobal)) -> io::Result<RowSelection> {
    let arguments = env::args(rt)?.collect::<Vec<String>>(rt.alloc())?;
    Ok(selection_of(arguments.get(1)))
}

fn selection_of(word: Option<&String>) -> RowSelection {
    match word {
        None => RowSelection::All,
        Some(word) if word.as_str() == "stories" => RowSelection::Transcripts,
        Some(_) => RowSelection::Memory,
    }
}

/// Runs the rows, and returns whether all are answered as they are written.
fn run_selection_in_new_tables(
    rt: &(impl Input + Print + Files + AllocGlobal),
    selection: RowSelection,
) -> io::Result<bool> {
    let mut tables = TranscriptTables::new(rt.alloc())?;
    run_selection(rt, selection, &mut tables)
}

fn run_selection(
    rt: &(impl Input + Print + Files + AllocGlobal),
    selection: RowSelection,
    tables: &mut TranscriptTables,
) -> io::Result<bool> {
    if !matches!(selection, RowSelection::Memory) {
        tables.run_all_lines(read_whole_input(rt)?.as_str());
    }
    if matches!(selection, RowSelection::All) {
        tables.run_all_lines(fs::read_to_string(rt, LISTS)?.as_str());
    }
    if !matches!(selection, RowSelection::Transcripts) {
        tables.run_all_lines(ROWS);
    }
    tables.runner.print(rt)?;
    Ok(tables.runner.agrees)
}

/// The transcripts of the input.
fn read_whole_input(rt: &(impl Input + AllocGlobal)) -> io::Result<String> {
    io::read_to_string(rt.alloc(), rt.reader())
}
