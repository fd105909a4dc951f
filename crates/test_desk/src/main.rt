//! Tries a desk, and the program on streams that fail: runs the transcripts of the input, serves beside two workers that
//! overlap, and on random schedules, and compares the output with that of serving without
//! threads; and makes calls in all orders in which threads may hand the turn on. With an argument,
//! `stories`, `overlap`, `schedules` or `orders`, it does that alone; a status of 2 says that it
//! wasn't tried to the end.
//!
//! A transcript is a list of rows, each a call of a desk with its answer, some beside threads that wait
//! (`transcripts`). `two_workers` holds one worker at its job until another has begun. `schedules` serves
//! random commands with workers that are delayed at random. `interleavings` lets one thread at a time go
//! on, and goes through all orders of turns. `streams` runs the whole program on streams that give
//! or take little, or fail.
//!
//! Why it is so:
//! - No contract says in which order threads run, who is woken, or that a call that waits ends.
//!   Only tests show it, most of them here.
//! - The output with workers is compared with what one thread writes (`reference`, and serving
//!   without workers): a settled report depends on the accepted commands alone.
//! - Random schedules seldom meet a rare order, so a few short lists of calls are made in all of
//!   them.
//! - Each wait of a test is bounded by turns (`progress`), so that a thread that sleeps for good
//!   shows as a row that differs.
#![tactic(auto)]

mod callers;
mod during_pool;
mod interleavings;
mod progress;
mod reference;
mod schedules;
mod serving;
mod streams;
mod summary;
mod tracing_worker;
mod transcripts;
mod two_workers;

use crate::interleavings::run_interleavings;
use crate::schedules::run_schedules;
use crate::transcripts::run_transcripts;
use crate::two_workers::run_two_workers;
use std::process::ExitCode;
use std::rt::Env;
use std::sync::Wait;
use std::thread::Threads;
use std::{env, io};

/// The status where the input or the output failed, or there was no memory.
const NOT_RUN: u8 = 2;

fn main(rt: HostRuntime) -> ExitCode {
    match run_selected(&rt) {
        Ok(true) => ExitCode::SUCCESS,
        Ok(false) => ExitCode::FAILURE,
        Err(_) => {
            let _ = rt.eprint("not tried: the input or the output failed, or there is no memory\n");
            ExitCode::from(NOT_RUN)
        }
    }
}

/// The parts that are tried.
#[derive(Clone, Copy)]
struct TestSelection {
    transcripts: bool,
    two_workers: bool,
    schedules: bool,
    interleavings: bool,
}

impl TestSelection {
    /// Those of a name, or all where it is empty.
    fn named(name: &str) -> TestSelection {
        TestSelection {
            transcripts: is_named_or_all(name, "stories"),
            two_workers: is_named_or_all(name, "overlap"),
            schedules: is_named_or_all(name, "schedules"),
            interleavings: is_named_or_all(name, "orders"),
        }
    }
}

fn is_named_or_all(name: &str, part: &str) -> bool {
    name.is_empty() || name == part
}

/// The selection of the program's argument.
fn selection_asked(rt: &(impl Env + AllocGlobal)) -> io::Result<TestSelection> {
    let arguments = env::args(rt)?.collect::<Vec<String>>(rt.alloc())?;
    Ok(match arguments.get(1) {
        Some(word) => TestSelection::named(word.as_str()),
        None => TestSelection::named(""),
    })
}

/// Whether all that was tried agrees.
fn run_selected<R: Env + Input + Print + AllocGlobal + Threads + Wait + Sync>(
    rt: &R,
) -> io::Result<bool> {
    let parts = selection_asked(rt)?;
    let transcripts_agree = !parts.transcripts || run_transcripts(rt)?;
    let workers_agree = !parts.two_workers || run_two_workers(rt)?;
    let schedules_agree = !parts.schedules || run_schedules(rt)?;
    let interleavings_agree = !parts.interleavings || run_interleavings(rt)?;
    Ok(transcripts_agree && workers_agree && schedules_agree && interleavings_agree)
}
