//! Pools of workers at the seats of a transcript.
use crate::callers::pool;
use crate::during_pool::{DuringPool, run_during_pool};
use pd_desk::{Desk, OpenGate};
use pd_seat::Seat;
use std::alloc::Global;
use std::sync::{Mutex, Wait};
use std::thread::Threads;
use test_support::{AnswerForm, AnswerText, NO_SUCH_THING};

/// Runs a worker at each of these seats, of which one isn't let in and another finds a full history, and writes whether the
/// pool ends with the fault of the first in the order of the seats.
pub fn yes_if_pool_ends_with_first_fault<R: Threads + Wait + Sync>(
    rt: &R,
    alloc: Global,
    desk: &Desk,
    seats: &mut [Seat],
) -> &'static str {
    let left = pool(rt, alloc, desk, &OpenGate, seats);
    let is_in = match seats.first() {
        Some(seat) => !seat.acts().is_empty(),
        None => false,
    };
    match left {
        "11 HistoryFull" if is_in => "yes",
        "12 NoWorkers" if !is_in => "yes",
        _ => "no",
    }
}

/// Settles at the last of these seats, while a worker runs at each other one; then shuts the desk. Says the report and how
/// the pool ended.
pub fn settle_beside<R: Threads + Wait + Sync>(
    rt: &R,
    alloc: Global,
    desk: &Desk,
    seats: &mut [Seat],
    out: &mut AnswerText,
) {
    if seats.len() < 2 {
        return out.push_str(NO_SUCH_THING);
    }
    match AnswerText::new(alloc, AnswerForm::Short) {
        Ok(shown) => {
            let shown = Mutex::new(shown);
            let left = run_during_pool(
                rt,
                alloc,
                desk,
                &OpenGate,
                seats,
                DuringPool::Settle(&shown),
            );
            write_report_and_pool_end(out, &shown.into_inner(), left);
        }
        Err(_) => out.is_whole = false,
    }
}

/// Says a report, and how the pool ended unless there was no memory for the report.
fn write_report_and_pool_end(out: &mut AnswerText, shown: &AnswerText, left: &'static str) {
    out.push_str(shown.as_str());
    out.is_whole = out.is_whole && shown.is_whole;
    if !out.is_out_of_memory_answer() {
        out.push_str("; pool ");
        out.push_str(left);
    }
}
