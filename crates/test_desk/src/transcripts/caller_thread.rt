//! A thread at a seat of its own.
use crate::callers::{DeskCalls, write_shown};
use crate::progress::{ThreadProgress, yield_turns};
use crate::tracing_worker::WorkerMode;
use crate::transcripts::changes::change_often;
use std::alloc::Global;
use std::sync::Wait;
use std::sync::atomic::Ordering;
use test_support::AnswerText;

/// How many turns lie between two settles of a thread. A lock goes to whoever asks for it while it is free: without these turns
/// those that wait for it starve on few processors.
const BETWEEN: u64 = 16;

/// Settles, once or over and over; makes changes over and over; or works.
pub fn do_part<R: Wait>(
    rt: &R,
    alloc: Global,
    progress: &ThreadProgress,
    letter: u8,
    desk_caller: &mut impl DeskCalls,
    out: &mut AnswerText,
) {
    match letter {
        b's' => write_shown(out, desk_caller.settle()),
        b'o' => out.push_str(settle_until_changes_end(rt, progress, desk_caller)),
        b'c' => change_often(desk_caller, alloc, progress, true, out),
        b'a' => change_often(desk_caller, alloc, progress, false, out),
        b'w' => out.push_str(desk_caller.work(alloc, WorkerMode::Plain)),
        b'm' => out.push_str(desk_caller.work(alloc, WorkerMode::Meet(progress))),
        _ => out.push_str("(no such thread)"),
    }
}

/// Settles until the others have made their changes: `settled`, or the first fault.
fn settle_until_changes_end<R: Wait>(
    rt: &R,
    progress: &ThreadProgress,
    desk_caller: &mut impl DeskCalls,
) -> &'static str {
    for _ in rt.forever() {
        if let Err(word) = desk_caller.settle() {
            return word;
        }
        if progress.changing.load(Ordering::SeqCst) == 0 {
            break;
        }
        yield_turns(BETWEEN);
    }
    "settled"
}
