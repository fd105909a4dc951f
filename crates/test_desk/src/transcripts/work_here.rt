//! Work at a seat in this thread.
use crate::callers::DeskCalls;
use crate::tracing_worker::{StepCounts, WorkerMode};
use std::alloc::Global;
use std::sync::atomic::{AtomicU64, Ordering};
use test_support::AnswerText;

/// Works at a seat: until the desk is shut, with steps that find no memory, or up to the job before which the desk is shut.
pub fn work_plain_short_or_once(
    desk_caller: &mut impl DeskCalls,
    alloc: Global,
    how: &str,
    out: &mut AnswerText,
) {
    match how {
        "plain" => out.push_str(desk_caller.work(alloc, WorkerMode::Plain)),
        "short" => out.push_str(desk_caller.work(alloc, WorkerMode::Short)),
        _ => work_once(desk_caller, alloc, how == "noted", out),
    }
}

/// Works at one job, and writes how many steps were taken before it and after it, if that is asked for.
fn work_once(
    desk_caller: &mut impl DeskCalls,
    alloc: Global,
    is_noted: bool,
    out: &mut AnswerText,
) {
    let step_counts = StepCounts {
        before: AtomicU64::new(0),
        after: AtomicU64::new(0),
    };
    out.push_str(desk_caller.work(alloc, WorkerMode::Shut(&step_counts)));
    if is_noted {
        out.count(", steps ", step_counts.before.load(Ordering::SeqCst), "");
        out.count(" to ", step_counts.after.load(Ordering::SeqCst), "");
    }
}
