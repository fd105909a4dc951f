//! Transcripts of a desk, and of the program on streams that fail: rows of calls with the answers that are wanted.
//! A line that begins `# ` or `== ` is a title.
mod caller_thread;
mod changes;
mod concurrent_calls;
mod desk_fixture;
mod pools;
mod transcript;
mod work_here;

use self::transcript::DeskTranscript;
use std::io;
use std::sync::Wait;
use std::thread::Threads;
use test_support::{AnswerForm, RowRunner, call_of};

/// Runs the transcripts of the input; prints the rows that are answered otherwise, and counts. Returns whether no row differs.
pub fn run_transcripts<R: Input + Print + AllocGlobal + Threads + Wait + Sync>(
    rt: &R,
) -> io::Result<bool> {
    let mut runner = RowRunner::new(rt.alloc(), AnswerForm::Short)?;
    run_rows(rt, &mut runner)?;
    runner.end();
    runner.print(rt)?;
    Ok(runner.agrees)
}

/// Runs each row of the input.
fn run_rows<R: Input + Print + AllocGlobal + Threads + Wait + Sync>(
    rt: &R,
    runner: &mut RowRunner,
) -> io::Result<()> {
    let mut transcript = DeskTranscript::new(rt.alloc());
    for line in rt.lines(rt.alloc()) {
        let line = line?;
        if !is_title_or_empty(line.as_str()) {
            run_row(rt, runner, &mut transcript, line.as_str());
            runner.print(rt)?;
        }
    }
    Ok(())
}

/// Makes the call of a row, and again where it found no memory.
fn run_row<R: Threads + Wait + Sync>(
    rt: &R,
    runner: &mut RowRunner,
    transcript: &mut DeskTranscript,
    row: &str,
) {
    let call = call_of(row);
    transcript.answer(rt, call, runner.begin_answer());
    if runner.must_repeat_for_memory(row) {
        transcript.answer(rt, call, runner.begin_answer());
    }
    runner.compare(row);
}

fn is_title_or_empty(line: &str) -> bool {
    line.is_empty() || line.starts_with("# ") || line.starts_with("== ")
}
