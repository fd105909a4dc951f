//! Writes how the product renders some answers and moments, to be held against octets that were worked out by hand.
use crate::output::OutputText;
use pd_print::{render_answer, render_seconds_with_six_decimals, render_time};
use pd_script::Time;
use pd_seg::{Answer, Errno};
use std::alloc::Global;

const ANSWERS: &[Answer] = &[
    Answer::Number(0),
    Answer::Number(3),
    Answer::Number(1_000),
    Answer::Number(4_294_967_295),
    Answer::Error(Errno::Ebadf),
    Answer::Error(Errno::Einval),
    Answer::Error(Errno::Eagain),
    Answer::Error(Errno::Epipe),
];

const MOMENTS: &[u64] = &[
    0,
    1,
    10,
    100_000,
    999_999,
    1_000_000,
    1_234_567,
    3_600_000_000,
    18_446_744_073_709_551_615,
];

/// Says each answer.
pub fn write_answers(alloc: Global, output: &mut OutputText) {
    for answer in ANSWERS {
        output.written(render_answer(alloc, *answer));
        output.push_str("\n");
    }
}

/// Says each moment with six decimals, and with no more than it takes.
pub fn write_times(alloc: Global, output: &mut OutputText) {
    for moment in MOMENTS {
        output.written(render_seconds_with_six_decimals(alloc, *moment));
        output.push_str(" ");
        output.written(render_time(alloc, Time::Relative(*moment)));
        output.push_str("\n");
    }
}
