//! Calls beside threads that wait.
use crate::callers::{
    DeskCaller, DeskCalls, new_answers_for_threads, remove_scripts_to_wake_waiters,
};
use crate::progress::ThreadProgress;
use crate::transcripts::caller_thread::do_part;
use crate::transcripts::desk_fixture::DeskFixture;
use pd_desk::Desk;
use pd_seat::Seat;
use std::alloc::Global;
use std::sync::atomic::{AtomicU64, Ordering};
use std::sync::{Mutex, Wait};
use std::thread;
use std::thread::Threads;
use test_support::{AnswerText, CallArguments, NO_SUCH_THING};

/// The calls at the seats of a desk at the same time: those at the first, parted by `; `, and at each other one the call of its
/// letter says.
#[derive(Drop)]
struct ConcurrentCalls<'a, R> {
    rt: &'a R,
    alloc: Global,
    desk_fixture: &'a Mutex<DeskFixture>,
    calls: &'a str,
    letters: &'a str,
    progress: ThreadProgress,
    answers: &'a [Mutex<AnswerText>],
}

/// Makes calls at the first of these seats, while a thread at each other one does what its letter says. Says the answers of
/// the calls and those of the other seats; `late` after them where a thread wasn't woken.
pub fn answer_beside<R: Threads + Wait + Sync>(
    rt: &R,
    alloc: Global,
    desk: &Desk,
    seats: &mut [Seat],
    desk_fixture: &Mutex<DeskFixture>,
    arguments: &mut CallArguments<'_>,
    out: &mut AnswerText,
) {
    let letters = arguments.word();
    if seats.len() != letters.len().saturating_add(1) {
        return out.push_str(NO_SUCH_THING);
    }
    match new_answers_for_threads(alloc, seats.len()) {
        Ok(answers) => {
            let concurrent_calls = ConcurrentCalls {
                rt,
                alloc,
                desk_fixture,
                calls: arguments.rest,
                letters,
                progress: ThreadProgress::of_thread_letters(letters),
                answers: answers.as_slice(),
            };
            play(rt, desk, seats, &concurrent_calls);
            concurrent_calls.write_answers(out);
        }
        Err(_) => out.is_whole = false,
    }
}

/// Does all that is to be done, at each seat in a thread of its own.
fn play<R: Threads + Wait + Sync>(
    rt: &R,
    desk: &Desk,
    seats: &mut [Seat],
    concurrent_calls: &ConcurrentCalls<'_, R>,
) {
    let threads = seats.len().max(1);
    thread::for_each_mut(
        rt,
        seats,
        threads,
        &|place, seat| concurrent_calls.take_part(place, &mut DeskCaller { rt, desk, seat }),
    );
}

impl<'a, R: Wait> ConcurrentCalls<'a, R> {
    fn take_part(&self, place: usize, desk_caller: &mut impl DeskCalls) {
        if let Some(answer) = self.answers.get(place) {
            let mut out = answer.lock(self.rt);
            match place.checked_sub(1) {
                None => self.call_all_and_shut_desk(desk_caller, &mut out),
                Some(turn) => self.do_part_after_those_before(turn, desk_caller, &mut out),
            }
        }
    }

    /// Does what a letter says, once those before it had turns to fall asleep.
    fn do_part_after_those_before(
        &self,
        turn: usize,
        desk_caller: &mut impl DeskCalls,
        out: &mut AnswerText,
    ) {
        let letter = self.letters.as_bytes().get(turn).copied().unwrap_or(b'-');
        self.progress.await_begun_then_begin(turn as u64);
        do_part(
            self.rt,
            self.alloc,
            &self.progress,
            letter,
            desk_caller,
            out,
        );
        self.progress.end(letter);
    }

    /// Makes the calls, and when all but the workers have ended shuts the desk. Those that aren't woken within the turns are
    /// set free.
    fn call_all_and_shut_desk(&self, desk_caller: &mut impl DeskCalls, out: &mut AnswerText) {
        let progress = &self.progress;
        progress.await_begun_then_begin(progress.workers.wrapping_add(progress.others));
        for call in self.calls.split("; ") {
            if !out.as_str().is_empty() {
                out.push_str("; ");
            }
            self.call(call, desk_caller, out);
        }
        self.await_or_free(desk_caller, &progress.ended, progress.others);
        desk_caller.shut();
        self.await_or_free(desk_caller, &progress.left, progress.workers);
    }

    /// Shuts the desk, waits for a worker that waits for another, goes on with it, or makes the call of the first seat.
    fn call(&self, call: &str, desk_caller: &mut impl DeskCalls, out: &mut AnswerText) {
        let mut arguments = CallArguments::new(call);
        match arguments.word() {
            "shut" => desk_caller.shut(),
            "meet" => self.progress.await_first_step(),
            "part" => self.progress.meet(),
            _ => return self.call_first_seat(desk_caller, &mut arguments, out),
        }
        out.push_str("ok");
    }

    /// Makes the call of seat 0.
    fn call_first_seat(
        &self,
        desk_caller: &mut impl DeskCalls,
        arguments: &mut CallArguments<'_>,
        out: &mut AnswerText,
    ) {
        if arguments.number() == 0 && arguments.are_right {
            self.desk_fixture
                .lock(self.rt)
                .act_at(desk_caller, arguments, out);
        } else {
            out.push_str(NO_SUCH_THING);
        }
    }

    /// Waits until so many are counted. Where they aren't within the turns, wakes whoever waits at the desk.
    fn await_or_free(&self, desk_caller: &mut impl DeskCalls, counted: &AtomicU64, count: u64) {
        if !self.progress.await_count_or_note_late(counted, count) {
            remove_scripts_to_wake_waiters(desk_caller, self.alloc);
        }
    }

    /// Says what was answered at each seat.
    fn write_answers(&self, out: &mut AnswerText) {
        for answer in self.answers {
            let answer = answer.lock(self.rt);
            if !out.as_str().is_empty() {
                out.push_str("; ");
            }
            out.push_str(answer.as_str());
            out.is_whole = out.is_whole && answer.is_whole;
        }
        if self.progress.late.load(Ordering::SeqCst) != 0 {
            out.push_str("; late");
        }
    }
}
