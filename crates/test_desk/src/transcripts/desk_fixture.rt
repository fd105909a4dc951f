//! Texts, seats that left and started jobs that a desk's transcript keeps, and its calls at a seat here.
use crate::callers::{DeskCaller, DeskCalls, call_at};
use crate::transcripts::work_here::work_plain_short_or_once;
use pd_desk::Desk;
use pd_seat::Seat;
use pd_settings::Value;
use std::alloc::Global;
use std::sync::Wait;
use test_support::{
    AnswerText, CallArguments, NO_SUCH_THING, OUT_OF_MEMORY, StartedJob, Texts, move_last_items,
    write_step_count,
};

/// The seats that left, the texts that were written, and each job that was started by hand, the first first.
#[derive(Drop)]
pub struct DeskFixture {
    alloc: Global,
    away: Vec<Seat>,
    texts: Texts,
    started_jobs: Vec<StartedJob>,
}

impl DeskFixture {
    pub fn new(alloc: Global) -> DeskFixture {
        DeskFixture {
            alloc,
            away: Vec::new(alloc),
            texts: Texts::new(alloc),
            started_jobs: Vec::new(alloc),
        }
    }

    /// Begins at a desk that gave no job yet.
    pub fn begin(&mut self) {
        self.away.clear();
        self.started_jobs.clear();
    }

    /// Keeps a text under a word, and writes how many lines it has.
    pub fn write(&mut self, arguments: &mut CallArguments<'_>, out: &mut AnswerText) {
        let word = arguments.word();
        if self.texts.define(word, arguments.rest).is_err() {
            return out.push_str(OUT_OF_MEMORY);
        }
        match self.texts.text(arguments.rest) {
            Ok(lines) => out.count("", lines.len() as u64, " lines"),
            Err(fault) => out.push_str(fault.number_and_name()),
        }
    }

    /// Makes a call of the seats that are here, the last of which may leave, and says its answer.
    pub fn answer<R: Wait>(
        &mut self,
        rt: &R,
        desk: &Desk,
        seats: &mut Vec<Seat>,
        word: &str,
        arguments: &mut CallArguments<'_>,
        out: &mut AnswerText,
    ) {
        match word {
            "leave" => move_last_items(seats, &mut self.away, arguments.number(), out),
            "call-back" => move_last_items(&mut self.away, seats, arguments.number(), out),
            "steps" => write_step_count(
                &mut self.started_jobs,
                &self.texts,
                arguments.number(),
                out,
            ),
            _ => self.shut_or_call_at_seat(rt, desk, seats.as_mut_slice(), word, arguments, out),
        }
    }

    /// Shuts the desk, or makes the call of one of these seats.
    fn shut_or_call_at_seat<R: Wait>(
        &mut self,
        rt: &R,
        desk: &Desk,
        seats: &mut [Seat],
        word: &str,
        arguments: &mut CallArguments<'_>,
        out: &mut AnswerText,
    ) {
        if word == "shut" {
            desk.shut(rt);
            return out.push_str("ok");
        }
        match seats.get_mut(arguments.number() as usize) {
            Some(seat) => self.act_at(&mut DeskCaller { rt, desk, seat }, arguments, out),
            None => out.push_str(NO_SUCH_THING),
        }
    }

    /// Makes the call of a seat.
    pub fn act_at(
        &mut self,
        desk_caller: &mut impl DeskCalls,
        arguments: &mut CallArguments<'_>,
        out: &mut AnswerText,
    ) {
        match arguments.word() {
            "fill" => out.push_str(fill_history_with_acts(desk_caller, arguments.number())),
            "work" => work_plain_short_or_once(desk_caller, self.alloc, arguments.word(), out),
            word => call_at(
                desk_caller,
                &mut self.started_jobs,
                &self.texts,
                word,
                arguments,
                out,
            ),
        }
    }
}

/// Makes so many acts that change nothing: `ok`, or the first refusal.
fn fill_history_with_acts(desk_caller: &mut impl DeskCalls, count: u64) -> &'static str {
    for _act in 0..count {
        let reply = desk_caller.set(b"mss", Value::Number(1460));
        if reply != "ok" {
            return reply;
        }
    }
    "ok"
}
