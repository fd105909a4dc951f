//! The director gives the turns: one player at a time goes on, and the next once nothing moves any more.
use crate::callers::{DeskCalls, remove_scripts_to_wake_waiters, write_shown};
use crate::interleavings::choices::Choices;
use crate::interleavings::turnstile::{PlayerPosition, TurnOrder, Turnstile};
use crate::interleavings::{CALLERS, PLAYERS, WORKERS};
use crate::progress::TURNS;
use crate::reference::{ReferenceBook, replay_acts_and_write_report, write_report_from_scratch};
use pd_book::Act;
use std::alloc::{AllocError, Global};
use std::sync::Wait;
use std::thread;
use test_support::{AnswerForm, AnswerText, Calls};

/// The most turns of an order.
const MOVES: usize = 200;

/// A caller: the calls that it has left, and how many calls were made before a settling that it hasn't answered yet.
#[derive(Clone, Copy)]
struct Caller<'a> {
    left: &'a str,
    settling: Option<usize>,
}

/// Gives the turns of players at a desk, and makes the same calls by hand.
#[derive(Drop)]
pub struct Director<'a> {
    alloc: Global,
    pub choices: Choices,
    callers: Vec<Caller<'a>>,
    /// The calls that were made, in the order of the turns.
    made: Vec<&'a str>,
    /// How many workers have a job.
    busy: usize,
    /// Whether all answers were right.
    is_right: bool,
    /// The answer by hand to the last call, the report that is wanted, and the one that is shown.
    answer: AnswerText,
    wanted: AnswerText,
    shown: AnswerText,
}

impl<'a> Director<'a> {
    pub fn new(alloc: Global) -> Result<Director<'a>, AllocError> {
        Ok(Director {
            answer: AnswerText::new(alloc, AnswerForm::Short)?,
            wanted: AnswerText::new(alloc, AnswerForm::Short)?,
            shown: AnswerText::new(alloc, AnswerForm::Short)?,
            alloc,
            choices: Choices::new(alloc),
            callers: Vec::new(alloc),
            made: Vec::new(alloc),
            busy: 0,
            is_right: false,
        })
    }

    /// Begins with these calls of the two callers.
    pub fn begin(&mut self, lists: (&'a str, &'a str)) {
        self.callers.clear();
        for left in [lists.0, lists.1] {
            let settling = None;
            let _ = self.callers.push(Caller { left, settling });
        }
        self.made.clear();
        self.busy = 0;
        self.is_right = false;
    }

    /// Gives turns until all has come to rest, and shuts the desk. All is right where all answers are, and the last report is
    /// the one from scratch of all calls.
    pub fn direct<R: Wait>(
        &mut self,
        rt: &R,
        turnstile: &Turnstile,
        desk_caller: &mut impl DeskCalls,
        reference: &mut ReferenceBook,
    ) {
        self.is_right = self.give_turns_while_right(rt, turnstile, desk_caller, reference);
        if !self.is_right {
            turnstile.give_up(rt);
            remove_scripts_to_wake_waiters(desk_caller, self.alloc);
        }
        desk_caller.shut();
        let count = self.made.len();
        self.set_wanted_report_of_first_calls(count);
        self.is_right = self.is_shown(desk_caller) && self.is_right;
    }

    /// Whether all was right, and a history, made again, has the report that is wanted.
    pub fn is_right_history(&mut self, acts: &[Act]) -> bool {
        let are_made = replay_acts_and_write_report(self.alloc, acts, &mut self.shown);
        self.is_right && are_made && self.wanted.as_str() == self.shown.as_str()
    }

    fn give_turns_while_right<R: Wait>(
        &mut self,
        rt: &R,
        turnstile: &Turnstile,
        desk_caller: &mut impl Calls,
        reference: &mut ReferenceBook,
    ) -> bool {
        for _move in 0..MOVES {
            if !self.await_rest_with_wanted_report(rt, turnstile, desk_caller, reference)
                || !self.are_right(rt, turnstile)
            {
                return false;
            }
            let standing = turnstile.look(rt);
            let (count, options) = standing.options();
            if count == 0 {
                return true;
            }
            match options.get(self.choices.choose(count)) {
                Some(who) => self.grant_turn_and_do_by_hand(
                    rt, turnstile, *who, standing, reference,
                ),
                None => return false,
            }
        }
        false
    }

    /// Lets a player go on, and does the same by hand: makes a caller's next call, or hands in a worker's result; then starts
    /// what workers that are free start now.
    fn grant_turn_and_do_by_hand<R: Wait>(
        &mut self,
        rt: &R,
        turnstile: &Turnstile,
        who: usize,
        standing: TurnOrder,
        reference: &mut ReferenceBook,
    ) {
        let place = standing.place(who);
        if who < CALLERS {
            self.make_next_call_by_hand(who, reference);
        } else if matches!(place.spot, PlayerPosition::Done) {
            reference.finish(place.job);
            self.busy = self.busy.wrapping_sub(1);
        }
        turnstile.grant(rt, who);
        for _worker in self.busy..WORKERS {
            if reference.start(&mut self.shown) {
                self.busy = self.busy.wrapping_add(1);
            }
        }
    }

    /// Makes a caller's next call by hand, and notes it.
    fn make_next_call_by_hand(&mut self, who: usize, reference: &mut ReferenceBook) {
        if let Some(caller) = self.callers.get_mut(who) {
            let (call, left) = caller.left.split_once("; ").unwrap_or((caller.left, ""));
            caller.left = left;
            caller.settling = if call == "settle" {
                Some(self.made.len())
            } else {
                None
            };
            reference.call(call, &mut self.answer);
            let _ = self.made.push(call);
        }
    }

    /// Waits until whoever goes on waits for a turn or for verdicts, and the report is that of the calls made by hand;
    /// whether it is so within the turns.
    fn await_rest_with_wanted_report<R: Wait>(
        &mut self,
        rt: &R,
        turnstile: &Turnstile,
        desk_caller: &mut impl Calls,
        reference: &mut ReferenceBook,
    ) -> bool {
        reference.call("show", &mut self.wanted);
        let is_owed = self.wanted.as_str().contains("pending");
        for _turn in 0..TURNS {
            if self.is_at_rest(turnstile.look(rt), is_owed) && self.is_shown(desk_caller) {
                return true;
            }
            thread::yield_now();
        }
        false
    }

    /// Whether the report is the one that is wanted.
    fn is_shown(&mut self, desk_caller: &mut impl Calls) -> bool {
        self.shown.clear();
        write_shown(&mut self.shown, desk_caller.show());
        self.wanted.as_str() == self.shown.as_str()
    }

    /// Whether the turn was taken, as many workers wait for one as have jobs, and all callers but those that settle while a
    /// verdict is owed.
    fn is_at_rest(&self, standing: TurnOrder, is_owed: bool) -> bool {
        let mut workers = 0usize;
        let mut are_heard = true;
        for who in 0..PLAYERS {
            let is_away = standing.is_away(who);
            match self.callers.get(who) {
                Some(caller) => {
                    are_heard = are_heard && (!is_away || (is_owed && caller.settling.is_some()));
                }
                None => workers = workers.wrapping_add(usize::from(!is_away)),
            }
        }
        are_heard && workers == self.busy && standing.turn.is_none()
    }

    /// Whether what callers were answered is right: to a call what was answered by hand, and to a settling the report from
    /// scratch of the calls before it and some of those since, in the order of their turns.
    fn are_right<R: Wait>(&mut self, rt: &R, turnstile: &Turnstile) -> bool {
        let standing = turnstile.look(rt);
        let mut are_right = true;
        for who in 0..CALLERS {
            if !standing.is_away(who)
                && let Some(answer) = turnstile.answers.get(who)
            {
                let mut out = answer.lock(rt);
                are_right = self.is_right(who, out.as_str()) && are_right;
                out.clear();
            }
        }
        are_right
    }

    /// Whether the output, if there is any, is right as the answer to a caller's last call.
    fn is_right(&mut self, who: usize, out: &str) -> bool {
        let settling = match self.callers.get_mut(who) {
            Some(caller) => caller.settling.take(),
            None => None,
        };
        match settling {
            Some(before) => self.is_report_of_calls_from_count_on(before, out),
            None => out.is_empty() || out == self.answer.as_str(),
        }
    }

    /// Whether the output is the report from scratch of so many calls or more.
    fn is_report_of_calls_from_count_on(&mut self, before: usize, out: &str) -> bool {
        for count in before..=self.made.len() {
            self.set_wanted_report_of_first_calls(count);
            if self.wanted.as_str() == out {
                return true;
            }
        }
        false
    }

    /// Notes the report from scratch of the first so many calls as the one that is wanted.
    fn set_wanted_report_of_first_calls(&mut self, count: usize) {
        let made = self.made.get(..count).unwrap_or(&[]);
        write_report_from_scratch(self.alloc, made, &mut self.wanted);
    }
}
