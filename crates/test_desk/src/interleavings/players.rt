//! Players: callers that make calls of a list, workers, and the director; they hand the turn on before each call, round each
//! job and after each of its steps.
use crate::callers::{DeskCalls, call_at};
use crate::interleavings::PLAYERS;
use crate::interleavings::director::Director;
use crate::interleavings::turnstile::{PlayerPosition, Turnstile};
use crate::reference::ReferenceBook;
use crate::tracing_worker::WorkerMode;
use std::alloc::Global;
use std::sync::{Mutex, Wait};
use test_support::{CallArguments, Texts};

/// Where the players of these lists of calls meet, and who gives their turns.
#[derive(Drop)]
pub struct Players<'a, 'b, R> {
    pub rt: &'a R,
    pub alloc: Global,
    pub turnstile: &'a Turnstile,
    pub director: &'a Mutex<Director<'b>>,
    pub lists: (&'b str, &'b str),
}

impl<'a, 'b, R: Wait> Players<'a, 'b, R> {
    /// Makes a caller's calls, each on its turn, works until the desk is shut, or gives the turns.
    pub fn play(&self, me: usize, desk_caller: &mut impl DeskCalls) {
        let is_played = match me {
            0 => self.call_all(self.lists.0, me, desk_caller),
            1 => self.call_all(self.lists.1, me, desk_caller),
            PLAYERS => return self.direct(desk_caller),
            _ => desk_caller.work(self.alloc, WorkerMode::Turns(self.turnstile, me)) == "left",
        };
        if is_played {
            self.turnstile.put(self.rt, me, PlayerPosition::Gone, 0);
        }
    }

    /// Gives all turns, while a book alone is called by hand.
    fn direct(&self, desk_caller: &mut impl DeskCalls) {
        let mut reference = ReferenceBook::new(self.alloc);
        let mut director = self.director.lock(self.rt);
        director.direct(self.rt, self.turnstile, desk_caller, &mut reference);
    }

    /// Makes the calls, each on its turn; whether all were made.
    fn call_all(&self, calls: &str, me: usize, desk_caller: &mut impl DeskCalls) -> bool {
        let mut is_going_on = true;
        for call in calls.split("; ") {
            is_going_on = self.turnstile.stand(self.rt, me, PlayerPosition::Here, 0);
            if is_going_on {
                self.make_call(call, me, desk_caller);
            }
        }
        is_going_on
    }

    /// Makes a call, and says its answer.
    fn make_call(&self, call: &str, me: usize, desk_caller: &mut impl DeskCalls) {
        let mut arguments = CallArguments::new(call);
        let word = arguments.word();
        let mut started_jobs = Vec::new(self.alloc);
        let texts = Texts::new(self.alloc);
        if let Some(answer) = self.turnstile.answers.get(me) {
            let mut out = answer.lock(self.rt);
            call_at(
                desk_caller,
                &mut started_jobs,
                &texts,
                word,
                &mut arguments,
                &mut out,
            );
        }
    }
}
