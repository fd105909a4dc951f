//! Two callers and two workers at a desk, who hand the turn on before each call, round each job and after each of its steps,
//! in all orders, up to the names of the workers.
mod choices;
mod director;
mod players;
pub mod turnstile;

use self::director::Director;
use self::players::Players;
use self::turnstile::Turnstile;
use crate::callers::{DeskCaller, close, open};
use crate::summary::Summary;
use pd_book::Act;
use pd_desk::Desk;
use pd_seat::Seat;
use std::alloc::{AllocError, Global};
use std::sync::{Mutex, Wait};
use std::thread::Threads;
use std::{io, thread};

/// Callers have the first numbers, workers those after them.
const CALLERS: usize = 2;

const WORKERS: usize = 2;

const PLAYERS: usize = CALLERS + WORKERS;

/// The calls of the two callers, a list a line: the callers are parted by ` / `, the calls of one by `; `.
const LISTS: &str = "\
add a 0 socket(..., SOCK_STREAM, IPPROTO_TCP) = 3; settle / add b 0 socket(..., SOCK_STREAM, IPPROTO_TCP) = 3
add a 0 socket(..., SOCK_STREAM, IPPROTO_TCP) = 3; edit a 1 1 0 socket(..., SOCK_STREAM, IPPROTO_TCP) = 4; settle / settle
add a 0 socket(..., SOCK_STREAM, IPPROTO_TCP) = 3; settle / remove a; settle
add a 0 socket(..., SOCK_STREAM, IPPROTO_TCP) = 3; remove a; settle / settle
add a 0 socket(..., SOCK_STREAM, IPPROTO_TCP) = 3; settle; edit a 1 1 0 socket(..., SOCK_STREAM, IPPROTO_TCP) = 4; settle / settle
add a 0 socket(..., SOCK_STREAM, IPPROTO_TCP) = 3; settle; remove a; settle / add b 0 socket(..., SOCK_STREAM, IPPROTO_TCP) = 3";

/// More orders than a list has.
const MOST: u64 = 100_000;

/// Makes the calls of each list in all orders, and prints how many there are and how many differ; whether none does.
pub fn run_interleavings(
    rt: &(impl Print + AllocGlobal + Threads + Wait + Sync),
) -> io::Result<bool> {
    let mut summary = Summary::new(rt.alloc())?;
    run_lists(rt, rt.alloc(), &mut summary)?;
    summary.print(rt, " orders, ")
}

/// Does so, up to what is printed.
fn run_lists<R: Threads + Wait + Sync>(
    rt: &R,
    alloc: Global,
    summary: &mut Summary,
) -> Result<(), AllocError> {
    let turnstile = Turnstile::new(alloc)?;
    let director = Mutex::new(Director::new(alloc)?);
    run_each_stored_list(rt, alloc, &turnstile, &director, summary);
    Ok(())
}

fn run_each_stored_list<R: Threads + Wait + Sync>(
    rt: &R,
    alloc: Global,
    turnstile: &Turnstile,
    director: &Mutex<Director<'static>>,
    summary: &mut Summary,
) {
    for list in LISTS.split("\n") {
        let cast = Players {
            rt,
            alloc,
            turnstile,
            director,
            lists: list.split_once(" / ").unwrap_or((list, "")),
        };
        cast.run_list(list, summary);
    }
}

impl<'a, 'b, R: Threads + Wait + Sync> Players<'a, 'b, R> {
    /// Makes the calls in all orders, up to one that differs, and counts them.
    fn run_list(&self, list: &str, summary: &mut Summary) {
        self.director.lock(self.rt).choices.clear();
        for _order in 0..MOST {
            summary.count_tried();
            let is_right = self.run_interleaving();
            if !is_right || !self.director.lock(self.rt).choices.advance() {
                return summary.report_unless(is_right, list);
            }
        }
        summary.report_unless(false, list);
    }

    /// Makes calls in the order of the director's choices, or of the first that go on from them; whether all answers are
    /// right, all players have ended, and the closed book's history, made again, has the last report, which is the one from
    /// scratch of all calls.
    fn run_interleaving(&self) -> bool {
        match open(self.alloc, WORKERS, PLAYERS + 1) {
            Some((desk, seats)) => self.run_at(desk, seats),
            None => false,
        }
    }

    fn run_at(&self, desk: Desk, mut seats: Vec<Seat>) -> bool {
        self.play_all(&desk, seats.as_mut_slice());
        match close(desk, seats) {
            Some(book) => self.is_right(book.history()),
            None => false,
        }
    }

    /// Lets all players play, while the director gives their turns at the last seat.
    fn play_all(&self, desk: &Desk, seats: &mut [Seat]) {
        self.turnstile.begin(self.rt);
        self.director.lock(self.rt).begin(self.lists);
        thread::for_each_mut(
            self.rt,
            seats,
            PLAYERS + 1,
            &|me, seat| {
                let rt = self.rt;
                self.play(me, &mut DeskCaller { rt, desk, seat });
            },
        );
    }

    fn is_right(&self, acts: &[Act]) -> bool {
        let is_right = self.director.lock(self.rt).is_right_history(acts);
        is_right && self.turnstile.look(self.rt).have_ended()
    }
}
