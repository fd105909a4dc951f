//! Where threads hand the turn on.
use crate::callers::new_answers_for_threads;
use crate::interleavings::{CALLERS, PLAYERS};
use std::alloc::{AllocError, Global};
use std::sync::{Condvar, Mutex, Wait};
use test_support::AnswerText;

/// Where a player is.
#[derive(Clone, Copy)]
pub enum PlayerPosition {
    /// It goes on, waits for a job or for verdicts.
    Away,
    /// It waits for its turn.
    Here,
    /// It does so after its job, before it hands the result in.
    Done,
    /// It has ended.
    Gone,
}

/// A player: where it is, and the job that it has or had last.
#[derive(Clone, Copy)]
pub struct Player {
    pub spot: PlayerPosition,
    pub job: u64,
}

/// The players, whose turn it is, and whether nobody waits for a turn any more.
#[derive(Clone, Copy)]
pub struct TurnOrder {
    places: [Player; PLAYERS],
    pub turn: Option<usize>,
    is_over: bool,
}

/// All players as they go on at first.
const AT_FIRST: TurnOrder = TurnOrder {
    places: [Player {
        spot: PlayerPosition::Away,
        job: 0,
    }; PLAYERS],
    turn: None,
    is_over: false,
};

impl TurnOrder {
    /// A player's place; that of one who has ended where there is no such player.
    pub fn place(&self, who: usize) -> Player {
        self.places.get(who).copied().unwrap_or(Player {
            spot: PlayerPosition::Gone,
            job: 0,
        })
    }

    pub fn is_away(&self, who: usize) -> bool {
        matches!(self.place(who).spot, PlayerPosition::Away)
    }

    /// Whether all have ended.
    pub fn have_ended(&self) -> bool {
        let mut have_ended = true;
        for place in &self.places {
            have_ended = have_ended && matches!(place.spot, PlayerPosition::Gone);
        }
        have_ended
    }

    /// How many may go on, and who these are, first of all: the callers, and then the workers by the numbers of their jobs.
    pub fn options(&self) -> (usize, [usize; PLAYERS]) {
        let is_turned = self.place(CALLERS + 1).job < self.place(CALLERS).job;
        let order = if is_turned {
            [0, 1, CALLERS + 1, CALLERS]
        } else {
            [0, 1, CALLERS, CALLERS + 1]
        };
        let mut options = order;
        let mut count = 0usize;
        for who in &order {
            if matches!(
                self.place(*who).spot,
                PlayerPosition::Here | PlayerPosition::Done
            ) {
                if let Some(option) = options.get_mut(count) {
                    *option = *who;
                }
                count = count.wrapping_add(1);
            }
        }
        (count, options)
    }
}

/// Where players wait for their turns, and callers answer.
#[derive(Drop)]
pub struct Turnstile {
    standing: Mutex<TurnOrder>,
    moved: Condvar,
    pub answers: Vec<Mutex<AnswerText>>,
}

impl Turnstile {
    pub fn new(alloc: Global) -> Result<Turnstile, AllocError> {
        Ok(Turnstile {
            answers: new_answers_for_threads(alloc, CALLERS)?,
            standing: Mutex::new(AT_FIRST),
            moved: Condvar::new(),
        })
    }

    /// Begins anew.
    pub fn begin<R: Wait>(&self, rt: &R) {
        *self.standing.lock(rt) = AT_FIRST;
        for answer in self.answers.iter() {
            answer.lock(rt).clear();
        }
    }

    pub fn look<R: Wait>(&self, rt: &R) -> TurnOrder {
        *self.standing.lock(rt)
    }

    /// Puts a player in its place, with the job that it has.
    pub fn put<R: Wait>(&self, rt: &R, me: usize, spot: PlayerPosition, job: u64) {
        if let Some(place) = self.standing.lock(rt).places.get_mut(me) {
            *place = Player { spot, job };
        }
    }

    /// Does so, and waits for the player's turn; false where nobody does any more.
    pub fn stand<R: Wait>(&self, rt: &R, me: usize, spot: PlayerPosition, job: u64) -> bool {
        self.put(rt, me, spot, job);
        let mut standing = self
            .moved
            .wait_while(rt, self.standing.lock(rt), |standing| {
                !standing.is_over && standing.turn != Some(me)
            });
        standing.turn = None;
        !standing.is_over
    }

    /// Gives a player the turn.
    pub fn grant<R: Wait>(&self, rt: &R, who: usize) {
        let mut standing = self.standing.lock(rt);
        standing.turn = Some(who);
        if let Some(place) = standing.places.get_mut(who) {
            place.spot = PlayerPosition::Away;
        }
        drop(standing);
        self.moved.notify_all();
    }

    /// Lets nobody wait for a turn any more.
    pub fn give_up<R: Wait>(&self, rt: &R) {
        self.standing.lock(rt).is_over = true;
        self.moved.notify_all();
    }
}
