//! Seats: who makes the calls.
ghost use Rattle.std.specs.Prelude.{◌≡◌, [], reverse};
ghost use Rattle.pd_seat.specs.Seats.{new_seat};

use pd_book::Act;
use std::alloc::Global;
use std::marker::Model;

/// One who makes calls: its number, the acts that it made, and the length of the longest history of which it was shown a
/// report. The calls of a `Held` alone change it.
#[derive(Drop)]
pub struct Seat {
    /// Its number, from 0.
    pub(crate) number: usize,
    /// The acts that it made, the oldest first; they have room for the end of each open job.
    pub(crate) own: Vec<Act>,
    /// The numbers of the jobs that its acts start and don't end.
    pub(crate) open_jobs: Vec<u64>,
    /// How many acts the longest history had of which it was shown a report.
    pub(crate) longest_shown: usize,
}

impl Model for Seat {
    ghost use Rattle.std.specs.Prelude.{reverse, vec_capacity};
    ghost use Rattle.pd_seat.specs.Seats.{SeatView};
    ghost use Rattle.pd_seat.specs.SeatInvariants.{IsSeat};

    ghost Value = { SeatView };

    ghost view = { λ s. record { number = s.number; own = reverse s.own.items; longest_shown = s.longest_shown } };

    ghost invariant = { λ s. IsSeat s.own.items s.open_jobs.items (vec_capacity s.own) };
}

impl Seat {
    /// A seat that made no act.
    pub(crate) fn new(alloc: Global, number: usize) -> Seat
        ensures { result ≡ new_seat number }
    {
        Seat {
            number,
            own: Vec::new(alloc),
            open_jobs: Vec::new(alloc),
            longest_shown: 0,
        }
    }

    /// Its number, from 0.
    pub fn number(&self) -> usize
        ensures { result ≡ self.now.number }
    {
        self.number
    }

    /// The acts that it made, the oldest first.
    pub fn acts(&self) -> &[Act]
        ensures { reverse result.now ≡ self.now.own }
    {
        self.own.as_slice()
    }
}
