//! The data under the lock of a desk.
ghost use Rattle.std.specs.Prelude.{◌≡◌, ◌≢◌, ◌↔◌, ◌<◌, true, false, is_some, IsTrue, IfOk, OnOk, OnErr, Err};
ghost use Rattle.pd_book.specs.Acts.{next};
ghost use Rattle.pd_book.specs.Replies.{GivesFinish, GivesAbandon};
ghost use Rattle.pd_book.specs.Report.{owed};
ghost use Rattle.pd_seat.specs.Seats.{with_act, is_unended, Unless};
ghost use Rattle.pd_desk.specs.Desk.{AfterSome};
ghost use Rattle.pd_desk.specs.Internal.{Compared};

use crate::worker_counts::WorkerCounts;
use pd_book::{Act, Done, FinishFault, Ruling};
use pd_seat::{Held, Seat};

/// The book that callers share, and the workers.
#[derive(Drop)]
pub struct Locked {
    /// The book, and who made each of its acts.
    pub held: Held,
    /// The workers.
    pub worker_counts: WorkerCounts,
}

impl Locked {
    /// Whether a verdict is owed that a worker may still give.
    pub fn has_owed_verdict_and_remaining_worker(&self) -> bool
        ensures { IsTrue result ↔ ((self.now.worker_counts.left < self.now.worker_counts.size) × (0 < owed self.now.held.book.history.opening self.now.held.book.history.past)) }
    {
        self.worker_counts.has_worker_not_yet_left() && self.held.owed() > 0
    }

    /// Whether workers have nothing to do but to wait.
    pub fn must_workers_wait_for_script(&self) -> bool
        ensures { IsTrue result ↔ ((self.now.worker_counts.is_shut ≡ false) × (is_some (next self.now.held.book.history.past) ≡ false)) }
    {
        !self.worker_counts.is_shut() && !self.held.has_waiting_script()
    }

    /// Takes the result of an outstanding job; and whether the history agrees with the seat, which is looked at only where
    /// the finish is refused.
    pub fn finish_and_whether_ok_or_seat_agrees(
        &mut self,
        seat: &mut Seat,
        done: &Done,
    ) -> (Result<Ruling, FinishFault>, bool)
        ensures gives { Unless FinishFault.OutOfMemory result.0 (AfterSome (λ before after. GivesFinish before done.now result.0 after)) }
        ensures compared { Compared seat.old result.0 result.1 (λ before after. GivesFinish before done.now result.0 after) }
        ensures records { IfOk result.0 (λ ruling. seat.new ≡ with_act seat.old (Act.Finish done.now.number ruling)) }
        ensures room { is_unended seat.old.own done.now.number ≡ true → result.0 ≢ Err FinishFault.OutOfMemory }
        ensures refuses { OnErr result.0 (seat.new ≡ seat.old) }
    {
        let reply = self.held.finish(seat, done);
        let agrees = reply.is_ok() || self.held.agrees(seat);
        (reply, agrees)
    }

    /// Gives up an outstanding job; and whether the history agrees with the seat, as `finish` does.
    pub fn abandon_and_whether_ok_or_seat_agrees(
        &mut self,
        seat: &mut Seat,
        number: u64,
    ) -> (Result<(), FinishFault>, bool)
        ensures gives { Unless FinishFault.OutOfMemory result.0 (AfterSome (λ before after. GivesAbandon before number result.0 after)) }
        ensures compared { Compared seat.old result.0 result.1 (λ before after. GivesAbandon before number result.0 after) }
        ensures records { OnOk result.0 (seat.new ≡ with_act seat.old (Act.Abandon number)) }
        ensures room { is_unended seat.old.own number ≡ true → result.0 ≢ Err FinishFault.OutOfMemory }
        ensures refuses { OnErr result.0 (seat.new ≡ seat.old) }
    {
        let reply = self.held.abandon(seat, number);
        let agrees = reply.is_ok() || self.held.agrees(seat);
        (reply, agrees)
    }
}
