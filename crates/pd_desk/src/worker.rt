//! Waiting for verdicts, and the workers that give them.
ghost use Rattle.std.specs.Prelude.{◌≡◌, ◌≢◌, ◌+◌, ◌≤◌, ◌<◌, ◌^◌, ◌⊎◌, true, IfOk, IfErr, IfSome, IfNone, OnOk, OnErr};
ghost use Rattle.pd_seat.specs.Seats.{with_act, is_unended, IsShown};
ghost use Rattle.pd_desk.specs.Desk.{IsCurrent};
ghost use Rattle.pd_desk.specs.Work.{Works};
ghost use Rattle.pd_desk.specs.Internal.{IsWant, EndsJob, LeavesJob, GivesUp};

use crate::desk::Desk;
use crate::faults::DeskFault;
use crate::gate::Gate;
use pd_book::{
    Act, BookFault, Done, Job, MAX_ACTS, Report, law_verdicts_are_of_current_runs, run_job,
};
use pd_run::Stepper;
use pd_seat::Seat;
use std::alloc::Global;
use std::sync::Wait;

impl Desk {
    /// Waits until nothing is owed, and shows the report of that moment, in which no row is pending.
    ///
    /// # Errors
    /// `NoWorkers` where all workers left while a script is owed, at once on a desk for none; else those of `show`.
    pub fn settle<R: Wait>(&self, rt: &R, seat: &mut Seat) -> Result<Report, DeskFault>
        ensures is_shown { IfOk result (λ report. IsShown seat.old report seat.new) }
        ensures current { IfOk result IsCurrent }
        ensures refuses { OnErr result (seat.new ≡ seat.old) }
        ensures room { result ≢ Err DeskFault.HistoryFull }
    {
        let locked = self.changed.wait_while(
            rt,
            self.locked.lock(rt),
            |locked| locked.has_owed_verdict_and_remaining_worker(),
        );
        if locked.held.owed() > 0 {
            return Err(DeskFault::NoWorkers);
        }
        law_verdicts_are_of_current_runs();
        Ok(locked.held.show(seat)?)
    }

    /// Lets the workers leave after their present jobs.
    pub fn shut<R: Wait>(&self, rt: &R) {
        self.locked.lock(rt).worker_counts.shut();
        self.changed.notify_all();
    }

    /// Enters, and runs jobs until the desk is shut: starts one, runs it with this stepper outside the lock, between the
    /// calls of the gate, and finishes it. A refused finish is passed over. The stepper has room for 2^28 steps.
    ///
    /// # Errors
    /// `NoWorkers` where as many workers entered as the desk was opened for; `HistoryFull` where a start finds no room, or
    /// after 65,536 jobs; `OutOfMemory` where a start or a job found no memory, and then the job is abandoned; `Differs`
    /// where the end of a job is refused, and the seat's acts aren't those noted with its number, or the seat was shown a
    /// longer history.
    pub fn work<R: Wait, G: Gate, S: Stepper>(
        &self,
        rt: &R,
        alloc: Global,
        seat: &mut Seat,
        stepper: &mut S,
        gate: &G,
    ) -> Result<(), DeskFault>
        requires room { S.counted stepper.old + 2 ^ 28 < 2 ^ 64 }
        ensures { Works seat.old result seat.new }
    {
        if !self
            .locked
            .lock(rt)
            .worker_counts
            .enter_unless_all_entered()
        {
            return Err(DeskFault::NoWorkers);
        }
        let left = self.run_jobs_until_shut(rt, alloc, seat, stepper, gate);
        self.locked.lock(rt).worker_counts.leave();
        self.changed.notify_all();
        left
    }

    /// Runs jobs until the desk is shut, at most as many as a history has acts.
    fn run_jobs_until_shut<R: Wait, G: Gate, S: Stepper>(
        &self,
        rt: &R,
        alloc: Global,
        seat: &mut Seat,
        stepper: &mut S,
        gate: &G,
    ) -> Result<(), DeskFault>
        requires room { S.counted stepper.old + 2 ^ 28 < 2 ^ 64 }
        ensures works { Works seat.old result seat.new }
        ensures entered { result ≢ Err DeskFault.NoWorkers }
    {
        for _ in 0..MAX_ACTS {
            let Some(job) = self.wait_and_start_job_unless_shut(rt, seat)? else {
                return Ok(());
            };
            self.run_and_finish_or_abandon_job(rt, alloc, seat, job, stepper, gate)?;
        }
        Err(DeskFault::HistoryFull)
    }

    /// Waits for a job and starts it; `None` where the desk is shut.
    fn wait_and_start_job_unless_shut<R: Wait>(
        &self,
        rt: &R,
        seat: &mut Seat,
    ) -> Result<Option<Job>, DeskFault>
        ensures records { IfOk result (λ given. IfSome given (λ job. seat.new ≡ with_act seat.old (Act.Start job.task.number job.task.name))) }
        ensures none { IfOk result (λ given. IfNone given (seat.new ≡ seat.old)) }
        ensures refuses { OnErr result (seat.new ≡ seat.old) }
        ensures fault { IfErr result IsWant }
    {
        let mut locked = self.changed.wait_while(
            rt,
            self.locked.lock(rt),
            |locked| locked.must_workers_wait_for_script(),
        );
        if locked.worker_counts.is_shut() {
            return Ok(None);
        }
        match locked.held.start(seat) {
            Ok(given) => Ok(given),
            Err(BookFault::HistoryFull) => Err(DeskFault::HistoryFull),
            Err(_) => Err(DeskFault::OutOfMemory),
        }
    }

    /// Runs a job that was started, and ends it. Where its end is refused, somebody else has ended it.
    fn run_and_finish_or_abandon_job<R: Wait, G: Gate, S: Stepper>(
        &self,
        rt: &R,
        alloc: Global,
        seat: &mut Seat,
        job: Job,
        stepper: &mut S,
        gate: &G,
    ) -> Result<(), DeskFault>
        requires room { S.counted stepper.old + 4096 < 2 ^ 64 }
        requires started { is_unended seat.old.own job.task.number ≡ true }
        ensures finished { OnOk result (EndsJob job.task seat.old seat.new) }
        ensures given_up { IfErr result (λ fault. GivesUp job.task.number fault seat.old seat.new) }
        ensures few { OnOk result (S.counted stepper.new ≤ S.counted stepper.old + 4096) }
    {
        let number = job.number();
        gate.before(number);
        let ran = run_job(alloc, job, stepper);
        gate.after(number);
        match ran {
            Ok(done) => self.finish_and_fail_if_history_disagrees(rt, seat, &done),
            Err(_) => Err(self.abandon_job_and_return_why_worker_leaves(rt, seat, number)),
        }
    }

    /// Hands in the result of a job that the seat started.
    ///
    /// # Errors
    /// `Differs` where it is refused, after a history that disagrees with the seat.
    fn finish_and_fail_if_history_disagrees<R: Wait>(
        &self,
        rt: &R,
        seat: &mut Seat,
        done: &Done,
    ) -> Result<(), DeskFault>
        requires started { is_unended seat.old.own done.now.number ≡ true }
        ensures finished { OnOk result (EndsJob done.now seat.old seat.new) }
        ensures left { IfErr result (λ fault. (fault ≡ DeskFault.Differs) × LeavesJob seat.old seat.new) }
    {
        let (_, agrees) = self.finish_and_whether_ok_or_seat_agrees(rt, seat, done);
        if !agrees {
            return Err(DeskFault::Differs);
        }
        Ok(())
    }

    /// Gives up a job that the seat started: why its worker leaves. It is `Differs` where that is refused, after a history
    /// that disagrees with the seat.
    fn abandon_job_and_return_why_worker_leaves<R: Wait>(
        &self,
        rt: &R,
        seat: &mut Seat,
        number: u64,
    ) -> DeskFault
        requires started { is_unended seat.old.own number ≡ true }
        ensures { GivesUp number result seat.old seat.new }
    {
        let (_, agrees) = self.abandon_and_whether_ok_or_seat_agrees(rt, seat, number);
        if !agrees {
            return DeskFault::Differs;
        }
        DeskFault::OutOfMemory
    }
}
