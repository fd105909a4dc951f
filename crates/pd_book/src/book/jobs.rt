//! Jobs that a book hands out, numbered from 1 in order of starting, and results that come back.
ghost use Rattle.std.specs.Prelude.{◌≡◌, ◌≢◌, ◌+◌, ◌≤◌, is_some, length, IsSome, OnOk, OnErr, IfOk, IfErr, IfSome, None, Some, option_map, option_copied};
ghost use Rattle.std.specs.Map.Iter.{deref_pair};
ghost use Rattle.pd_book.specs.Acts.{present_text, has_script, next, now, started, jobs, job, is_unchanged_since_start, ruling};
ghost use Rattle.pd_book.specs.Report.{shown};
ghost use Rattle.pd_book.specs.History.{after_act, after_start, handed_task};
ghost use Rattle.pd_book.specs.Replies.{GivesStart, GivesFinish, GivesAbandon};
ghost use Rattle.pd_book.specs.Replay.{IsReady};
ghost use Rattle.pd_book.specs.TrackCache.{track_of, marked_used, should_cache, HandsOutTrack, CachesTrack};
ghost use Rattle.pd_book.specs.Refusals.{history_full_fault_unless_space_for, start_refusal, next_job, fault_of, finish_fault};

use super::Book;
use crate::act::{Act, Ruling};
use crate::faults::{BookFault, FinishFault};
use crate::records::{PendingStart, task_with_number_if_any};
use pd_text::{Name, Text};
use pd_track::{Done, Job, Task};
use std::alloc::AllocError;

impl Book {
    /// The first script that waits.
    fn find_first_pending_name_and_text(&self) -> Option<(&Name, &Text)>
        ensures { option_map deref_pair result ≡ next self.now.history.past }
    {
        match self.records.scripts.find_first_pending_name_and_script() {
            Some((name, script)) => Some((name, &script.text)),
            None => None,
        }
    }

    /// The name of the script that the next start is for, if one waits.
    pub fn name_of_next_script_to_start(&self) -> Option<&Name>
        ensures { option_copied result ≡ option_map (λ script. script.0) (next self.now.history.past) }
    {
        match self.find_first_pending_name_and_text() {
            Some((name, _)) => Some(name),
            None => None,
        }
    }

    /// The number that the next job gets.
    pub fn next_job_number(&self) -> u64
        ensures { result ≡ started self.now.history.past + 1 }
    {
        self.last_number + 1
    }

    /// The parts of a start: the job to hand out, the task to keep and the act to record.
    fn build_next_start_unless_full(&self) -> Result<Option<PendingStart>, BookFault>
        ensures none { IfOk result (λ p. p ≡ None → next self.now.history.past ≡ None) }
        ensures some { IfOk result (λ p. IfSome p (λ p. IsReady self.now.history.opening self.now.history.past p.job.task p.task p.act)) }
        ensures room { IfOk result (λ p. IfSome p (λ _. history_full_fault_unless_space_for 2 self.now.history ≡ None)) }
        ensures track { IfOk result (λ p. IfSome p (λ p. p.job.track ≡ track_of p.job.task.name self.now.tracks)) }
        ensures err { IfErr result (λ e. e ≡ fault_of (start_refusal self.now.history)) }
        ensures waits { OnErr result (IsSome (next self.now.history.past)) }
    {
        let Some((name, text)) = self.find_first_pending_name_and_text() else {
            return Ok(None);
        };
        match self.history_full_fault_unless_space_for(2) {
            Some(fault) => Err(fault),
            None => Ok(Some(self.build_start_job_task_and_act(name, text)?)),
        }
    }

    /// The same for the script that waits.
    fn build_start_job_task_and_act(
        &self,
        name: &Name,
        text: &Text,
    ) -> Result<PendingStart, AllocError>
        requires { next self.now.history.past ≡ Some (name.now, text.now) }
        ensures ready { IfOk result (λ p. IsReady self.now.history.opening self.now.history.past p.job.task p.task p.act) }
        ensures track { IfOk result (λ p. p.job.track ≡ track_of p.job.task.name self.now.tracks) }
    {
        let task = self.build_task_for_next_job(name, text)?;
        let job = self.job_with_cached_track(&task)?;
        let act = Act::Start(task.number, name.share()?);
        Ok(PendingStart { job, task, act })
    }

    /// The task of the next job where it runs this script.
    fn build_task_for_next_job(&self, name: &Name, text: &Text) -> Result<Task, AllocError>
        ensures number { IfOk result (λ task. task.number ≡ started self.now.history.past + 1) }
        ensures name { IfOk result (λ task. task.name ≡ name.now) }
        ensures text { IfOk result (λ task. task.text ≡ text.now) }
        ensures settings { IfOk result (λ task. task.settings ≡ now self.now.history.opening self.now.history.past) }
    {
        let name = name.share()?;
        Ok(Task {
            number: self.next_job_number(),
            name,
            text: text.share()?,
            settings: self.settings,
        })
    }

    /// The job that runs this, with the track that is kept under its name.
    fn job_with_cached_track(&self, task: &Task) -> Result<Job, AllocError>
        ensures task { IfOk result (λ job. job.task ≡ task.now) }
        ensures track { IfOk result (λ job. job.track ≡ track_of task.now.name self.now.tracks) }
    {
        let track = match self.tracks.peek_track(&task.name) {
            Some(track) => Some(track.share()?),
            None => None,
        };
        Ok(Job::of(task.share()?, track))
    }

    /// Hands out a job for the first script, in order of adding, that isn't answered and has no job started
    /// since its last change and not ended; `None`, which records nothing, where there is none.
    ///
    /// # Errors
    /// Where there is such a script alone: `HistoryFull` without room for the act and the job's end, else
    /// `OutOfMemory`.
    pub fn start(&mut self) -> Result<Option<Job>, BookFault>
        ensures gives { GivesStart self.old.history result self.new.history }
        ensures job { IfOk result (λ job. handed_task job ≡ next_job self.old.history) }
        ensures ok { IfOk result (λ job. self.new.history ≡ after_start self.old.history (handed_task job)) }
        ensures allowed { OnOk result (start_refusal self.old.history ≡ None) }
        ensures err { IfErr result (λ e. e ≡ fault_of (start_refusal self.old.history)) }
        ensures waits { OnErr result (IsSome (next self.old.history.past)) }
        ensures same { OnErr result (self.new ≡ self.old) }
        ensures tracks { IfOk result (λ job. HandsOutTrack job self.old.tracks self.new.tracks) }
    {
        match self.build_next_start_unless_full()? {
            Some(pending) => Ok(Some(self.commit_start_and_hand_out_job(pending)?)),
            None => Ok(None),
        }
    }

    /// Hands out a job that is prepared.
    fn commit_start_and_hand_out_job(&mut self, pending: PendingStart) -> Result<Job, AllocError>
        requires ready { IsReady self.old.history.opening self.old.history.past pending.job.task pending.task pending.act }
        requires room { history_full_fault_unless_space_for 2 self.old.history ≡ None }
        ensures job { IfOk result (λ job. job ≡ pending.job) }
        ensures ok { OnOk result (self.new.history ≡ after_act self.old.history pending.act) }
        ensures same { OnErr result (self.new ≡ self.old) }
        ensures tracks { OnOk result (self.new.tracks ≡ marked_used pending.job.task.name self.old.tracks) }
    {
        self.records.reserve_acts_and_task_for_start()?;
        self.last_number = pending.job.number();
        self.tracks.mark_used(pending.job.name());
        Ok(self.records.record_start_and_hand_out_job(pending))
    }

    /// The outstanding job of this number.
    fn find_outstanding_task_by_number(&self, number: u64) -> Option<&Task>
        ensures { option_copied result ≡ job self.now.history.opening self.now.history.past number }
    {
        task_with_number_if_any(self.records.tasks.as_slice(), number)
    }

    /// How many jobs are outstanding.
    pub fn outstanding_count(&self) -> usize
        ensures count { result ≡ length (jobs self.now.history.opening self.now.history.past) }
        ensures few { result ≤ 65536 }
    {
        self.records.tasks.len()
    }

    /// Whether a job of this number is outstanding.
    pub fn is_outstanding(&self, number: u64) -> bool
        ensures { result ≡ is_some (job self.now.history.opening self.now.history.past number) }
    {
        self.find_outstanding_task_by_number(number).is_some()
    }

    /// Whether the script of an outstanding job is unchanged since the job's start.
    fn is_unchanged_since_start(&self, done: &Done) -> bool
        requires { job self.now.history.opening self.now.history.past done.now.number ≡ Some done.now }
        ensures { result ≡ is_unchanged_since_start self.now.history.past done.now }
    {
        self.records
            .scripts
            .is_running_job(done.name(), done.number())
    }

    /// The ruling on a finish of this job.
    fn ruling_taken_if_unchanged_else_stale(&self, done: &Done) -> Ruling
        requires { job self.now.history.opening self.now.history.past done.now.number ≡ Some done.now }
        ensures { result ≡ ruling self.now.history.past done.now }
    {
        if self.is_unchanged_since_start(done) {
            Ruling::Taken
        } else {
            Ruling::Stale
        }
    }

    /// Whether the track of this result is kept.
    fn is_track_taken_or_better_than_cached(&self, done: &Done, ruling: Ruling) -> bool
        ensures { result ≡ should_cache ruling (present_text self.now.history.past done.now.name) done.now self.now.tracks }
    {
        match ruling {
            Ruling::Taken => true,
            // The track of an old text may share more lines with the present one than the kept track.
            Ruling::Stale => match self.text(done.name()) {
                Some(text) => self.tracks.shares_more_lines_than_cached(done, text),
                None => false,
            },
        }
    }

    /// Takes the result of an outstanding job: `Stale`, recorded and shown nowhere, where the job's script
    /// changed since the job's start or is gone. A result of another job that agrees in number, name, text
    /// and settings is taken as the job's own.
    ///
    /// # Errors
    /// `NoSuchJob`, else `Foreign`, which leaves the job outstanding. It takes no memory.
    pub fn finish(&mut self, done: &Done) -> Result<Ruling, FinishFault>
        ensures gives { GivesFinish self.old.history done.now result self.new.history }
        ensures own { OnOk result (job self.old.history.opening self.old.history.past done.now.number ≡ Some done.now) }
        ensures ruling { IfOk result (λ r. r ≡ ruling self.old.history.past done.now) }
        ensures ok { IfOk result (λ r. self.new.history ≡ after_act self.old.history (Act.Finish done.now.number r)) }
        ensures foreign { OnErr result (job self.old.history.opening self.old.history.past done.now.number ≢ Some done.now) }
        ensures err { IfErr result (λ e. e ≡ finish_fault (job self.old.history.opening self.old.history.past done.now.number)) }
        ensures same { OnErr result (self.new ≡ self.old) }
        ensures tracks { IfOk result (λ r. CachesTrack r (present_text self.old.history.past done.now.name) done.now self.old.tracks self.new.tracks) }
    {
        let Some(task) = self.find_outstanding_task_by_number(done.number()) else {
            return Err(FinishFault::NoSuchJob);
        };
        if !task.is_same(done.task()) {
            return Err(FinishFault::Foreign);
        }
        let ruling = self.ruling_taken_if_unchanged_else_stale(done);
        let should_cache = self.is_track_taken_or_better_than_cached(done, ruling);
        self.tracks
            .cache_track_at_front_if_wanted(*self.records.acts.allocator(), done, should_cache);
        self.records
            .record_finish_and_store_taken_verdict(done, ruling);
        Ok(ruling)
    }

    /// Gives up an outstanding job.
    ///
    /// # Errors
    /// `NoSuchJob`. It takes no memory.
    pub fn abandon(&mut self, number: u64) -> Result<(), FinishFault>
        ensures gives { GivesAbandon self.old.history number result self.new.history }
        ensures outstanding { OnOk result (IsSome (job self.old.history.opening self.old.history.past number)) }
        ensures ok { OnOk result (self.new.history ≡ after_act self.old.history (Act.Abandon number)) }
        ensures err { IfErr result (λ e. e ≡ FinishFault.NoSuchJob) }
        ensures none { OnErr result (job self.old.history.opening self.old.history.past number ≡ None) }
        ensures same { OnErr result (self.new ≡ self.old) }
        ensures tracks { self.new.tracks ≡ self.old.tracks }
    {
        let Some(_task) = self.find_outstanding_task_by_number(number) else {
            return Err(FinishFault::NoSuchJob);
        };
        self.records.record_abandon_drop_task_make_pending(number);
        Ok(())
    }
}
