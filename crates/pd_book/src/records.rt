//! The records of a book, and the changes that a call makes in them, for which there is room.
ghost use Rattle.std.specs.Prelude.{◌≡◌, ◌+◌, ◌^◌, ◌≤◌, ◌<◌, ◌==◌, ◌++◌, ◌∷◌, [], reverse, find, filter, not, Some, OnOk, option_copied, vec_len, vec_capacity};
ghost use Rattle.std.specs.Str.{bytes_eq};
ghost use Rattle.pd_book.specs.Acts.{without};
ghost use Rattle.pd_book.specs.StoredScripts.{with_state};
ghost use Rattle.pd_book.specs.Replay.{settle, make_pending_if_running_task};

use crate::act::{Act, Ruling};
use crate::scripts::Scripts;
use crate::stored_script::ScriptState;
use pd_track::{Done, Job, Task};
use std::alloc::{AllocError, Global};

/// A job to hand out, its task to keep and its act to record.
#[derive(Drop)]
pub struct PendingStart {
    /// The job to hand out.
    pub job: Job,
    /// Its task, to be kept until the job ends.
    pub task: Task,
    /// The start to record.
    pub act: Act,
}

/// The records of a book: the acts, the oldest first, the tasks of the outstanding jobs, and the scripts.
#[derive(Drop)]
pub struct Records {
    /// The accepted calls, the oldest first; they have room for the end of each outstanding job.
    pub acts: Vec<Act>,
    /// The tasks of the outstanding jobs, in the order of their starts.
    pub tasks: Vec<Task>,
    /// The scripts that stand, in order of adding.
    pub scripts: Scripts,
}

impl Records {
    /// Of a book without acts.
    pub fn new(alloc: Global) -> Records
        ensures acts { result.acts.items ≡ [] }
        ensures tasks { result.tasks.items ≡ [] }
        ensures scripts { result.scripts ≡ [] }
    {
        Records {
            acts: Vec::new(alloc),
            tasks: Vec::new(alloc),
            scripts: Scripts::new(alloc),
        }
    }

    /// Makes room for a start: for its act and its task, and for the end of the job.
    ///
    /// # Errors
    /// `AllocError` where a growth is refused.
    pub fn reserve_acts_and_task_for_start(&mut self) -> Result<(), AllocError>
        requires { vec_len self.old.tasks < 2 ^ 63 }
        ensures acts { self.new.acts.items ≡ self.old.acts.items }
        ensures tasks { self.new.tasks.items ≡ self.old.tasks.items }
        ensures scripts { self.new.scripts ≡ self.old.scripts }
        ensures capacity { vec_capacity self.old.acts ≤ vec_capacity self.new.acts }
        ensures act_room { OnOk result (vec_len self.new.acts + vec_len self.new.tasks + 2 ≤ vec_capacity self.new.acts) }
        ensures job_room { OnOk result (vec_len self.new.tasks < vec_capacity self.new.tasks) }
    {
        self.acts.reserve(self.tasks.len() + 2)?;
        self.tasks.reserve(1)
    }

    /// Keeps what a start leaves, and hands out its job.
    pub fn record_start_and_hand_out_job(&mut self, pending: PendingStart) -> Job
        requires act_room { vec_len self.old.acts < vec_capacity self.old.acts }
        requires job_room { vec_len self.old.tasks < vec_capacity self.old.tasks }
        ensures job { result ≡ pending.job }
        ensures past { reverse self.new.acts.items ≡ pending.act ∷ reverse self.old.acts.items }
        ensures capacity { vec_capacity self.old.acts ≤ vec_capacity self.new.acts }
        ensures tasks { self.new.tasks.items ≡ self.old.tasks.items ++ pending.task ∷ [] }
        ensures scripts { self.new.scripts ≡ with_state (bytes_eq pending.job.task.name) (ScriptState.Running pending.job.task.number) self.old.scripts }
    {
        let PendingStart { job, task, act } = pending;
        self.scripts
            .set_state_by_name(job.name(), ScriptState::Running(job.number()));
        push_task(&mut self.tasks, task);
        record_act(&mut self.acts, act);
        job
    }

    /// Keeps what a finish leaves.
    pub fn record_finish_and_store_taken_verdict(&mut self, done: &Done, ruling: Ruling)
        requires { vec_len self.old.acts < vec_capacity self.old.acts }
        ensures past { reverse self.new.acts.items ≡ Act.Finish done.now.number ruling ∷ reverse self.old.acts.items }
        ensures capacity { vec_capacity self.old.acts ≤ vec_capacity self.new.acts }
        ensures tasks { self.new.tasks.items ≡ without done.now.number self.old.tasks.items }
        ensures scripts { self.new.scripts ≡ settle ruling (Some done.now) self.old.scripts }
    {
        if let Ruling::Taken = ruling {
            self.scripts
                .set_state_by_name(done.name(), ScriptState::Answered(done.verdict()));
        }
        remove_task_by_number(&mut self.tasks, done.number());
        record_act(&mut self.acts, Act::Finish(done.number(), ruling));
    }

    /// Keeps what an abandonment leaves.
    pub fn record_abandon_drop_task_make_pending(&mut self, number: u64)
        requires { vec_len self.old.acts < vec_capacity self.old.acts }
        ensures past { reverse self.new.acts.items ≡ Act.Abandon number ∷ reverse self.old.acts.items }
        ensures capacity { vec_capacity self.old.acts ≤ vec_capacity self.new.acts }
        ensures tasks { self.new.tasks.items ≡ without number self.old.tasks.items }
        ensures scripts { self.new.scripts ≡ make_pending_if_running_task (find (λ task. number == task.number) self.old.tasks.items) self.old.scripts }
    {
        if let Some(task) = task_with_number_if_any(self.tasks.as_slice(), number) {
            self.scripts.make_pending_if_running_task(task);
        }
        remove_task_by_number(&mut self.tasks, number);
        record_act(&mut self.acts, Act::Abandon(number));
    }
}

/// Adds an act.
pub fn record_act(acts: &mut Vec<Act>, act: Act)
    requires { vec_len acts.old < vec_capacity acts.old }
    ensures past { reverse acts.new.items ≡ act ∷ reverse acts.old.items }
    ensures capacity { vec_capacity acts.old ≤ vec_capacity acts.new }
{
    acts.push_reserved(act);
}

/// Keeps a task.
fn push_task(tasks: &mut Vec<Task>, task: Task)
    requires { vec_len tasks.old < vec_capacity tasks.old }
    ensures { tasks.new.items ≡ tasks.old.items ++ task ∷ [] }
{
    tasks.push_reserved(task);
}

/// The task of this number.
pub fn task_with_number_if_any(tasks: &[Task], number: u64) -> Option<&Task>
    ensures { option_copied result ≡ find (λ task. number == task.number) tasks.now }
{
    tasks.iter().find(|task| number == task.number)
}

fn remove_task_by_number(tasks: &mut Vec<Task>, number: u64)
    ensures { tasks.new.items ≡ without number tasks.old.items }
{
    tasks.retain(|task| number != task.number);
}
