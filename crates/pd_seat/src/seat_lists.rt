//! The lists of a seat and those beside a book, in which a call leaves its act, for which there is room.
ghost use Rattle.std.specs.Prelude.{◌≡◌, ◌≤◌, ◌<◌, ◌+◌, ◌==◌, ◌∷◌, false, not, length, filter, reverse, OnOk, OnErr, vec_len, vec_capacity};
ghost use Rattle.std.specs.List.{list_any};

use pd_book::Act;
use std::alloc::AllocError;

/// Makes room for so many notes and so many acts more.
///
/// # Errors
/// `AllocError` where a growth is refused.
pub fn reserve_many_notes_and_acts(
    notes: &mut Vec<usize>,
    more_notes: usize,
    own: &mut Vec<Act>,
    more_acts: usize,
) -> Result<(), AllocError>
    ensures notes { (notes.new.items ≡ notes.old.items) × (vec_len notes.new ≡ vec_len notes.old) × (vec_capacity notes.old ≤ vec_capacity notes.new) }
    ensures own { (own.new.items ≡ own.old.items) × (vec_len own.new ≡ vec_len own.old) × (vec_capacity own.old ≤ vec_capacity own.new) }
    ensures room { OnOk result ((vec_len notes.new + more_notes ≤ vec_capacity notes.new) × (vec_len own.new + more_acts ≤ vec_capacity own.new)) }
{
    notes.reserve(more_notes)?;
    own.reserve(more_acts)
}

/// Adds an act.
pub fn push_act(acts: &mut Vec<Act>, act: Act)
    requires { vec_len acts.old < vec_capacity acts.old }
    ensures past { reverse acts.new.items ≡ act ∷ reverse acts.old.items }
    ensures capacity { vec_capacity acts.new ≡ vec_capacity acts.old }
{
    acts.push_reserved(act);
}

/// Adds a note.
pub fn push_noted_seat_number(notes: &mut Vec<usize>, number: usize)
    requires { vec_len notes.old < vec_capacity notes.old }
    ensures past { reverse notes.new.items ≡ number ∷ reverse notes.old.items }
    ensures capacity { vec_capacity notes.new ≡ vec_capacity notes.old }
{
    notes.push_reserved(number);
}

/// Drops a job.
pub fn remove_open_job_number(open_jobs: &mut Vec<u64>, number: u64)
    ensures { open_jobs.new.items ≡ filter (λ job. not (job == number)) open_jobs.old.items }
{
    open_jobs.retain(|job| *job != number);
}

/// Makes room for the end of a job, beside the ends of the open ones. An open job has its room, and takes no memory.
///
/// # Errors
/// `AllocError` where the job isn't open and a growth is refused.
pub fn reserve_end_act_if_job_not_open_at_seat(
    own: &mut Vec<Act>,
    open_jobs: &[u64],
    number: u64,
) -> Result<(), AllocError>
    requires { length own.old.items + length open_jobs.now ≤ vec_capacity own.old }
    ensures items { own.new.items ≡ own.old.items }
    ensures kept { length own.new.items + length open_jobs.now ≤ vec_capacity own.new }
    ensures room { OnOk result (length own.new.items + 1 + length (filter (λ job. not (job == number)) open_jobs.now) ≤ vec_capacity own.new) }
    ensures err { OnErr result (list_any (λ job. job == number) open_jobs.now ≡ false) }
{
    if open_jobs.contains(&number) {
        return Ok(());
    }
    own.reserve(open_jobs.len() + 1)?;
    Ok(())
}
