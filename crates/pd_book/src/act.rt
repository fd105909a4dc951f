//! Acts: what a book records. A copy of an act shares its name, text and edit, and takes no memory.
ghost use Rattle.std.specs.Prelude.{◌≡◌, ◌↔◌, IfOk, IsTrue};

use crate::shared_edit::SharedEdit;
use pd_settings::{Key, Value};
use pd_text::{Name, Text};
use std::alloc::AllocError;

/// The ruling on a finish of a job.
#[derive(Clone, Copy, PartialEq, Eq)]
pub enum Ruling {
    /// The job's script is unchanged since the job's start: its verdict is shown.
    Taken,
    /// The script changed since the job's start, or is gone: the result shows nowhere.
    Stale,
}

/// An accepted call that changed a book. Jobs are named by their numbers, from 1.
#[derive(Drop)]
pub enum Act {
    Add(Name, Text),
    Edit(Name, SharedEdit),
    Remove(Name),
    Set(Key, Value),
    Start(u64, Name),
    Finish(u64, Ruling),
    Abandon(u64),
}

impl Act {
    /// An equal act of its own, which shares the name, the text and the edit.
    ///
    /// # Errors
    /// `AllocError` only where a count of owners is full.
    pub fn copy(&self) -> Result<Act, AllocError>
        ensures { IfOk result (λ act. act ≡ self.now) }
    {
        Ok(match self {
            Act::Add(name, text) => Act::Add(name.share()?, text.share()?),
            Act::Edit(name, edit) => Act::Edit(name.share()?, edit.share()?),
            Act::Remove(name) => Act::Remove(name.share()?),
            Act::Set(key, value) => Act::Set(*key, *value),
            Act::Start(number, name) => Act::Start(*number, name.share()?),
            Act::Finish(number, ruling) => Act::Finish(*number, *ruling),
            Act::Abandon(number) => Act::Abandon(*number),
        })
    }

    /// Whether both are the same act.
    pub fn is_same(&self, other: &Act) -> bool
        ensures { IsTrue result ↔ (self.now ≡ other.now) }
    {
        match (self, other) {
            (Act::Add(name, text), Act::Add(named, lines)) => {
                name.is_same(named) && text.is_same(lines)
            }
            (Act::Edit(name, edit), Act::Edit(named, change)) => {
                name.is_same(named) && edit.is_same(change)
            }
            (Act::Remove(name), Act::Remove(named)) => name.is_same(named),
            (Act::Set(key, value), Act::Set(field, chosen)) => {
                is_same_key(*key, *field) && value == chosen
            }
            (Act::Start(number, name), Act::Start(count, named)) => {
                number == count && name.is_same(named)
            }
            (Act::Finish(number, ruling), Act::Finish(count, ruled)) => {
                number == count && ruling == ruled
            }
            (Act::Abandon(number), Act::Abandon(count)) => number == count,
            _ => false,
        }
    }
}

/// Whether both are the same setting.
fn is_same_key(one: Key, other: Key) -> bool
    ensures { IsTrue result ↔ (one ≡ other) }
{
    one == other
}
