//! Tasks: what a job is to run.
ghost use Rattle.std.specs.Prelude.{◌≡◌, ◌↔◌, IsTrue, IfOk};

use pd_settings::Settings;
use pd_text::{Name, Text};
use std::alloc::AllocError;

/// The task of a job: to run the text of a script under the settings, both as at the job's start.
#[derive(Drop)]
pub struct Task {
    /// The number of the job, in a book from 1 on.
    pub number: u64,
    /// The name of the script.
    pub name: Name,
    /// The text to be run.
    pub text: Text,
    /// The settings to run it under.
    pub settings: Settings,
}

impl Task {
    /// Whether both have the same number, name, text and settings.
    pub fn is_same(&self, other: &Task) -> bool
        ensures { IsTrue result ↔ (self.now ≡ other.now) }
    {
        self.number == other.number
            && self.name.is_same(&other.name)
            && self.settings.is_same(&other.settings)
            && self.text.is_same(&other.text)
    }

    /// An equal task, which shares the name and the text.
    ///
    /// # Errors
    /// `AllocError` only where a count of owners is full.
    pub fn share(&self) -> Result<Task, AllocError>
        ensures { IfOk result (λ task. task ≡ self.now) }
    {
        Ok(Task {
            number: self.number,
            name: self.name.share()?,
            text: self.text.share()?,
            settings: self.settings,
        })
    }
}
