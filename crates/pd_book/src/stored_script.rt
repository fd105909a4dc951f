//! A script as the book keeps it.
ghost use Rattle.std.specs.Prelude.{◌≡◌};
ghost use Rattle.pd_book.specs.StoredScripts.{pending_state, verdict_in};

use pd_run::Verdict;
use pd_text::Text;

/// How a script stands since its last change.
#[derive(Clone, Copy, PartialEq, Eq)]
pub enum ScriptState {
    Pending,
    /// The job of this number runs.
    Running(u64),
    Answered(Verdict),
}

/// A script: its present text and how it stands.
#[derive(Drop)]
pub struct StoredScript {
    /// Its present text.
    pub text: Text,
    /// How it stands since its last change.
    pub state: ScriptState,
}

impl ScriptState {
    /// Whether no job runs it and none has answered it.
    pub fn is_pending(&self) -> bool
        ensures { result ≡ pending_state self.now }
    {
        match self {
            ScriptState::Pending => true,
            ScriptState::Running(_) | ScriptState::Answered(_) => false,
        }
    }

    /// The verdict, once a job has answered the script.
    pub fn verdict(&self) -> Option<Verdict>
        ensures { result ≡ verdict_in self.now }
    {
        match self {
            ScriptState::Answered(verdict) => Some(*verdict),
            ScriptState::Pending | ScriptState::Running(_) => None,
        }
    }
}
