//! States that runs can be taken up in.
ghost use Rattle.std.specs.Prelude.{◌≡◌, ◌++◌, ◌∷◌, [], IfOk, OnOk};

use pd_reparse::{SharedList, TryClone};
use pd_run::RunState;
use std::alloc::AllocError;
use std::marker::Model;

/// A state on the way of a run.
#[derive(Drop)]
pub struct Checkpoint {
    /// The state, whatever settings are held in it.
    state: RunState,
}

impl Model for Checkpoint {
    ghost use Rattle.pd_run.specs.Step.{RunStateView};

    ghost Value = { RunStateView };

    ghost view = { λ s. s.state };
}

impl Checkpoint {
    /// Puts a copy of a state after others.
    ///
    /// # Errors
    /// `AllocError` where memory for it is refused, and then nothing is claimed of what the list holds.
    pub(crate) fn push_copy_of_run_state(
        checkpoints: &mut SharedList<Checkpoint>,
        state: &RunState,
    ) -> Result<(), AllocError>
        ensures { OnOk result (checkpoints.new ≡ checkpoints.old ++ state.now ∷ []) }
    {
        match state.copy() {
            Ok(state) => checkpoints.push(Checkpoint { state }),
            Err(error) => Err(error),
        }
    }

    /// A state that nothing else holds.
    pub(crate) fn from_owned_run_state(state: RunState) -> Checkpoint
        ensures { result ≡ state }
    {
        Checkpoint { state }
    }

    /// A copy of a state. It is apart, since a list copies several.
    #[inline(never)]
    pub(crate) fn new(state: &RunState) -> Result<Checkpoint, AllocError>
        ensures { IfOk result (λ checkpoint. checkpoint ≡ state.now) }
    {
        Ok(Checkpoint {
            state: state.copy()?,
        })
    }

    /// The state.
    pub fn state(&self) -> &RunState
        ensures { result.now ≡ self.now }
    {
        &self.state
    }
}

impl TryClone for Checkpoint {
    fn try_clone(&self) -> Result<Checkpoint, AllocError> {
        Checkpoint::new(&self.state)
    }
}
