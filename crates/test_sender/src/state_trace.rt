//! A stepper that notes through which states a run leads.
ghost use Rattle.std.specs.Prelude.{◌≡◌};

use crate::output::OutputText;
use pd_run::{ConnState, Plain, RunState, StepEnd, Stepper};
use pd_script::Event;
use pd_settings::Settings;
use std::alloc::{AllocError, Global};

/// The stepper of the product, and the names of the states so far, each where it differs from the one before. A run goes
/// on with a copy after each event, and where it stops a copy is tried too.
#[derive(Drop)]
pub struct StateTrace {
    steps: Plain,
    last: &'static str,
    pub states: OutputText,
    /// Whether each copy was made, and that of a run that stopped behaved as the run itself.
    pub is_copied: bool,
}

impl StateTrace {
    pub fn new(alloc: Global) -> StateTrace
        ensures { result.steps ≡ 0 }
    {
        StateTrace {
            steps: Plain::new(),
            last: "",
            states: OutputText::new(alloc),
            is_copied: true,
        }
    }

    /// Notes a state.
    fn note(&mut self, state: ConnState)
        ensures { self.new.steps ≡ self.old.steps }
    {
        let name = name(state);
        if name != self.last {
            self.states
                .push_str(if self.last.is_empty() { "" } else { " " });
            self.states.push_str(name);
            self.last = name;
        }
    }
}

impl Stepper for StateTrace {
    ghost counted = { λ w. w.steps };

    fn step(
        &mut self,
        state: &mut RunState,
        event: &Event,
        settings: &Settings,
    ) -> Result<StepEnd, AllocError> {
        let end = self.steps.step(state, event, settings);
        if let Ok(StepEnd::Go) = end {
            self.is_copied = replace_by_copy(state) && self.is_copied;
            self.note(state.conn_state());
        } else {
            self.is_copied = is_copy_halted_alike(state) && self.is_copied;
        }
        end
    }

    fn count(&self) -> u64 {
        self.steps.count()
    }
}

/// Puts a copy in the place of the run; whether there was memory for one.
fn replace_by_copy(state: &mut RunState) -> bool
    ensures { state.new ≡ state.old }
{
    match state.copy() {
        Ok(copy) => {
            *state = copy;
            true
        }
        Err(_) => false,
    }
}

/// Whether a copy of the run has halted as the run has, and a copy of its sender answers that.
fn is_copy_halted_alike(state: &RunState) -> bool {
    match state.copy() {
        Ok(copy) => copy.host().end_reason() == state.host().end_reason()
            && is_end_of_sender_copy_same(state),
        Err(_) => false,
    }
}

/// Whether a copy of the sender answers to what comes next how the sender has ended.
fn is_end_of_sender_copy_same(state: &RunState) -> bool {
    match state.host().copy() {
        Ok(mut sender) => sender.advance(0).err() == state.host().end_reason(),
        Err(_) => false,
    }
}

fn name(state: ConnState) -> &'static str {
    match state {
        ConnState::Closed => "Closed",
        ConnState::Listen => "Listen",
        ConnState::SynReceived => "SynReceived",
        ConnState::Established => "Established",
        ConnState::FinWait1 => "FinWait1",
        ConnState::FinWait2 => "FinWait2",
        ConnState::CloseWait => "CloseWait",
        ConnState::Closing => "Closing",
        ConnState::LastAck => "LastAck",
        ConnState::TimeWait => "TimeWait",
    }
}
