//! The scripts that stand, found by their names and kept in order of adding.
ghost use Rattle.std.specs.Prelude.{◌≡◌, ◌++◌, ◌∷◌, [], length, is_some, is_none, map, find, count_by, IfOk, OnOk, OnErr, option_map, None, Some};
ghost use Rattle.std.specs.Option.{option_copied};
ghost use Rattle.std.specs.List.{IsDistinct};
ghost use Rattle.std.specs.Map.{lookup, remove_entry, keys_of, values_of};
ghost use Rattle.std.specs.Map.Iter.{deref_pair};
ghost use Rattle.std.specs.Str.{bytes_eq};
ghost use Rattle.pd_book.specs.StoredScripts.{in_state, is_pending, verdict_in, is_running_job, written_at, with_state, without_name, all_pending, kept_row};
ghost use Rattle.pd_book.specs.Replay.{make_pending_if_running_task};

use crate::report::Row;
use crate::stored_script::{ScriptState, StoredScript};
use indexmap::IndexMap;
use pd_text::{Name, Text};
use pd_track::Task;
use std::alloc::{AllocError, Global};
use std::marker::Model;

/// The scripts under their names, in order of adding.
#[derive(Drop)]
pub struct Scripts {
    /// Each script under its name, in order of adding.
    by_name: IndexMap<Name, StoredScript>,
}

impl Model for Scripts {
    ghost use Rattle.std.specs.Prelude.{List};
    ghost use Rattle.pd_book.specs.StoredScripts.{ScriptEntry};

    ghost Value = { List ScriptEntry };

    ghost view = { λ s. s.by_name.entries };
}

impl Scripts {
    /// No scripts.
    pub fn new(alloc: Global) -> Scripts
        ensures { result ≡ [] }
    {
        Scripts {
            by_name: IndexMap::new(alloc),
        }
    }

    /// How many stand.
    pub fn len(&self) -> usize
        ensures { result ≡ length self.now }
    {
        self.by_name.len()
    }

    /// Whether a script of this name stands.
    pub fn contains(&self, name: &Name) -> bool
        ensures { result ≡ is_some (lookup (bytes_eq name.now) self.now) }
    {
        self.by_name.contains_key(name)
    }

    /// The name as the book keeps it where a script of this name stands, else another owner of the given one: equal octets.
    ///
    /// # Errors
    /// `AllocError` only where a count of owners is full.
    pub fn share_stored_name_or_given(&self, name: &Name) -> Result<Name, AllocError>
        ensures { IfOk result (λ kept. kept ≡ name.now) }
    {
        match self.by_name.get_key_value(name) {
            Some((kept, _)) => kept.share(),
            None => name.share(),
        }
    }

    /// The text of the script of this name, if one stands.
    pub fn text(&self, name: &Name) -> Option<&Text>
        ensures { option_copied result ≡ option_map (λ s. s.text) (lookup (bytes_eq name.now) self.now) }
    {
        match self.by_name.get(name) {
            Some(script) => Some(&script.text),
            None => None,
        }
    }

    /// Adds a script, pending, after the others.
    ///
    /// # Errors
    /// `AllocError` where a growth is refused; the scripts are as before then.
    pub fn add(&mut self, name: Name, text: Text) -> Result<(), AllocError>
        requires { lookup (bytes_eq name) self.old ≡ None }
        ensures ok { OnOk result (self.new ≡ self.old ++ (name, record { text = text; state = ScriptState.Pending }) ∷ []) }
        ensures err { OnErr result (self.new ≡ self.old) }
    {
        let script = StoredScript {
            text,
            state: ScriptState::Pending,
        };
        self.by_name.insert(name, script)?;
        Ok(())
    }

    /// Gives the script of this name another text; it is pending then.
    pub fn replace_text_and_make_pending(&mut self, name: &Name, text: Text)
        ensures written { self.new ≡ written_at name.now (λ s. record { text = text; state = ScriptState.Pending }) self.old }
        ensures distinct { IsDistinct bytes_eq (keys_of self.old) }
    {
        if let Some(script) = self.by_name.get_mut(name) {
            *script = StoredScript {
                text,
                state: ScriptState::Pending,
            };
        }
    }

    /// Takes out the script of this name.
    pub fn remove(&mut self, name: &Name)
        ensures { self.new ≡ without_name name.now self.old }
    {
        self.remove_by_name(name);
    }

    fn remove_by_name(&mut self, name: &Name)
        ensures taken { self.new ≡ remove_entry (bytes_eq name.now) self.old }
        ensures gone { lookup (bytes_eq name.now) self.new ≡ None }
    {
        let _ = self.by_name.shift_remove(name);
    }

    /// The first script that is pending.
    pub fn find_first_pending_name_and_script(&self) -> Option<(&Name, &StoredScript)>
        ensures { option_map deref_pair result ≡ find is_pending self.now }
    {
        self.by_name
            .iter()
            .find(|(_, script)| script.state.is_pending())
    }

    fn state(&self, name: &Name) -> Option<ScriptState>
        ensures { result ≡ option_map (λ s. s.state) (lookup (bytes_eq name.now) self.now) }
    {
        match self.by_name.get(name) {
            Some(script) => Some(script.state),
            None => None,
        }
    }

    /// Whether the script of this name runs this job.
    pub fn is_running_job(&self, name: &Name, number: u64) -> bool
        ensures { result ≡ is_running_job (option_map (λ s. s.state) (lookup (bytes_eq name.now) self.now)) number }
    {
        match self.state(name) {
            Some(ScriptState::Running(running)) => running == number,
            Some(ScriptState::Pending | ScriptState::Answered(_)) | None => false,
        }
    }

    /// A row for each script.
    ///
    /// # Errors
    /// `AllocError` where a growth is refused, or a count of owners is full.
    pub fn rows(&self, alloc: Global) -> Result<Vec<Row>, AllocError>
        ensures { IfOk result (λ rows. rows.items ≡ map kept_row self.now) }
    {
        let mut rows = Vec::with_capacity(alloc, self.by_name.len())?;
        for (name, script) in self.by_name.iter() {
            rows.push(row_with_name_text_and_verdict(name, script)?)?;
        }
        Ok(rows)
    }

    /// How many scripts have no verdict.
    pub fn owed(&self) -> usize
        ensures { result ≡ count_by (λ s. is_none (verdict_in s.state)) (values_of self.now) }
    {
        self.by_name
            .values()
            .filter(|script| script.state.verdict().is_none())
            .count()
    }

    /// Puts the script of this name into another state.
    pub fn set_state_by_name(&mut self, name: &Name, state: ScriptState)
        ensures { self.new ≡ with_state (bytes_eq name.now) state self.old }
    {
        self.replace_state_if_script_exists(name, state);
    }

    fn replace_state_if_script_exists(&mut self, name: &Name, state: ScriptState)
        ensures written { self.new ≡ written_at name.now (λ s. in_state s state) self.old }
        ensures distinct { IsDistinct bytes_eq (keys_of self.old) }
    {
        if let Some(script) = self.by_name.get_mut(name) {
            script.state = state;
        }
    }

    /// Makes the script of an abandoned task pending, if it runs that job.
    pub fn make_pending_if_running_task(&mut self, task: &Task)
        ensures { self.new ≡ make_pending_if_running_task (Some task.now) self.old }
    {
        if self.is_running_job(&task.name, task.number) {
            self.set_state_by_name(&task.name, ScriptState::Pending);
        }
    }

    /// Makes each script pending.
    pub fn make_all_pending(&mut self)
        ensures { self.new ≡ all_pending self.old }
    {
        self.by_name.retain(|_, script| {
            script.state = ScriptState::Pending;
            true
        });
    }
}

/// The row of a script.
fn row_with_name_text_and_verdict(name: &Name, script: &StoredScript) -> Result<Row, AllocError>
    ensures { IfOk result (λ row. row ≡ kept_row (name.now, script.now)) }
{
    Ok(Row {
        name: name.share()?,
        text: script.text.share()?,
        verdict: script.state.verdict(),
    })
}
