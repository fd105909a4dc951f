//! The book: scripts and settings, whose changes are recorded as acts, and the report that it shows without an act.
ghost use Rattle.std.specs.Prelude.{◌≡◌, ◌+◌, ◌≤◌, [], reverse, length, OnOk, OnErr, IfOk, IfErr, IfSome, IsSomeAnd, None, Some, option_copied};
ghost use Rattle.pd_text.specs.Edit.{edited};
ghost use Rattle.pd_text.specs.Text.{AreLines};
ghost use Rattle.pd_settings.specs.Keys.{key_named};
ghost use Rattle.pd_settings.specs.Settings.{replaced};
ghost use Rattle.pd_book.specs.Acts.{texts, present_text, text_of, has_script, jobs, job, now};
ghost use Rattle.pd_book.specs.Legal.{Legal};
ghost use Rattle.pd_book.specs.Report.{shown, owed};
ghost use Rattle.pd_book.specs.Headline.{CurrentWhenAnswered, RowsAreScripts, VerdictsAreRuns, VerdictsAreGrammars, ScratchWhenAllAnswered, WholeWhenAllAnswered, RowsAreOfScratch, RowsAreOfWhole};
ghost use Rattle.pd_book.specs.History.{after_act};
ghost use Rattle.pd_book.specs.Replies.{GivesAdd, GivesEdit, GivesRemove, GivesSet};
ghost use Rattle.pd_book.specs.TrackCache.{without_track};
ghost use Rattle.pd_book.specs.Refusals.{history_full_fault_unless_space_for, add_refusal, line_edit_refusal, edit_refusal, remove_refusal, refusal_if_key_unknown_or_value_bad, set_refusal, fault_of};

mod jobs;

use crate::act::Act;
use crate::faults::BookFault;
use crate::records::{Records, record_act};
use crate::report::Report;
use crate::shared_edit::SharedEdit;
use crate::track_cache::TrackCache;
use pd_run::law_verdicts_are_of_grammar_scripts;
use pd_settings::{Key, Settings, Value};
use pd_text::{LineEdit, Lines, Name, Text, TextFault};
use std::alloc::{AllocError, Global};
use std::marker::Model;

/// The greatest number of recorded acts and outstanding jobs.
pub const MAX_ACTS: usize = 65_536;

/// The greatest number of scripts.
pub(crate) const MAX_SCRIPTS: usize = 1_024;

/// Scripts, settings, jobs and results. Its history is the list of its accepted calls; what it shows is what
/// that list says. A refused call changes nothing.
#[derive(Drop)]
pub struct Book {
    /// The settings that it was made under.
    opening: Settings,
    /// The present ones.
    pub(crate) settings: Settings,
    /// The number of the last job, 0 before the first.
    last_number: u64,
    /// Its acts, scripts and outstanding jobs.
    records: Records,
    /// The tracks that earlier runs left.
    pub(crate) tracks: TrackCache,
}

impl Model for Book {
    ghost use Rattle.std.specs.Prelude.{reverse, vec_capacity};
    ghost use Rattle.pd_book.specs.History.{BookView};
    ghost use Rattle.pd_book.specs.Replay.{IsReplay};

    ghost Value = { BookView };

    ghost view = { λ b. record { history = record { opening = b.opening; past = reverse b.records.acts.items }; tracks = b.tracks } };

    ghost invariant = { λ b. IsReplay b.opening (reverse b.records.acts.items) b.settings b.records.scripts b.records.tasks.items b.last_number
        (vec_capacity b.records.acts) };
}

impl Book {
    /// A book without scripts under these settings, which keeps at most `cache` tracks: 1 to 1,024.
    pub fn new(alloc: Global, cache: usize, settings: Settings) -> Book
        requires some { 1 ≤ cache }
        requires few { cache ≤ 1024 }
        ensures history { result.history ≡ record { opening = settings; past = [] } }
        ensures tracks { result.tracks ≡ record { entries = []; max_tracks = cache } }
    {
        Book {
            opening: settings,
            settings,
            last_number: 0,
            records: Records::new(alloc),
            tracks: TrackCache::new(cache),
        }
    }

    /// The invariant of books: the rules allow their acts. It does nothing.
    pub fn law_invariant(&self)
        ensures { Legal self.now.history.opening self.now.history.past }
    {
        let _acts = self.history();
    }

    /// The accepted calls, the oldest first.
    pub fn history(&self) -> &[Act]
        ensures acts { reverse result.now ≡ self.now.history.past }
        ensures legal { Legal self.now.history.opening self.now.history.past }
    {
        self.records.acts.as_slice()
    }

    /// Why there is no room for `more` acts and jobs.
    fn history_full_fault_unless_space_for(&self, more: usize) -> Option<BookFault>
        requires { more ≤ 2 }
        ensures { result ≡ history_full_fault_unless_space_for more self.now.history }
    {
        if self.records.acts.len() + self.records.tasks.len() + more <= MAX_ACTS {
            None
        } else {
            Some(BookFault::HistoryFull)
        }
    }

    /// Whether a script of this name stands.
    pub(crate) fn has_script(&self, name: &Name) -> bool
        ensures { result ≡ has_script self.now.history.past name.now }
    {
        self.records.scripts.contains(name)
    }

    /// How many scripts stand.
    pub(crate) fn script_count(&self) -> usize
        ensures { result ≡ length (texts self.now.history.past) }
    {
        self.records.scripts.len()
    }

    /// Adds a script after the others.
    ///
    /// # Errors
    /// `BadName`, `NameTaken`, `TooManyScripts` or `HistoryFull`, the first that applies; else `OutOfMemory`.
    pub fn add(&mut self, name: Name, lines: Lines) -> Result<(), BookFault>
        ensures gives { GivesAdd self.old.history name lines result self.new.history }
        ensures ok { OnOk result (self.new.history ≡ after_act self.old.history (Act.Add name lines)) }
        ensures allowed { OnOk result (add_refusal self.old.history name ≡ None) }
        ensures err { IfErr result (λ e. e ≡ fault_of (add_refusal self.old.history name)) }
        ensures same { OnErr result (self.new ≡ self.old) }
        ensures tracks { self.new.tracks ≡ self.old.tracks }
    {
        match Text::new(*self.records.acts.allocator(), lines) {
            Ok(text) => self.insert_script_unless_refused_or_no_text(name, Some(text)),
            Err(_) => self.insert_script_unless_refused_or_no_text(name, None),
        }
    }

    /// Adds a script, the text of which others keep too.
    ///
    /// # Errors
    /// As for `add`.
    pub fn add_with_shared_text(&mut self, name: Name, text: Text) -> Result<(), BookFault>
        ensures gives { GivesAdd self.old.history name text result self.new.history }
        ensures ok { OnOk result (self.new.history ≡ after_act self.old.history (Act.Add name text)) }
        ensures allowed { OnOk result (add_refusal self.old.history name ≡ None) }
        ensures err { IfErr result (λ e. e ≡ fault_of (add_refusal self.old.history name)) }
        ensures same { OnErr result (self.new ≡ self.old) }
        ensures tracks { self.new.tracks ≡ self.old.tracks }
    {
        self.insert_script_unless_refused_or_no_text(name, Some(text))
    }

    /// Adds a script of this text; `None` if out of memory.
    fn insert_script_unless_refused_or_no_text(
        &mut self,
        name: Name,
        text: Option<Text>,
    ) -> Result<(), BookFault>
        ensures ok { OnOk result (IsSomeAnd text (λ text. self.new.history ≡ after_act self.old.history (Act.Add name text))) }
        ensures allowed { OnOk result (add_refusal self.old.history name ≡ None) }
        ensures err { IfErr result (λ e. e ≡ fault_of (add_refusal self.old.history name)) }
        ensures same { OnErr result (self.new ≡ self.old) }
        ensures tracks { self.new.tracks ≡ self.old.tracks }
    {
        if let Some(fault) = self.add_refusal(&name) {
            return Err(fault);
        }
        match text {
            Some(text) => self.insert_and_record_script(name, text),
            None => Err(BookFault::OutOfMemory),
        }
    }

    /// Why no script of this name is added: the name, or no room in the history.
    fn add_refusal(&self, name: &Name) -> Option<BookFault>
        ensures { result ≡ add_refusal self.now.history name.now }
    {
        match self.refusal_if_name_bad_taken_or_too_many(name) {
            Some(fault) => Some(fault),
            None => self.history_full_fault_unless_space_for(1),
        }
    }

    /// Keeps a script whose adding isn't refused.
    fn insert_and_record_script(&mut self, name: Name, text: Text) -> Result<(), BookFault>
        requires allowed { add_refusal self.old.history name ≡ None }
        ensures ok { OnOk result (self.new.history ≡ after_act self.old.history (Act.Add name text)) }
        ensures err { IfErr result (λ e. e ≡ BookFault.OutOfMemory) }
        ensures same { OnErr result (self.new ≡ self.old) }
        ensures tracks { self.new.tracks ≡ self.old.tracks }
    {
        text.law_invariant();
        // For this act, and for the end of each outstanding job.
        self.records.acts.reserve(self.records.tasks.len() + 1)?;
        let act = Act::Add(name.share()?, text.share()?);
        self.records.scripts.add(name, text)?;
        record_act(&mut self.records.acts, act);
        Ok(())
    }

    /// Sets a setting, also to the value that it has: each script has changed then.
    ///
    /// # Errors
    /// `UnknownKey`, `BadValue` or `HistoryFull`, the first that applies; else `OutOfMemory`.
    pub fn set(&mut self, key: &[u8], value: Value) -> Result<(), BookFault>
        ensures gives { GivesSet self.old.history key.now value result self.new.history }
        ensures ok { OnOk result (IsSomeAnd (key_named key.now) (λ key. self.new.history ≡ after_act self.old.history (Act.Set key value))) }
        ensures allowed { OnOk result (set_refusal self.old.history key.now value ≡ None) }
        ensures err { IfErr result (λ e. e ≡ fault_of (set_refusal self.old.history key.now value)) }
        ensures same { OnErr result (self.new ≡ self.old) }
        ensures tracks { self.new.tracks ≡ self.old.tracks }
    {
        let (key, settings) = self.key_and_changed_settings(key, value)?;
        match self.history_full_fault_unless_space_for(1) {
            Some(fault) => Err(fault),
            None => Ok(self.record_setting_and_make_all_pending(key, value, settings)?),
        }
    }

    /// The key of this name, and the settings in which its setting has this value.
    fn key_and_changed_settings(
        &self,
        key: &[u8],
        value: Value,
    ) -> Result<(Key, Settings), BookFault>
        ensures key { IfOk result (λ new. key_named key.now ≡ Some new.0) }
        ensures settings { IfOk result (λ new. replaced (now self.now.history.opening self.now.history.past) new.0 value ≡ Some new.1) }
        ensures err { IfErr result (λ e. refusal_if_key_unknown_or_value_bad (now self.now.history.opening self.now.history.past) (key_named key.now) value ≡ Some e) }
    {
        let Some(key) = Key::from_name(key) else {
            return Err(BookFault::UnknownKey);
        };
        match self.settings.with_allowed_value_or_none(key, value) {
            Some(settings) => Ok((key, settings)),
            None => Err(BookFault::BadValue),
        }
    }

    /// Keeps a setting for which there is room.
    fn record_setting_and_make_all_pending(
        &mut self,
        key: Key,
        value: Value,
        settings: Settings,
    ) -> Result<(), AllocError>
        requires settings { replaced (now self.old.history.opening self.old.history.past) key value ≡ Some settings }
        requires room { history_full_fault_unless_space_for 1 self.old.history ≡ None }
        ensures ok { OnOk result (self.new.history ≡ after_act self.old.history (Act.Set key value)) }
        ensures same { OnErr result (self.new ≡ self.old) }
        ensures tracks { self.new.tracks ≡ self.old.tracks }
    {
        self.records.acts.reserve(self.records.tasks.len() + 1)?;
        self.settings = settings;
        self.records.scripts.make_all_pending();
        record_act(&mut self.records.acts, Act::Set(key, value));
        Ok(())
    }

    /// The text of a script after an edit; `None` if out of memory.
    pub(crate) fn edited_lines_or_none_if_out_of_memory(
        &self,
        name: &Name,
        edit: &LineEdit,
    ) -> Result<Option<Lines>, BookFault>
        ensures ok { IfOk result (λ lines. IfSome lines (λ lines. lines ≡ edited (text_of self.now.history.past name.now) edit.now)) }
        ensures allowed { OnOk result (line_edit_refusal (present_text self.now.history.past name.now) edit.now ≡ None) }
        ensures err { IfErr result (λ e. line_edit_refusal (present_text self.now.history.past name.now) edit.now ≡ Some e) }
        ensures lines { AreLines edit.now.insert }
    {
        edit.law_invariant();
        let Some(text) = self.text(name) else {
            return Err(BookFault::NoSuchScript);
        };
        match text.lines().apply(edit) {
            Ok(lines) => Ok(Some(lines)),
            Err(TextFault::BadRange) => Err(BookFault::BadRange),
            Err(TextFault::TooLarge) => Err(BookFault::TooLarge),
            Err(TextFault::OutOfMemory) => Ok(None),
        }
    }

    /// The name as the book keeps it where a script of this name stands, else another owner of the given one: equal octets.
    ///
    /// # Errors
    /// `AllocError` only where a count of owners is full.
    pub fn share_stored_name_or_given(&self, name: &Name) -> Result<Name, AllocError>
        ensures { IfOk result (λ kept. kept ≡ name.now) }
    {
        self.records.scripts.share_stored_name_or_given(name)
    }

    /// The present text of a script.
    fn text(&self, name: &Name) -> Option<&Text>
        ensures { option_copied result ≡ present_text self.now.history.past name.now }
    {
        self.records.scripts.text(name)
    }

    /// Edits the text of a script, which has changed then, also where no octet differs.
    ///
    /// # Errors
    /// `NoSuchScript`, `BadRange`, `TooLarge` or `HistoryFull`, the first that applies; else `OutOfMemory`.
    pub fn edit(&mut self, name: &Name, edit: &LineEdit) -> Result<(), BookFault>
        ensures gives { GivesEdit self.old.history name.now edit.now result self.new.history }
        ensures ok { OnOk result (self.new.history ≡ after_act self.old.history (Act.Edit name.now edit.now)) }
        ensures allowed { OnOk result (edit_refusal self.old.history name.now edit.now ≡ None) }
        ensures err { IfErr result (λ e. e ≡ fault_of (edit_refusal self.old.history name.now edit.now)) }
        ensures same { OnErr result (self.new ≡ self.old) }
        ensures tracks { self.new.tracks ≡ self.old.tracks }
    {
        let lines = self.edited_lines_unless_history_full(name, edit)?;
        let edit = SharedEdit::from_copied_edit(*self.records.acts.allocator(), edit)?;
        self.replace_and_record_text(name, edit, lines)
    }

    /// Edits the text of a script, where others keep the edit too.
    ///
    /// # Errors
    /// As for `edit`.
    pub fn edit_with_shared_edit(&mut self, name: &Name, edit: SharedEdit) -> Result<(), BookFault>
        ensures gives { GivesEdit self.old.history name.now edit result self.new.history }
        ensures ok { OnOk result (self.new.history ≡ after_act self.old.history (Act.Edit name.now edit)) }
        ensures allowed { OnOk result (edit_refusal self.old.history name.now edit ≡ None) }
        ensures err { IfErr result (λ e. e ≡ fault_of (edit_refusal self.old.history name.now edit)) }
        ensures same { OnErr result (self.new ≡ self.old) }
        ensures tracks { self.new.tracks ≡ self.old.tracks }
    {
        let lines = self.edited_lines_unless_history_full(name, edit.edit())?;
        self.replace_and_record_text(name, edit, lines)
    }

    /// The text of a script after an edit for which there is room.
    fn edited_lines_unless_history_full(
        &self,
        name: &Name,
        edit: &LineEdit,
    ) -> Result<Lines, BookFault>
        ensures ok { IfOk result (λ lines. lines ≡ edited (text_of self.now.history.past name.now) edit.now) }
        ensures allowed { OnOk result (line_edit_refusal (present_text self.now.history.past name.now) edit.now ≡ None) }
        ensures room { OnOk result (history_full_fault_unless_space_for 1 self.now.history ≡ None) }
        ensures err { IfErr result (λ e. e ≡ fault_of (edit_refusal self.now.history name.now edit.now)) }
        ensures lines { AreLines edit.now.insert }
    {
        let edited = self.edited_lines_or_none_if_out_of_memory(name, edit)?;
        if let Some(fault) = self.history_full_fault_unless_space_for(1) {
            return Err(fault);
        }
        match edited {
            Some(lines) => Ok(lines),
            None => Err(BookFault::OutOfMemory),
        }
    }

    /// Keeps what an edit leaves that isn't refused.
    fn replace_and_record_text(
        &mut self,
        name: &Name,
        edit: SharedEdit,
        lines: Lines,
    ) -> Result<(), BookFault>
        requires allowed { line_edit_refusal (present_text self.old.history.past name.now) edit ≡ None }
        requires room { history_full_fault_unless_space_for 1 self.old.history ≡ None }
        requires text { lines ≡ edited (text_of self.old.history.past name.now) edit }
        requires inserted { AreLines edit.insert }
        ensures ok { OnOk result (self.new.history ≡ after_act self.old.history (Act.Edit name.now edit)) }
        ensures err { IfErr result (λ e. e ≡ BookFault.OutOfMemory) }
        ensures same { OnErr result (self.new ≡ self.old) }
        ensures tracks { self.new.tracks ≡ self.old.tracks }
    {
        self.records.acts.reserve(self.records.tasks.len() + 1)?;
        let text = Text::new(*self.records.acts.allocator(), lines)?;
        let act = Act::Edit(self.share_stored_name_or_given(name)?, edit);
        self.records
            .scripts
            .replace_text_and_make_pending(name, text);
        record_act(&mut self.records.acts, act);
        Ok(())
    }

    /// Takes a script out. A job on it is stale from then on, also where its name is added again.
    ///
    /// # Errors
    /// `NoSuchScript` or `HistoryFull`, the first that applies; else `OutOfMemory`.
    pub fn remove(&mut self, name: &Name) -> Result<(), BookFault>
        ensures gives { GivesRemove self.old.history name.now result self.new.history }
        ensures ok { OnOk result (self.new.history ≡ after_act self.old.history (Act.Remove name.now)) }
        ensures allowed { OnOk result (remove_refusal self.old.history name.now ≡ None) }
        ensures err { IfErr result (λ e. e ≡ fault_of (remove_refusal self.old.history name.now)) }
        ensures same { OnErr result (self.new ≡ self.old) }
        ensures tracks { OnOk result (self.new.tracks ≡ without_track name.now self.old.tracks) }
    {
        if !self.has_script(name) {
            return Err(BookFault::NoSuchScript);
        }
        if let Some(fault) = self.history_full_fault_unless_space_for(1) {
            return Err(fault);
        }
        self.records.acts.reserve(self.records.tasks.len() + 1)?;
        let act = Act::Remove(self.share_stored_name_or_given(name)?);
        self.records.scripts.remove(name);
        self.tracks.remove(name);
        record_act(&mut self.records.acts, act);
        Ok(())
    }

    /// The report of the scripts that are kept.
    fn report(&self) -> Result<Report, AllocError>
        ensures { IfOk result (λ report. report ≡ shown self.now.history.opening self.now.history.past) }
    {
        let rows = self.records.scripts.rows(*self.records.acts.allocator())?;
        Ok(Report::new(self.settings, rows))
    }

    /// The report as it stands.
    ///
    /// # Errors
    /// `AllocError` if out of memory.
    pub fn show(&self) -> Result<Report, AllocError>
        ensures shown { IfOk result (λ report. report ≡ shown self.now.history.opening self.now.history.past) }
        ensures current { IfOk result (λ report. CurrentWhenAnswered self.now.history.past report) }
        ensures scripts { IfOk result (λ report. RowsAreScripts self.now.history.past report) }
        ensures verdicts { IfOk result (λ report. VerdictsAreRuns self.now.history.opening self.now.history.past report) }
        ensures scratch { IfOk result (λ report. ScratchWhenAllAnswered self.now.history.opening self.now.history.past report) }
        ensures rows { IfOk result (λ report. RowsAreOfScratch self.now.history.opening self.now.history.past report) }
        ensures grammar { IfOk result (λ report. VerdictsAreGrammars self.now.history.opening self.now.history.past report) }
        ensures whole { IfOk result (λ report. WholeWhenAllAnswered self.now.history.opening self.now.history.past report) }
        ensures parts { IfOk result (λ report. RowsAreOfWhole self.now.history.opening self.now.history.past report) }
    {
        self.law_invariant();
        law_verdicts_are_of_grammar_scripts();
        self.report()
    }

    /// How many rows of the report are pending.
    pub fn owed(&self) -> usize
        ensures { result ≡ owed self.now.history.opening self.now.history.past }
    {
        self.records.scripts.owed()
    }
}
