//! A run leaves its text, its settings, its reading and its checkpoints.
ghost use Rattle.std.specs.Prelude.{◌≡◌, ◌≤◌, ◌-◌, map, ◌<◌, ℕ, length, slice_get, option_copied, Some, take, IfOk};
ghost use Rattle.pd_reparse.specs.Reading.{reading_of};
ghost use Rattle.pd_run.specs.Consulted.{run_with_settings};
ghost use Rattle.pd_run.specs.Run.{states_of};
ghost use Rattle.pd_track.specs.Reuse.{AgreeWhereConsulted, every_fourth};

use crate::checkpoint::Checkpoint;
use pd_reparse::{Reading, SharedList};
use pd_settings::Settings;
use pd_text::Text;
use std::alloc::{AllocError, Global};
use std::marker::Model;

/// A text that was run under settings, what was read of it, and the states after each fourth event that passed.
#[derive(Drop)]
pub struct TrackData {
    /// The text that was run.
    text: Text,
    /// The settings that it was run under.
    settings: Settings,
    /// The reading of the text.
    reading: Reading,
    /// The states after each fourth event that passed, in order, but for the settings held in them.
    checkpoints: SharedList<Checkpoint>,
}

impl Model for TrackData {
    ghost use Rattle.pd_track.specs.Reuse.{TrackView, IsTrack};

    ghost Value = { TrackView };

    ghost view = { λ t. record { text = t.text; settings = t.settings } };

    ghost invariant = { λ t. IsTrack t.text t.settings t.reading t.checkpoints };
}

impl TrackData {
    ghost use Rattle.pd_track.specs.Reuse.{IsTrack};

    /// The data that a run of this text under these settings left.
    pub fn new(
        text: Text,
        settings: Settings,
        reading: Reading,
        checkpoints: SharedList<Checkpoint>,
    ) -> TrackData
        requires { IsTrack text settings reading checkpoints }
        ensures { result ≡ record { text = text; settings = settings } }
    {
        TrackData {
            text,
            settings,
            reading,
            checkpoints,
        }
    }

    /// The text that was run.
    pub fn text(&self) -> &Text
        ensures { result.now ≡ self.now.text }
    {
        &self.text
    }

    /// The settings that it was run under.
    pub fn settings(&self) -> &Settings
        ensures { result.now ≡ self.now.settings }
    {
        &self.settings
    }

    /// The reading of the text.
    pub fn reading(&self) -> &Reading
        ensures { result.now ≡ reading_of self.now.text }
    {
        &self.reading
    }

    /// The states after each fourth event that passed, in order, but for the settings held in them.
    pub fn checkpoints(&self) -> &SharedList<Checkpoint>
        ensures states { map (run_with_settings self.now.settings) result.now ≡ every_fourth 3 (states_of self.now.text self.now.settings) }
        ensures held { AgreeWhereConsulted self.now.settings result.now }
    {
        &self.checkpoints
    }
}
