//! Tracks: what is kept of a run for a later one.
ghost use Rattle.std.specs.Prelude.{◌≡◌, ◌+◌, ◌*◌, IfOk, IfSome, map, slice_get, option_map, option_copied};
ghost use Rattle.pd_reparse.specs.Reading.{reading_of};
ghost use Rattle.pd_run.specs.Consulted.{run_with_settings};
ghost use Rattle.pd_run.specs.Run.{states_of};
ghost use Rattle.pd_settings.specs.SettingSets.{Agree};
ghost use Rattle.pd_track.specs.Reuse.{AgreeWhereConsulted, every_fourth, consulted_settings};

use crate::checkpoint::Checkpoint;
use crate::track_data::TrackData;
use pd_reparse::{Reading, SharedList};
use pd_settings::Settings;
use pd_text::Text;
use std::alloc::{AllocError, Global};
use std::marker::Model;
use std::sync::Arc;

/// The text and the settings of a run, what was read of the text, and the states on the run's way, held once however many
/// owners keep them. A text that is no script, or that stops in its header, has no states.
#[derive(Drop)]
pub struct Track {
    /// The data that the run left, which each owner of the track shares.
    track_data: Arc<TrackData>,
}

impl Model for Track {
    ghost use Rattle.pd_track.specs.Reuse.{TrackView};

    ghost Value = { TrackView };

    ghost view = { λ t. t.track_data.value };
}

impl Track {
    ghost use Rattle.pd_track.specs.Reuse.{IsTrack};

    /// A track of these parts, with one owner.
    ///
    /// # Errors
    /// `AllocError` where a growth is refused.
    pub(crate) fn new(
        alloc: Global,
        text: Text,
        settings: Settings,
        reading: Reading,
        checkpoints: SharedList<Checkpoint>,
    ) -> Result<Track, AllocError>
        requires { IsTrack text settings reading checkpoints }
        ensures { IfOk result (λ track. track ≡ record { text = text; settings = settings }) }
    {
        let mut checkpoints = checkpoints;
        checkpoints.pack_into_blocks()?;
        Ok(Track {
            track_data: Arc::new(alloc, TrackData::new(text, settings, reading, checkpoints))?,
        })
    }

    /// Another owner of the same track.
    ///
    /// # Errors
    /// `AllocError` only where the count of owners is full.
    pub fn share(&self) -> Result<Track, AllocError>
        ensures { IfOk result (λ track. track ≡ self.now) }
    {
        Ok(Track {
            track_data: self.track_data.clone()?,
        })
    }

    /// The text that was run.
    pub fn text(&self) -> &Text
        ensures { result.now ≡ self.now.text }
    {
        self.track_data.text()
    }

    /// The settings that it was run under.
    pub fn settings(&self) -> &Settings
        ensures { result.now ≡ self.now.settings }
    {
        self.track_data.settings()
    }

    /// The reading of the text.
    pub fn reading(&self) -> &Reading
        ensures { result.now ≡ reading_of self.now.text }
    {
        self.track_data.reading()
    }

    /// The states after 4, 8, 12 .. events that passed, but for the settings held in them.
    pub(crate) fn checkpoints(&self) -> &SharedList<Checkpoint>
        ensures states { map (run_with_settings self.now.settings) result.now ≡ every_fourth 3 (states_of self.now.text self.now.settings) }
        ensures held { AgreeWhereConsulted self.now.settings result.now }
    {
        self.track_data.checkpoints()
    }

    /// The state after 4k + 4 events of the text under the settings, but for the settings held in it, where that many
    /// passed. Those held agree with the track's on all that these events consulted.
    pub fn checkpoint(&self, k: usize) -> Option<&Checkpoint>
        ensures state { option_map (run_with_settings self.now.settings) (option_copied result) ≡ slice_get (states_of self.now.text self.now.settings) (4 * k + 3) }
        ensures held { IfSome (option_copied result) (λ state. Agree (consulted_settings self.now (4 * (k + 1))) self.now.settings state.host.state.settings) }
    {
        self.checkpoints().get(k)
    }
}
