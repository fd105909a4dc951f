//! Jobs: a task to run, perhaps an earlier run's track, and `same`, how many first lines of their two texts are equal.
ghost use Rattle.std.specs.Prelude.{◌≡◌, option_copied, option_map};
ghost use Rattle.pd_track.specs.Reuse.{front_of};

use crate::task::Task;
use crate::track::Track;
use pd_settings::Settings;
use pd_text::{Name, Text};
use std::marker::Model;

/// A script's text to be run under settings, with the job's number, and perhaps what an earlier run left.
#[derive(Drop)]
pub struct Job {
    /// Its text, and the settings to run it under.
    task: Task,
    /// The track that an earlier run left, if it is kept.
    track: Option<Track>,
    /// With how many lines the text begins as the track's does; 0 without a track.
    same: usize,
}

impl Model for Job {
    ghost use Rattle.std.specs.Prelude.{◌≡◌};
    ghost use Rattle.pd_track.specs.Reuse.{JobView, front_of};

    ghost Value = { JobView };

    ghost view = { λ j. record { task = j.task; track = j.track } };

    ghost invariant = { λ j. j.same ≡ front_of j.track j.task.text };
}

impl Job {
    /// A job made outside a book. Its result is taken as that of an outstanding job that agrees with it in number, name,
    /// text and settings. The track may be of any text and settings: it changes no verdict, only how many steps are taken.
    pub fn new(number: u64, name: Name, text: Text, settings: Settings, track: Option<Track>) -> Job
        ensures task { result.task ≡ record { number = number; name = name; text = text; settings = settings } }
        ensures track { result.track ≡ track }
    {
        let task = Task {
            number,
            name,
            text,
            settings,
        };
        Job::of(task, track)
    }

    /// The job of this task, after this track.
    pub fn of(task: Task, track: Option<Track>) -> Job
        ensures task { result.task ≡ task }
        ensures track { result.track ≡ track }
    {
        let same = match &track {
            Some(track) => track.text().lines().same_front(task.text.lines()),
            None => 0,
        };
        Job { task, track, same }
    }

    /// Its text, and the settings to run it under.
    pub fn task(&self) -> &Task
        ensures { result.now ≡ self.now.task }
    {
        &self.task
    }

    /// Its number, in a book from 1 on.
    pub fn number(&self) -> u64
        ensures { result ≡ self.now.task.number }
    {
        self.task.number
    }

    /// The name of its script.
    pub fn name(&self) -> &Name
        ensures { result.now ≡ self.now.task.name }
    {
        &self.task.name
    }

    /// The text to be run.
    pub fn text(&self) -> &Text
        ensures { result.now ≡ self.now.task.text }
    {
        &self.task.text
    }

    /// The settings to run it under.
    pub fn settings(&self) -> Settings
        ensures { result ≡ self.now.task.settings }
    {
        self.task.settings
    }

    /// The track that an earlier run left.
    pub fn track(&self) -> Option<&Track>
        ensures { option_copied result ≡ self.now.track }
    {
        self.track.as_ref()
    }

    /// With how many lines the text begins as the track's does; 0 without a track.
    pub fn same(&self) -> usize
        ensures { result ≡ front_of self.now.track self.now.task.text }
    {
        self.same
    }

    pub(crate) fn into_task(self) -> Task
        ensures { result ≡ self.task }
    {
        let Job { task, .. } = self;
        task
    }
}
