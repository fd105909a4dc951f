//! Where a run begins: at its first event, or in a state that an earlier one kept.
ghost use Rattle.std.specs.Prelude.{◌≡◌, ◌+◌, ◌*◌, ◌-◌, ◌≤◌, ◌<◌, ℕ, length, map, take, drop, slice_get, Some, true, false, IfOk};
ghost use Rattle.pd_text.specs.Text.{common_prefix};
ghost use Rattle.pd_reparse.specs.Reading.{reading_of, kept_of};
ghost use Rattle.pd_run.specs.Consulted.{run_with_settings};
ghost use Rattle.pd_run.specs.Run.{fresh_run, states_of};
ghost use Rattle.pd_settings.specs.SettingSets.{agrees};
ghost use Rattle.pd_track.specs.Reuse.{AgreeWhereConsulted, skipped_events, skipped_after_track, is_usable, consulted_settings, greatest, every_fourth, kept};
ghost use Rattle.pd_track.specs.Resuming.{kept_before, BeginsIn, Resumes};

use crate::checkpoint::Checkpoint;
use crate::job::Job;
use crate::progress::Progress;
use crate::track::Track;
use pd_reparse::{Reread, SharedList, law_equal_first_lines_keep_first_events, read, reread};
use pd_run::{
    RunState, law_clock_base_and_queue_bounded_per_event, law_runs_use_only_consulted_settings,
};
use pd_settings::{SettingSet, Settings};
use pd_text::Text;
use std::alloc::{AllocError, Global};

/// Reads a job's text, from the first event on that the track's reading doesn't settle.
///
/// # Errors
/// `AllocError` where a growth is refused.
pub fn read_job_text_reusing_track(alloc: Global, job: &Job) -> Result<Reread, AllocError>
    ensures reading { IfOk result (λ r. r.reading ≡ reading_of job.now.task.text) }
    ensures kept { IfOk result (λ r. r.kept ≡ kept_before job.now) }
{
    match job.track() {
        Some(track) => reread_text_reusing_track(alloc, track, job.text(), job.same()),
        None => Ok(Reread {
            reading: read(alloc, job.text().lines())?,
            kept: 0,
        }),
    }
}

/// Reads a text that begins with the same lines as the track's.
fn reread_text_reusing_track(
    alloc: Global,
    track: &Track,
    text: &Text,
    same: usize,
) -> Result<Reread, AllocError>
    requires { same ≡ common_prefix track.now.text text.now }
    ensures reading { IfOk result (λ r. r.reading ≡ reading_of text.now) }
    ensures kept { IfOk result (λ r. r.kept ≡ kept track.now.text text.now) }
{
    track.text().law_invariant();
    reread(alloc, track.reading(), text.lines(), same)
}

/// Begins a job's run, whose header sets this tolerance, if it sets one, where the track allows.
///
/// # Errors
/// `AllocError` where memory for the states that are taken up is refused; never where none of them serves.
pub fn begin_run_at_start_or_checkpoint(
    alloc: Global,
    job: &Job,
    kept: usize,
    header_tolerance: Option<u64>,
) -> Result<Progress, AllocError>
    requires kept { kept ≡ kept_before job.now }
    requires fresh { BeginsIn job.now.task.text job.now.task.settings (fresh_run header_tolerance job.now.task.settings) }
    ensures passed { IfOk result (λ p. p.passed ≡ skipped_events job.now) }
    ensures resumes { IfOk result (λ p. Resumes job.now.task.text job.now.task.settings p.passed p.state p.checkpoints) }
{
    match job.track() {
        Some(track) => begin_at_usable_checkpoint_or_start(
            alloc,
            track,
            kept,
            job.text(),
            &job.settings(),
            header_tolerance,
        ),
        None => begin_at_first_event(alloc, job.text(), &job.settings(), header_tolerance),
    }
}

/// Begins at the first event.
fn begin_at_first_event(
    alloc: Global,
    _text: &Text,
    settings: &Settings,
    header_tolerance: Option<u64>,
) -> Result<Progress, AllocError>
    requires fresh { BeginsIn _text.now settings.now (fresh_run header_tolerance settings.now) }
    ensures passed { IfOk result (λ p. p.passed ≡ 0) }
    ensures resumes { IfOk result (λ p. Resumes _text.now settings.now p.passed p.state p.checkpoints) }
{
    law_clock_base_and_queue_bounded_per_event();
    Ok(Progress::new(
        alloc,
        RunState::fresh_run(alloc, header_tolerance, settings),
    ))
}

/// Begins in the last state of the track that serves.
fn begin_at_usable_checkpoint_or_start(
    alloc: Global,
    track: &Track,
    events: usize,
    text: &Text,
    settings: &Settings,
    header_tolerance: Option<u64>,
) -> Result<Progress, AllocError>
    requires events { events ≡ kept track.now.text text.now }
    requires fresh { BeginsIn text.now settings.now (fresh_run header_tolerance settings.now) }
    ensures passed { IfOk result (λ p. p.passed ≡ skipped_after_track track.now text.now settings.now) }
    ensures resumes { IfOk result (λ p. Resumes text.now settings.now p.passed p.state p.checkpoints) }
{
    let count = usable_checkpoint_count(track, events, settings);
    if count == 0 {
        return begin_at_first_event(alloc, text, settings, header_tolerance);
    }
    law_equal_first_lines_keep_first_events();
    law_clock_base_and_queue_bounded_per_event();
    track.text().law_invariant();
    text.law_invariant();
    law_runs_use_only_consulted_settings();
    let checkpoints = share_first_checkpoints(track, count)?;
    // A question mark would move the state once more.
    match run_state_at_checkpoint(track, count).copy() {
        Ok(mut state) => {
            // The state may hold the settings of the run that kept it.
            state.set_settings(settings);
            Ok(Progress {
                state,
                passed: 4 * count,
                checkpoints,
            })
        }
        Err(error) => Err(error),
    }
}

/// How many of the track's states serve a run under these settings of which so many events are kept.
fn usable_checkpoint_count(track: &Track, kept: usize, settings: &Settings) -> usize
    ensures within { result ≤ length (every_fourth 3 (states_of track.now.text track.now.settings)) }
    ensures kept { 4 * result ≤ kept }
    ensures agreeing { 0 < result → agrees (consulted_settings track.now (4 * result)) track.now.settings settings.now ≡ true }
    ensures greatest { 4 * result ≡ greatest (is_usable track.now settings.now) kept }
{
    count_up_to_last_agreeing_checkpoint(
        track,
        (kept / 4).min(track_checkpoint_count(track)),
        settings,
    )
}

/// How many states the track has.
fn track_checkpoint_count(track: &Track) -> usize
    ensures { result ≡ length (every_fourth 3 (states_of track.now.text track.now.settings)) }
{
    track.checkpoints().len()
}

/// The last of the first states up to which nothing was consulted that differs.
fn count_up_to_last_agreeing_checkpoint(track: &Track, most: usize, settings: &Settings) -> usize
    requires { most ≤ length (every_fourth 3 (states_of track.now.text track.now.settings)) }
    ensures within { result ≤ most }
    ensures agreeing { 0 < result → agrees (consulted_settings track.now (4 * result)) track.now.settings settings.now ≡ true }
    ensures none { (j : ℕ) → result < j → j ≤ most → agrees (consulted_settings track.now (4 * j)) track.now.settings settings.now ≡ false }
{
    for i in 0..most {
        if has_agreeing_settings_at_checkpoint(track, most - i, settings) {
            return most - i;
        }
    }
    0
}

/// Whether the settings agree with the track's on all that was consulted up to one of its states.
fn has_agreeing_settings_at_checkpoint(track: &Track, count: usize, settings: &Settings) -> bool
    requires some { 0 < count }
    requires within { count ≤ length (every_fourth 3 (states_of track.now.text track.now.settings)) }
    ensures { result ≡ agrees (consulted_settings track.now (4 * count)) track.now.settings settings.now }
{
    track
        .settings()
        .agrees(settings, &consulted_settings_at_checkpoint(track, count))
}

/// The settings that were consulted up to one of the track's states.
fn consulted_settings_at_checkpoint(track: &Track, count: usize) -> SettingSet
    requires some { 0 < count }
    requires within { count ≤ length (every_fourth 3 (states_of track.now.text track.now.settings)) }
    ensures { result ≡ consulted_settings track.now (4 * count) }
{
    run_state_at_checkpoint(track, count).consulted_settings()
}

/// One of the track's states, but for the settings held in it.
fn run_state_at_checkpoint(track: &Track, count: usize) -> &RunState
    requires some { 0 < count }
    requires within { count ≤ length (every_fourth 3 (states_of track.now.text track.now.settings)) }
    ensures { slice_get (every_fourth 3 (states_of track.now.text track.now.settings)) (count - 1) ≡ Some (run_with_settings track.now.settings result.now) }
{
    track.checkpoints().at(count - 1).state()
}

/// The track's first states, shared.
fn share_first_checkpoints(
    track: &Track,
    count: usize,
) -> Result<SharedList<Checkpoint>, AllocError>
    requires { count ≤ length (every_fourth 3 (states_of track.now.text track.now.settings)) }
    ensures states { IfOk result (λ shared. map (run_with_settings track.now.settings) shared ≡ take count (every_fourth 3 (states_of track.now.text track.now.settings))) }
    ensures held { IfOk result (λ shared. AgreeWhereConsulted track.now.settings shared) }
{
    let shared = track.checkpoints().share_first(count)?;
    Ok(shared)
}
