//! Laws of jobs: functions whose contracts are the laws.
ghost use Rattle.pd_track.specs.Laws.{RunsBeginLast};

/// Where the run of a job with a track begins: at the greatest multiple of 4 up to which the equal first lines decide the
/// events, the track's run passed them, and they consulted no setting in which the two differ.
pub fn law_runs_begin_at_last_usable_state()
    ensures { RunsBeginLast }
{}
