//! The state of a run between two events.
ghost use Rattle.std.specs.Prelude.{◌≡◌, ◌<◌, ◌^◌, false, Some, IfOk, IsErr};
ghost use Rattle.std.specs.List.{list_any};
ghost use Rattle.pd_host.specs.ConnStates.{conn_state};
ghost use Rattle.pd_host.specs.declared.halts.HostEnd.TheVariants.{OutOfMemory};
ghost use Rattle.pd_run.specs.Limits.{is_long, written_times};
ghost use Rattle.pd_run.specs.Times.{single_moment_or_base};
ghost use Rattle.pd_run.specs.Run.{start_of, fresh_run, LetsBegin};
ghost use Rattle.pd_run.specs.Consulted.{consulted_settings_of, run_with_settings};
ghost use Rattle.pd_run.specs.Step.{tolerance_of, comparison_noted, action_time_not_before_clock};

mod events;

use crate::laws::law_sender_deadline_ahead_and_queue_bounded;
use crate::times::single_moment_or_base;
use crate::verdict::Verdict;
use pd_host::{ConnState, Host};
use pd_script::{Event, Header, HeaderKind};
use pd_settings::{SettingSet, Settings};
use std::alloc::{AllocError, Global};
use std::marker::Model;

/// The state of a run between two events: the host, in microseconds the clock, the base of relative times and the tolerance
/// that the header sets, if it does, and whether a packet was expected without one.
///
/// A run that has found no memory answers that to each further step.
#[derive(Drop)]
pub struct RunState {
    /// The sender.
    host: Host,
    /// The present moment, in microseconds since the start of the run.
    clock: u64,
    /// The moment from which relative times are counted, in microseconds since the start of the run.
    base: u64,
    /// The header's tolerance, in microseconds, if it sets one.
    header_tolerance: Option<u64>,
    /// Whether a packet was expected without a header's tolerance, so that the setting `tolerance_us` was consulted.
    used_tolerance: bool,
}

impl Model for RunState {
    ghost use Rattle.pd_run.specs.RunStates.{RunStateView, IsUpToDate};

    ghost Value = { RunStateView };

    ghost view = { λ r. record { host = r.host; clock = r.clock; base = r.base; header_tolerance = r.header_tolerance; used_tolerance = r.used_tolerance } };

    ghost invariant = { λ r. IsUpToDate r.host r.clock };
}

impl RunState {
    /// The state before the first event.
    ///
    /// # Errors
    /// `Unsupported` at the first header item that is no valid `--tolerance_usecs`.
    pub fn new(alloc: Global, header: &Header, settings: &Settings) -> Result<RunState, Verdict>
        ensures { result ≡ start_of header.now.items settings.now }
    {
        match RunState::header_tolerance_or_unsupported(header) {
            Ok(header_tolerance) => Ok(RunState::fresh_run(alloc, header_tolerance, settings)),
            Err(verdict) => Err(verdict),
        }
    }

    /// The tolerance that a header sets for its run, in microseconds, if it sets one.
    ///
    /// # Errors
    /// As for `new`.
    pub fn header_tolerance_or_unsupported(header: &Header) -> Result<Option<u64>, Verdict>
        ensures { LetsBegin header.now.items result }
    {
        let mut header_tolerance = None;
        for item in header.as_slice() {
            match item.kind {
                HeaderKind::Tolerance(microseconds) => header_tolerance = Some(microseconds),
                _ => return Err(Verdict::Unsupported(item.line)),
            }
        }
        Ok(header_tolerance)
    }

    /// The state before the first event of a run whose header sets this tolerance, in microseconds, if it sets one.
    pub fn fresh_run(alloc: Global, header_tolerance: Option<u64>, settings: &Settings) -> RunState
        ensures { result ≡ fresh_run header_tolerance settings.now }
    {
        RunState {
            host: Host::new(alloc, settings),
            clock: 0,
            base: 0,
            header_tolerance,
            used_tolerance: false,
        }
    }

    /// The same run once more.
    ///
    /// # Errors
    /// Out of memory, now or in an earlier step.
    #[inline(always)]
    pub fn copy(&self) -> Result<RunState, AllocError>
        ensures ok { IfOk result (λ copy. copy ≡ self.now) }
        ensures again { self.now.host.end_reason ≡ Some OutOfMemory → IsErr result }
    {
        let board_and_outbox_copies = self.host.board_and_outbox_copies()?;
        Ok(RunState {
            host: self.host.with_heap_parts(board_and_outbox_copies),
            ..*self
        })
    }

    /// Which of the settings were consulted so far.
    pub fn consulted_settings(&self) -> SettingSet
        ensures { result ≡ consulted_settings_of self.now }
    {
        let consulted_settings = self.host.consulted_settings();
        SettingSet {
            tolerance_us: consulted_settings.tolerance_us || self.used_tolerance,
            ..consulted_settings
        }
    }

    /// Puts the run under other settings: the host holds them, and the tolerance is theirs unless the header sets one. Where
    /// they agree with the former ones on all that was consulted, the run is what it would be had it been under them from
    /// the beginning.
    ///
    /// Takes no memory.
    pub fn set_settings(&mut self, settings: &Settings)
        ensures { self.new ≡ run_with_settings settings.now self.old }
    {
        law_sender_deadline_ahead_and_queue_bounded();
        self.host.set_settings(settings);
    }

    /// The state of the run's sender.
    pub fn conn_state(&self) -> ConnState
        ensures { result ≡ conn_state self.now.host.state }
    {
        self.host.state()
    }

    /// The run's sender.
    pub fn host(&self) -> &Host
        ensures { result.now ≡ self.now.host }
    {
        &self.host
    }

    /// The present moment, in microseconds since the start of the run.
    pub fn clock(&self) -> u64
        ensures { result ≡ self.now.clock }
    {
        self.clock
    }

    /// The moment from which relative times are counted, in microseconds since the start of the run.
    pub fn base(&self) -> u64
        ensures { result ≡ self.now.base }
    {
        self.base
    }

    /// The tolerance, in microseconds: the header's, else the setting's.
    pub fn tolerance(&self) -> u64
        ensures { result ≡ tolerance_of self.now }
    {
        self.header_tolerance
            .unwrap_or(self.host.settings().tolerance_us)
    }

    /// A packet is expected.
    fn note_tolerance_use_unless_in_header(&mut self)
        ensures { self.new ≡ comparison_noted self.old }
    {
        self.used_tolerance = self.used_tolerance || self.header_tolerance.is_none();
    }

    /// The moment at which a packet arrives or a call is made.
    fn action_time_not_before_clock(&self, event: &Event) -> u64
        requires base { self.now.base < 2 ^ 61 }
        requires short { list_any is_long (written_times event.now.time) ≡ false }
        ensures { result ≡ action_time_not_before_clock self.now event.now }
    {
        single_moment_or_base(self.base, event.time).max(self.clock)
    }

    /// The base becomes the time of an event that acted.
    fn set_base_to_event_time(&mut self, event: &Event)
        requires base { self.old.base < 2 ^ 61 }
        requires short { list_any is_long (written_times event.now.time) ≡ false }
        ensures { self.new ≡ record self.old { base = single_moment_or_base self.old.base event.now.time } }
    {
        self.base = single_moment_or_base(self.base, event.time);
    }
}
