//! The run that is recorded, event by event.
ghost use Rattle.std.specs.Prelude.{◌≡◌, ◌≤◌, ◌<◌, ◌+◌, ◌*◌, ◌^◌, ◌++◌, ◌∷◌, max, [], None, false, nat_le, IfOk, OnOk};
ghost use Rattle.std.specs.List.{list_any};
ghost use Rattle.pd_run.specs.Limits.{is_long, written_times};
ghost use Rattle.pd_run.specs.Step.{tolerance_of};
ghost use Rattle.pd_run.specs.Times.{single_moment_or_base, time_range_of, is_not_too_late_within_tolerance};
ghost use Rattle.pd_record.specs.Recorder.{action_time_not_before_clock, answer_at, arrives, recorder_at_start, calls, departs, event_at, expects, inputs, leaves_next, left_by, recorded, refusal_if_over_event_or_gap_limit, precheck_at, stepped, happened, with_base, with_unmet};
ghost use Rattle.pd_record.specs.Inner.{Finds, Gives, Goes, IsReached, Sound};

use crate::preview::{answer_to_call, oldest_unmatched_or_next_expiry_packet};
use crate::record_error::RecordError;
use crate::recorded::{EventRecording, OwnEvent, RecordedAnswer, RecordedEvent, TraceSnapshot};
use crate::results::expected_result_from_answer;
use pd_match::check_call;
use pd_print::script_packet_of_segment;
use pd_run::{
    Plain, RunState, StepEnd, Stepper, Verdict, base_from_moment_or_later_of_base_and_sent,
    failed_precheck, is_not_too_late_within_tolerance, law_clock_base_and_queue_bounded_per_event,
    single_moment_or_base, time_range_of,
};
use pd_script::{Action, Call, Event, Header, MAX_EVENTS, Packet, Time};
use pd_seg::{Answer, Sent};
use pd_settings::Settings;
use std::alloc::{AllocError, Global};
use std::collections::VecDeque;
use std::marker::Model;

/// The longest span between two recorded events, in microseconds.
const MAX_GAP: u64 = 3_600_000_000;

/// Records the events of a script one after the other. It takes each step of the recording itself as soon as it is known, so
/// the events recorded so far always pass.
#[derive(Drop)]
pub struct Recorder {
    /// The run of what was recorded so far.
    run: RunState,
    /// The settings of the run.
    settings: Settings,
    /// How many events were recorded.
    count: usize,
    /// The moment from which the script's relative times are counted, in microseconds since the start of the run.
    base: u64,
    /// The moments of the packets that were recorded and that no expected packet has met, the oldest first.
    unmet: VecDeque<u64>,
    /// The sender's state after each recorded event, where a trace has it.
    senders: Option<Vec<TraceSnapshot>>,
}

impl Model for Recorder {
    ghost use Rattle.pd_record.specs.Recorder.{RecorderView};

    ghost Value = { RecorderView };

    ghost view = { λ r. record { run = r.run; count = r.count; base = r.base; unmet = r.unmet.items } };
}

impl Recorder {
    /// Before the first event; for a trace it notes how the sender stands after each one that it records.
    ///
    /// # Errors
    /// `Stopped` at the first header item that isn't run; `OutOfMemory`.
    pub fn new(
        alloc: Global,
        header: &Header,
        settings: &Settings,
        with_trace: bool,
    ) -> Result<Recorder, RecordError>
        ensures begins { Finds (recorder_at_start header.now.items settings.now) result }
        ensures sound { IfOk result (λ recorder. Sound recorder) }
        ensures base { IfOk result (λ recorder. recorder.base ≡ 0) }
    {
        law_clock_base_and_queue_bounded_per_event();
        let run = match RunState::new(alloc, header, settings) {
            Ok(run) => run,
            Err(verdict) => return Err(RecordError::Stopped(verdict)),
        };
        Ok(Recorder {
            run,
            settings: *settings,
            count: 0,
            base: 0,
            unmet: VecDeque::new(alloc),
            senders: with_trace.then(|| Vec::new(alloc)),
        })
    }

    /// How many events were recorded.
    pub fn count(&self) -> usize
        ensures { result ≡ self.now.count }
    {
        self.count
    }

    /// How the sender stood after each recorded event, in order; nothing where no trace was asked for.
    pub fn into_sender_snapshots_if_traced(self) -> Option<Vec<TraceSnapshot>> {
        let Recorder { senders, .. } = self;
        senders
    }

    /// The present moment of the recording, in microseconds since the start of the run.
    pub fn clock(&self) -> u64
        ensures { result ≡ self.now.run.clock }
    {
        self.run.clock()
    }

    /// The moment from which the script's relative times are counted, in microseconds since the start of the run.
    pub fn base(&self) -> u64
        ensures { result ≡ self.now.base }
    {
        self.base
    }

    /// The run of what was recorded so far, once more.
    ///
    /// # Errors
    /// `AllocError` where a growth is refused.
    pub fn copy_run(&self) -> Result<RunState, AllocError>
        ensures { IfOk result (λ run. run ≡ self.now.run) }
    {
        self.run.copy()
    }

    /// Records an event of the script.
    ///
    /// # Errors
    /// `Stopped` where a run stops at the event, whatever it expects; `TooManyEvents`, `TooLongGap` and `OutOfMemory`.
    pub fn record_script_event(
        &mut self,
        alloc: Global,
        event: &Event,
    ) -> Result<EventRecording, RecordError>
        requires sound { Sound self.old }
        requires early { self.old.base < 2 ^ 60 }
        ensures event_recording { Gives (λ event_recording. event_recording) (recorded self.old event.now) result self.new }
        ensures sound { OnOk result (Sound self.new) }
        ensures base { OnOk result (self.new.base ≤ max (self.old.base + 3600000000) (3600000000 * 4097)) }
    {
        if let Some(refusal) = self.refusal_of_failed_precheck(event) {
            return Err(refusal);
        }
        match &event.action {
            Action::Outbound(_) => self.use_up_unmet_departure_or_record_next(alloc, event),
            Action::Inbound(packet) => self.record_departures_then_arrival(alloc, event, packet),
            Action::Call(call) => self.record_departures_then_call(alloc, event, call),
            Action::Command | Action::Code => {
                Err(RecordError::Stopped(Verdict::Unsupported(event.line)))
            }
        }
    }

    /// The checks of a step before anything happens: limits, shapes that aren't run, and times that go backwards.
    fn refusal_of_failed_precheck(&self, event: &Event) -> Option<RecordError>
        ensures { result ≡ precheck_at self.now event.now }
    {
        let bar = failed_precheck(self.base, event)?;
        Some(RecordError::Stopped(bar.verdict(event.line)))
    }

    /// The moment at which an input acts.
    fn action_time_not_before_clock(&self, event: &Event) -> u64
        requires early { self.now.base < 2 ^ 60 }
        requires short { list_any is_long (written_times event.now.time) ≡ false }
        ensures { result ≡ action_time_not_before_clock self.now event.now }
    {
        single_moment_or_base(self.base, event.time).max(self.run.clock())
    }

    /// A packet arrives.
    fn record_departures_then_arrival(
        &mut self,
        alloc: Global,
        event: &Event,
        packet: &Packet,
    ) -> Result<EventRecording, RecordError>
        requires sound { Sound self.old }
        requires early { self.old.base < 2 ^ 60 }
        requires short { list_any is_long (written_times event.now.time) ≡ false }
        ensures event_recording { Gives (λ event_recording. event_recording) (inputs (arrives event.now.line (action_time_not_before_clock self.old event.now) packet.now) self.old event.now) result self.new }
        ensures sound { OnOk result (Sound self.new) }
        ensures base { OnOk result (self.new.base ≡ single_moment_or_base self.old.base event.now.time) }
    {
        let at = self.action_time_not_before_clock(event);
        let before = self.record_departures_until_as_unmet(alloc, event.line, at)?;
        let recorded = self.step_and_record_action(
            event.line,
            at,
            Action::Inbound(packet.copy()?),
        )?;
        self.base = single_moment_or_base(self.base, event.time);
        Ok(EventRecording {
            before,
            own: Some(OwnEvent {
                recorded,
                recorded_answer: None,
            }),
        })
    }

    /// A call is made.
    fn record_departures_then_call(
        &mut self,
        alloc: Global,
        event: &Event,
        call: &Call,
    ) -> Result<EventRecording, RecordError>
        requires sound { Sound self.old }
        requires early { self.old.base < 2 ^ 60 }
        requires short { list_any is_long (written_times event.now.time) ≡ false }
        ensures event_recording { Gives (λ event_recording. event_recording) (inputs (calls event.now.line (action_time_not_before_clock self.old event.now) call.now) self.old event.now) result self.new }
        ensures sound { OnOk result (Sound self.new) }
        ensures base { OnOk result (self.new.base ≡ single_moment_or_base self.old.base event.now.time) }
    {
        let at = self.action_time_not_before_clock(event);
        let before = self.record_departures_until_as_unmet(alloc, event.line, at)?;
        let own = self.make_and_record_call(event.line, at, call)?;
        self.base = single_moment_or_base(self.base, event.time);
        Ok(EventRecording {
            before,
            own: Some(own),
        })
    }

    /// Records what left and what the expiries up to a moment send, one by one.
    ///
    /// # Errors
    /// `Stopped`, `TooManyEvents`, `TooLongGap` and `OutOfMemory`.
    pub fn record_departures_until_as_unmet(
        &mut self,
        alloc: Global,
        line: usize,
        until: u64,
    ) -> Result<Vec<RecordedEvent>, RecordError>
        requires sound { Sound self.old }
        requires early { until < 2 ^ 61 }
        ensures packets { Gives (λ packets. packets.items) (left_by line until self.old) result self.new }
        ensures sound { OnOk result (Sound self.new) }
        ensures base { OnOk result (self.new.base ≡ self.old.base) }
    {
        let mut before = Vec::new(alloc);
        'packets: for _ in 0..MAX_EVENTS {
            let Some(sent) = self.preview_next_packet_until(until)? else {
                return Ok(before);
            };
            let recorded = self.record_sent_packet(alloc, line, &sent)?;
            append_recorded_event(&mut before, recorded)?;
            self.push_unmet_departure_time(sent.at)?;
        }
        Err(RecordError::TooManyEvents)
    }

    /// The packet that leaves next, if it is unmatched, or an expiry up to a moment sends it.
    fn preview_next_packet_until(&self, until: u64) -> Result<Option<Sent>, AllocError>
        requires sound { Sound self.now }
        ensures { IfOk result (λ sent. sent ≡ leaves_next (λ due. nat_le due until) self.now.run) }
    {
        let due = match self.run.host().deadline() {
            Some(due) if due <= until => Some(due),
            _ => None,
        };
        oldest_unmatched_or_next_expiry_packet(self.run.host(), due)
    }

    /// The packet that leaves next, if it is unmatched, or an expiry that may come in time for an expected one sends it.
    fn preview_next_packet_unless_expiry_too_late(
        &self,
        event: &Event,
    ) -> Result<Option<Sent>, AllocError>
        requires sound { Sound self.now }
        requires early { self.now.base < 2 ^ 60 }
        requires short { list_any is_long (written_times event.now.time) ≡ false }
        ensures { IfOk result (λ sent. sent ≡ leaves_next (is_not_too_late_within_tolerance (time_range_of self.now.base event.now.time) (tolerance_of self.now.run)) self.now.run) }
    {
        let time_range = time_range_of(self.base, event.time);
        let due = match self.run.host().deadline() {
            Some(due) if is_not_too_late_within_tolerance(time_range, self.run.tolerance(), due) =>
                Some(due),
            _ => None,
        };
        oldest_unmatched_or_next_expiry_packet(self.run.host(), due)
    }

    /// A packet was recorded that no expected packet has met.
    fn push_unmet_departure_time(&mut self, at: u64) -> Result<(), AllocError>
        ensures { OnOk result (self.new ≡ with_unmet self.old at) }
    {
        self.unmet.push_back(at)?;
        Ok(())
    }

    /// Makes a call, and records it with what the sender answers.
    fn make_and_record_call(
        &mut self,
        line: usize,
        at: u64,
        call: &Call,
    ) -> Result<OwnEvent, RecordError>
        requires sound { Sound self.old }
        requires early { at < 2 ^ 61 }
        ensures own { Gives (λ own. own) (calls line at call.now self.old) result self.new }
        ensures sound { OnOk result (Sound self.new) }
        ensures base { OnOk result (self.new.base ≡ self.old.base) }
    {
        let answer = self.preview_answer_within_count_and_gap(line, at, call)?;
        let mut answered = call.copy()?;
        answered.result = expected_result_from_answer(answer);
        let recorded = self.step_and_record_action(line, at, Action::Call(answered))?;
        Ok(OwnEvent {
            recorded,
            recorded_answer: Some(RecordedAnswer {
                answer,
                is_expected: check_call(call, &answer).is_none(),
            }),
        })
    }

    /// The sender's answer to a call at a moment.
    fn preview_answer_within_count_and_gap(
        &self,
        line: usize,
        at: u64,
        call: &Call,
    ) -> Result<Answer, RecordError>
        requires sound { Sound self.now }
        requires early { at < 2 ^ 61 }
        ensures { Finds (answer_at self.now line at call.now) result }
    {
        match self.refusal_if_over_event_or_gap_limit(at) {
            Some(refusal) => Err(refusal),
            None => answer_to_call(self.run.host(), line, at, call),
        }
    }

    /// An expected packet meets the oldest that none met before: one that was recorded, else the one that leaves next.
    fn use_up_unmet_departure_or_record_next(
        &mut self,
        alloc: Global,
        event: &Event,
    ) -> Result<EventRecording, RecordError>
        requires sound { Sound self.old }
        requires early { self.old.base < 2 ^ 60 }
        requires short { list_any is_long (written_times event.now.time) ≡ false }
        ensures event_recording { Gives (λ event_recording. event_recording) (expects self.old event.now) result self.new }
        ensures sound { OnOk result (Sound self.new) }
        ensures base { OnOk result (self.new.base ≤ max (self.old.base + 3600000000) (3600000000 * 4097)) }
    {
        if let Some(at) = self.unmet.pop_front() {
            self.base = base_from_moment_or_later_of_base_and_sent(self.base, event.time, at);
            return Ok(empty_event_recording(alloc));
        }
        let Some(sent) = self.preview_next_packet_unless_expiry_too_late(event)? else {
            self.base = base_from_moment_or_later_of_base_and_sent(
                self.base, event.time, self.base,
            );
            return Ok(empty_event_recording(alloc));
        };
        let recorded = self.record_sent_packet(alloc, event.line, &sent)?;
        self.base = base_from_moment_or_later_of_base_and_sent(self.base, event.time, sent.at);
        Ok(EventRecording {
            before: Vec::new(alloc),
            own: Some(OwnEvent {
                recorded,
                recorded_answer: None,
            }),
        })
    }

    /// Records a packet as it left.
    fn record_sent_packet(
        &mut self,
        alloc: Global,
        line: usize,
        sent: &Sent,
    ) -> Result<RecordedEvent, RecordError>
        requires sound { Sound self.old }
        ensures packet { Gives (λ recorded. recorded) (departs self.old line sent.now) result self.new }
        ensures sound { OnOk result (Sound self.new) }
        ensures reached { OnOk result (IsReached sent.now.at) }
        ensures same { OnOk result (self.new.unmet ≡ self.old.unmet) }
        ensures base { OnOk result (self.new.base ≡ self.old.base) }
    {
        let packet = script_packet_of_segment(alloc, &sent.segment)?;
        self.step_and_record_action(line, sent.at, Action::Outbound(packet))
    }

    /// Records what happens at a moment, and takes its step.
    fn step_and_record_action(
        &mut self,
        line: usize,
        at: u64,
        action: Action,
    ) -> Result<RecordedEvent, RecordError>
        requires sound { Sound self.old }
        ensures event { Gives (λ recorded. recorded) (happened self.old line at action) result self.new }
        ensures sound { OnOk result (Sound self.new) }
        ensures reached { OnOk result (IsReached at) }
        ensures same { OnOk result (self.new.unmet ≡ self.old.unmet) }
        ensures base { OnOk result (self.new.base ≡ self.old.base) }
    {
        if let Some(refusal) = self.refusal_if_over_event_or_gap_limit(at) {
            return Err(refusal);
        }
        let event = self.event_with_relative_time(line, at, action);
        self.step(&event)?;
        self.note_sender_snapshot_if_traced()?;
        Ok(RecordedEvent { event, at })
    }

    /// Notes the sender's state, where a trace has it.
    fn note_sender_snapshot_if_traced(&mut self) -> Result<(), AllocError>
        ensures { self.new ≡ self.old }
    {
        if let Some(senders) = &mut self.senders {
            senders.push(TraceSnapshot::of_host(self.run.host()))?;
        }
        Ok(())
    }

    /// Takes the step of a recorded event.
    fn step(&mut self, event: &Event) -> Result<(), RecordError>
        requires sound { Sound self.old }
        requires few { self.old.count < 4096 }
        ensures step { Goes (stepped self.old event.now) result self.new }
        ensures sound { OnOk result (Sound self.new) }
        ensures same { OnOk result (self.new.unmet ≡ self.old.unmet) }
        ensures base { OnOk result (self.new.base ≡ self.old.base) }
    {
        law_clock_base_and_queue_bounded_per_event();
        match Plain::new().step(&mut self.run, event, &self.settings)? {
            StepEnd::Go => {}
            StepEnd::Stop(verdict) => return Err(RecordError::Stopped(verdict)),
        }
        self.count += 1;
        Ok(())
    }

    /// Why nothing is recorded at a moment, if there is a reason.
    fn refusal_if_over_event_or_gap_limit(&self, at: u64) -> Option<RecordError>
        ensures { result ≡ refusal_if_over_event_or_gap_limit self.now at }
    {
        if self.count >= MAX_EVENTS {
            Some(RecordError::TooManyEvents)
        } else if at.saturating_sub(self.run.base()) > MAX_GAP {
            Some(RecordError::TooLongGap)
        } else {
            None
        }
    }

    /// An event of the recording, which stops at a line of the script.
    fn event_with_relative_time(&self, line: usize, at: u64, action: Action) -> Event
        ensures { result ≡ event_at self.now line at action }
    {
        Event {
            line,
            time: Time::Relative(at.saturating_sub(self.run.base())),
            blocking_end: None,
            action,
        }
    }
}

/// An event that records nothing.
fn empty_event_recording(alloc: Global) -> EventRecording
    ensures before { result.before ≡ [] }
    ensures own { result.own ≡ None }
{
    EventRecording {
        before: Vec::new(alloc),
        own: None,
    }
}

fn append_recorded_event(
    list: &mut Vec<RecordedEvent>,
    recorded: RecordedEvent,
) -> Result<(), AllocError>
    ensures { OnOk result (list.new.items ≡ list.old.items ++ recorded ∷ []) }
{
    list.push(recorded)?;
    Ok(())
}
