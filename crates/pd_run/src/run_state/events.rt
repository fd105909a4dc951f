//! One event of a run: a step that goes on or stops with a verdict, or a preview of the reason for a stop.
ghost use Rattle.std.specs.Prelude.{◌≡◌, ◌<◌, ◌^◌, false, None, Some, IfOk, OnErr, slice_get};
ghost use Rattle.std.specs.List.{list_any};
ghost use Rattle.pd_host.specs.Expiries.{advanced, deadline_of};
ghost use Rattle.pd_host.specs.Host.{IsShort};
ghost use Rattle.pd_host.specs.declared.halts.HostEnd.TheVariants.{OutOfMemory};
ghost use Rattle.pd_run.specs.Inner.{Ends};
ghost use Rattle.pd_run.specs.Limits.{is_long, written_times, is_packet_number_over_limit};
ghost use Rattle.pd_run.specs.Step.{arrives, on_arrival, answers, on_answer, on_expiry, awaited, packet_taken, leaves, precheck_then_perform_event_and_find_stop, stop_reason, Steps};

use super::RunState;
use crate::host_input::{advance_host_and_call, arrive};
use crate::laws::law_sender_deadline_ahead_and_queue_bounded;
use crate::prechecks::{Precheck, failed_precheck};
use crate::stepper::StepEnd;
use crate::stop_reason::{StopKind, StopReason};
use crate::times::{
    base_from_moment_or_later_of_base_and_sent, is_not_too_late_within_tolerance, time_range_of,
};
use pd_match::{Expect, check_call, check_packet};
use pd_script::{Action, Call, Event, Packet};
use std::alloc::AllocError;

impl RunState {
    /// One event. One that stops the run leaves it in a state of which nothing is claimed.
    ///
    /// # Errors
    /// Out of memory, now or in an earlier step.
    #[inline(always)]
    pub(crate) fn step(&mut self, event: &Event) -> Result<StepEnd, AllocError>
        requires clock { self.old.clock < 2 ^ 61 }
        requires base { self.old.base < 2 ^ 61 }
        requires short { IsShort self.old.host.state }
        ensures ends { IfOk result (λ end. Steps self.old event.now end self.new) }
        ensures memory { OnErr result (self.new.host.end_reason ≡ Some OutOfMemory) }
    {
        if let Some(ending) = self.host.end_reason() {
            return Ok(StepEnd::Stop(StopKind::from_host_end(ending)?.verdict(event.line)));
        }
        match self.precheck_then_perform_event_and_find_stop(event)? {
            None => Ok(StepEnd::Go),
            Some(stop) => Ok(StepEnd::Stop(stop.verdict(event.line))),
        }
    }

    /// Why the run stops at an event; nothing where it goes on. The run itself stays as it is.
    ///
    /// # Errors
    /// `AllocError` where a growth is refused.
    pub fn preview_stop_reason_at_event(
        &self,
        event: &Event,
    ) -> Result<Option<StopReason>, AllocError>
        requires live { self.now.host.end_reason ≡ None }
        requires clock { self.now.clock < 2 ^ 61 }
        requires base { self.now.base < 2 ^ 61 }
        requires short { IsShort self.now.host.state }
        ensures { IfOk result (λ reason. reason ≡ stop_reason self.now event.now) }
    {
        let mut run = self.copy()?;
        match run.precheck_then_perform_event_and_find_stop(event)? {
            None => Ok(None),
            Some(stop) => Ok(Some(stop.into_reason_with_run(run)?)),
        }
    }

    /// How an event ends: its checks in order, then the event itself. Nothing where the run goes on.
    #[inline(always)]
    fn precheck_then_perform_event_and_find_stop(
        &mut self,
        event: &Event,
    ) -> Result<Option<StopKind>, AllocError>
        requires live { self.old.host.end_reason ≡ None }
        requires clock { self.old.clock < 2 ^ 61 }
        requires base { self.old.base < 2 ^ 61 }
        requires short { IsShort self.old.host.state }
        ensures ends { IfOk result (λ end. Ends (precheck_then_perform_event_and_find_stop self.old event.now) end self.new) }
        ensures memory { OnErr result (self.new.host.end_reason ≡ Some OutOfMemory) }
    {
        if let Some(bar) = failed_precheck(self.base, event) {
            return Ok(Some(StopKind::FailedPrecheck(bar)));
        }
        match &event.action {
            Action::Inbound(packet) => self.arrive(event, packet),
            Action::Outbound(packet) => {
                self.note_tolerance_use_unless_in_header();
                self.expect(event, packet)
            }
            Action::Call(call) => self.call(event, call),
            Action::Command | Action::Code => Ok(Some(StopKind::FailedPrecheck(Precheck::NotRun))),
        }
    }

    #[inline(always)]
    fn arrive(&mut self, event: &Event, packet: &Packet) -> Result<Option<StopKind>, AllocError>
        requires live { self.old.host.end_reason ≡ None }
        requires clock { self.old.clock < 2 ^ 61 }
        requires base { self.old.base < 2 ^ 61 }
        requires short { list_any is_long (written_times event.now.time) ≡ false }
        requires fits { is_packet_number_over_limit packet.now ≡ false }
        ensures ends { IfOk result (λ end. Ends (on_arrival self.old event.now (arrives self.old event.now packet.now)) end self.new) }
        ensures memory { OnErr result (self.new.host.end_reason ≡ Some OutOfMemory) }
    {
        law_sender_deadline_ahead_and_queue_bounded();
        let moment = self.action_time_not_before_clock(event);
        match arrive(&mut self.host, packet, moment) {
            Ok(()) => {}
            Err(ending) => return Ok(Some(StopKind::from_host_end(ending)?)),
        }
        self.clock = moment;
        self.set_base_to_event_time(event);
        Ok(None)
    }

    #[inline(always)]
    fn call(&mut self, event: &Event, call: &Call) -> Result<Option<StopKind>, AllocError>
        requires live { self.old.host.end_reason ≡ None }
        requires clock { self.old.clock < 2 ^ 61 }
        requires base { self.old.base < 2 ^ 61 }
        requires short { list_any is_long (written_times event.now.time) ≡ false }
        requires room { IsShort self.old.host.state }
        ensures ends { IfOk result (λ end. Ends (on_answer self.old event.now call.now (answers self.old event.now call.now)) end self.new) }
        ensures memory { OnErr result (self.new.host.end_reason ≡ Some OutOfMemory) }
    {
        law_sender_deadline_ahead_and_queue_bounded();
        let moment = self.action_time_not_before_clock(event);
        let call_answer = match advance_host_and_call(&mut self.host, call, moment) {
            Ok(call_answer) => call_answer,
            Err(ending) => return Ok(Some(StopKind::from_host_end(ending)?)),
        };
        self.clock = moment;
        self.set_base_to_event_time(event);
        match check_call(call, &call_answer) {
            None => Ok(None),
            Some(_) => Ok(Some(StopKind::Answered(call_answer))),
        }
    }

    #[inline(always)]
    fn expect(&mut self, event: &Event, packet: &Packet) -> Result<Option<StopKind>, AllocError>
        requires live { self.old.host.end_reason ≡ None }
        requires clock { self.old.clock < 2 ^ 61 }
        requires base { self.old.base < 2 ^ 61 }
        requires short { list_any is_long (written_times event.now.time) ≡ false }
        ensures ends { IfOk result (λ end. Ends (leaves self.old event.now packet.now) end self.new) }
        ensures memory { OnErr result (self.new.host.end_reason ≡ Some OutOfMemory) }
    {
        match self.perform_timely_expiry_if_none_unmatched(event)? {
            None => Ok(self.take_oldest_packet_if_it_matches(event, packet)),
            end => Ok(end),
        }
    }

    /// Where no packet is unmatched, performs the next expiry that may send the expected one.
    #[inline(always)]
    fn perform_timely_expiry_if_none_unmatched(
        &mut self,
        event: &Event,
    ) -> Result<Option<StopKind>, AllocError>
        requires live { self.old.host.end_reason ≡ None }
        requires clock { self.old.clock < 2 ^ 61 }
        requires base { self.old.base < 2 ^ 61 }
        requires short { list_any is_long (written_times event.now.time) ≡ false }
        ensures ends { IfOk result (λ end. Ends (awaited self.old event.now) end self.new) }
        ensures memory { OnErr result (self.new.host.end_reason ≡ Some OutOfMemory) }
        ensures base { self.new.base ≡ self.old.base }
    {
        if !self.host.outbox().is_empty() {
            return Ok(None);
        }
        let time_range = time_range_of(self.base, event.time);
        match self.host.deadline() {
            // One expiry is enough: each puts a packet out.
            Some(at) if is_not_too_late_within_tolerance(time_range, self.tolerance(), at) =>
                self.perform_expiry_and_set_clock(at),
            _ => Ok(Some(StopKind::Missing)),
        }
    }

    /// Performs the next expiry, whose moment the clock becomes.
    fn perform_expiry_and_set_clock(&mut self, at: u64) -> Result<Option<StopKind>, AllocError>
        requires live { self.old.host.end_reason ≡ None }
        requires clock { self.old.clock < 2 ^ 61 }
        requires due { deadline_of self.old.host.state ≡ Some at }
        ensures ends { IfOk result (λ end. Ends (on_expiry self.old at (advanced at self.old.host.state)) end self.new) }
        ensures memory { OnErr result (self.new.host.end_reason ≡ Some OutOfMemory) }
        ensures base { self.new.base ≡ self.old.base }
    {
        law_sender_deadline_ahead_and_queue_bounded();
        match self.host.advance(at) {
            Ok(()) => {}
            Err(ending) => return Ok(Some(StopKind::from_host_end(ending)?)),
        }
        self.clock = at;
        Ok(None)
    }

    /// Compares the oldest packet, and takes it where it agrees.
    #[inline(always)]
    fn take_oldest_packet_if_it_matches(
        &mut self,
        event: &Event,
        packet: &Packet,
    ) -> Option<StopKind>
        requires base { self.old.base < 2 ^ 61 }
        requires short { list_any is_long (written_times event.now.time) ≡ false }
        ensures { Ends (packet_taken event.now packet.now self.old (slice_get self.old.host.state.endpoint.outbox 0)) result self.new }
    {
        law_sender_deadline_ahead_and_queue_bounded();
        let Some(sent) = self.host.outbox().get(0) else {
            return Some(StopKind::Missing);
        };
        let expect = Expect {
            packet,
            time_range: time_range_of(self.base, event.time),
        };
        if let Some(kind) = check_packet(&expect, sent, self.tolerance()) {
            return Some(StopKind::Differs(kind));
        }
        self.base = base_from_moment_or_later_of_base_and_sent(self.base, event.time, sent.at);
        let _ = self.host.take();
        None
    }
}
