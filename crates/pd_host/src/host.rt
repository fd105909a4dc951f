//! A host: the sender behind one interface. Packets are taken one by one. Its end stops inputs; it stays readable.
ghost use Rattle.std.specs.Prelude.{◌≡◌, ◌<◌, ◌^◌, true, Some, IfOk, IsErr, option_map, slice_get};
ghost use Rattle.pd_host.specs.Arrivals.{arrived, failed_check_in};
ghost use Rattle.pd_host.specs.Calls.{called};
ghost use Rattle.pd_host.specs.ConnStates.{conn_state};
ghost use Rattle.pd_host.specs.InputResults.{Goes, Answers};
ghost use Rattle.pd_host.specs.LossEvidence.{dup_ack_status_in, measured_in, AreSacked};
ghost use Rattle.pd_host.specs.Expiries.{advanced, deadline_of};
ghost use Rattle.pd_host.specs.ConnectionSnapshot.{connection_snapshot_in, wanted_in};
ghost use Rattle.pd_host.specs.Growth.{asked_by, HasRoomFor};
ghost use Rattle.pd_host.specs.SendBlockers.{blocker_in};
ghost use Rattle.pd_host.specs.InputLaws.{host_with_settings};
ghost use Rattle.pd_host.specs.Syscalls.{syscall_of};
ghost use Rattle.pd_host.specs.Host.{fresh_host, without_oldest, ended_out_of_memory, end_of};
ghost use Rattle.pd_host.specs.declared.halts.HostEnd.TheVariants.{OutOfMemory};

use crate::connection::introspection::SendBlocker;
use crate::connection::loss_evidence::DupAckEffect;
use crate::connection::segment_check::SegmentCheck;
use crate::connection::states::ConnState;
use crate::connection_snapshot::ConnectionSnapshot;
use crate::endpoint::{ClonedParts, Endpoint, SenderState};
use crate::halts::{Halt, HostEnd};
use crate::outbox::Outbox;
use crate::syscall::Syscall;
use pd_script::Call;
use pd_seg::{Answer, Segment, Sent, Span};
use pd_settings::{SettingSet, Settings};
use pd_timer::Timeout;
use std::alloc::{AllocError, Global};
use std::marker::Model;

/// A TCP sender in virtual time. Moments are microseconds since the start of the run, below 2^62.
///
/// A host that has halted, or found no memory, answers that to each later input.
#[derive(Drop)]
pub struct Host {
    /// The state that the rules work on.
    state: SenderState,
    /// Why the host has ended, if it has.
    end_reason: Option<HostEnd>,
}

impl Model for Host {
    ghost use Rattle.pd_host.specs.Host.{HostView};

    ghost Value = { HostView };

    ghost view = { λ h. record { state = h.state; end_reason = h.end_reason } };
}

impl Host {
    /// A host that nothing has happened to.
    pub fn new(alloc: Global, settings: &Settings) -> Host
        ensures { result ≡ fresh_host settings.now }
    {
        Host {
            state: SenderState {
                settings: *settings,
                consulted_settings: SettingSet::new(),
                endpoint: Endpoint::new(alloc),
            },
            end_reason: None,
        }
    }

    /// A system call at a moment.
    ///
    /// # Errors
    /// The earlier end of the host; else `Halted` for a call that isn't run, and where more than 1,024 packets would stand
    /// unmatched, and `OutOfMemory`.
    #[inline(always)]
    pub fn call(&mut self, call: &Call, now: u64) -> Result<Answer, HostEnd>
        requires early { now < 2 ^ 62 }
        requires room { HasRoomFor (asked_by self.old.state.settings.sndbuf (syscall_of call.now)) self.old.state }
        ensures { Answers self.old (called call.now now) result self.new }
    {
        if let Some(ending) = self.end_reason {
            return Err(ending);
        }
        let Some(syscall) = Syscall::parse_call_if_supported(call) else {
            return Err(self.set_and_return_end_reason(HostEnd::Halted(Halt::Unsupported)));
        };
        match self.state.call(syscall, now) {
            Ok(answer) => Ok(answer),
            Err(ending) => Err(self.set_and_return_end_reason(ending)),
        }
    }

    /// A segment arrives at a moment.
    ///
    /// # Errors
    /// The earlier end of the host; else `Halted` for a segment that isn't run, and where more than 1,024 packets would stand
    /// unmatched, and `OutOfMemory`.
    #[inline(always)]
    pub fn arrive(&mut self, segment: &Segment, now: u64) -> Result<(), HostEnd>
        requires early { now < 2 ^ 62 }
        ensures { Goes self.old (arrived segment.now now) result self.new }
    {
        if let Some(ending) = self.end_reason {
            return Err(ending);
        }
        match self.state.arrive(segment, now) {
            Ok(()) => Ok(()),
            Err(ending) => Err(self.set_and_return_end_reason(ending)),
        }
    }

    /// The check that a segment doesn't pass which arrives on the connection; nothing where it passes all, or no connection was
    /// begun.
    pub fn find_deciding_segment_check(&self, segment: &Segment) -> Option<SegmentCheck>
        ensures { result ≡ failed_check_in segment.now self.now.state }
    {
        match &self.state.endpoint.connection {
            None => None,
            Some(connection) => connection.find_deciding_segment_check(segment),
        }
    }

    /// Performs all expiries up to a moment, in order.
    ///
    /// # Errors
    /// The earlier end of the host; else `Halted` where more than 1,024 packets would be unmatched, and `OutOfMemory`.
    #[inline(always)]
    pub fn advance(&mut self, until: u64) -> Result<(), HostEnd>
        requires early { until < 2 ^ 62 }
        ensures { Goes self.old (advanced until) result self.new }
    {
        match self.end_reason {
            Some(ending) => Err(ending),
            None => match self.state.advance(until) {
                Ok(()) => Ok(()),
                Err(halted) => Err(self.set_and_return_end_reason(halted)),
            },
        }
    }

    /// The moment of the next expiry, if the timer runs.
    pub fn deadline(&self) -> Option<u64>
        ensures { result ≡ deadline_of self.now.state }
    {
        self.state.deadline()
    }

    /// The state of the connection, or of the listener where none was begun.
    pub fn state(&self) -> ConnState
        ensures { result ≡ conn_state self.now.state }
    {
        self.state.conn_state()
    }

    /// The numbers of the connection, once a SYN has begun it.
    pub fn connection_snapshot(&self) -> Option<ConnectionSnapshot>
        ensures { result ≡ connection_snapshot_in self.now.state }
    {
        match &self.state.endpoint.connection {
            None => None,
            Some(connection) => Some(connection.connection_snapshot()),
        }
    }

    /// Why the sender sends nothing by itself at present.
    ///
    /// # Errors
    /// `AllocError` where a growth is refused, or the host has found no memory before.
    pub fn send_blocker(&self) -> Result<SendBlocker, AllocError>
        ensures { IfOk result (λ send_blocker. send_blocker ≡ blocker_in self.now.state) }
    {
        match &self.state.endpoint.connection {
            None => Ok(SendBlocker::NotEstablished),
            Some(connection) => connection.send_blocker(),
        }
    }

    /// The octet that has to lie within the windows for the next segment to leave, once a SYN has begun the connection: of
    /// octets that were sent before the last one of the segment, else the next.
    ///
    /// # Errors
    /// `AllocError` where a growth is refused, or the host has found no memory before.
    pub fn octet_needed_in_windows(&self) -> Result<Option<u32>, AllocError>
        ensures { IfOk result (λ octet. octet ≡ wanted_in self.now.state) }
    {
        match &self.state.endpoint.connection {
            None => Ok(None),
            Some(connection) => Ok(Some(connection.octet_needed_in_windows()?)),
        }
    }

    /// The effect of a duplicate; nothing where no octet is outstanding, loss recovery goes on, or no connection is established.
    pub fn loss_evidence_or_barring_recovery_point(&self) -> Option<DupAckEffect>
        ensures { result ≡ dup_ack_status_in self.now.state }
    {
        match &self.state.endpoint.connection {
            None => None,
            Some(connection) => connection.loss_evidence_or_barring_recovery_point(),
        }
    }

    /// How the timeout comes from what was measured of round trips; nothing before any measurement.
    pub fn measured_rto_derivation_before_backoff(&self) -> Option<Timeout>
        ensures { result ≡ measured_in self.now.state }
    {
        match &self.state.endpoint.connection {
            None => None,
            Some(connection) => connection.measured_rto_derivation_before_backoff(),
        }
    }

    /// The maximal runs of octets that SACK blocks reported, in ascending order; none before a SYN has begun a connection.
    pub fn sacked_runs(&self) -> &[Span]
        ensures { AreSacked self.now.state result.now }
    {
        match &self.state.endpoint.connection {
            None => &[],
            Some(connection) => connection.sacked_runs(),
        }
    }

    /// The packets that were put out and not yet taken.
    pub fn outbox(&self) -> &Outbox
        ensures { result.now ≡ self.now.state.endpoint.outbox }
    {
        &self.state.endpoint.outbox
    }

    /// Takes the oldest packet out, if there is one.
    #[inline(always)]
    pub fn take(&mut self) -> Option<Sent>
        ensures oldest { result ≡ slice_get self.old.state.endpoint.outbox 0 }
        ensures rest { self.new ≡ without_oldest self.old }
    {
        self.state.endpoint.outbox.take()
    }

    /// The settings that it is under.
    pub fn settings(&self) -> &Settings
        ensures { result.now ≡ self.now.state.settings }
    {
        &self.state.settings
    }

    /// Which of them were consulted so far.
    pub fn consulted_settings(&self) -> SettingSet
        ensures { result ≡ self.now.state.consulted_settings }
    {
        self.state.consulted_settings
    }

    /// Puts the host under other settings. Where they agree with the former on all that was consulted, it is what it would
    /// be had it been under them from the beginning.
    ///
    /// Takes no memory.
    pub fn set_settings(&mut self, settings: &Settings)
        ensures { self.new ≡ host_with_settings settings.now self.old }
    {
        self.state.settings = *settings;
    }

    /// Why the host has ended, if it has.
    pub fn end_reason(&self) -> Option<HostEnd>
        ensures { result ≡ self.now.end_reason }
    {
        self.end_reason
    }

    /// No memory was found for the next input: the host answers that from now on, unless it has ended already.
    /// The result is its answer.
    pub fn get_or_set_end_reason_to_out_of_memory(&mut self) -> HostEnd
        ensures ending { result ≡ end_of self.old }
        ensures end_reason { self.new ≡ ended_out_of_memory self.old }
    {
        let ending = self.end_reason.unwrap_or(HostEnd::OutOfMemory);
        self.set_and_return_end_reason(ending)
    }

    /// The same host once more.
    ///
    /// # Errors
    /// Out of memory, also where the host has ended by it.
    pub fn copy(&self) -> Result<Host, AllocError>
        ensures ok { IfOk result (λ copy. copy ≡ self.now) }
        ensures again { self.now.end_reason ≡ Some OutOfMemory → IsErr result }
    {
        let board_and_outbox_copies = self.board_and_outbox_copies()?;
        Ok(self.with_heap_parts(board_and_outbox_copies))
    }

    /// Copies of what of it takes memory.
    ///
    /// # Errors
    /// Out of memory, also where the host has ended by it.
    #[inline(always)]
    pub fn board_and_outbox_copies(&self) -> Result<ClonedParts, AllocError>
        ensures board { IfOk result (λ board_and_outbox_copies. board_and_outbox_copies.board ≡ option_map (λ c. c.board) self.now.state.endpoint.connection) }
        ensures outbox { IfOk result (λ board_and_outbox_copies. board_and_outbox_copies.outbox ≡ self.now.state.endpoint.outbox) }
        ensures again { self.now.end_reason ≡ Some OutOfMemory → IsErr result }
    {
        if let Some(HostEnd::OutOfMemory) = self.end_reason {
            return Err(AllocError);
        }
        self.state.endpoint.board_and_outbox_copies()
    }

    /// The same host once more, with copies of what takes memory.
    #[inline(always)]
    pub fn with_heap_parts(&self, board_and_outbox_copies: ClonedParts) -> Host
        requires board { board_and_outbox_copies.board ≡ option_map (λ c. c.board) self.now.state.endpoint.connection }
        requires outbox { board_and_outbox_copies.outbox ≡ self.now.state.endpoint.outbox }
        ensures { result ≡ self.now }
    {
        let ClonedParts { board, outbox } = board_and_outbox_copies;
        let mut connection = None;
        if let (Some(begun), Some(board)) = (&self.state.endpoint.connection, board) {
            begun.store_copy_with_board(board, &mut connection);
        }
        Host {
            state: SenderState {
                endpoint: Endpoint {
                    listener: self.state.endpoint.listener,
                    connection,
                    outbox,
                },
                ..self.state
            },
            end_reason: self.end_reason,
        }
    }

    /// The host has ended by this.
    fn set_and_return_end_reason(&mut self, ending: HostEnd) -> HostEnd
        ensures ending { result ≡ ending }
        ensures end_reason { self.new ≡ record self.old { end_reason = Some ending } }
    {
        self.end_reason = Some(ending);
        ending
    }
}
