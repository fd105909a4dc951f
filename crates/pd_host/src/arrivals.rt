//! A segment that arrives.
ghost use Rattle.std.specs.Prelude.{◌≡◌, ◌≤◌, ◌<◌, ◌^◌, None};
ghost use Rattle.pd_host.specs.Arrivals.{finished_by, passed_on, arrived};
ghost use Rattle.pd_host.specs.Handshake.{is_syn_alone, is_supported_syn_while_listening, opened_by};
ghost use Rattle.pd_host.specs.Host.{with_packet};
ghost use Rattle.pd_host.specs.InputResults.{Gives};
ghost use Rattle.pd_host.specs.Packets.{ack_of, refusal_of};
ghost use Rattle.pd_host.specs.Steps.{GivesOn};
ghost use Rattle.pd_seg.specs.declared.send_rule.SendRule.TheVariants.{Ack, Rst};

use crate::ack_actions::send_segments_by_ack_action;
use crate::connection::segment_check::SegmentCheck;
use crate::connection::{Connection, rst_refusing_ack_number};
use crate::consulted_settings::{with_establishment_settings, with_syn_settings};
use crate::descriptors::ListenState;
use crate::endpoint::SenderState;
use crate::halts::{Halt, HostEnd};
use crate::outbox::Outbox;
use crate::syn_options::{SynOptions, is_peer_mss_supported};
use pd_seg::{Flags, Segment, SendRule};

/// The halt at a segment that isn't run.
const NOT_RUN: HostEnd = HostEnd::Halted(Halt::Unsupported);

impl SenderState {
    /// A segment arrives at a moment: the first one, or one on the connection that was begun.
    ///
    /// # Errors
    /// `Halted` by `Unsupported` where the segment isn't run; else `OutOfMemory` where memory is refused, or `Halted` by
    /// `Limit` where a packet finds the outbox full, whichever comes first.
    #[inline(always)]
    pub fn arrive(&mut self, segment: &Segment, now: u64) -> Result<(), HostEnd>
        requires early { now < 2 ^ 62 }
        ensures { Gives (arrived segment.now now self.old) result self.new }
    {
        let Some(connection) = &mut self.endpoint.connection else {
            return self.begin_connection_by_syn(segment, now);
        };
        let outbox = &mut self.endpoint.outbox;
        match connection.find_deciding_segment_check(segment) {
            Some(SegmentCheck::NotRun) => Err(NOT_RUN),
            Some(SegmentCheck::StrayRst | SegmentCheck::WithoutAck) => Ok(()),
            Some(
                SegmentCheck::OutsideWindow | SegmentCheck::ChallengedRst | SegmentCheck::EarlyAck,
            ) => { send_ack(connection, outbox, now) }
            Some(SegmentCheck::ExactRst) => {
                connection.mark_reset_and_stop_timer();
                Ok(())
            }
            Some(SegmentCheck::RefusedAck) => send_rst_refusing_ack_number(
                outbox,
                segment.ack,
                now,
            ),
            Some(SegmentCheck::OldAck) => take_and_ack_fin_if_present(
                connection, outbox, segment, now,
            ),
            Some(SegmentCheck::FirstAck) => {
                connection.establish(&self.settings, segment, now);
                self.consulted_settings = with_establishment_settings(self.consulted_settings);
                take_and_ack_fin_if_present(connection, outbox, segment, now)
            }
            None => take_ack_then_send_then_take_fin(connection, outbox, segment, now),
        }
    }

    /// The first segment begins the connection, or isn't run.
    fn begin_connection_by_syn(&mut self, segment: &Segment, now: u64) -> Result<(), HostEnd>
        requires early { now < 2 ^ 62 }
        ensures { Gives (opened_by now segment.now self.old) result self.new }
    {
        if !is_supported_syn_while_listening(self.endpoint.listener, segment) {
            return Err(NOT_RUN);
        }
        let alloc = self.endpoint.outbox.allocator();
        let connection = Connection::begin(alloc, &self.settings, segment, now);
        let syn_ack = connection.syn_ack(alloc)?;
        self.consulted_settings = with_syn_settings(self.consulted_settings);
        self.endpoint.connection = Some(connection);
        self.endpoint.outbox.push(syn_ack, now, SendRule::SynAck)
    }
}

/// A segment that passed all checks is taken at a moment, and then its FIN.
#[inline(always)]
fn take_ack_then_send_then_take_fin(
    connection: &mut Connection,
    outbox: &mut Outbox,
    segment: &Segment,
    now: u64,
) -> Result<(), HostEnd>
    requires early { now < 2 ^ 62 }
    requires known { connection.old.board.una ≤ segment.now.ack }
    requires sent { segment.now.ack ≤ connection.old.board.top }
    ensures { GivesOn (λ s. passed_on now segment.now connection.old s None) connection.old outbox.old result connection.new outbox.new }
{
    let then = connection.update_by_ack_and_choose_ack_action(segment, now)?;
    send_segments_by_ack_action(connection, outbox, then, now)?;
    take_and_ack_fin_if_present(connection, outbox, segment, now)
}

/// The peer's FIN, where the segment has one, is taken and answered by an ACK.
#[inline(always)]
fn take_and_ack_fin_if_present(
    connection: &mut Connection,
    outbox: &mut Outbox,
    segment: &Segment,
    now: u64,
) -> Result<(), HostEnd>
    ensures { GivesOn (finished_by now segment.now None) connection.old outbox.old result connection.new outbox.new }
{
    if !segment.flags.fin {
        return Ok(());
    }
    connection.take_peer_fin();
    send_ack(connection, outbox, now)
}

/// An ACK of what was received is put out at a moment.
fn send_ack(connection: &Connection, outbox: &mut Outbox, now: u64) -> Result<(), HostEnd>
    ensures { Gives (with_packet now Ack (ack_of connection.now) outbox.old) result outbox.new }
{
    let ack = connection.pure_ack_segment_at_top(outbox.allocator());
    outbox.push(ack, now, SendRule::Ack)
}

/// The RST that refuses an ACK is put out at a moment.
fn send_rst_refusing_ack_number(outbox: &mut Outbox, ack: u32, now: u64) -> Result<(), HostEnd>
    ensures { Gives (with_packet now Rst (refusal_of ack) outbox.old) result outbox.new }
{
    let rst = rst_refusing_ack_number(ack, outbox.allocator());
    outbox.push(rst, now, SendRule::Rst)
}

fn is_syn_alone(flags: Flags) -> bool
    ensures { result ≡ is_syn_alone flags }
{
    flags.syn && !flags.fin && !flags.rst && !flags.psh && !flags.ack
}

/// Whether a first segment begins the connection.
fn is_supported_syn_while_listening(listener: ListenState, segment: &Segment) -> bool
    ensures { result ≡ is_supported_syn_while_listening listener segment.now }
{
    listener.is_listening()
        && is_syn_alone(segment.flags)
        && segment.start == 0
        && segment.data_len() == 0
        && is_peer_mss_supported(SynOptions::of(segment.options.as_slice()).mss)
}
