//! The sending that an acceptable ACK leads to.
ghost use Rattle.std.specs.Prelude.{◌≡◌, ◌<◌, ◌^◌};
ghost use Rattle.pd_host.specs.AckEffects.{filled, entry, after_ack_action};
ghost use Rattle.pd_host.specs.Steps.{FollowsQueued, GivesOn};

use crate::connection::Connection;
use crate::connection::ack_effects::WindowFill;
use crate::halts::HostEnd;
use crate::outbox::Outbox;
use crate::send::{push_data_segment_to_outbox, send_all_windows_and_nagle_permit};
use pd_recover::AckAction;
use pd_seg::SendRule;

/// Sends at a moment what an ACK led to.
///
/// # Errors
/// Of the first packet that fails: `Halted` by `Limit` where the outbox is full, else `OutOfMemory` where its growth is
/// refused or the scoreboard has found no memory before.
pub fn send_segments_by_ack_action(
    connection: &mut Connection,
    outbox: &mut Outbox,
    next: AckAction,
    now: u64,
) -> Result<(), HostEnd>
    requires early { now < 2 ^ 62 }
    requires queued { FollowsQueued next connection.old }
    ensures { GivesOn (λ s. after_ack_action now connection.old s next) connection.old outbox.old result connection.new outbox.new }
{
    match next {
        AckAction::Ordinary => send_all_windows_and_nagle_permit(connection, outbox, now),
        AckAction::StepC => send_nextseg_or_new_while_cwnd_exceeds_pipe(
            connection,
            outbox,
            WindowFill::NextSeg,
            now,
        ),
        AckAction::Entry => {
            retransmit_una_unless_sacked_and_set_high_rxt(connection, outbox, now)?;
            send_nextseg_or_new_while_cwnd_exceeds_pipe(
                connection,
                outbox,
                WindowFill::NextSeg,
                now,
            )
        }
        AckAction::LimitedTransmit => send_nextseg_or_new_while_cwnd_exceeds_pipe(
            connection,
            outbox,
            WindowFill::NewData,
            now,
        ),
        AckAction::NewSegment(segment) => {
            let rule = SendRule::LimitedTransmit;
            push_data_segment_to_outbox(connection, outbox, segment, now, rule)?;
            connection.note_segment_sent(segment, now)?;
            Ok(())
        }
        AckAction::FastRetransmit(segment) => {
            let rule = SendRule::FastRetransmit;
            push_data_segment_to_outbox(connection, outbox, segment, now, rule)?;
            connection.update_rtt_segment_timer_and_last_sent(segment, now);
            send_all_windows_and_nagle_permit(connection, outbox, now)
        }
        AckAction::Nothing => Ok(()),
    }
}

/// The segment at `una` is sent again, unless its first octet is SACKed.
fn retransmit_una_unless_sacked_and_set_high_rxt(
    connection: &mut Connection,
    outbox: &mut Outbox,
    now: u64,
) -> Result<(), HostEnd>
    requires early { now < 2 ^ 62 }
    ensures { GivesOn (entry now connection.old) connection.old outbox.old result connection.new outbox.new }
{
    let segment = connection.first_recovery_segment();
    if segment.start < segment.end {
        let rule = SendRule::SackFastRetransmit;
        push_data_segment_to_outbox(connection, outbox, segment, now, rule)?;
        connection.update_rtt_segment_timer_and_last_sent(segment, now);
    }
    connection.set_high_and_rescue_rxt_and_count_prr_out(segment);
    Ok(())
}

/// Segments are sent while the congestion window has room for them (RFC 6675, section 5).
fn send_nextseg_or_new_while_cwnd_exceeds_pipe(
    connection: &mut Connection,
    outbox: &mut Outbox,
    filling: WindowFill,
    now: u64,
) -> Result<(), HostEnd>
    requires early { now < 2 ^ 62 }
    ensures { GivesOn (filled now filling) connection.old outbox.old result connection.new outbox.new }
{
    let mut pipe = connection.pipe();
    while let Some(sent) = connection.find_nextseg_or_limited_transmit_segment(filling, pipe) {
        let segment = sent.segment();
        push_data_segment_to_outbox(connection, outbox, segment, now, filling.rule(&sent))?;
        connection.note_fill_sent_in_board_timer_and_congestion(filling, &sent, now)?;
        pipe += segment.end - segment.start;
    }
    Ok(())
}
