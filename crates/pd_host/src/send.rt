//! Ordinary sending: cwnd restarts after an idle time, SACKed octets are skipped, and the windows and Nagle limit the rest.
ghost use Rattle.std.specs.Prelude.{◌≡◌, ◌<◌, ◌^◌};
ghost use Rattle.pd_host.specs.Host.{with_packet};
ghost use Rattle.pd_host.specs.InputResults.{Gives};
ghost use Rattle.pd_host.specs.Packets.{data_of};
ghost use Rattle.pd_host.specs.Sending.{ordinary};
ghost use Rattle.pd_host.specs.Steps.{GivesOn};

use crate::connection::Connection;
use crate::halts::HostEnd;
use crate::outbox::Outbox;
use pd_seg::{SendRule, Span};

/// Puts a segment of a connection out at a moment, by a rule.
pub fn push_data_segment_to_outbox(
    connection: &Connection,
    outbox: &mut Outbox,
    segment: Span,
    now: u64,
    rule: SendRule,
) -> Result<(), HostEnd>
    ensures { Gives (with_packet now rule (data_of connection.now segment) outbox.old) result outbox.new }
{
    let packet = connection.data_segment(segment, outbox.allocator());
    outbox.push(packet, now, rule)
}

/// Sends at a moment what the windows and Nagle's algorithm let leave: the congestion window restarts after an idle time,
/// and the sending place moves past SACKed octets.
///
/// # Errors
/// Of the first packet that fails: `Halted` by `Limit` where the outbox is full, else `OutOfMemory` where its growth is
/// refused or the scoreboard has found no memory before.
pub fn send_all_windows_and_nagle_permit(
    connection: &mut Connection,
    outbox: &mut Outbox,
    now: u64,
) -> Result<(), HostEnd>
    requires early { now < 2 ^ 62 }
    ensures { GivesOn (ordinary now) connection.old outbox.old result connection.new outbox.new }
{
    connection.restart_cwnd_if_idle_and_setting_on(now);
    connection.advance_next_past_sacked();
    while let Some(segment) = connection.next_segment() {
        let rule = connection.ordinary_rule();
        push_data_segment_to_outbox(connection, outbox, segment, now, rule)?;
        connection.note_segment_sent(segment, now)?;
        connection.advance_next_past_sacked();
    }
    Ok(())
}
