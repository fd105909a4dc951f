//! The effects of earlier mends, and whether packets that don't come are taken away.
use crate::displaced::Displaced;
use crate::event_text::EventText;
use crate::failure_site::FailureSite;
use crate::line_mends::Removal;
use crate::mend::{Mend, MendEffect, Target};
use crate::moved_lines::{Departure, MoveLog, MovedLines};
use pd_script::{Action, Packet};
use pd_seg::Sent;
use std::alloc::{AllocError, Global};

/// The effects of earlier mends, and whether packets that don't come are taken away.
#[derive(Drop)]
pub struct MendState {
    /// Whether a packet that doesn't come is taken away.
    pub drop: bool,
    /// The packets that were sent in the places of others.
    displaced: Displaced,
    /// The lines that are known to move.
    pub moved_lines: MovedLines,
    /// The lines that were taken out and written so far.
    move_log: MoveLog,
    /// Whether the event after the one that stops the run was moved, so that this one can be taken out.
    pub is_shifted: bool,
    /// The line that was written where its packet leaves, and is to be taken out here.
    doubled: Option<usize>,
}

impl MendState {
    /// Before the first mend, where these lines are known to move.
    pub fn new(alloc: Global, drop: bool, moved_lines: MovedLines) -> MendState {
        MendState {
            drop,
            displaced: Displaced::new(alloc),
            moved_lines,
            move_log: MoveLog::new(alloc),
            is_shifted: false,
            doubled: None,
        }
    }

    /// The lines that turned out to move.
    ///
    /// # Errors
    /// `AllocError` where a growth is refused.
    pub fn into_lines_found_to_move(self, alloc: Global) -> Result<MovedLines, AllocError> {
        let MendState { move_log, .. } = self;
        move_log.pair_removed_lines_with_written_packets(alloc)
    }

    /// Whether the event's line was written where its packet leaves.
    pub fn was_line_just_copied_elsewhere(&self, site: &FailureSite<'_>) -> bool {
        self.doubled == Some(site.line)
    }

    /// Whether the awaited packet was sent in the place of another one.
    ///
    /// # Errors
    /// `AllocError` where a growth is refused.
    pub fn was_sent_for_another(&self, site: &FailureSite<'_>) -> Result<bool, AllocError> {
        match find_packet_awaited_by_failed_event(site) {
            Some(packet) => Ok(
                self.displaced
                    .sending_time_of(site.alloc, packet)?
                    .is_some(),
            ),
            None => Ok(false),
        }
    }

    /// How much is left of the event's line where it is taken out.
    ///
    /// # Errors
    /// `AllocError` where a growth is refused.
    pub fn choose_gone_or_comment_for_removed_event(
        &self,
        site: &FailureSite<'_>,
    ) -> Result<Removal, AllocError> {
        if self.drop || self.was_line_just_copied_elsewhere(site) {
            return Ok(Removal::Gone);
        }
        Ok(match self.find_known_departure_of_awaited_packet(site)? {
            Some(departure) if departure.has_own_line || site.own.is_last_on_line() =>
                Removal::Gone,
            Some(departure) => Removal::LeftAt(departure.at),
            None => Removal::NotSent,
        })
    }

    /// Where the awaited packet leaves, as far as that is known.
    fn find_known_departure_of_awaited_packet(
        &self,
        site: &FailureSite<'_>,
    ) -> Result<Option<Departure>, AllocError> {
        let Some(packet) = find_packet_awaited_by_failed_event(site) else {
            return Ok(None);
        };
        if let Some(departure) = self
            .moved_lines
            .find_departure_of_line_to_remove(site.alloc, packet)?
        {
            return Ok(Some(departure));
        }
        match self.displaced.sending_time_of(site.alloc, packet)? {
            Some(at) => Ok(Some(Departure {
                at,
                has_own_line: false,
            })),
            None => Ok(None),
        }
    }

    /// Notes what counts for later mends.
    ///
    /// # Errors
    /// `AllocError` where a growth is refused.
    pub fn note_mend(&mut self, site: &FailureSite<'_>, mend: &Mend) -> Result<(), AllocError> {
        let was_doubled = self.was_line_just_copied_elsewhere(site);
        self.is_shifted = matches!(mend.target, Target::Follower);
        if !self.is_shifted {
            self.doubled = None;
        }
        match &mend.effect {
            MendEffect::Kept => Ok(()),
            MendEffect::Moved => {
                self.doubled = Some(site.line.saturating_add(mend.added_line_count()));
                Ok(())
            }
            MendEffect::Written(sent) => self.note_written_packet_in_displaced_and_moves(
                sent, false,
            ),
            MendEffect::Inserted(sent) => self.note_written_packet_in_displaced_and_moves(
                sent, true,
            ),
            MendEffect::Removed if was_doubled => Ok(()),
            MendEffect::Removed => self.drop_displaced_and_log_removed_line(site),
        }
    }

    fn note_written_packet_in_displaced_and_moves(
        &mut self,
        sent: &Sent,
        has_own_line: bool,
    ) -> Result<(), AllocError> {
        self.displaced.add_packet_written_by_mend(sent.copy()?)?;
        if has_own_line {
            self.moved_lines.mark_line_for_sent_as_written(sent);
        }
        self.move_log
            .note_written_packet(sent.copy()?, has_own_line)
    }

    /// The awaited packet has no line any more.
    fn drop_displaced_and_log_removed_line(
        &mut self,
        site: &FailureSite<'_>,
    ) -> Result<(), AllocError> {
        let Some(packet) = find_packet_awaited_by_failed_event(site) else {
            return Ok(());
        };
        self.displaced.remove(site.alloc, packet)?;
        self.moved_lines
            .mark_line_of_packet_as_removed(site.alloc, packet)?;
        self.move_log.note_removed_line(EventText::from_event_line_and_its_packet(
            &site.own, packet,
        )?)
    }
}

/// The packet that the event awaits.
fn find_packet_awaited_by_failed_event<'a>(site: &FailureSite<'a>) -> Option<&'a Packet> {
    match &site.own.event.action {
        Action::Outbound(packet) => Some(packet),
        _ => None,
    }
}
