//! Lines that move: taken out where their packets don't leave, and written where these do.
use crate::differences::Differences;
use crate::event_text::EventText;
use pd_script::Packet;
use pd_seg::Sent;
use std::alloc::{AllocError, Global};

/// A line that moves.
#[derive(Drop)]
struct MovedLine {
    /// The event on the line.
    text: EventText,
    /// The packet that it awaits.
    sent: Sent,
    /// Whether that packet gets a line of its own, and isn't written into one that awaited another packet.
    has_own_line: bool,
    /// Whether the line was taken out.
    is_removed: bool,
    /// Whether it was written elsewhere.
    is_written: bool,
}

/// Lines that are known to move.
#[derive(Drop)]
pub struct MovedLines {
    moved_lines: Vec<MovedLine>,
}

/// Where the packet of a line leaves that is taken out.
#[derive(Clone, Copy)]
pub struct Departure {
    /// When.
    pub at: u64,
    /// Whether it has a line of its own there.
    pub has_own_line: bool,
}

impl MovedLines {
    /// Of no line.
    pub fn new(alloc: Global) -> MovedLines {
        MovedLines {
            moved_lines: Vec::new(alloc),
        }
    }

    /// Whether no line is known to move.
    pub fn is_empty(&self) -> bool {
        self.moved_lines.is_empty()
    }

    /// Where the packet leaves of a line that is to be taken out; nothing where that line isn't known to move.
    ///
    /// # Errors
    /// `AllocError` where a growth is refused.
    pub fn find_departure_of_line_to_remove(
        &self,
        alloc: Global,
        packet: &Packet,
    ) -> Result<Option<Departure>, AllocError> {
        let Some(place) = self.index_of_unremoved_line_for_packet(alloc, packet)? else {
            return Ok(None);
        };
        match self.moved_lines.get(place) {
            Some(line) => Ok(Some(Departure {
                at: line.sent.at,
                has_own_line: line.has_own_line,
            })),
            None => Ok(None),
        }
    }

    /// The text of the line that moves to where this packet leaves.
    pub fn text_of_line_moving_to_sent(&self, sent: &Sent) -> Option<&EventText> {
        let place = self.index_of_unwritten_line_for_sent(sent)?;
        match self.moved_lines.get(place) {
            Some(line) => Some(&line.text),
            None => None,
        }
    }

    /// Notes that the line of an awaited packet was taken out.
    ///
    /// # Errors
    /// `AllocError` where a growth is refused.
    pub fn mark_line_of_packet_as_removed(
        &mut self,
        alloc: Global,
        packet: &Packet,
    ) -> Result<(), AllocError> {
        if let Some(place) = self.index_of_unremoved_line_for_packet(alloc, packet)? {
            if let Some(line) = self.moved_lines.get_mut(place) {
                line.is_removed = true;
            }
        }
        Ok(())
    }

    /// Notes that a packet got its line.
    pub fn mark_line_for_sent_as_written(&mut self, sent: &Sent) {
        if let Some(place) = self.index_of_unwritten_line_for_sent(sent) {
            if let Some(line) = self.moved_lines.get_mut(place) {
                line.is_written = true;
            }
        }
    }

    fn index_of_unremoved_line_for_packet(
        &self,
        alloc: Global,
        packet: &Packet,
    ) -> Result<Option<usize>, AllocError> {
        let mut place = 0usize;
        for line in &self.moved_lines {
            if !line.is_removed
                && Differences::between_expected_and_sent_except_time(
                    alloc, packet, &line.sent,
                )?.count()
                    == 0
            {
                return Ok(Some(place));
            }
            place = place.saturating_add(1);
        }
        Ok(None)
    }

    fn index_of_unwritten_line_for_sent(&self, sent: &Sent) -> Option<usize> {
        self.moved_lines.iter().position(|line| line.has_own_line
            && !line.is_written
            && line.sent.is_same(sent))
    }
}

/// A packet that a mend has written.
#[derive(Drop)]
struct WrittenPacket {
    sent: Sent,
    has_own_line: bool,
}

/// The lines that mends took out, and the packets that they wrote.
#[derive(Drop)]
pub struct MoveLog {
    removed: Vec<EventText>,
    written: Vec<WrittenPacket>,
}

impl MoveLog {
    /// Before the first mend.
    pub fn new(alloc: Global) -> MoveLog {
        MoveLog {
            removed: Vec::new(alloc),
            written: Vec::new(alloc),
        }
    }

    /// Notes a line that was taken out.
    ///
    /// # Errors
    /// `AllocError` where a growth is refused.
    pub fn note_removed_line(&mut self, text: EventText) -> Result<(), AllocError> {
        Ok(self.removed.push(text)?)
    }

    /// Notes a packet that was written, on a line of its own or in the place of another one.
    ///
    /// # Errors
    /// `AllocError` where a growth is refused.
    pub fn note_written_packet(
        &mut self,
        sent: Sent,
        has_own_line: bool,
    ) -> Result<(), AllocError> {
        Ok(self.written.push(WrittenPacket { sent, has_own_line })?)
    }

    /// The lines that move: of each that was taken out the packet that was written.
    ///
    /// # Errors
    /// `AllocError` where a growth is refused.
    pub fn pair_removed_lines_with_written_packets(
        self,
        alloc: Global,
    ) -> Result<MovedLines, AllocError> {
        let mut move_log = self;
        let mut found = MovedLines::new(alloc);
        for _ in 0..move_log.removed.len() {
            let Some(text) = move_log.removed.pop() else {
                break;
            };
            let Some(WrittenPacket { sent, has_own_line }) =
                move_log.remove_written_packet_matching_line(alloc, &text)?
            else {
                continue;
            };
            found.moved_lines.push(MovedLine {
                text,
                sent,
                has_own_line,
                is_removed: false,
                is_written: false,
            })?;
        }
        Ok(found)
    }

    /// The packet of a line, which is no other one's then.
    fn remove_written_packet_matching_line(
        &mut self,
        alloc: Global,
        text: &EventText,
    ) -> Result<Option<WrittenPacket>, AllocError> {
        let mut place = 0usize;
        for written in &self.written {
            if Differences::between_expected_and_sent_except_time(
                alloc,
                &text.packet,
                &written.sent,
            )?.count()
                == 0
            {
                break;
            }
            place = place.saturating_add(1);
        }
        if place < self.written.len() {
            Ok(Some(self.written.remove(place)))
        } else {
            Ok(None)
        }
    }
}
