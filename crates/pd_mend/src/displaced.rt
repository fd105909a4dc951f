//! Packets that mends wrote where another one was awaited, or none; a later line that awaits one has its packet there.
use crate::differences::Differences;
use pd_script::Packet;
use pd_seg::Sent;
use std::alloc::{AllocError, Global};

/// The packets that mends have written where another one was awaited, or none. A line further down that awaits one of them has its
/// packet there.
#[derive(Drop)]
pub struct Displaced {
    packets: Vec<Sent>,
}

impl Displaced {
    /// Before the first mend.
    pub fn new(alloc: Global) -> Displaced {
        Displaced {
            packets: Vec::new(alloc),
        }
    }

    /// Adds a packet that a mend has written.
    ///
    /// # Errors
    /// `AllocError` where a growth is refused.
    pub fn add_packet_written_by_mend(&mut self, sent: Sent) -> Result<(), AllocError> {
        Ok(self.packets.push(sent)?)
    }

    /// When an awaited packet was sent that is one of them.
    ///
    /// # Errors
    /// `AllocError` where a growth is refused.
    pub fn sending_time_of(
        &self,
        alloc: Global,
        packet: &Packet,
    ) -> Result<Option<u64>, AllocError> {
        let Some(place) = self.find_index_of_matching_packet(alloc, packet)? else {
            return Ok(None);
        };
        match self.packets.get(place) {
            Some(sent) => Ok(Some(sent.at)),
            None => Ok(None),
        }
    }

    /// Takes an awaited packet away, if it is one of them.
    ///
    /// # Errors
    /// `AllocError` where a growth is refused.
    pub fn remove(&mut self, alloc: Global, packet: &Packet) -> Result<(), AllocError> {
        match self.find_index_of_matching_packet(alloc, packet)? {
            Some(place) if place < self.packets.len() => {
                self.packets.remove(place);
            }
            _ => {}
        }
        Ok(())
    }

    fn find_index_of_matching_packet(
        &self,
        alloc: Global,
        packet: &Packet,
    ) -> Result<Option<usize>, AllocError> {
        let mut place = 0usize;
        for sent in &self.packets {
            if Differences::between_expected_and_sent_except_time(alloc, packet, sent)?.count()
                == 0
            {
                return Ok(Some(place));
            }
            place = place.saturating_add(1);
        }
        Ok(None)
    }
}
