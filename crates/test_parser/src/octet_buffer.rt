//! Octets that are put together. That no memory was found for some is remembered, so what adds them has no error.
use std::alloc::Global;

#[derive(Drop)]
pub struct OctetBuffer {
    pub octets: Vec<u8>,
    /// Whether no memory was found for some of them.
    pub is_short: bool,
}

impl OctetBuffer {
    pub fn new(alloc: Global) -> OctetBuffer {
        OctetBuffer {
            octets: Vec::new(alloc),
            is_short: false,
        }
    }

    pub fn add(&mut self, octets: &[u8]) {
        if self.octets.extend_from_slice(octets).is_err() {
            self.is_short = true;
        }
    }

    /// Adds so many times the octets of a row, in which `|` stands for a newline.
    pub fn add_row_times(&mut self, times: usize, row: &[u8]) {
        for _time in 0..times {
            for octet in row {
                let octet = if *octet == b'|' { b'\n' } else { *octet };
                self.add(&[octet]);
            }
        }
    }

    /// Adds a text, a blank and a number.
    pub fn add_number(&mut self, words: &[u8], number: usize) {
        self.add(words);
        self.add(b" ");
        let mut scale = 10_000_000_000_000_000_000usize;
        for _digit in 0..20 {
            let digit = number.checked_div(scale).unwrap_or(0) % 10;
            if number >= scale || scale == 1 {
                self.add(&[b'0' + digit as u8]);
            }
            scale /= 10;
        }
    }
}

/// The octets before the first mark, and those after it.
pub fn split_at_mark(octets: &[u8], mark: u8) -> (&[u8], &[u8]) {
    for at in 0..octets.len() {
        if octets[at] == mark {
            return (&octets[..at], &octets[at + 1..]);
        }
    }
    (octets, &[])
}
