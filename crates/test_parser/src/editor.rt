//! Edits of texts, drawn by dice.
use crate::octet_buffer::OctetBuffer;
use pd_text::Lines;

/// The pieces that are put into a text: openers and ends of what may go over lines, header items, events and parts of events.
const PIECES: &[&[u8]] = &[
    b"/*",
    b"*/",
    b"\"",
    b"`",
    b"%{",
    b"}%",
    b"//",
    b"--mss=1",
    b"--tolerance_usecs=7",
    b"`ls`",
    b"+0 close(4) = 0",
    b"0 %{ x }%",
    b"+0 write(4, ..., 1000)",
    b" = 1000",
    b"+",
    b"$",
];

/// A generator of numbers, the same at each run, and a text that is made by them.
#[derive(Drop)]
pub struct Editor {
    pub state: u64,
    pub text: OctetBuffer,
}

impl Editor {
    /// Makes a text out of this one: some lines are removed, and others put there, or a line is parted, or the end is cut.
    pub fn edit(&mut self, text: &Lines) {
        self.text.octets.clear();
        let before = self.index(text.len().saturating_add(1));
        self.add_lines(text, 1, before);
        let after = match self.index(6) {
            0 => text.len(),
            1 => {
                let (front, back) = self.parted_at_random(line(text, before.saturating_add(1)));
                self.add_line(front);
                self.add_line(back);
                before.saturating_add(1)
            }
            _ => {
                for _inserted in 0..self.index(4) {
                    self.add_drawn(text);
                }
                before.saturating_add(self.index(3))
            }
        };
        self.add_lines(text, after.saturating_add(1), text.len());
    }

    /// Adds a line of the text, a piece, or a line with a piece in it.
    fn add_drawn(&mut self, text: &Lines) {
        let number = self.index(text.len()).saturating_add(1);
        let line = line(text, number);
        match self.index(3) {
            0 => self.add_line(line),
            1 => {
                let piece = self.piece();
                self.add_line(piece);
            }
            _ => {
                let (front, back) = self.parted_at_random(line);
                self.add_line(front);
                let piece = self.piece();
                self.text.add(piece);
                self.text.add(back);
            }
        }
    }

    fn add_lines(&mut self, text: &Lines, first: usize, last: usize) {
        for number in first..=last {
            self.add_line(line(text, number));
        }
    }

    fn add_line(&mut self, line: &[u8]) {
        if !self.text.octets.is_empty() {
            self.text.add(b"\n");
        }
        self.text.add(line);
    }

    fn parted_at_random<'a>(&mut self, line: &'a [u8]) -> (&'a [u8], &'a [u8]) {
        let at = self.index(line.len()).min(line.len());
        line.split_at(at)
    }

    fn piece(&mut self) -> &'static [u8] {
        let pieces = PIECES;
        pieces.get(self.index(pieces.len())).copied().unwrap_or(b"")
    }

    /// A number below this one; 0 where there is none.
    pub fn index(&mut self, bound: usize) -> usize {
        self.state = self.state.wrapping_mul(6_364_136_223_846_793_005);
        self.state = self.state.wrapping_add(1_442_695_040_888_963_407);
        ((self.state >> 33) as usize)
            .checked_rem(bound)
            .unwrap_or(0)
    }
}

fn line(text: &Lines, number: usize) -> &[u8] {
    text.line(number).unwrap_or(&[])
}
