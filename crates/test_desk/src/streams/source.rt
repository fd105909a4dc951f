//! A reader over memory that gives so many octets a call, and fails at a call.
use pd_cli::InputStream;
use std::io;
use std::io::Read;

/// How the streams of a run give and take: at most so many octets a call, and at which call, from 1, they fail or end, if at
/// any.
#[derive(Clone, Copy)]
pub struct Pace {
    pub given: usize,
    pub read_fails: u64,
    pub read_ends: u64,
    /// Whether the reader gives its first octets again at each call, for ever.
    pub is_endless: bool,
    pub taken: usize,
    pub write_fails: u64,
    /// How many octets the error stream takes.
    pub error_limit: usize,
}

/// Streams that never fail.
pub const STEADY: Pace = Pace {
    given: 4096,
    read_fails: 0,
    read_ends: 0,
    is_endless: false,
    taken: 1_048_576,
    write_fails: 0,
    error_limit: 1_048_576,
};

/// A reader of these octets.
#[derive(Drop)]
pub struct Source<'a> {
    octets: &'a [u8],
    pace: Pace,
    pub calls: u64,
    /// The greatest number of octets that a call asked for.
    pub asked: usize,
}

impl<'a> Source<'a> {
    pub fn new(input: &'a str, pace: Pace) -> Source<'a> {
        Source {
            octets: input.as_bytes(),
            pace,
            calls: 0,
            asked: 0,
        }
    }
}

impl<'a> Read for Source<'a> {
    fn read(&mut self, buf: &mut [u8]) -> io::Result<usize> {
        self.calls = self.calls.saturating_add(1);
        self.asked = self.asked.max(buf.len());
        if self.pace.read_fails == self.calls {
            return Err(io::ErrorKind::Interrupted.into());
        }
        if self.pace.read_ends == self.calls {
            return Ok(0);
        }
        let count = self.pace.given.min(buf.len()).min(self.octets.len());
        buf[..count].copy_from_slice(&self.octets[..count]);
        if !self.pace.is_endless {
            self.octets = &self.octets[count..];
        }
        Ok(count)
    }
}

impl<'a> InputStream for Source<'a> {
    ghost has_failed = { λ _. Unit {0} };

    fn read_block(&mut self, block: &mut [u8]) -> io::Result<usize> {
        self.read(block)
    }
}
