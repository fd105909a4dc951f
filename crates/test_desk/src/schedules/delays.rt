//! A gate and a reader that delay.
use crate::schedules::random::Random;
use pd_cli::InputStream;
use pd_desk::Gate;
use std::io::Read;
use std::{io, thread};

/// Yields some times by a seed and a moment, mostly a few: on a busy machine each may take a slice of time.
fn delay(seed: u64, moment: u64) {
    let mut random = Random::new(seed.wrapping_add(moment));
    let most = if random.below(8) == 0 { 60 } else { 6 };
    for _turn in 0..random.below(most) {
        thread::yield_now();
    }
}

/// Delays each job before and after it is run.
#[derive(Drop)]
pub struct Delays {
    pub seed: u64,
}

impl Gate for Delays {
    fn before(&self, job: u64) {
        delay(self.seed, job.wrapping_mul(2));
    }

    fn after(&self, job: u64) {
        delay(self.seed, job.wrapping_mul(2).wrapping_add(1));
    }
}

/// Gives some of these octets a call, each after a delay.
#[derive(Drop)]
pub struct SlowReader<'a> {
    octets: &'a [u8],
    seed: u64,
    calls: u64,
}

/// How many octets a call gives at most.
const MOST: usize = 24;

impl<'a> SlowReader<'a> {
    pub fn new(written: &'a str, seed: u64) -> SlowReader<'a> {
        SlowReader {
            octets: written.as_bytes(),
            seed,
            calls: 0,
        }
    }
}

impl<'a> Read for SlowReader<'a> {
    fn read(&mut self, buf: &mut [u8]) -> io::Result<usize> {
        self.calls = self.calls.wrapping_add(1);
        delay(self.seed, self.calls);
        let count = MOST.min(buf.len()).min(self.octets.len());
        buf[..count].copy_from_slice(&self.octets[..count]);
        self.octets = &self.octets[count..];
        Ok(count)
    }
}

impl<'a> InputStream for SlowReader<'a> {
    ghost has_failed = { λ _. Unit {0} };

    fn read_block(&mut self, block: &mut [u8]) -> io::Result<usize> {
        self.read(block)
    }
}
