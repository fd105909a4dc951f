//! Serving: without threads, with workers, and at a seat of a desk that can be closed.
use crate::callers::CACHE;
use pd_cli::InputStream;
use pd_desk::{Desk, Gate};
use pd_seat::Seat;
use pd_settings::Settings;
use std::alloc::{AllocError, Global};
use std::io;
use std::io::Write;
use std::sync::Wait;
use std::thread::Threads;
use test_support::{AnswerForm, AnswerText};

/// The output, and whether the last report passes; `None` where serving stopped at a fault. At most so many octets are
/// taken a call, and the call of number `fails_at`, from 1, fails.
#[derive(Drop)]
pub struct ServedOutput {
    pub out: AnswerText,
    pub passes: Option<bool>,
    most: usize,
    fails_at: u64,
    pub calls: u64,
}

impl Write for ServedOutput {
    fn write(&mut self, buf: &[u8]) -> io::Result<usize> {
        self.calls = self.calls.saturating_add(1);
        if self.fails_at == self.calls {
            return Err(io::ErrorKind::BrokenPipe.into());
        }
        let count = self.most.min(buf.len());
        self.out.push_octets(&buf[..count]);
        Ok(count)
    }

    fn flush(&mut self) -> io::Result<()> {
        Ok(())
    }
}

impl ServedOutput {
    pub fn new(alloc: Global) -> Result<ServedOutput, AllocError> {
        Ok(ServedOutput {
            out: AnswerText::new(alloc, AnswerForm::Short)?,
            passes: None,
            most: usize::MAX,
            fails_at: 0,
            calls: 0,
        })
    }

    /// Begins anew, with so many octets a call and this call that fails.
    pub fn begin_with_write_limits(&mut self, most: usize, fails_at: u64) {
        self.out.clear();
        self.most = most;
        self.fails_at = fails_at;
        self.calls = 0;
    }

    /// Serves what this reader gives, without threads.
    pub fn serve_alone(&mut self, alloc: Global, reader: &mut impl InputStream) {
        self.out.clear();
        let ended = pd_cli::serve_alone(alloc, Settings::new(), CACHE, reader, self);
        self.passes = ended.ok();
    }

    /// Serves what this reader gives beside so many workers, at most 64.
    pub fn serve_beside<R: Threads + Wait + Sync>(
        &mut self,
        rt: &R,
        alloc: Global,
        reader: &mut impl InputStream,
        workers: u8,
        gate: &(impl Gate + Sync),
    ) {
        self.out.clear();
        let workers = usize::from(workers.min(64));
        let settings = Settings::new();
        let ended = pd_cli::serve(rt, alloc, settings, CACHE, workers, reader, self, gate);
        self.passes = ended.ok();
    }

    /// Serves what this reader gives, at a seat of a desk.
    pub fn serve_at_seat<R: Wait>(
        &mut self,
        rt: &R,
        alloc: Global,
        desk: &Desk,
        seat: &mut Seat,
        reader: &mut impl InputStream,
    ) {
        self.out.clear();
        let ended = pd_cli::serve_seat(rt, alloc, desk, seat, Settings::new(), reader, self);
        self.passes = ended.ok();
    }
}
