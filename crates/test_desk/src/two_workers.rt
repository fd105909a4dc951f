//! Two workers that overlap: one is held at job 1 until the other has begun job 2, and an edit comes once job 1 has begun.
use crate::progress::await_count;
use crate::serving::ServedOutput;
use pd_cli::InputStream;
use pd_desk::Gate;
use std::io;
use std::io::Read;
use std::sync::Wait;
use std::sync::atomic::{AtomicU64, Ordering};
use std::thread::Threads;

/// The commands before job 1 is begun.
const ADD: &[u8] = b"add a 9
0 socket(..., SOCK_STREAM, IPPROTO_TCP) = 3
+0 bind(3, ..., ...) = 0
+0 listen(3, 1) = 0
+0.1 < S 0:0(0) win 32792 <mss 1000,sackOK,nop,nop,nop,wscale 7>
+0 > S. 0:0(0) ack 1 <...>
+0.1 < . 1:1(0) ack 1 win 257
+0 accept(3, ..., ...) = 4
+0 write(4, ..., 1000) = 1000
+0 > P. 1:1001(1000) ack 1
";

/// The commands after it is begun.
const EDIT: &[u8] = b"edit a 9 1 1
+0 > P. 1:2001(2000) ack 1
settle
";

/// The output that is wanted.
const WANTED: &str = "a fail 9 seq
total 1 pass 0 fail 1 syntax 0 unsupported 0 limit 0 pending 0
a fail 9 seq
total 1 pass 0 fail 1 syntax 0 unsupported 0 limit 0 pending 0
";

/// The text that is printed where all is as wanted.
const OVERLAP: &str = "two workers overlap\n";

/// Serves beside two workers that overlap; prints and returns whether both began and the output is the wanted one.
pub fn run_two_workers(
    rt: &(impl Print + AllocGlobal + Threads + Wait + Sync),
) -> io::Result<bool> {
    let gate = HeldGate::new();
    let mut served = ServedOutput::new(rt.alloc())?;
    serve_held(rt, &gate, &mut served);
    let found = text_of_outcome(&gate, &served);
    rt.print(found)?;
    Ok(found == OVERLAP)
}

/// The text that is printed of it.
fn text_of_outcome(gate: &HeldGate, served: &ServedOutput) -> &'static str {
    if gate.late.load(Ordering::SeqCst) != 0 {
        "job 2 didn't begin while job 1 was held\n"
    } else if served.out.as_str() == WANTED && served.passes.is_some() {
        OVERLAP
    } else {
        "an edit under a job isn't served\n"
    }
}

fn serve_held(
    rt: &(impl AllocGlobal + Threads + Wait + Sync),
    gate: &HeldGate,
    served: &mut ServedOutput,
) {
    let mut reader = HeldReader {
        now: ADD,
        later: EDIT,
        gate,
    };
    served.serve_beside(rt, rt.alloc(), &mut reader, 2, gate);
}

/// Holds job 1 until job 2 has begun.
#[derive(Drop)]
struct HeldGate {
    /// How many jobs have begun: the first, and others.
    first: AtomicU64,
    others: AtomicU64,
    /// How many waits came to no end within the turns.
    late: AtomicU64,
}

impl HeldGate {
    fn new() -> HeldGate {
        HeldGate {
            first: AtomicU64::new(0),
            others: AtomicU64::new(0),
            late: AtomicU64::new(0),
        }
    }

    /// Waits until such a job has begun, and notes where none has within the turns.
    fn await_or_note(&self, begun: &AtomicU64) {
        if !await_count(begun, 1) {
            self.late.fetch_add(1, Ordering::SeqCst);
        }
    }
}

impl Gate for HeldGate {
    fn before(&self, job: u64) {
        if job == 1 {
            self.first.fetch_add(1, Ordering::SeqCst);
            self.await_or_note(&self.others);
        } else {
            self.others.fetch_add(1, Ordering::SeqCst);
        }
    }

    fn after(&self, _job: u64) {}
}

/// Gives some octets, and others once job 1 has begun.
#[derive(Drop)]
struct HeldReader<'a> {
    now: &'a [u8],
    later: &'a [u8],
    gate: &'a HeldGate,
}

impl<'a> Read for HeldReader<'a> {
    fn read(&mut self, buf: &mut [u8]) -> io::Result<usize> {
        if self.now.is_empty() {
            self.gate.await_or_note(&self.gate.first);
            self.now = self.later;
            self.later = b"";
        }
        let count = buf.len().min(self.now.len());
        buf[..count].copy_from_slice(&self.now[..count]);
        self.now = &self.now[count..];
        Ok(count)
    }
}

impl<'a> InputStream for HeldReader<'a> {
    ghost has_failed = { λ _. Unit {0} };

    fn read_block(&mut self, block: &mut [u8]) -> io::Result<usize> {
        self.read(block)
    }
}
