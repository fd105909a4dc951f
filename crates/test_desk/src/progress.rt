//! How far threads are, and waits for it that are bounded by turns.
use std::sync::atomic::{AtomicU64, Ordering};
use std::thread;

/// How often a thread looks for what it waits for, and yields: some seconds.
pub const TURNS: u64 = 10_000_000;

/// How many turns the others are given to fall asleep.
pub const SLEEP: u64 = 2_000;

/// Waits until so many are counted; whether they are within the turns.
pub fn await_count(counted: &AtomicU64, count: u64) -> bool {
    for _turn in 0..TURNS {
        if counted.load(Ordering::SeqCst) >= count {
            return true;
        }
        thread::yield_now();
    }
    false
}

/// Gives so many turns to others.
pub fn yield_turns(turns: u64) {
    for _turn in 0..turns {
        thread::yield_now();
    }
}

/// How many threads work until the desk is shut, and how many end by themselves. How far they are: how many have begun, ended,
/// or ended to work, how many make changes and how many changes they made, how many took a first step, and how many waits came
/// to no end within the turns.
#[derive(Drop)]
pub struct ThreadProgress {
    pub workers: u64,
    pub others: u64,
    begun: AtomicU64,
    pub ended: AtomicU64,
    pub left: AtomicU64,
    pub changing: AtomicU64,
    pub changes: AtomicU64,
    met: AtomicU64,
    pub late: AtomicU64,
}

impl ThreadProgress {
    /// That of threads of these letters, none of which has begun.
    pub fn of_thread_letters(letters: &str) -> ThreadProgress {
        let mut workers = 0u64;
        let mut changing = 0u64;
        for letter in letters.as_bytes() {
            match *letter {
                b'w' | b'm' => workers = workers.wrapping_add(1),
                b'c' | b'a' => changing = changing.wrapping_add(1),
                _ => {}
            }
        }
        ThreadProgress {
            workers,
            others: (letters.len() as u64).wrapping_sub(workers),
            begun: AtomicU64::new(0),
            ended: AtomicU64::new(0),
            left: AtomicU64::new(0),
            changing: AtomicU64::new(changing),
            changes: AtomicU64::new(0),
            met: AtomicU64::new(0),
            late: AtomicU64::new(0),
        }
    }

    /// Waits until so many have begun, gives them turns to fall asleep, and begins.
    pub fn await_begun_then_begin(&self, before: u64) {
        let _ = await_count(&self.begun, before);
        yield_turns(SLEEP);
        self.begun.fetch_add(1, Ordering::SeqCst);
    }

    /// Waits until so many are counted; whether they are within the turns since the last change.
    pub fn await_count_or_note_late(&self, counted: &AtomicU64, count: u64) -> bool {
        for _wait in 0..TURNS {
            let changes = self.changes.load(Ordering::SeqCst);
            if await_count(counted, count) {
                return true;
            }
            if self.changes.load(Ordering::SeqCst) == changes {
                break;
            }
        }
        self.late.fetch_add(1, Ordering::SeqCst);
        false
    }

    /// Waits until a worker has taken its first step.
    pub fn await_first_step(&self) {
        self.await_count_or_note_late(&self.met, 1);
    }

    /// Waits after a first step until another worker took its own.
    pub fn meet(&self) {
        self.met.fetch_add(1, Ordering::SeqCst);
        self.await_count_or_note_late(&self.met, 2);
    }

    /// Notes that the thread of a letter has ended.
    pub fn end(&self, letter: u8) {
        match letter {
            b'w' | b'm' => {
                self.left.fetch_add(1, Ordering::SeqCst);
            }
            b'c' | b'a' => {
                self.changing.fetch_sub(1, Ordering::SeqCst);
                self.ended.fetch_add(1, Ordering::SeqCst);
            }
            _ => {
                self.ended.fetch_add(1, Ordering::SeqCst);
            }
        }
    }
}
