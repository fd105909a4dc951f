//! Commands that are served while workers run, on random schedules. The output is compared with that of serving
//! without threads, and at the end the report of the history with the one that a book makes of it.
mod compare;
mod delays;
mod inputs;
mod random;

use self::compare::is_served;
use self::delays::Delays;
pub use self::delays::SlowReader;
use self::inputs::RandomInput;
use self::random::Random;
use crate::callers::{close, open};
use crate::during_pool::{DuringPool, run_during_pool};
use crate::reference::ReferenceBook;
use crate::serving::ServedOutput;
use crate::summary::Summary;
use pd_book::{Book, Report};
use pd_cli::render;
use pd_desk::Desk;
use pd_seat::Seat;
use std::alloc::{AllocError, Global};
use std::io;
use std::sync::{Mutex, Wait};
use std::thread::Threads;

/// The most workers, and how many inputs each number of them has.
const WORKERS: u8 = 8;

const ROUNDS: u64 = 30;

const COMMANDS: u64 = 24;

/// Serves each input with workers, and prints how many differ; whether none does.
pub fn run_schedules(rt: &(impl Print + AllocGlobal + Threads + Wait + Sync)) -> io::Result<bool> {
    let mut random = Random::new(20_261_123);
    let mut schedule_run = ScheduleRun::new(rt.alloc())?;
    for _round in 0..ROUNDS {
        for workers in 1..=WORKERS {
            schedule_run.summary.count_tried();
            schedule_run.run_input(rt, &mut random, workers);
        }
    }
    schedule_run.summary.print(rt, " schedules, ")
}

/// An input, what is served of it without threads and with workers, and what differs.
#[derive(Drop)]
struct ScheduleRun {
    alloc: Global,
    input: RandomInput,
    alone: ServedOutput,
    served: Mutex<ServedOutput>,
    summary: Summary,
}

impl ScheduleRun {
    fn new(alloc: Global) -> Result<ScheduleRun, AllocError> {
        Ok(ScheduleRun {
            alloc,
            input: RandomInput::new(alloc)?,
            alone: ServedOutput::new(alloc)?,
            served: Mutex::new(ServedOutput::new(alloc)?),
            summary: Summary::new(alloc)?,
        })
    }

    /// Serves random commands beside so many workers, and again at a seat of a desk, which is then closed.
    fn run_input<R: Threads + Wait + Sync>(&mut self, rt: &R, random: &mut Random, workers: u8) {
        let gate = Delays {
            seed: random.below(1_000_000),
        };
        self.input.generate(random, COMMANDS);
        let mut reader = SlowReader::new(self.input.settled.as_str(), 0);
        self.alone.serve_alone(self.alloc, &mut reader);
        let mut reader = SlowReader::new(self.input.written.as_str(), gate.seed);
        self.served
            .lock(rt)
            .serve_beside(rt, self.alloc, &mut reader, workers, &gate);
        self.compare(rt, "what is served");
        self.run_desk(rt, &gate, workers);
    }

    fn compare<R: Wait>(&mut self, rt: &R, what: &str) {
        let are_settled = self.input.are_settled.as_slice();
        let is_same = is_served(&self.served.lock(rt), &self.alone, are_settled);
        self.summary.report_unless(is_same, what);
    }

    /// Opens a desk for so many workers, serves the commands while they run, and closes it.
    fn run_desk<R: Threads + Wait + Sync>(&mut self, rt: &R, gate: &Delays, workers: u8) {
        let workers = usize::from(workers);
        match open(self.alloc, workers, workers.saturating_add(1)) {
            Some((desk, mut seats)) => {
                self.serve_seated(rt, &desk, gate, seats.as_mut_slice());
                self.close(rt, desk, seats);
            }
            None => self.summary.report_unless(false, "the opening"),
        }
    }

    /// Serves the commands at the last of these seats, while workers run at the others.
    fn serve_seated<R: Threads + Wait + Sync>(
        &mut self,
        rt: &R,
        desk: &Desk,
        gate: &Delays,
        seats: &mut [Seat],
    ) {
        let written = self.input.written.as_str();
        let during_pool = DuringPool::Serve(&self.served, written, gate.seed);
        let left = run_during_pool(rt, self.alloc, desk, gate, seats, during_pool);
        self.compare(rt, "what a seat is served");
        self.summary
            .report_unless(left == "ok", "how a worker left");
    }

    /// Closes a desk, and compares its book.
    fn close<R: Wait>(&mut self, rt: &R, desk: Desk, seats: Vec<Seat>) {
        match close(desk, seats) {
            Some(book) => self.compare_book(rt, &book),
            None => self.summary.report_unless(false, "the closing"),
        }
    }

    /// Compares a book's report and that of its history, made again, with the last that was written without threads.
    fn compare_book<R: Wait>(&mut self, rt: &R, book: &Book) {
        self.compare_last(report_of_book(book), "the closed book");
        let mut again = ReferenceBook::new(self.alloc);
        let are_made = again.are_made(book.history(), &mut self.served.lock(rt).out);
        self.summary.report_unless(are_made, "an act");
        self.compare_last(again.shown_report(), "the report of the history");
    }

    fn compare_last(&mut self, shown: Result<Report, &'static str>, what: &str) {
        let is_same = match shown {
            Ok(report) => is_last_written_report(self.alloc, &report, &self.alone),
            Err(_) => false,
        };
        self.summary.report_unless(is_same, what);
    }
}

fn report_of_book(book: &Book) -> Result<Report, &'static str> {
    book.show().or(Err("no memory"))
}

/// Whether a report is the last that was written.
fn is_last_written_report(alloc: Global, report: &Report, alone: &ServedOutput) -> bool {
    match render(alloc, report) {
        Ok(octets) => alone.out.as_str().as_bytes().ends_with(octets.as_slice()),
        Err(_) => false,
    }
}
