//! A book alone, as rows call it: also its report, how many verdicts are owed, and its acts. Its promises stay in here.
use crate::calls::Calls;
use crate::output::OUT_OF_MEMORY;
use crate::replies::{abandoned, changed, finished, started_job_or_reply};
use crate::started_jobs::StartedJob;
use pd_book::{Act, Book, Done, Report};
use pd_settings::{Settings, Value};
use pd_text::{LineEdit, Lines, Name};
use std::alloc::Global;

/// A book alone.
#[derive(Drop)]
pub struct BookCalls {
    book: Book,
}

impl BookCalls {
    /// A book that keeps so many tracks, within what a book may keep.
    pub fn new(alloc: Global, cache: usize) -> BookCalls {
        BookCalls {
            book: Book::new(alloc, cache.clamp(1, 1024), Settings::new()),
        }
    }
}

impl Calls for BookCalls {
    fn add(&mut self, name: Name, lines: Lines) -> &'static str {
        changed(self.book.add(name, lines))
    }

    fn edit(&mut self, name: &Name, edit: &LineEdit) -> &'static str {
        changed(self.book.edit(name, edit))
    }

    fn remove(&mut self, name: &Name) -> &'static str {
        changed(self.book.remove(name))
    }

    fn set(&mut self, key: &[u8], value: Value) -> &'static str {
        changed(self.book.set(key, value))
    }

    fn start(&mut self) -> Result<StartedJob, &'static str> {
        started_job_or_reply(self.book.start(), None)
    }

    fn finish(&mut self, done: &Done, _seat: Option<usize>) -> &'static str {
        finished(self.book.finish(done), true)
    }

    fn abandon(&mut self, number: u64, _seat: Option<usize>) -> &'static str {
        abandoned(self.book.abandon(number), true)
    }

    fn show(&mut self) -> Result<Report, &'static str> {
        match self.book.show() {
            Ok(report) => Ok(report),
            Err(_) => Err(OUT_OF_MEMORY),
        }
    }

    fn owed(&self) -> Option<usize> {
        Some(self.book.owed())
    }

    fn acts(&self) -> &[Act] {
        self.book.history()
    }
}
