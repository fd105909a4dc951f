//! A book alone, at which one thread makes calls or the acts of a history, runs all jobs, and then says the report.
use crate::callers::{CACHE, write_shown};
use pd_book::{Act, Report, Ruling};
use pd_text::{LineEdit, LineList, Name, Text};
use std::alloc::Global;
use test_support::{AnswerText, BookCalls, CallArguments, Calls, StartedJob, Texts, call, finish};

/// A book, and the jobs that were started there.
#[derive(Drop)]
pub struct ReferenceBook {
    alloc: Global,
    book: BookCalls,
    started_jobs: Vec<StartedJob>,
    texts: Texts,
}

impl ReferenceBook {
    pub fn new(alloc: Global) -> ReferenceBook {
        ReferenceBook {
            alloc,
            book: BookCalls::new(alloc, CACHE),
            started_jobs: Vec::new(alloc),
            texts: Texts::new(alloc),
        }
    }

    /// Makes a call, and says its answer alone; a settling only shows.
    pub fn call(&mut self, written: &str, out: &mut AnswerText) {
        let mut arguments = CallArguments::new(written);
        let word = arguments.word();
        out.clear();
        if word == "settle" || word == "show" {
            return write_shown(out, self.book.show());
        }
        let ReferenceBook {
            book,
            started_jobs,
            texts,
            ..
        } = self;
        call(book, started_jobs, texts, word, &mut arguments, out);
    }

    pub fn shown_report(&mut self) -> Result<Report, &'static str> {
        self.book.show()
    }

    /// Starts the job that waits; whether there was one.
    pub fn start(&mut self, out: &mut AnswerText) -> bool {
        self.call("start", out);
        out.as_str() != "none"
    }

    /// Finishes a job, and gives the answer.
    pub fn finish(&mut self, job: u64) -> &'static str {
        let ReferenceBook {
            book,
            started_jobs,
            texts,
            ..
        } = self;
        finish(book, started_jobs, texts, job)
    }

    /// Makes these calls, runs what is owed then, and says the report.
    fn settle(&mut self, calls: &[&str], out: &mut AnswerText) {
        for call in calls {
            self.call(*call, out);
        }
        for job in 1..=calls.len() as u64 {
            if self.start(out) {
                self.finish(job);
            }
        }
        self.call("show", out);
    }

    /// Makes the acts of a history; whether each is accepted, with the same reply.
    pub fn are_made(&mut self, acts: &[Act], out: &mut AnswerText) -> bool {
        let mut are_made = true;
        for act in acts {
            are_made = self.is_made(act, out) && are_made;
        }
        are_made
    }

    fn is_made(&mut self, act: &Act, out: &mut AnswerText) -> bool {
        match act {
            Act::Add(name, text) => self.is_added(name, text),
            Act::Edit(name, edit) => self.book.edit(name, edit.edit()) == "ok",
            Act::Remove(name) => self.book.remove(name) == "ok",
            Act::Set(key, value) => self.book.set(key.name(), *value) == "ok",
            Act::Start(number, name) => self.is_started(*number, name, out),
            Act::Finish(number, Ruling::Taken) => self.finish(*number) == "Taken",
            Act::Finish(number, Ruling::Stale) => self.finish(*number) == "Stale",
            Act::Abandon(number) => self.book.abandon(*number, None) == "ok",
        }
    }

    fn is_added(&mut self, name: &Name, text: &Text) -> bool {
        let nothing = LineEdit {
            from: 1,
            remove: 0,
            insert: LineList::new(self.alloc),
        };
        match text.lines().apply(&nothing) {
            Ok(lines) => match name.share() {
                Ok(name) => self.book.add(name, lines) == "ok",
                Err(_) => false,
            },
            Err(_) => false,
        }
    }

    /// Starts the job that waits; whether it has this number and is one of this script.
    fn is_started(&mut self, number: u64, name: &Name, out: &mut AnswerText) -> bool {
        self.call("start", out);
        match self.started_jobs.last() {
            Some(task) => task.job.number() == number && task.job.name().is_same(name),
            None => false,
        }
    }
}

/// Makes the acts of a history in a book alone, and says its report; whether each is accepted, with the same reply.
pub fn replay_acts_and_write_report(alloc: Global, acts: &[Act], out: &mut AnswerText) -> bool {
    let mut again = ReferenceBook::new(alloc);
    let are_made = again.are_made(acts, out);
    again.call("show", out);
    are_made
}

/// Says the report from scratch of these calls.
pub fn write_report_from_scratch(alloc: Global, calls: &[&str], out: &mut AnswerText) {
    ReferenceBook::new(alloc).settle(calls, out);
}
