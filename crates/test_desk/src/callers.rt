//! Opens and closes desks, runs pools there, and makes rows' calls at a seat; a settling waits, then gives the report.
use crate::tracing_worker::{JobTrace, ShutsDesk, TracingStepper, WorkerMode};
use pd_book::{Act, Book, Done, Report};
use pd_desk::{Desk, Gate};
use pd_seat::Seat;
use pd_settings::{Settings, Value};
use pd_text::{LineEdit, Lines, Name};
use std::alloc::{AllocError, Global};
use std::sync::{Mutex, Wait};
use std::thread::Threads;
use test_support::{
    AnswerForm, AnswerText, CallArguments, Calls, StartedJob, Texts, abandoned, call, changed,
    finished, started_job_or_reply, write_report,
};

/// The size of a book's cache.
pub const CACHE: usize = 64;

/// A seat at a desk, as rows call it. The promises of a desk's calls stay in here.
#[derive(Drop)]
pub struct DeskCaller<'a, 'b, R> {
    pub rt: &'a R,
    pub desk: &'a Desk,
    pub seat: &'b mut Seat,
}

impl<'a, 'b, R: Wait> Calls for DeskCaller<'a, 'b, R> {
    fn add(&mut self, name: Name, lines: Lines) -> &'static str {
        changed(self.desk.add(self.rt, self.seat, name, lines))
    }

    fn edit(&mut self, name: &Name, edit: &LineEdit) -> &'static str {
        changed(self.desk.edit(self.rt, self.seat, name, edit))
    }

    fn remove(&mut self, name: &Name) -> &'static str {
        changed(self.desk.remove(self.rt, self.seat, name))
    }

    fn set(&mut self, key: &[u8], value: Value) -> &'static str {
        changed(self.desk.set(self.rt, self.seat, key, value))
    }

    fn start(&mut self) -> Result<StartedJob, &'static str> {
        let number = self.seat.number();
        started_job_or_reply(self.desk.start(self.rt, self.seat), Some(number))
    }

    fn finish(&mut self, done: &Done, seat: Option<usize>) -> &'static str {
        let is_own = seat == Some(self.seat.number());
        finished(self.desk.finish(self.rt, self.seat, done), is_own)
    }

    fn abandon(&mut self, number: u64, seat: Option<usize>) -> &'static str {
        let is_own = seat == Some(self.seat.number());
        abandoned(self.desk.abandon(self.rt, self.seat, number), is_own)
    }

    fn show(&mut self) -> Result<Report, &'static str> {
        match self.desk.show(self.rt, self.seat) {
            Ok(report) => Ok(report),
            Err(fault) => Err(fault.number_and_name()),
        }
    }

    fn owed(&self) -> Option<usize> {
        None
    }

    fn acts(&self) -> &[Act] {
        self.seat.acts()
    }
}

/// Other calls at a seat of a desk.
pub trait DeskCalls: Calls {
    fn number(&self) -> usize;
    /// The report that a settling shows, or why there is none.
    fn settle(&mut self) -> Result<Report, &'static str>;
    /// Works until the desk is shut: `left`, or the fault.
    fn work(&mut self, alloc: Global, mode: WorkerMode<'_>) -> &'static str;
    /// Shuts the desk.
    fn shut(&self);
}

impl<'a, 'b, R: Wait> DeskCalls for DeskCaller<'a, 'b, R> {
    fn number(&self) -> usize {
        self.seat.number()
    }

    fn settle(&mut self) -> Result<Report, &'static str> {
        match self.desk.settle(self.rt, self.seat) {
            Ok(report) => Ok(report),
            Err(fault) => Err(fault.number_and_name()),
        }
    }

    fn work(&mut self, alloc: Global, mode: WorkerMode<'_>) -> &'static str {
        let shutter = DeskShutter {
            rt: self.rt,
            desk: self.desk,
        };
        let job_trace = JobTrace::new(self.rt, &shutter, mode);
        let mut stepper = TracingStepper::new(&job_trace);
        match self
            .desk
            .work(self.rt, alloc, self.seat, &mut stepper, &job_trace)
        {
            Ok(()) => "left",
            Err(fault) => fault.number_and_name(),
        }
    }

    fn shut(&self) {
        self.desk.shut(self.rt);
    }
}

/// By what the desk is shut while a worker sits at a seat of it.
#[derive(Drop)]
struct DeskShutter<'a, R> {
    rt: &'a R,
    desk: &'a Desk,
}

impl<'a, R: Wait> ShutsDesk for DeskShutter<'a, R> {
    fn shut(&self) {
        self.desk.shut(self.rt);
    }
}

/// Makes a call that is written, and says its answer.
pub fn call_at(
    desk_caller: &mut impl DeskCalls,
    started_jobs: &mut Vec<StartedJob>,
    texts: &Texts,
    word: &str,
    arguments: &mut CallArguments<'_>,
    out: &mut AnswerText,
) {
    if word == "settle" {
        write_shown(out, desk_caller.settle());
    } else if !call(desk_caller, started_jobs, texts, word, arguments, out) {
        out.push_str("(no such call)");
    }
}

/// Takes out the scripts a and b and makes an act, which wakes whoever waits for a verdict or for the desk to be shut.
pub fn remove_scripts_to_wake_waiters(desk_caller: &mut impl Calls, alloc: Global) {
    let texts = Texts::new(alloc);
    for letter in b"ab" {
        if let Ok(name) = texts.name(&[*letter]) {
            desk_caller.remove(&name);
        }
    }
    desk_caller.set(b"nagle", Value::Boolean(true));
}

/// Says the rows of a report, or why there is none.
pub fn write_shown(out: &mut AnswerText, shown: Result<Report, &'static str>) {
    match shown {
        Ok(report) => {
            write_report(out, &report, false);
            out.push_str("end");
        }
        Err(word) => out.push_str(word),
    }
}

/// A desk for so many workers, and so many seats; none where there was no memory.
pub fn open(alloc: Global, workers: usize, seats: usize) -> Option<(Desk, Vec<Seat>)> {
    Desk::open(alloc, CACHE, Settings::new(), workers, seats.max(1)).ok()
}

/// The book of a desk that is closed; none where it can't be.
pub fn close(desk: Desk, seats: Vec<Seat>) -> Option<Book> {
    desk.close(seats).ok()
}

/// Runs a worker at each of these seats until all have left: `ok`, or the fault that is answered.
pub fn pool<R: Threads + Wait + Sync>(
    rt: &R,
    alloc: Global,
    desk: &Desk,
    gate: &(impl Gate + Sync),
    seats: &mut [Seat],
) -> &'static str {
    match desk.pool(rt, alloc, seats, gate) {
        Ok(()) => "ok",
        Err(fault) => fault.number_and_name(),
    }
}

/// Where so many threads answer, each by itself.
pub fn new_answers_for_threads(
    alloc: Global,
    count: usize,
) -> Result<Vec<Mutex<AnswerText>>, AllocError> {
    let mut answers = Vec::new(alloc);
    for _thread in 0..count {
        answers
            .push(Mutex::new(AnswerText::new(alloc, AnswerForm::Short)?))
            .or(Err(AllocError))?;
    }
    Ok(answers)
}
