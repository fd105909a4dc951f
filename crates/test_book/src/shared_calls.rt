//! A book that seats share, as rows call it by one of its seats, whose acts it gives. The promises of calls stay in here.
use pd_book::{Act, Done, Report};
use pd_seat::{Held, Seat};
use pd_settings::Value;
use pd_text::{LineEdit, Lines, Name};
use test_support::{Calls, StartedJob, abandoned, changed, finished, started_job_or_reply};

/// A book that seats share, and one of them.
#[derive(Drop)]
pub struct SharedCalls<'a> {
    pub held: &'a mut Held,
    pub seat: &'a mut Seat,
}

impl<'a> Calls for SharedCalls<'a> {
    fn add(&mut self, name: Name, lines: Lines) -> &'static str {
        changed(self.held.add(self.seat, name, lines))
    }

    fn edit(&mut self, name: &Name, edit: &LineEdit) -> &'static str {
        changed(self.held.edit(self.seat, name, edit))
    }

    fn remove(&mut self, name: &Name) -> &'static str {
        changed(self.held.remove(self.seat, name))
    }

    fn set(&mut self, key: &[u8], value: Value) -> &'static str {
        changed(self.held.set(self.seat, key, value))
    }

    fn start(&mut self) -> Result<StartedJob, &'static str> {
        let number = self.seat.number();
        started_job_or_reply(self.held.start(self.seat), Some(number))
    }

    fn finish(&mut self, done: &Done, seat: Option<usize>) -> &'static str {
        let is_own = seat == Some(self.seat.number());
        finished(self.held.finish(self.seat, done), is_own)
    }

    fn abandon(&mut self, number: u64, seat: Option<usize>) -> &'static str {
        let is_own = seat == Some(self.seat.number());
        abandoned(self.held.abandon(self.seat, number), is_own)
    }

    fn show(&mut self) -> Result<Report, &'static str> {
        match self.held.show(self.seat) {
            Ok(report) => Ok(report),
            Err(fault) => Err(fault.number_and_name()),
        }
    }

    fn owed(&self) -> Option<usize> {
        Some(self.held.owed())
    }

    fn acts(&self) -> &[Act] {
        self.seat.acts()
    }
}
