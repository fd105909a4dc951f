//! A desk and its seats, as a transcript opens it, makes calls there and closes it.
use crate::callers::CACHE;
use crate::streams::answer_streams_check;
use crate::transcripts::concurrent_calls::answer_beside;
use crate::transcripts::desk_fixture::DeskFixture;
use crate::transcripts::pools::{settle_beside, yes_if_pool_ends_with_first_fault};
use pd_desk::Desk;
use pd_seat::{CloseFault, Seat};
use pd_settings::Settings;
use std::alloc::Global;
use std::mem;
use std::sync::{Mutex, Wait};
use std::thread::Threads;
use test_support::{AnswerText, CallArguments, NO_SUCH_THING, OUT_OF_MEMORY, with, write_acts};

/// A desk, the seats that are here, and the other things that a transcript keeps.
#[derive(Drop)]
pub struct DeskTranscript {
    alloc: Global,
    desk: Option<Desk>,
    seats: Vec<Seat>,
    desk_fixture: Mutex<DeskFixture>,
}

impl DeskTranscript {
    pub fn new(alloc: Global) -> DeskTranscript {
        DeskTranscript {
            alloc,
            desk: None,
            seats: Vec::new(alloc),
            desk_fixture: Mutex::new(DeskFixture::new(alloc)),
        }
    }

    /// Makes a call, and says its answer.
    pub fn answer<R: Threads + Wait + Sync>(&mut self, rt: &R, call: &str, out: &mut AnswerText) {
        let mut arguments = CallArguments::new(call);
        match arguments.word() {
            "text" => self.desk_fixture.lock(rt).write(&mut arguments, out),
            "desk" => self.open(rt, &mut arguments, out),
            "close" => self.close(out),
            "streams" => answer_streams_check(self.alloc, &mut arguments, out),
            word => self.answer_at_open_desk(rt, word, &mut arguments, out),
        }
        if !arguments.are_right {
            out.push_str("(not a number)");
        }
    }

    /// Makes a call at the desk, and says its answer.
    fn answer_at_open_desk<R: Threads + Wait + Sync>(
        &mut self,
        rt: &R,
        word: &str,
        arguments: &mut CallArguments<'_>,
        out: &mut AnswerText,
    ) {
        let DeskTranscript {
            alloc,
            desk,
            seats,
            desk_fixture,
        } = self;
        match desk {
            Some(desk) => answer_at_seats_of_desk(
                rt,
                *alloc,
                desk,
                seats,
                desk_fixture,
                word,
                arguments,
                out,
            ),
            None => out.push_str(NO_SUCH_THING),
        }
    }

    /// Opens a desk for so many workers, with so many seats, and one setting that is none of the defaults if it is named.
    fn open<R: Wait>(&mut self, rt: &R, arguments: &mut CallArguments<'_>, out: &mut AnswerText) {
        let workers = arguments.number() as usize;
        let seats = arguments.number() as usize;
        let key = arguments.word().as_bytes();
        let settings = with(&Settings::new(), key, arguments.value()).unwrap_or(Settings::new());
        match Desk::open(self.alloc, CACHE, settings, workers, seats.max(1)) {
            Ok((desk, seats)) => {
                self.desk = Some(desk);
                self.seats = seats;
                self.desk_fixture.lock(rt).begin();
                out.push_str("ok");
            }
            Err(_) => out.push_str(OUT_OF_MEMORY),
        }
    }

    /// Closes the desk with the seats that are here, and writes the book's acts. Seats that come back are kept.
    fn close(&mut self, out: &mut AnswerText) {
        match self.desk.take() {
            Some(desk) => self.close_desk(desk, out),
            None => out.push_str(NO_SUCH_THING),
        }
    }

    fn close_desk(&mut self, desk: Desk, out: &mut AnswerText) {
        let seats = mem::replace(&mut self.seats, Vec::new(self.alloc));
        match desk.close(seats) {
            Ok(book) => write_acts(out, book.history(), false),
            Err(fault) => self.keep_what_failed_close_gave_back(fault, out),
        }
    }

    /// Keeps what a closing that failed gave back, and says its fault.
    fn keep_what_failed_close_gave_back(&mut self, fault: CloseFault<Desk>, out: &mut AnswerText) {
        out.push_str(fault.number_and_name());
        match fault {
            CloseFault::MissingSeat(desk, seats) => {
                self.desk = Some(desk);
                self.seats = seats;
            }
            CloseFault::Differs(_book) => {}
        }
    }
}

/// Makes a call at a desk with these seats, and says its answer.
fn answer_at_seats_of_desk<R: Threads + Wait + Sync>(
    rt: &R,
    alloc: Global,
    desk: &Desk,
    seats: &mut Vec<Seat>,
    desk_fixture: &Mutex<DeskFixture>,
    word: &str,
    arguments: &mut CallArguments<'_>,
    out: &mut AnswerText,
) {
    match word {
        "beside" => answer_beside(
            rt,
            alloc,
            desk,
            seats.as_mut_slice(),
            desk_fixture,
            arguments,
            out,
        ),
        "settle-beside" => settle_beside(rt, alloc, desk, seats.as_mut_slice(), out),
        "first-of-pool" => out.push_str(yes_if_pool_ends_with_first_fault(
            rt,
            alloc,
            desk,
            seats.as_mut_slice(),
        )),
        _ => desk_fixture
            .lock(rt)
            .answer(rt, desk, seats, word, arguments, out),
    }
}
