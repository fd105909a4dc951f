//! Books that seats share, as rows open and close them: their seats, those that left, and the jobs that were handed out.
ghost use Rattle.std.specs.Prelude.{◌<◌, vec_len, vec_capacity};

use crate::shared_calls::SharedCalls;
use pd_book::Book;
use pd_seat::{CloseFault, Held, Seat};
use pd_settings::Settings;
use std::alloc::Global;
use std::mem;
use test_support::{
    AnswerText, CallArguments, NO_SUCH_THING, OUT_OF_MEMORY, StartedJob, Texts, call,
    move_last_items, write_acts,
};

/// A book, and what there is of it.
#[derive(Drop)]
pub struct SharedFixture {
    held: Held,
    seats: Vec<Seat>,
    away: Vec<Seat>,
    started_jobs: Vec<StartedJob>,
}

/// Makes a call of a book that seats share, the last of these; whether there is such a call.
pub fn answer_if_shared_book_call(
    shared_fixtures: &mut Vec<SharedFixture>,
    texts: &Texts,
    word: &str,
    arguments: &mut CallArguments<'_>,
    output: &mut AnswerText,
) -> bool {
    match word {
        "seats" => open(shared_fixtures, texts.alloc, arguments, output),
        "close" => close(shared_fixtures, output),
        "trade" => trade_seats_of_two_books(shared_fixtures.as_mut_slice(), output),
        "other-bench" => {
            shared_fixtures.reverse();
            output.push_str("ok");
        }
        _ => return answer_if_call_with_seats(shared_fixtures, texts, word, arguments, output),
    }
    true
}

/// Opens a book with so many seats, once there is room to keep it.
fn open(
    shared_fixtures: &mut Vec<SharedFixture>,
    alloc: Global,
    arguments: &mut CallArguments<'_>,
    output: &mut AnswerText,
) {
    let count = arguments.number() as usize;
    if shared_fixtures.reserve(1).is_err() {
        return output.push_str(OUT_OF_MEMORY);
    }
    match Held::new(alloc, 64, Settings::new(), count.max(1)) {
        Ok((held, seats)) => {
            shared_fixtures.push_reserved(SharedFixture {
                held,
                seats,
                away: Vec::new(alloc),
                started_jobs: Vec::new(alloc),
            });
            output.push_str("ok");
        }
        Err(_) => output.push_str(OUT_OF_MEMORY),
    }
}

/// Makes a call of a book with seats, if there is one; whether there is such a call.
fn answer_if_call_with_seats(
    shared_fixtures: &mut Vec<SharedFixture>,
    texts: &Texts,
    word: &str,
    arguments: &mut CallArguments<'_>,
    output: &mut AnswerText,
) -> bool {
    match word {
        "seat" | "leave" | "call-back" => {}
        _ => return false,
    }
    match shared_fixtures.last_mut() {
        Some(shared_fixture) => shared_fixture.move_seats_or_answer_at_seat(
            texts, word, arguments, output,
        ),
        None => {
            output.push_str(NO_SUCH_THING);
            true
        }
    }
}

/// Each of two books has the other's seats from now on.
fn trade_seats_of_two_books(shared_fixtures: &mut [SharedFixture], output: &mut AnswerText) {
    match shared_fixtures {
        [one, other] => {
            mem::swap(&mut one.seats, &mut other.seats);
            output.push_str("ok");
        }
        _ => output.push_str(NO_SUCH_THING),
    }
}

impl SharedFixture {
    /// Makes a call; whether there is such a call.
    fn move_seats_or_answer_at_seat(
        &mut self,
        texts: &Texts,
        word: &str,
        arguments: &mut CallArguments<'_>,
        output: &mut AnswerText,
    ) -> bool {
        let number = arguments.number();
        match word {
            "leave" => move_last_items(&mut self.seats, &mut self.away, number, output),
            "call-back" => move_last_items(&mut self.away, &mut self.seats, number, output),
            _ => return self.answer_if_call_of_seat(number as usize, texts, arguments, output),
        }
        true
    }

    /// Makes the call of a seat; whether there is such a call.
    fn answer_if_call_of_seat(
        &mut self,
        place: usize,
        texts: &Texts,
        arguments: &mut CallArguments<'_>,
        output: &mut AnswerText,
    ) -> bool {
        let Some(seat) = self.seats.get_mut(place) else {
            output.push_str(NO_SUCH_THING);
            return true;
        };
        let held = &mut self.held;
        match arguments.word() {
            "number" => {
                output.number(seat.number() as u64);
                true
            }
            word => call(
                &mut SharedCalls { held, seat },
                &mut self.started_jobs,
                texts,
                word,
                arguments,
                output,
            ),
        }
    }
}

/// Closes the book with the seats that are here, and says its acts, or why it isn't closed.
fn close(shared_fixtures: &mut Vec<SharedFixture>, output: &mut AnswerText) {
    match shared_fixtures.pop() {
        Some(shared_fixture) => close_book_and_write_acts(shared_fixtures, shared_fixture, output),
        None => output.push_str(NO_SUCH_THING),
    }
}

fn close_book_and_write_acts(
    shared_fixtures: &mut Vec<SharedFixture>,
    shared_fixture: SharedFixture,
    output: &mut AnswerText,
)
    requires { vec_len shared_fixtures.old < vec_capacity shared_fixtures.old }
{
    let SharedFixture {
        held,
        seats,
        away,
        started_jobs,
    } = shared_fixture;
    match held.close(seats) {
        Ok(book) => write_acts_of_closed_book(output, "", book),
        Err(fault) => {
            output.push_str(fault.number_and_name());
            match fault {
                CloseFault::Differs(book) => write_acts_of_closed_book(output, ", ", book),
                CloseFault::MissingSeat(held, seats) => shared_fixtures.push_reserved(
                    SharedFixture {
                        held,
                        seats,
                        away,
                        started_jobs,
                    },
                ),
            }
        }
    }
}

/// Says the acts of a book that is closed.
fn write_acts_of_closed_book(output: &mut AnswerText, before: &str, book: Book) {
    output.push_str(before);
    write_acts(output, book.history(), false);
}
