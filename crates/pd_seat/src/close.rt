//! Closing: the book is taken from what was shared.
ghost use Rattle.std.specs.Prelude.{◌≡◌, ◌↔◌, length, IsTrue, IfOk, IfErr};
ghost use Rattle.pd_book.specs.Legal.{Legal};
ghost use Rattle.pd_seat.specs.Seats.{EachOnce, Accounts};
ghost use Rattle.pd_seat.specs.Close.{Closes, RefusesClose};
ghost use Rattle.pd_seat.specs.Faults.{close_fault_text};

use crate::faults::ShowFault;
use crate::seat::Seat;
use crate::shared_book::Held;
use crate::verify::{
    are_acts_of_each_seat_as_noted, are_noted_seats_below_count, has_each_seat_once,
};
use pd_book::Book;

/// Why a closing fails, and what it gives back: of `H` is what was to be closed.
#[derive(Drop)]
pub enum CloseFault<H> {
    /// The seats' numbers aren't 0 to the last, each once.
    MissingSeat(H, Vec<Seat>),
    /// The acts that are noted aren't just those of the seats.
    Differs(Book),
}

impl<H> CloseFault<H> {
    /// Its number and its name, as they are printed.
    pub fn number_and_name(&self) -> &'static str
        ensures { result.now ≡ close_fault_text self.now }
    {
        match self {
            CloseFault::MissingSeat(..) => "13 MissingSeat",
            CloseFault::Differs(_) => ShowFault::Differs.number_and_name(),
        }
    }
}

impl Held {
    /// The book, in which each seat's acts stand once, in its order, and no others. It takes no memory.
    ///
    /// # Errors
    /// `MissingSeat`, which hands back all, else `Differs`, which hands back the book.
    pub fn close(self, seats: Vec<Seat>) -> Result<Book, CloseFault<Held>>
        ensures ok { IfOk result (Closes self seats.items) }
        ensures err { IfErr result (RefusesClose self seats.items) }
    {
        if !self.are_all_seats(seats.as_slice()) {
            return Err(CloseFault::MissingSeat(self, seats));
        }
        if !self.has_just_acts_of_seats(seats.as_slice()) {
            return Err(CloseFault::Differs(self.into_book()));
        }
        Ok(self.into_book())
    }

    fn into_book(self) -> Book
        ensures book { result ≡ self.book }
        ensures legal { Legal result.history.opening result.history.past }
        ensures noted { length self.notes ≡ length result.history.past }
    {
        let Held {
            book,
            notes: _,
            seats: _,
        } = self;
        book
    }

    /// Whether these are all seats.
    fn are_all_seats(&self, seats: &[Seat]) -> bool
        ensures { IsTrue result ↔ EachOnce self.now.seats seats.now }
    {
        has_each_seat_once(seats, self.seats)
    }

    /// Whether the acts that are noted are just those of the seats.
    fn has_just_acts_of_seats(&self, seats: &[Seat]) -> bool
        ensures { IsTrue result ↔ Accounts self.now seats.now }
    {
        are_noted_seats_below_count(self.notes.as_slice(), self.seats)
            && are_acts_of_each_seat_as_noted(seats, self.notes.as_slice(), self.book.history())
    }
}
