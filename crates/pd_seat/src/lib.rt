//! A book whose acts are noted with the seats that made them.
//!
//! A `Held` is what callers of a book share; each of them has a `Seat`, which remembers the acts
//! that it made and how long a history it was shown. So a caller can check that its acts are in
//! the book, once and in its order, whatever the others did between.
//!
//! ```text
//!     Held::new --> Held, and seats 0, 1, ..
//!       a call with a seat --accepted--> the book records the act, a note has the seat's number,
//!            |                           and the act is the seat's last
//!            '-------------refused-----> nothing changes
//!       show with a seat --------------> Differs, unless its acts are those noted with its number
//!     Held::close with all seats ------> the book
//! ```
//!
//! Each act of the book has one note, and there is room for a note of the end of each outstanding
//! job: `IsNoted` (specs/SeatInvariants.antt). A seat has room for the ends of its own jobs: `IsSeat`.
//! `RecordsAct` (specs/Seats.antt) says what an accepted call leaves, and `Agrees` when a report is
//! shown.
//!
//! Why it is so:
//! - Of a book that others change at the same time a caller knows nothing. Its seat is its own, and
//!   only the calls of a `Held` change it. So contracts can say of the seat what they can't say of
//!   the book.
//! - There is no lock and no thread here. `pd_desk` puts a `Held` under a lock, so all but the
//!   waiting is proved as for one caller.
//! - That each act has one note is a fact of `Held`'s type. That each note is the number of one of
//!   its seats isn't, since a caller may hand in a seat of another desk; `close` finds that out.
//! - History and seat share the name, the text and the edit of an act, so that each is held once.
#![tactic(auto)]

mod close;
mod faults;
mod seat;
mod seat_lists;
mod shared_book;
mod verify;

pub use close::CloseFault;
pub use faults::ShowFault;
pub use seat::Seat;
pub use shared_book::Held;
