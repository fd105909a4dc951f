//! Whether a seat's acts are those that are noted with its number.
ghost use Rattle.std.specs.Prelude.{◌≡◌, ◌↔◌, ◌<◌, ◌==◌, IsTrue, All, count_by, length, reverse};
ghost use Rattle.pd_seat.specs.Seats.{made_by, EachOnce};

use crate::seat::Seat;
use pd_book::Act;
use pd_settings::{Key, Value};

/// Whether the acts noted with this number are these.
fn are_own_acts_as_noted_with_number(
    number: usize,
    notes: &[usize],
    acts: &[Act],
    own: &[Act],
) -> bool
    requires { length notes.now ≡ length acts.now }
    ensures { IsTrue result ↔ (made_by number notes.now acts.now ≡ own.now) }
{
    // Both are of one length. The check is here, so that one count does for both.
    if notes.len() != acts.len() {
        return false;
    }
    let mut notes = notes;
    let mut acts = acts;
    let mut rest = own;
    while let Some((note, more_notes)) = notes.split_first() {
        let Some((act, more_acts)) = acts.split_first() else {
            return false;
        };
        notes = more_notes;
        acts = more_acts;
        if *note == number {
            let Some((first, others)) = rest.split_first() else {
                return false;
            };
            rest = others;
            if !is_same_act(first, act) {
                return false;
            }
        }
    }
    rest.is_empty()
}

/// Whether both are the same act. Sets to a truth value, of which there may be many in a row, are compared in place.
#[inline(always)]
fn is_same_act(one: &Act, other: &Act) -> bool
    ensures { IsTrue result ↔ (one.now ≡ other.now) }
{
    is_same_boolean_setting_act(one, other) || is_same_act_of_any_kind(one, other)
}

/// Whether both set one setting to one truth value.
#[inline(always)]
fn is_same_boolean_setting_act(one: &Act, other: &Act) -> bool
    ensures { IsTrue result → one.now ≡ other.now }
{
    match (one, other) {
        (Act::Set(key, Value::Boolean(truth)), Act::Set(field, Value::Boolean(chosen))) => {
            is_same_key(*key, *field) && truth == chosen
        }
        _ => false,
    }
}

/// Whether both are the same act, whatever they do.
#[inline(never)]
fn is_same_act_of_any_kind(one: &Act, other: &Act) -> bool
    ensures { IsTrue result ↔ (one.now ≡ other.now) }
{
    one.is_same(other)
}

/// Whether both are the same setting.
#[inline(always)]
fn is_same_key(one: Key, other: Key) -> bool
    ensures { IsTrue result ↔ (one ≡ other) }
{
    one == other
}

/// Whether the acts noted with a seat's number are its own.
pub fn are_seat_acts_as_noted(seat: &Seat, notes: &[usize], acts: &[Act]) -> bool
    requires { length notes.now ≡ length acts.now }
    ensures { IsTrue result ↔ (made_by seat.now.number (reverse notes.now) (reverse acts.now) ≡ seat.now.own) }
{
    are_own_acts_as_noted_with_number(seat.number, notes, acts, seat.own.as_slice())
}

/// Whether that is so of each of these seats.
pub fn are_acts_of_each_seat_as_noted(seats: &[Seat], notes: &[usize], acts: &[Act]) -> bool
    requires { length notes.now ≡ length acts.now }
    ensures { IsTrue result ↔ All (λ seat. made_by seat.number (reverse notes.now) (reverse acts.now) ≡ seat.own) seats.now }
{
    for seat in seats {
        if !are_seat_acts_as_noted(seat, notes, acts) {
            return false;
        }
    }
    true
}

/// Whether the seats' numbers are 0 to the last, each once.
pub fn has_each_seat_once(seats: &[Seat], count: usize) -> bool
    ensures { IsTrue result ↔ EachOnce count seats.now }
{
    if seats.len() != count {
        return false;
    }
    for number in 0..count {
        if count_seats_with_number(seats, number) != 1 {
            return false;
        }
    }
    true
}

fn count_seats_with_number(seats: &[Seat], number: usize) -> usize
    ensures { result ≡ count_by (λ seat. seat.number == number) seats.now }
{
    seats.iter().filter(|seat| seat.number == number).count()
}

/// Whether all notes are below the count.
pub fn are_noted_seats_below_count(notes: &[usize], count: usize) -> bool
    ensures { IsTrue result ↔ All (λ note. note < count) (reverse notes.now) }
{
    are_noted_seat_numbers_below(notes, count)
}

fn are_noted_seat_numbers_below(notes: &[usize], count: usize) -> bool
    ensures { IsTrue result ↔ All (λ note. note < count) notes.now }
{
    notes.iter().all(|note| *note < count)
}
