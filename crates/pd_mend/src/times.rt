//! Times of expected packets, and lines of which only the time is written anew.
ghost use Rattle.std.specs.Prelude.{◌≡◌, ◌≤◌, length, IfSome};
ghost use Rattle.std.specs.List.{prefix_len};
ghost use Rattle.pd_mend.specs.Mending.{octets_after_time, is_digit_point_plus_or_blank, IsRetiming};

use crate::event_line::EventLine;
use crate::tokens::{Columns, octets_in_columns};
use pd_script::Time;
use pd_text::{LineEdit, LineList, Lines};
use std::alloc::AllocError;

/// The moment of a time that is one.
pub fn single_moment_of(base: u64, time: Time) -> Option<u64> {
    match time {
        Time::Absolute(moment) => Some(moment),
        Time::Relative(span) => Some(base.saturating_add(span)),
        _ => None,
    }
}

/// Whether a packet that leaves at a moment is in time.
pub fn is_in_time(time_range: Option<(u64, u64)>, at: u64, tolerance: u64) -> bool {
    match time_range {
        Some((first, last)) => {
            first <= at.saturating_add(tolerance) && at <= last.saturating_add(tolerance)
        }
        None => true,
    }
}

/// The time of a packet that left at a moment, absolute where another time is, else relative. It is `*` only where the packet left
/// before the base, by more than a tolerance.
pub fn time_like_other_or_any_before_base(like: Time, base: u64, at: u64, tolerance: u64) -> Time {
    match like {
        _ if is_before_base_beyond_tolerance(base, at, tolerance) => Time::Any,
        Time::Absolute(_) | Time::AbsoluteRange(_, _) => Time::Absolute(at.max(base)),
        _ => Time::Relative(at.saturating_sub(base)),
    }
}

/// Whether a moment lies before a base by more than a tolerance.
pub fn is_before_base_beyond_tolerance(base: u64, at: u64, tolerance: u64) -> bool {
    at.saturating_add(tolerance) < base
}

/// A time that counts from a base so much earlier; nothing where it doesn't count from one.
pub fn relative_time_lengthened_by_span(time: Time, span: u64) -> Option<Time> {
    match time {
        Time::Relative(first) => Some(Time::Relative(first.saturating_add(span))),
        Time::RelativeRange(first, last) => Some(Time::RelativeRange(
            first.saturating_add(span),
            last.saturating_add(span),
        )),
        _ => None,
    }
}

/// The same from a base so much later, as far as it can.
pub fn shortened_by_span_if_relative(time: Time, span: u64) -> Time {
    match time {
        Time::Relative(first) => Time::Relative(first.saturating_sub(span)),
        Time::RelativeRange(first, last) => {
            Time::RelativeRange(first.saturating_sub(span), last.saturating_sub(span))
        }
        other => other,
    }
}

/// The line of an event with the time that the line has which was written anew; all after the time is as it was.
///
/// # Errors
/// `AllocError` where a growth is refused.
pub fn event_line_with_time_prefix_of_other(
    own: &EventLine<'_>,
    anew: &[u8],
) -> Result<Vec<u8>, AllocError> {
    let time = Columns {
        from: 0,
        to: anew.len().saturating_sub(octets_after_time(anew).len()),
    };
    let mut line = Vec::from_slice(own.alloc, octets_in_columns(anew, time))?;
    line.extend_from_slice(octets_after_time(own.octets))?;
    Ok(line)
}

/// The edit that writes lines in the place of one; nothing where the last of them isn't that one with another time.
pub fn edit_if_last_line_is_line_retimed(
    text: &Lines,
    from: usize,
    insert: LineList,
) -> Option<LineEdit>
    ensures { IfSome result (IsRetiming text.now) }
{
    let old = text.line(from)?;
    let last = insert.len().checked_sub(1)?;
    let own = insert.get(last)?;
    if octets_after_time(own) != octets_after_time(old) {
        return None;
    }
    Some(LineEdit {
        from,
        remove: 1,
        insert,
    })
}

/// The octets after the time with which a line begins, and after the blanks that follow it.
fn octets_after_time(octets: &[u8]) -> &[u8]
    ensures { result.now ≡ octets_after_time octets.now }
{
    &octets[time_prefix_length(octets)..]
}

/// How many octets at the beginning of a line may stand in a time, or are blanks.
fn time_prefix_length(octets: &[u8]) -> usize
    ensures len { result ≡ prefix_len is_digit_point_plus_or_blank octets.now }
    ensures within { result ≤ length octets.now }
{
    octets
        .iter()
        .take_while(|octet| is_digit_point_plus_or_blank(**octet))
        .count()
}

/// Whether an octet may stand in a time, or is a blank.
fn is_digit_point_plus_or_blank(octet: u8) -> bool
    ensures { result ≡ is_digit_point_plus_or_blank octet }
{
    matches!(octet, b'0'..=b'9' | b'.' | b'+' | b' ' | b'\t')
}
