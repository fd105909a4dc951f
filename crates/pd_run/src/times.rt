//! The times of events, as moments of a run in microseconds.
ghost use Rattle.std.specs.Prelude.{◌≡◌, ◌<◌, ◌^◌, false};
ghost use Rattle.std.specs.List.{list_any};
ghost use Rattle.pd_run.specs.Limits.{is_long, written_times};
ghost use Rattle.pd_run.specs.Times.{is_single_moment, single_moment_or_base, time_range_of, is_before_base_beyond_tolerance, is_not_too_late_within_tolerance, base_from_moment_or_later_of_base_and_sent};

use pd_script::Time;

/// Whether a time is one moment.
pub fn is_single_moment(time: Time) -> bool
    ensures { result ≡ is_single_moment time }
{
    matches!(time, Time::Absolute(_) | Time::Relative(_))
}

/// The moment of a time that is one, from a base, both in microseconds since the start of the run; the base for any other.
pub fn single_moment_or_base(base: u64, time: Time) -> u64
    requires base { base < 2 ^ 61 }
    requires short { list_any is_long (written_times time) ≡ false }
    ensures { result ≡ single_moment_or_base base time }
{
    match time {
        Time::Absolute(t) => t,
        Time::Relative(t) => base + t,
        _ => base,
    }
}

/// The first and the last moment of a time, from a base, in microseconds since the start of the run; `None` for `*`. A moment
/// beyond the greatest `u64` counts as that.
pub fn time_range_of(base: u64, time: Time) -> Option<(u64, u64)>
    ensures { base < 2 ^ 61 → list_any is_long (written_times time) ≡ false → result ≡ time_range_of base time }
{
    match time {
        Time::Any => None,
        Time::Absolute(t) => Some((t, t)),
        Time::Relative(t) => Some((base.saturating_add(t), base.saturating_add(t))),
        Time::AbsoluteRange(first, last) => Some((first, last)),
        Time::RelativeRange(first, last) => {
            Some((base.saturating_add(first), base.saturating_add(last)))
        }
    }
}

/// Whether an absolute time, or the first bound of an absolute range, lies before the base.
pub fn is_absolute_start_before_base(base: u64, time: Time) -> bool
    ensures { result ≡ is_before_base_beyond_tolerance base time }
{
    match time {
        Time::Absolute(t) => t < base,
        Time::AbsoluteRange(first, _) => first < base,
        _ => false,
    }
}

/// Whether a packet that leaves at a moment may still come in time: no later than the last moment and the tolerance, in
/// microseconds. `None` is any time.
pub fn is_not_too_late_within_tolerance(
    time_range: Option<(u64, u64)>,
    tolerance: u64,
    at: u64,
) -> bool
    ensures { result ≡ is_not_too_late_within_tolerance time_range tolerance at }
{
    match time_range {
        None => true,
        Some((_, last)) => at <= last.saturating_add(tolerance),
    }
}

/// The base after an expected packet with a time that met one which left at a moment: the time's moment where it is one, else
/// the later of the base and that moment.
pub fn base_from_moment_or_later_of_base_and_sent(base: u64, time: Time, at: u64) -> u64
    requires base { base < 2 ^ 61 }
    requires short { list_any is_long (written_times time) ≡ false }
    ensures { result ≡ base_from_moment_or_later_of_base_and_sent base time at }
{
    if is_single_moment(time) {
        single_moment_or_base(base, time)
    } else {
        base.max(at)
    }
}
