//! Octets that are counted or found over ranges, each in one pass.
ghost use Rattle.std.specs.Prelude.{◌≡◌, ℕ, ◌≤◌, ◌<◌, ◌+◌, ◌-◌, ◌^◌, true, false, cond, nat_lt};
ghost use Rattle.pd_board.specs.Loss.{shows_loss};
ghost use Rattle.pd_board.specs.Octets.{size_where};
ghost use Rattle.pd_board.specs.Predicates.{first_of, pipe_from, edge_from};
ghost use Rattle.pd_board.specs.Ranges.{in_ranges, AreRanges};

use crate::ranges::Ranges;

/// DupThresh: how many duplicates, or runs of SACKed octets, show a loss (RFC 6675, section 2).
pub const DUP_THRESH: u32 = 3;

/// How many runs and how many octets lie from a place on.
#[derive(Clone, Copy)]
pub struct SackedAbove {
    /// How many runs of SACKed octets.
    pub runs: usize,
    /// How many SACKed octets.
    pub octets: u32,
}

impl SackedAbove {
    /// Whether an octet below is lost by RFC 6675, section 4: DupThresh runs, or more than (DupThresh - 1) * SMSS octets.
    pub fn shows_loss(&self, smss: u16) -> bool
        ensures { result ≡ shows_loss smss self.now.runs self.now.octets }
    {
        DUP_THRESH as usize <= self.runs || (DUP_THRESH - 1) * u32::from(smss) < self.octets
    }
}

/// Counts the runs that begin at `first` or above it, and the octets there.
pub fn count_sacked_octets_and_runs_from(
    ranges: &Ranges,
    una: u32,
    first: u32,
    top: u32,
) -> SackedAbove
    requires ranges { AreRanges una (top + 1) ranges.now }
    requires low { una ≤ first }
    requires small { top < 2 ^ 31 }
    ensures octets { result.octets ≡ size_where (in_ranges ranges.now) first top }
    ensures runs { result.runs ≡ size_where (first_of (in_ranges ranges.now) una) first top }
{
    let mut runs: usize = 0;
    let mut octets: u32 = 0;
    for range in ranges.spans.iter() {
        if first <= range.start {
            runs += 1;
        }
        octets += range.end.saturating_sub(range.start.max(first));
    }
    SackedAbove { runs, octets }
}

/// Counts the octets on the way, from the lowest up: below the ranges that are left lie gaps.
pub fn count_pipe(ranges: &Ranges, una: u32, top: u32, smss: u16, high: u32) -> u32
    requires ranges { AreRanges una (top + 1) ranges.now }
    requires low { una ≤ top }
    requires small { top < 2 ^ 31 }
    requires segment { smss ≤ 65495 }
    ensures { result ≡ pipe_from (in_ranges ranges.now) una top smss high una }
{
    let mut runs = ranges.spans.len();
    let mut octets = ranges.octets;
    let mut pipe: u32 = 0;
    let mut place = una;
    for range in ranges.spans.iter() {
        let above = SackedAbove { runs, octets };
        if !above.shows_loss(smss) {
            pipe += range.start - place;
        }
        pipe += high.min(range.start).saturating_sub(place);
        runs -= 1;
        octets -= range.end - range.start;
        place = range.end;
    }
    pipe += top - place;
    pipe + high.min(top).saturating_sub(place)
}

/// The number after the last octet in no range that is lost, or 0: below the ranges that are left lie gaps.
pub fn after_last_lost_octet_or_zero(ranges: &Ranges, una: u32, top: u32, smss: u16) -> u32
    requires ranges { AreRanges una (top + 1) ranges.now }
    requires low { una ≤ top }
    requires small { top < 2 ^ 31 }
    requires segment { smss ≤ 65495 }
    ensures { result ≡ edge_from (in_ranges ranges.now) una top smss }
{
    let mut runs = ranges.spans.len();
    let mut octets = ranges.octets;
    let mut edge: u32 = 0;
    let mut place = una;
    for range in ranges.spans.iter() {
        let above = SackedAbove { runs, octets };
        if !above.shows_loss(smss) {
            return edge;
        }
        edge = gap_end_or_previous_if_empty(place, range.start, edge);
        runs -= 1;
        octets -= range.end - range.start;
        place = range.end;
    }
    edge
}

/// The number after the octets from `from` on and below `to`, or `before` where there are none.
fn gap_end_or_previous_if_empty(from: u32, to: u32, before: u32) -> u32
    ensures { result ≡ cond (nat_lt from to) to before }
{
    if from < to { to } else { before }
}

/// The first octet of the ranges from `from` on and below `to`, or `to`.
pub fn first_sacked_within_or_end(ranges: &Ranges, from: u32, to: u32) -> u32
    requires ranges { AreRanges 0 (2 ^ 31) ranges.now }
    requires order { from ≤ to }
    ensures low { from ≤ result }
    ensures high { result ≤ to }
    ensures before { (x : ℕ) → from ≤ x → x < result → in_ranges ranges.now x ≡ false }
    ensures found { result < to → in_ranges ranges.now result ≡ true }
{
    for range in ranges.spans.iter() {
        if from < range.end {
            return range.start.max(from).min(to);
        }
    }
    to
}

/// The first octet from `from` on and below `to` that is in no range, or `to`.
pub fn first_unsacked_within_or_end(ranges: &Ranges, from: u32, to: u32) -> u32
    requires ranges { AreRanges 0 (2 ^ 31) ranges.now }
    requires order { from ≤ to }
    ensures low { from ≤ result }
    ensures high { result ≤ to }
    ensures before { (x : ℕ) → from ≤ x → x < result → in_ranges ranges.now x ≡ true }
    ensures found { result < to → in_ranges ranges.now result ≡ false }
{
    for range in ranges.spans.iter() {
        if from < range.start {
            return from;
        }
        if from < range.end {
            return range.end.min(to);
        }
    }
    from
}

/// The number after the last octet of the ranges from `from` on and below `to`, or `from`.
pub fn after_last_sacked_within_or_start(ranges: &Ranges, from: u32, to: u32) -> u32
    requires ranges { AreRanges 0 (2 ^ 31) ranges.now }
    requires order { from ≤ to }
    ensures low { from ≤ result }
    ensures high { result ≤ to }
    ensures after { (x : ℕ) → result ≤ x → x < to → in_ranges ranges.now x ≡ false }
    ensures found { from < result → in_ranges ranges.now (result - 1) ≡ true }
{
    let mut end = from;
    for range in ranges.spans.iter() {
        if range.start < to {
            end = end.max(range.end.min(to));
        }
    }
    end
}

/// The number after the last octet from `from` on and below `to` that is in no range, or `from`.
pub fn after_last_unsacked_within_or_start(ranges: &Ranges, from: u32, to: u32) -> u32
    requires ranges { AreRanges 0 (2 ^ 31) ranges.now }
    requires order { from ≤ to }
    ensures low { from ≤ result }
    ensures high { result ≤ to }
    ensures after { (x : ℕ) → result ≤ x → x < to → in_ranges ranges.now x ≡ true }
    ensures found { from < result → in_ranges ranges.now (result - 1) ≡ false }
{
    for range in ranges.spans.iter() {
        if to <= range.end {
            return if range.start < to {
                range.start.max(from)
            } else {
                to
            };
        }
    }
    to
}
