//! A set of octets as sorted half-open ranges that don't touch; `insert` answers whether an octet was new.
ghost use Rattle.std.specs.Prelude.{◌≡◌, ℕ, ◌≤◌, ◌<◌, ◌^◌, [], ◌&&◌, ◌||◌, not, nat_le, nat_lt, OnOk, OnErr, IfOk, drop};
ghost use Rattle.std.specs.List.{list_any};
ghost use Rattle.pd_board.specs.Octets.{interval};
ghost use Rattle.pd_board.specs.Runs.{among, Between};
ghost use Rattle.pd_board.specs.Ranges.{in_ranges, octets_in, AreRanges, ranges_after, raised};

use crate::queries::first_unsacked_within_or_end;
use pd_seg::Span;
use std::alloc::{AllocError, Global};

/// Ranges of octets in ascending order, any two apart by at least one octet, and how many octets they have.
#[derive(Drop)]
pub struct Ranges {
    /// The ranges in ascending order.
    pub spans: Vec<Span>,
    /// How many octets they have in all.
    pub octets: u32,
}

impl Ranges {
    /// No octet.
    pub fn new(alloc: Global) -> Ranges
        ensures none { result.spans.items ≡ [] }
        ensures within { (a b : ℕ) → a ≤ b → AreRanges a b result }
    {
        Ranges {
            spans: Vec::new(alloc),
            octets: 0,
        }
    }

    /// The ranges in ascending order.
    pub fn as_slice(&self) -> &[Span]
        ensures { result.now ≡ self.now.spans.items }
    {
        self.spans.as_slice()
    }

    /// Adds the octets from `first` on and below `end`, and answers whether one of them was new.
    ///
    /// # Errors
    /// `AllocError` where a growth is refused; the octets are as before then.
    pub fn insert(&mut self, first: u32, end: u32) -> Result<bool, AllocError>
        requires ranges { AreRanges 0 (2 ^ 31) self.old }
        requires order { first < end }
        requires high { end < 2 ^ 31 }
        ensures within { (a b : ℕ) → AreRanges a b self.old → a ≤ first → end < b → AreRanges a b self.new }
        ensures octets { OnOk result ((x : ℕ) → in_ranges self.new x ≡ (in_ranges self.old x || (nat_le first x && nat_lt x end))) }
        ensures new { IfOk result (λ new. new ≡ list_any (λ x. not (in_ranges self.old x)) (interval first end)) }
        ensures err { OnErr result (self.new ≡ self.old) }
    {
        // A peer names the same block in many ACKs: one that is known takes no memory.
        if first_unsacked_within_or_end(self, first, end) == end {
            return Ok(false);
        }
        let spans = with_merged_range(&self.spans, first, end)?;
        self.octets = count_octets(&spans);
        self.spans = spans;
        Ok(true)
    }

    /// Forgets the octets below `start`.
    pub fn drop_below(&mut self, start: u32)
        requires ranges { AreRanges 0 (2 ^ 31) self.old }
        requires high { start < 2 ^ 31 }
        ensures within { (a b : ℕ) → AreRanges a b self.old → start < b → AreRanges start b self.new }
        ensures octets { (x : ℕ) → start ≤ x → in_ranges self.new x ≡ in_ranges self.old x }
    {
        let passed = count_ranges_below(&self.spans, start);
        drop_first_ranges(&mut self.spans, passed);
        raise_first_range_start(&mut self.spans, start);
        self.octets = count_octets(&self.spans);
    }

    /// Forgets all octets.
    pub fn clear(&mut self)
        ensures none { self.new.spans.items ≡ [] }
        ensures within { (a b : ℕ) → a ≤ b → AreRanges a b self.new }
    {
        self.spans.clear();
        self.octets = 0;
    }

    /// The same ranges once more.
    ///
    /// # Errors
    /// `AllocError` where a growth is refused.
    pub fn copy(&self) -> Result<Ranges, AllocError>
        ensures spans { IfOk result (λ copy. copy.spans.items ≡ self.now.spans.items) }
        ensures octets { IfOk result (λ copy. copy.octets ≡ self.now.octets) }
    {
        Ok(Ranges {
            spans: self.spans.clone()?,
            octets: self.octets,
        })
    }
}

/// The ranges with one more, which joins those that it meets or touches.
fn with_merged_range(ranges: &Vec<Span>, first: u32, last: u32) -> Result<Vec<Span>, AllocError>
    requires ranges { Between 0 ranges.now.items (2 ^ 31) }
    requires order { first < last }
    requires high { last < 2 ^ 31 }
    ensures within { IfOk result (λ out. (a b : ℕ) → Between a ranges.now.items b → a ≤ first → last < b → Between a out.items b) }
    ensures octets { IfOk result (λ out. (x : ℕ) → among out.items x ≡ (among ranges.now.items x || (nat_le first x && nat_lt x last))) }
{
    let mut out: Vec<Span> = Vec::new(*ranges.allocator());
    let mut start = first;
    let mut end = last;
    for range in ranges.iter() {
        if range.end < start {
            out.push(*range)?;
        } else if end < range.start {
            out.push(Span { start, end })?;
            start = range.start;
            end = range.end;
        } else {
            start = start.min(range.start);
            end = end.max(range.end);
        }
    }
    out.push(Span { start, end })?;
    Ok(out)
}

/// How many octets ranges have.
fn count_octets(ranges: &Vec<Span>) -> u32
    requires { Between 0 ranges.now.items (2 ^ 31) }
    ensures { result ≡ octets_in ranges.now.items }
{
    let mut octets: u32 = 0;
    for range in ranges.iter() {
        octets += range.end - range.start;
    }
    octets
}

/// How many ranges end at `start` or below it.
fn count_ranges_below(ranges: &Vec<Span>, start: u32) -> usize
    ensures { drop result ranges.now.items ≡ ranges_after start ranges.now.items }
{
    let mut passed: usize = 0;
    for range in ranges.iter() {
        if start < range.end {
            return passed;
        }
        passed += 1;
    }
    passed
}

/// Drops the first ranges.
fn drop_first_ranges(ranges: &mut Vec<Span>, count: usize)
    ensures { ranges.new.items ≡ drop count ranges.old.items }
{
    let count = count.min(ranges.len());
    let left = ranges.len() - count;
    ranges.rotate_left(count);
    ranges.truncate(left);
}

/// The first range begins at `start` at least.
fn raise_first_range_start(ranges: &mut Vec<Span>, start: u32)
    ensures { ranges.new.items ≡ raised start ranges.old.items }
{
    if ranges.is_empty() {
        return;
    }
    let first = ranges[0];
    ranges[0] = Span {
        start: first.start.max(start),
        end: first.end,
    };
}
