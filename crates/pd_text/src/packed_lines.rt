//! Lines that come one after another in one row of octets, and where each ends.
ghost use Rattle.std.specs.Prelude.{◌≡◌, ◌+◌, ◌-◌, ◌^◌, ◌≤◌, ◌<◌, ◌++◌, ℕ, Some, length, map, take, drop, slice_get, IfOk, IsTrue, vec_len, vec_capacity};
ghost use Rattle.pd_text.specs.PackedLines.{octets_between, lines_from, are_ends, start_at};

use std::alloc::AllocError;

/// Lines in one row of octets. Each begins where the one before it ends, the first one at the first octet.
#[derive(Clone, Copy)]
pub struct PackedLines<'a> {
    /// The octets of all lines, without their newlines.
    pub octets: &'a [u8],
    /// How many octets the lines have up to the end of each.
    pub ends: &'a [u32],
}

impl<'a> PackedLines<'a> {
    /// Where line `i` begins, counted from 0; after the last line, where that one ends.
    #[inline(always)]
    pub fn line_start(&self, i: usize) -> usize
        requires { i ≤ length self.now.ends.now }
        ensures { result ≡ start_at 0 i self.now.ends.now }
    {
        if i == 0 { 0 } else { self.ends[i - 1] as usize }
    }

    /// The octets of lines `from` up to `to`, counted from 0.
    #[inline(always)]
    pub fn octets_of_lines(&self, from: usize, to: usize) -> &'a [u8]
        requires ends { IsTrue (are_ends 0 (length self.now.octets.now) self.now.ends.now) }
        requires order { from ≤ to }
        requires within { to ≤ length self.now.ends.now }
        ensures { result.now ≡ octets_between self.now.octets.now (start_at 0 from self.now.ends.now) (start_at 0 to self.now.ends.now) }
    {
        &self.octets[self.line_start(from)..self.line_start(to)]
    }

    /// The octets of line `i`, counted from 0.
    #[inline(always)]
    pub fn line(&self, i: usize) -> &'a [u8]
        requires ends { IsTrue (are_ends 0 (length self.now.octets.now) self.now.ends.now) }
        requires within { i < length self.now.ends.now }
        ensures { slice_get (lines_from 0 self.now.octets.now self.now.ends.now) i ≡ Some result.now }
    {
        self.octets_of_lines(i, i + 1)
    }

    /// Whether lines `from` up to `to` are at the same places in both, with the same octets.
    pub fn has_same_lines_in_place_between(
        &self,
        other: &PackedLines<'_>,
        from: usize,
        to: usize,
    ) -> bool
        requires ends { IsTrue (are_ends 0 (length self.now.octets.now) self.now.ends.now) }
        requires others { IsTrue (are_ends 0 (length other.now.octets.now) other.now.ends.now) }
        requires order { from ≤ to }
        requires within { to ≤ length self.now.ends.now }
        requires beside { to ≤ length other.now.ends.now }
        ensures { let lines = lines_from 0 self.now.octets.now self.now.ends.now in
            let others = lines_from 0 other.now.octets.now other.now.ends.now in
            IsTrue result → take (to - from) (drop from lines) ≡ take (to - from) (drop from others) }
    {
        if self.line_start(from) != other.line_start(from) {
            return false;
        }
        if self.line_start(to) != other.line_start(to) {
            return false;
        }
        if self.ends[from..to] != other.ends[from..to] {
            return false;
        }
        self.octets_of_lines(from, to) == other.octets_of_lines(from, to)
    }
}

/// A place in a row of octets, in half the room that a length takes.
///
/// # Errors
/// `AllocError` where 32 bits don't count so many.
pub fn u32_offset_or_alloc_error(octets: usize) -> Result<u32, AllocError>
    ensures { IfOk result (λ offset. offset ≡ octets) }
{
    match u32::try_from(octets) {
        Ok(offset) => Ok(offset),
        Err(_) => Err(AllocError),
    }
}

/// The place after so many octets and so many more.
///
/// # Errors
/// As for `offset`.
pub fn u32_offset_after(octets: usize, more: usize) -> Result<u32, AllocError>
    ensures offset { IfOk result (λ offset. offset ≡ octets + more) }
    ensures small { IfOk result (λ _. octets + more < 2 ^ 32) }
{
    match octets.checked_add(more) {
        Some(all) => u32_offset_or_alloc_error(all),
        None => Err(AllocError),
    }
}

/// Adds the ends of lines that was after the first `from` octets, and now are after the first `to`; there is room for them.
pub fn push_shifted_ends(ends: &mut Vec<u32>, more: &[u32], from: u32, to: u32)
    requires room { vec_len ends.old + length more.now ≤ vec_capacity ends.old }
    requires places { (last : ℕ) × IsTrue (are_ends from last more.now) × (to + (last - from) < 2 ^ 32) }
    ensures { ends.new.items ≡ ends.old.items ++ map (λ (end : ℕ). to + (end - from)) more.now }
{
    for end in more {
        ends.push_reserved(to + (*end - from));
    }
}
