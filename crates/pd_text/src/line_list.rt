//! Lists of lines, of any length.
ghost use Rattle.std.specs.Prelude.{◌≡◌, ◌+◌, ◌-◌, ◌^◌, ◌≤◌, ◌<◌, ◌++◌, ◌∷◌, ◌↔◌, [], Some, length, take, drop, option_copied, slice_get, IfOk, OnOk, OnErr, IsTrue, if◌then◌else◌};
ghost use Rattle.pd_text.specs.Text.{common_prefix, has_no_newline, octets_of, AreLines};
ghost use Rattle.pd_text.specs.PackedLines.{lines_from, are_ends};

use crate::limits::MAX_LINES;
use crate::packed_lines::{
    PackedLines, push_shifted_ends, u32_offset_after, u32_offset_or_alloc_error,
};
use std::alloc::{AllocError, Global};
use std::marker::Model;

/// How often the lines that a text may have are halved until one is left.
const HALVINGS: usize = 12;

/// A list of lines, each its octets without the newline.
#[derive(Drop)]
pub struct LineList {
    /// The octets of all lines, one after another, without their newlines.
    octets: Vec<u8>,
    /// How many octets the lines have up to the end of each.
    ends: Vec<u32>,
}

impl Model for LineList {
    ghost use Rattle.std.specs.Prelude.{List, ℕ, length, IsTrue};
    ghost use Rattle.pd_text.specs.Text.{AreLines};
    ghost use Rattle.pd_text.specs.PackedLines.{lines_from, are_ends};

    ghost Value = { List (List ℕ) };

    ghost view = { λ l. lines_from 0 l.octets.items l.ends.items };

    ghost invariant = { λ l. IsTrue (are_ends 0 (length l.octets.items) l.ends.items) × AreLines (lines_from 0 l.octets.items l.ends.items) };
}

impl LineList {
    /// A list of no line.
    pub fn new(alloc: Global) -> LineList
        ensures { result ≡ [] }
    {
        LineList {
            octets: Vec::new(alloc),
            ends: Vec::new(alloc),
        }
    }

    /// Adds a line, which holds no newline.
    ///
    /// # Errors
    /// `AllocError` where a growth is refused, or the lines would have 4,294,967,296 octets or more; the list is as before
    /// then.
    pub fn push(&mut self, line: &[u8]) -> Result<(), AllocError>
        requires { IsTrue (has_no_newline line.now) }
        ensures ok { OnOk result (self.new ≡ self.old ++ line.now ∷ []) }
        ensures same { OnErr result (self.new ≡ self.old) }
    {
        self.ends.reserve(1)?;
        let end = u32_offset_after(self.octets.len(), line.len())?;
        self.octets.extend_from_slice(line)?;
        self.ends.push_reserved(end);
        Ok(())
    }

    /// Adds octets as a line, unless they hold a newline.
    ///
    /// # Errors
    /// As for `push`; the list is as before then.
    pub fn push_or_ignore_if_newline_inside(&mut self, octets: &[u8]) -> Result<(), AllocError>
        ensures ok { OnOk result (self.new ≡ (if has_no_newline octets.now then self.old ++ octets.now ∷ [] else self.old)) }
        ensures same { OnErr result (self.new ≡ self.old) }
    {
        if has_no_newline(octets) {
            self.push(octets)
        } else {
            Ok(())
        }
    }

    /// Its lines as they stand.
    #[inline(always)]
    fn packed_lines(&self) -> PackedLines<'_>
        ensures lines { lines_from 0 result.octets.now result.ends.now ≡ self.now }
        ensures ends { IsTrue (are_ends 0 (length result.octets.now) result.ends.now) }
        ensures count { length result.ends.now ≡ length self.now }
        ensures are_lines { AreLines self.now }
    {
        PackedLines {
            octets: self.octets.as_slice(),
            ends: self.ends.as_slice(),
        }
    }

    /// How many lines it has.
    pub fn len(&self) -> usize
        ensures len { result ≡ length self.now }
        ensures lines { AreLines self.now }
    {
        self.ends.len()
    }

    /// How many octets its lines have, without their newlines.
    pub fn octet_count_without_newlines(&self) -> usize
        ensures { result + length self.now ≡ octets_of self.now }
    {
        self.octets.len()
    }

    /// Line `i`, counted from 0, or `None` after the last.
    #[inline(always)]
    pub fn get(&self, i: usize) -> Option<&[u8]>
        ensures line { option_copied result ≡ slice_get self.now i }
        ensures lines { AreLines self.now }
    {
        if i < self.len() {
            Some(self.at(i))
        } else {
            None
        }
    }

    /// Line `i`, counted from 0.
    #[inline(always)]
    fn at(&self, i: usize) -> &[u8]
        requires { i < length self.now }
        ensures line { slice_get self.now i ≡ Some result.now }
        ensures lines { AreLines self.now }
    {
        self.packed_lines().line(i)
    }

    /// Whether both have the same lines.
    pub fn is_same(&self, other: &LineList) -> bool
        ensures { IsTrue result ↔ (self.now ≡ other.now) }
    {
        self.has_equal_octets_and_ends(other)
            || (self.len() == other.len() && self.same_front(other) == self.len())
    }

    /// Whether both have the same octets at the same places.
    fn has_equal_octets_and_ends(&self, other: &LineList) -> bool
        ensures { IsTrue result → self.now ≡ other.now }
    {
        self.octets == other.octets && self.ends == other.ends
    }

    /// How many of their first lines are equal; takes no memory.
    pub fn same_front(&self, other: &LineList) -> usize
        ensures { result ≡ common_prefix self.now other.now }
    {
        let most = self.len().min(other.len());
        'lines: for i in self.common_prefix_lower_bound(other, most)..most {
            if self.at(i) != other.at(i) {
                return i;
            }
        }
        most
    }

    /// So many of at most `most` first lines that are equal: all but the last of them, where these are the same octets at the
    /// same places, as after a change at the end of a text; else as many as halving finds.
    fn common_prefix_lower_bound(&self, other: &LineList, most: usize) -> usize
        requires within { most ≤ length self.now }
        requires beside { most ≤ length other.now }
        ensures few { result ≤ most }
        ensures same { result + common_prefix (drop result self.now) (drop result other.now) ≡ common_prefix self.now other.now }
    {
        let before_last = most.saturating_sub(1);
        if self
            .packed_lines()
            .has_same_lines_in_place_between(&other.packed_lines(), 0, before_last)
        {
            return before_last;
        }
        self.lower_bound_by_halving(other, most)
    }

    /// So many of at most `most` first lines that are equal: many lines at once, then half as many, down to one, as long as they
    /// are the same octets at the same places.
    fn lower_bound_by_halving(&self, other: &LineList, most: usize) -> usize
        requires within { most ≤ length self.now }
        requires beside { most ≤ length other.now }
        ensures few { result ≤ most }
        ensures same { result + common_prefix (drop result self.now) (drop result other.now) ≡ common_prefix self.now other.now }
    {
        let mut same = 0;
        'halves: for halving in 0..=HALVINGS {
            let step = MAX_LINES >> halving;
            if step <= most - same
                && self
                    .packed_lines()
                    .has_same_lines_in_place_between(&other.packed_lines(), same, same + step)
            {
                same += step;
            }
        }
        same
    }

    /// How many octets lines `from` up to `to` have, counted from 0, without their newlines.
    pub fn octet_count_between_without_newlines(&self, from: usize, to: usize) -> usize
        requires { (from ≤ to) × (to ≤ length self.now) }
        ensures { result + (to - from) ≡ octets_of (take (to - from) (drop from self.now)) }
    {
        let lines = self.packed_lines();
        lines.line_start(to) - lines.line_start(from)
    }

    /// Adds lines `first` up to `end` of another list, counted from 0.
    ///
    /// # Errors
    /// As for `push`; the list is as before then.
    pub fn push_line_range_of_other(
        &mut self,
        list: &LineList,
        first: usize,
        end: usize,
    ) -> Result<(), AllocError>
        requires { (first ≤ end) × (end ≤ length list.now) }
        ensures { OnOk result (self.new ≡ self.old ++ take (end - first) (drop first list.now)) }
    {
        let lines = list.packed_lines();
        let octets = lines.octets_of_lines(first, end);
        let from = u32_offset_or_alloc_error(lines.line_start(first))?;
        let at = u32_offset_or_alloc_error(self.octets.len())?;
        let _last = u32_offset_after(self.octets.len(), octets.len())?;
        self.ends.reserve(end - first)?;
        self.octets.extend_from_slice(octets)?;
        push_shifted_ends(&mut self.ends, &lines.ends[first..end], from, at);
        Ok(())
    }

    /// Makes room for so many lines with so many octets.
    ///
    /// # Errors
    /// `AllocError` where a growth is refused.
    pub fn reserve(&mut self, lines: usize, octets: usize) -> Result<(), AllocError>
        ensures { self.new ≡ self.old }
    {
        self.ends.reserve(lines)?;
        self.octets.reserve(octets)
    }

    /// Gives back the room that no line takes.
    pub fn shrink_to_fit(&mut self)
        ensures { self.new ≡ self.old }
    {
        self.octets.shrink_to_fit();
        self.ends.shrink_to_fit();
    }

    /// An equal list of its own.
    ///
    /// # Errors
    /// `AllocError` where a growth is refused.
    pub fn copy(&self) -> Result<LineList, AllocError>
        ensures { IfOk result (λ list. list ≡ self.now) }
    {
        let alloc = *self.octets.allocator();
        let mut octets = Vec::new(alloc);
        octets.extend_from_slice(self.octets.as_slice())?;
        let mut ends = Vec::new(alloc);
        ends.extend_from_slice(self.ends.as_slice())?;
        Ok(LineList { octets, ends })
    }

    /// The allocator that its octets come from.
    pub fn allocator(&self) -> Global {
        *self.octets.allocator()
    }
}

/// Whether octets hold no newline.
fn has_no_newline(octets: &[u8]) -> bool
    ensures { result ≡ has_no_newline octets.now }
{
    octets.iter().all(|octet| *octet != b'\n')
}
