//! The scoreboard of a sender: which octets were sent, which are SACKed, and which count as lost.
ghost use Rattle.std.specs.Prelude.{◌≡◌, ◌+◌, ◌≤◌, ◌<◌, ◌^◌, true, false, IfOk, OnOk, OnErr, IsErr, ◌↔◌};
ghost use Rattle.pd_board.specs.Board.{IsBoardView, opened, written, sent_to, acknowledged, with_sacked_block, has_new, with_none_sacked, past_sacked_octets, without_memory};
ghost use Rattle.pd_board.specs.Loss.{is_lost, pipe, sacked_octets, undelivered_octets, lost_edge, sacked_above, runs_above};
ghost use Rattle.pd_board.specs.Retransmit.{run_at, next_lost, find_unsacked_octet_by_nextseg_rule_3, rescue};
ghost use Rattle.pd_board.specs.Runs.{AreRuns};

use crate::queries::{
    SackedAbove, after_last_lost_octet_or_zero, after_last_sacked_within_or_start,
    after_last_unsacked_within_or_start, count_pipe, count_sacked_octets_and_runs_from,
    first_sacked_within_or_end, first_unsacked_within_or_end,
};
use crate::ranges::Ranges;
use pd_seg::Span;
use std::alloc::{AllocError, Global};
use std::marker::Model;

/// The numbers that a sender sends by, and the octets that SACK blocks reported (RFC 6675, section 3).
///
/// Octet numbers are relative to the initial sequence number and stay below 2^31. SMSS is 64 to 65,495 octets.
/// A scoreboard that has found no memory answers that to each later call that can.
#[derive(Drop)]
pub struct Board {
    /// SMSS, in octets: 64 to 65,495 (RFC 9293, section 3.7.1).
    smss: u16,
    /// SND.UNA: the sequence number of the oldest octet that isn't acknowledged (RFC 9293, section 3.3.1).
    una: u32,
    /// SND.NXT: the sequence number from which sending goes on (RFC 9293, section 3.3.1).
    next: u32,
    /// The sequence number after the highest octet sent.
    top: u32,
    /// The sequence number after the last octet queued, below 2^31.
    end: u32,
    /// The octets from `una` on and below `top` that SACK blocks reported (RFC 6675, section 3).
    ranges: Ranges,
    /// Whether a call has found no memory.
    out_of_memory: bool,
}

impl Model for Board {
    ghost use Rattle.pd_board.specs.Board.{BoardView};
    ghost use Rattle.pd_board.specs.Octets.{octets_where};
    ghost use Rattle.pd_board.specs.Ranges.{in_ranges, IsBoard};

    ghost Value = { BoardView };

    ghost view = { λ b. record { smss = b.smss; una = b.una; next = b.next; top = b.top; end = b.end; sacked = octets_where (in_ranges b.ranges) b.una b.top; out_of_memory = b.out_of_memory } };

    ghost invariant = { λ b. IsBoard b.smss b.una b.next b.top b.end b.ranges };
}

impl Board {
    /// Once the SYN/ACK is sent: `una` is 0, the other numbers are 1.
    pub fn new(alloc: Global, smss: u16) -> Board
        requires low { 64 ≤ smss }
        requires high { smss ≤ 65495 }
        ensures { result ≡ opened smss }
    {
        Board {
            smss,
            una: 0,
            next: 1,
            top: 1,
            end: 1,
            ranges: Ranges::new(alloc),
            out_of_memory: false,
        }
    }

    /// The invariant of scoreboards: their numbers are in order and lie in their ranges. It does nothing.
    pub fn law_invariant(&self)
        ensures { IsBoardView self.now }
    {
        let _smss = self.smss();
    }

    /// SMSS, in octets.
    pub fn smss(&self) -> u16
        ensures value { result ≡ self.now.smss }
        ensures known { IsBoardView self.now }
    {
        self.smss
    }

    /// The oldest octet that isn't acknowledged.
    pub fn una(&self) -> u32
        ensures value { result ≡ self.now.una }
        ensures known { IsBoardView self.now }
    {
        self.una
    }

    /// Where sending goes on.
    pub fn next(&self) -> u32
        ensures value { result ≡ self.now.next }
        ensures known { IsBoardView self.now }
    {
        self.next
    }

    /// The number after the highest octet sent.
    pub fn top(&self) -> u32
        ensures value { result ≡ self.now.top }
        ensures known { IsBoardView self.now }
    {
        self.top
    }

    /// The number after the last octet queued.
    pub fn end(&self) -> u32
        ensures value { result ≡ self.now.end }
        ensures known { IsBoardView self.now }
    {
        self.end
    }

    /// Queues octets.
    pub fn write(&mut self, count: u32)
        requires { self.old.end + count < 2 ^ 31 }
        ensures { self.new ≡ written count self.old }
    {
        self.end += count;
    }

    /// A segment was sent that ends at `x`.
    ///
    /// # Errors
    /// Out of memory, now or in an earlier call.
    pub fn sent(&mut self, x: u32) -> Result<(), AllocError>
        requires low { self.old.una ≤ x }
        requires high { x ≤ self.old.end }
        ensures ok { OnOk result (self.new ≡ sent_to x self.old) }
        ensures err { OnErr result (self.new ≡ self.old) }
        ensures again { IsErr result ↔ (self.old.out_of_memory ≡ true) }
    {
        if self.out_of_memory {
            return Err(AllocError);
        }
        self.next = x;
        self.top = self.top.max(x);
        Ok(())
    }

    /// The octets below `x` are acknowledged.
    pub fn take_ack(&mut self, x: u32)
        requires low { self.old.una ≤ x }
        requires high { x ≤ self.old.top }
        ensures { self.new ≡ acknowledged x self.old }
    {
        self.una = x;
        self.next = self.next.max(x);
        self.ranges.drop_below(x);
    }

    /// The octets of a block are SACKed, and whether one of them is new (RFC 2018, section 5). Those below `una` don't
    /// count, and where the block's start isn't below its end nothing is.
    ///
    /// # Errors
    /// Out of memory: nothing more is SACKed then, and later calls answer it too.
    pub fn mark(&mut self, block: Span) -> Result<bool, AllocError>
        requires { block.end ≤ self.old.top }
        ensures ok { OnOk result (self.new ≡ with_sacked_block block self.old) }
        ensures new { IfOk result (λ new. new ≡ has_new block self.old) }
        ensures err { OnErr result (self.new ≡ without_memory self.old) }
        ensures again { self.old.out_of_memory ≡ true → IsErr result }
    {
        if self.out_of_memory {
            return Err(AllocError);
        }
        let first = self.una.max(block.start);
        if block.end <= first {
            return Ok(false);
        }
        let inserted = self.ranges.insert(first, block.end);
        if inserted.is_err() {
            self.out_of_memory = true;
        }
        inserted
    }

    /// Nothing is SACKed any more (RFC 2018, section 5).
    pub fn clear_marks(&mut self)
        ensures { self.new ≡ with_none_sacked self.old }
    {
        self.ranges.clear();
    }

    /// The maximal runs of SACKed octets, in ascending order.
    pub fn sacked_spans(&self) -> &[Span]
        ensures { AreRuns self.now result.now }
    {
        self.ranges.as_slice()
    }

    /// Moves `next` up past octets that are SACKed.
    pub fn advance_next_past_sacked(&mut self)
        ensures { self.new ≡ past_sacked_octets self.old }
    {
        self.next = first_unsacked_within_or_end(&self.ranges, self.next, self.top);
    }

    /// The octets to send again from `x`: up to the next SACKed one, SMSS octets at most, up to `top` at most. There
    /// are none where `x` is SACKed or `top`.
    pub fn run_at(&self, x: u32) -> Span
        requires low { self.now.una ≤ x }
        requires high { x ≤ self.now.top }
        ensures { result ≡ run_at x self.now }
    {
        let most = (x + u32::from(self.smss)).min(self.top);
        Span {
            start: x,
            end: first_sacked_within_or_end(&self.ranges, x, most),
        }
    }

    /// IsLost (RFC 6675, section 4): DupThresh runs of SACKed octets or more lie above `x`, or more than
    /// (DupThresh - 1) * SMSS of them.
    pub fn is_lost(&self, x: u32) -> bool
        ensures { result ≡ is_lost x self.now }
    {
        if x >= self.top {
            return false;
        }
        let first = self.una.max(x + 1);
        count_sacked_octets_and_runs_from(&self.ranges, self.una, first, self.top).shows_loss(
            self.smss,
        )
    }

    /// How many SACKed octets lie above `x`, and how many runs of them wholly above it (RFC 6675, section 4, IsLost).
    pub fn sacked_octets_and_runs_above(&self, x: u32) -> SackedAbove
        requires low { self.now.una ≤ x }
        requires high { x ≤ self.now.top }
        ensures octets { result.octets ≡ sacked_above x self.now }
        ensures runs { result.runs ≡ runs_above x self.now }
    {
        count_sacked_octets_and_runs_from(&self.ranges, self.una, x + 1, self.top)
    }

    /// How many octets from `una` on and below `top` SACK blocks reported.
    pub fn sacked_octets(&self) -> u32
        ensures value { result ≡ sacked_octets self.now }
        ensures small { result ≤ 2 ^ 31 }
    {
        self.ranges.octets
    }

    /// How many octets that were sent are neither acknowledged nor SACKed.
    pub fn undelivered_octets(&self) -> u32
        ensures { result ≡ undelivered_octets self.now }
    {
        (self.top - self.una).saturating_sub(self.sacked_octets())
    }

    /// The number after the highest octet that isn't SACKed and is lost (RFC 6675, section 4, IsLost), 0 where none is:
    /// those below it are lost too.
    pub fn after_last_lost_octet_or_zero(&self) -> u32
        ensures { result ≡ lost_edge self.now }
    {
        after_last_lost_octet_or_zero(&self.ranges, self.una, self.top, self.smss)
    }

    /// Pipe (RFC 6675, section 4): of the octets sent that aren't SACKed, one for each that isn't lost and one for each
    /// below `high_rxt`, the number after the octet HighRxt.
    pub fn pipe(&self, high_rxt: u32) -> u32
        ensures { result ≡ pipe high_rxt self.now }
    {
        count_pipe(&self.ranges, self.una, self.top, self.smss, high_rxt)
    }

    /// NextSeg's rule 3 (RFC 6675, section 4): the first octet from `high_rxt` on, the number after the octet HighRxt,
    /// that isn't SACKed and lies below one that is.
    pub fn find_unsacked_octet_by_nextseg_rule_3(&self, high_rxt: u32) -> Option<u32>
        ensures { result ≡ find_unsacked_octet_by_nextseg_rule_3 high_rxt self.now }
    {
        let from = self.una.max(high_rxt);
        if from >= self.top {
            return None;
        }
        let x = first_unsacked_within_or_end(&self.ranges, from, self.top);
        if first_sacked_within_or_end(&self.ranges, x, self.top) < self.top {
            Some(x)
        } else {
            None
        }
    }

    /// NextSeg's rule 1 (RFC 6675, section 4): the first octet of rule 3 that is lost.
    pub fn next_lost(&self, high_rxt: u32) -> Option<u32>
        ensures { result ≡ next_lost high_rxt self.now }
    {
        let x = self.find_unsacked_octet_by_nextseg_rule_3(high_rxt)?;
        if self.is_lost(x) { Some(x) } else { None }
    }

    /// NextSeg's rule 4 (RFC 6675, section 4): the segment that ends with the last octet that isn't SACKed, of SMSS
    /// octets at most, from `una` on and after the SACKed octets before it; none where all are SACKed.
    pub fn rescue(&self) -> Option<Span>
        ensures { result ≡ rescue self.now }
    {
        let end = after_last_unsacked_within_or_start(&self.ranges, self.una, self.top);
        if end == self.una {
            return None;
        }
        let low = self.una.max(end.saturating_sub(u32::from(self.smss)));
        let start = after_last_sacked_within_or_start(&self.ranges, low, end - 1);
        Some(Span { start, end })
    }

    /// The same scoreboard once more.
    ///
    /// # Errors
    /// Out of memory, now or in an earlier call.
    pub fn copy(&self) -> Result<Board, AllocError>
        ensures ok { IfOk result (λ copy. copy ≡ self.now) }
        ensures again { self.now.out_of_memory ≡ true → IsErr result }
    {
        if self.out_of_memory {
            return Err(AllocError);
        }
        Ok(Board {
            smss: self.smss,
            una: self.una,
            next: self.next,
            top: self.top,
            end: self.end,
            ranges: self.ranges.copy()?,
            out_of_memory: false,
        })
    }
}
