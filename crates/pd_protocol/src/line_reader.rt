//! Lines off the front of a reader, which is handed in with each call and read a block at a time.
ghost use Rattle.std.specs.Prelude.{◌≡◌, ◌⊎◌, ◌+◌, ◌≤◌, ◌<◌, ◌++◌, [], ℕ, List, length, take, drop, true, OnOk, IfOk, IfErr, IfSome, IfNone, if◌then◌else◌};
ghost use Rattle.std.specs.Bool.{OnTrue, OnFalse};
ghost use Rattle.std.specs.Io.KnownBytes.{Consumes, IsAtEnd};
ghost use Rattle.std.specs.Str.Lines.{strip_carriage_return};
ghost use Rattle.pd_protocol.specs.Input.{IfKnown, to_come, work_left, Spends, IsCaused};
ghost use Rattle.pd_protocol.specs.LinePieces.{NoNewline, CutsPiece, Cuts, KeepsLine, Gave, Stops};
ghost use Rattle.pd_protocol.specs.NextLines.{TakesLine, IsOfLine, IsLine, IsIo};

use crate::faults::ServeFault;
use crate::input_stream::InputStream;
use memchr::memchr;
use std::alloc::{AllocError, Global};
use std::marker::Model;
use std::mem::replace;

/// How many octets one read may give at most.
const MAX_READ: usize = 4_096;

/// How many reads one run may make at most.
const MAX_READS: u32 = 1_048_576;

/// A line that was taken off the input, without its newline and a carriage return before that.
#[derive(Drop)]
pub enum NextLine {
    Whole(Vec<u8>),
    /// It was longer than the limit, and is passed by.
    Long,
    /// There is no further line.
    End,
}

/// The octets that were read and not yet used, and how many reads are left.
#[derive(Drop)]
pub struct LineReader {
    /// The octets of the last read, at most 4,096.
    block: Vec<u8>,
    /// How many octets of it were used.
    used: usize,
    /// How many reads may still be made.
    reads: u32,
    /// The room of a line that was given back.
    line: Vec<u8>,
}

impl Model for LineReader {
    ghost use Rattle.std.specs.Prelude.{List, ℕ, drop, ◌≤◌, length};

    ghost Value = { List ℕ × ℕ };

    ghost view = { λ i. (drop i.used i.block.items, i.reads) };

    ghost invariant = { λ i. i.used ≤ length i.block.items };
}

impl LineReader {
    /// Nothing was read, and 1,048,576 reads are left.
    pub fn new(alloc: Global) -> LineReader
        ensures { result ≡ ([], 1048576) }
    {
        LineReader {
            block: Vec::new(alloc),
            used: 0,
            reads: MAX_READS,
            line: Vec::new(alloc),
        }
    }

    /// Takes one line. The octets of one that is longer than the limit are dropped as they come.
    ///
    /// # Errors
    /// `Read` where a read fails or 1,048,576 were made; `OutOfMemory` where a growth is refused.
    pub fn next_line_or_long_or_end<R: InputStream>(
        &mut self,
        alloc: Global,
        reader: &mut R,
        limit: usize,
    ) -> Result<NextLine, ServeFault>
        requires { limit ≤ 65536 }
        ensures line { let old = to_come self.old (R.remaining reader.old) in
            let new = to_come self.new (R.remaining reader.new) in
            IfOk result (λ taken. IfKnown (TakesLine limit taken) old new) }
        ensures octets { IfOk result IsOfLine }
        ensures less { IfOk result (λ _. work_left self.new < work_left self.old) }
        ensures reads { IfOk result (λ taken. IsLine taken → IfKnown (Spends self.old self.new) (R.remaining reader.old) (R.remaining reader.new)) }
        ensures only { IfErr result IsIo }
        ensures held { IfErr result (λ fault. fault ≡ ServeFault.Read → NoNewline self.old.0) }
        ensures cause { IfErr result (IsCaused (R.has_failed reader.new) self.old self.new (R.remaining reader.old)) }
    {
        let (line, found) = self.read_capped_line(alloc, reader, limit + 2)?;
        Ok(classify_line_as_whole_long_or_end(line, found, limit))
    }

    /// The line that comes next, without its newline, where it lies whole in what was read.
    #[inline(always)]
    pub fn peek_next_line_if_buffered(&self) -> Option<&[u8]>
        ensures some { IfSome result (λ line. CutsPiece line.now true self.now.0 (drop (length line.now + 1) self.now.0)) }
        ensures none { IfNone result (NoNewline self.now.0) }
    {
        let left = &self.block[self.used..];
        match find_newline(left) {
            Some(n) => Some(&left[..n]),
            None => None,
        }
    }

    /// Passes by so many octets that were read.
    #[inline(always)]
    pub fn consume(&mut self, octets: usize)
        requires { octets ≤ length self.old.0 }
        ensures left { self.new.0 ≡ drop octets self.old.0 }
        ensures reads { self.new.1 ≡ self.old.1 }
    {
        self.used += octets;
    }

    /// Takes back a line that was taken, so that the next one takes no room of its own.
    pub fn recycle(&mut self, line: Vec<u8>)
        ensures { self.new ≡ self.old }
    {
        self.line = line;
    }

    /// An empty line, in the room of one that was given back.
    fn recycled_line(&mut self, alloc: Global) -> Vec<u8>
        ensures line { result.items ≡ [] }
        ensures same { self.new ≡ self.old }
    {
        let mut line = replace(&mut self.line, Vec::new(alloc));
        line.clear();
        line
    }

    /// Reads one line with its newline, or the last one; what is beyond so many octets is dropped.
    fn read_capped_line<R: InputStream>(
        &mut self,
        alloc: Global,
        reader: &mut R,
        cap: usize,
    ) -> Result<(Vec<u8>, bool), ServeFault>
        ensures line { let old = to_come self.old (R.remaining reader.old) in
            let new = to_come self.new (R.remaining reader.new) in
            IfOk result (λ r. KeepsLine cap r.0.items r.1 old new) }
        ensures less { IfOk result (λ _. work_left self.new < work_left self.old) }
        ensures gave { IfOk result (λ r. IfKnown (Gave r.1 self.old.1 self.new.1) (R.remaining reader.old) (R.remaining reader.new)) }
        ensures only { IfErr result IsIo }
        ensures held { IfErr result (λ fault. fault ≡ ServeFault.Read → NoNewline self.old.0) }
        ensures cause { IfErr result (IsCaused (R.has_failed reader.new) self.old self.new (R.remaining reader.old)) }
    {
        let mut line = self.recycled_line(alloc);
        loop {
            if self.take_octets_up_to_newline_capped(&mut line, cap)? {
                return Ok((line, true));
            }
            if !self.refill_if_input_remains(reader)? {
                return Ok((line, false));
            }
        }
    }

    /// Moves what is before the first newline to the line, as far as it fits. The newline goes.
    fn take_octets_up_to_newline_capped(
        &mut self,
        line: &mut Vec<u8>,
        cap: usize,
    ) -> Result<bool, ServeFault>
        requires { length line.old.items ≤ cap }
        ensures piece { IfOk result (λ found. (piece : List ℕ) × CutsPiece piece found self.old.0 self.new.0 × (line.new.items ≡ take cap (line.old.items ++ piece))) }
        ensures reads { self.new.1 ≡ self.old.1 }
        ensures less { IfOk result (λ found. work_left self.new + (if found then 1 else 0) ≤ work_left self.old) }
        ensures room { length line.new.items ≤ cap }
        ensures only { IfErr result (λ fault. fault ≡ ServeFault.OutOfMemory) }
    {
        if let Some(piece) = self.peek_next_line_if_buffered() {
            let octets = piece.len() + 1;
            extend_capped(line, piece, cap)?;
            self.consume(octets);
            return Ok(true);
        }
        extend_capped(line, &self.block[self.used..], cap)?;
        self.used = self.block.len();
        Ok(false)
    }

    /// Reads once more, where nothing is left, and so one read fewer may be made. False says that the input has ended.
    fn refill_if_input_remains<R: InputStream>(
        &mut self,
        reader: &mut R,
    ) -> Result<bool, ServeFault>
        requires { self.old.0 ≡ [] }
        ensures more { IfOk result (λ _. Consumes (R.remaining reader.old) (R.remaining reader.new) self.new.0) }
        ensures end { IfOk result (λ more. OnFalse more (IsAtEnd (R.remaining reader.new) × (self.new.0 ≡ []))) }
        ensures some { IfOk result (λ more. OnTrue more (0 < length self.new.0)) }
        ensures one { IfOk result (λ _. self.new.1 + 1 ≡ self.old.1) }
        ensures less { IfOk result (λ _. work_left self.new < work_left self.old) }
        ensures only { IfErr result IsIo }
        ensures cause { IfErr result (Stops (R.has_failed reader.new) self.old.1 self.new.1) }
    {
        if self.reads == 0 {
            return Err(ServeFault::Read);
        }
        self.reads -= 1;
        self.used = 0;
        self.block.resize(MAX_READ, 0)?;
        let n = match reader.read_block(&mut self.block) {
            Ok(n) => n,
            Err(_) => return Err(ServeFault::Read),
        };
        self.block.truncate(n);
        Ok(n > 0)
    }
}

/// Where the first newline stands.
fn find_newline(octets: &[u8]) -> Option<usize>
    ensures some { let s = octets.now in
        IfSome result (λ n. (n < length s) × CutsPiece (take n s) true s (drop (n + 1) s)) }
    ensures none { IfNone result (NoNewline octets.now) }
{
    memchr(b'\n', octets)
}

/// Adds the octets that fit.
fn extend_capped(line: &mut Vec<u8>, piece: &[u8], cap: usize) -> Result<(), AllocError>
    requires { length line.old.items ≤ cap }
    ensures line { OnOk result (line.new.items ≡ take cap (line.old.items ++ piece.now)) }
    ensures room { length line.new.items ≤ cap }
{
    let room = cap - line.len();
    if piece.len() <= room {
        line.extend_from_slice(piece)
    } else {
        line.extend_from_slice(&piece[..room])
    }
}

/// The line that was taken, where these first octets were kept of it, or of the last one.
fn classify_line_as_whole_long_or_end(line: Vec<u8>, found: bool, limit: usize) -> NextLine
    ensures line { (whole old new : List ℕ) → NoNewline whole → line.items ≡ take (limit + 2) whole → Cuts whole found old new → TakesLine limit result old new }
    ensures octets { NoNewline line.items → IsOfLine result }
{
    let mut line = line;
    if found {
        strip_carriage_return(&mut line);
        if line.len() <= limit {
            return NextLine::Whole(line);
        }
        return NextLine::Long;
    }
    if line.len() == 0 {
        return NextLine::End;
    }
    if line.len() <= limit {
        return NextLine::Whole(line);
    }
    NextLine::Long
}

/// A line without a carriage return at its end.
#[inline(always)]
pub fn without_carriage_return(line: &[u8]) -> &[u8]
    ensures { result.now ≡ strip_carriage_return line.now }
{
    match line {
        [front @ .., b'\r'] => front,
        _ => line,
    }
}

/// Drops one carriage return at the end.
fn strip_carriage_return(line: &mut Vec<u8>)
    ensures { line.new.items ≡ strip_carriage_return line.old.items }
{
    let octets = without_carriage_return(line.as_slice()).len();
    line.truncate(octets);
}
