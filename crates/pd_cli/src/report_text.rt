//! The octets of a report.
ghost use Rattle.std.specs.Prelude.{◌≡◌, ◌++◌, IfOk, OnOk};
ghost use Rattle.pd_cli.specs.Report.{rendered, row_line, totals, totals_line, is_of, number};

use pd_book::{Report, Row};
use pd_protocol::{put_prefix_and_number, put_verdict};
use pd_run::Verdict;
use std::alloc::{AllocError, Global};

/// For how many octets of a row's line room is made.
const LINE_ROOM: usize = 24;

/// For how many of the totals.
const TOTALS_ROOM: usize = 96;

/// The octets of a report: a line for each script in order of adding, then a line of totals.
///
/// # Errors
/// `AllocError` where a growth is refused.
pub fn render(alloc: Global, report: &Report) -> Result<Vec<u8>, AllocError>
    ensures { IfOk result (λ octets. octets.items ≡ rendered report.now) }
{
    let room = report
        .rows()
        .len()
        .saturating_mul(LINE_ROOM)
        .saturating_add(TOTALS_ROOM);
    let mut out = Vec::with_capacity(alloc, room)?;
    for row in report.rows() {
        put_name_and_verdict_line(&mut out, row)?;
    }
    Totals::of_rows(report.rows()).put_line(&mut out)?;
    Ok(out)
}

/// Adds the line of a row.
fn put_name_and_verdict_line(out: &mut Vec<u8>, row: &Row) -> Result<(), AllocError>
    ensures { OnOk result (out.new.items ≡ out.old.items ++ row_line row.now) }
{
    out.extend_from_slice(row.name.as_slice())?;
    out.push(b' ')?;
    match row.verdict {
        Some(verdict) => put_verdict(out, verdict)?,
        None => out.extend_from_slice(b"pending")?,
    }
    out.push(b'\n')?;
    Ok(())
}

/// A class of rows, which the totals count.
#[derive(Clone, Copy, PartialEq, Eq)]
pub enum RowKind {
    Pass,
    Fail,
    Syntax,
    Unsupported,
    Limit,
    Pending,
}

impl RowKind {
    /// Whether a row with this verdict is of the class.
    pub fn includes_verdict(self, verdict: Option<Verdict>) -> bool
        ensures { result ≡ is_of self verdict }
    {
        match (self, verdict) {
            (RowKind::Pass, Some(Verdict::Pass(_))) => true,
            (RowKind::Fail, Some(Verdict::Fail(..))) => true,
            (RowKind::Syntax, Some(Verdict::Syntax(_))) => true,
            (RowKind::Unsupported, Some(Verdict::Unsupported(_))) => true,
            (RowKind::Limit, Some(Verdict::Limit(_))) => true,
            (RowKind::Pending, None) => true,
            _ => false,
        }
    }
}

/// How many rows there are, and how many of each class.
#[derive(Clone, Copy)]
struct Totals {
    /// How many rows there are.
    total: usize,
    /// How many pass.
    pass: usize,
    /// How many fail.
    fail: usize,
    /// How many are refused by the grammar.
    syntax: usize,
    /// How many have something that isn't run.
    unsupported: usize,
    /// How many are over a limit.
    limit: usize,
    /// How many are pending.
    pending: usize,
}

impl Totals {
    /// Those of rows, each of which is looked at once.
    fn of_rows(rows: &[Row]) -> Totals
        ensures { result ≡ totals rows.now }
    {
        let mut totals = Totals {
            total: rows.len(),
            pass: 0,
            fail: 0,
            syntax: 0,
            unsupported: 0,
            limit: 0,
            pending: 0,
        };
        for row in rows {
            match row.verdict {
                Some(Verdict::Pass(_)) => totals.pass += 1,
                Some(Verdict::Fail(..)) => totals.fail += 1,
                Some(Verdict::Syntax(_)) => totals.syntax += 1,
                Some(Verdict::Unsupported(_)) => totals.unsupported += 1,
                Some(Verdict::Limit(_)) => totals.limit += 1,
                None => totals.pending += 1,
            }
        }
        totals
    }

    /// Adds the line of the totals.
    fn put_line(self, out: &mut Vec<u8>) -> Result<(), AllocError>
        ensures { OnOk result (out.new.items ≡ out.old.items ++ totals_line self) }
    {
        put_prefix_and_number(out, b"total ", self.total)?;
        put_prefix_and_number(out, b" pass ", self.pass)?;
        put_prefix_and_number(out, b" fail ", self.fail)?;
        put_prefix_and_number(out, b" syntax ", self.syntax)?;
        put_prefix_and_number(out, b" unsupported ", self.unsupported)?;
        put_prefix_and_number(out, b" limit ", self.limit)?;
        put_prefix_and_number(out, b" pending ", self.pending)?;
        out.extend_from_slice(b"\n")
    }
}
