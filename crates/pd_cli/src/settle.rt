//! Settling: starts and their finishes by turns, until nothing is owed.
ghost use Rattle.std.specs.Prelude.{◌≡◌, Ok, IfOk, IfErr, OnOk};
ghost use Rattle.pd_book.specs.Turns.{TurnsSettle, StartsAreOutstanding};
ghost use Rattle.pd_cli.specs.Report.{rendered};
ghost use Rattle.pd_cli.specs.Output.{effect, report, all_pass};
ghost use Rattle.pd_cli.specs.Steps.{IsQuiet, Turns, SettlesTo, Fails};
ghost use Rattle.pd_cli.specs.Observed.{ObservesTurn, ObservesSettling, ObservesNumbered};

use crate::observer::JobObserver;
use crate::report_text::{RowKind, render};
use pd_book::{Book, BookFault, Report, law_settling_ends_with_none_pending, run_job};
use pd_protocol::{Command, ServeFault};
use pd_run::{Plain, Stepper};
use std::alloc::{AllocError, Global};

/// The book's laws of settling it; the function does nothing.
fn law_settling_holds_for_book(book: &Book)
    requires { IsQuiet book.now.history }
    ensures turns { TurnsSettle book.now.history.opening book.now.history.past }
    ensures starts { StartsAreOutstanding book.now.history }
{
    book.law_invariant();
    law_settling_ends_with_none_pending();
}

/// Starts and finishes one job, and gives it to an observer; false says that nothing is owed.
fn run_finish_observe_next_job_if_any<L: JobObserver>(
    alloc: Global,
    book: &mut Book,
    observer: &mut L,
) -> Result<bool, ServeFault>
    requires { IsQuiet book.old.history }
    ensures turns { Turns result book.old.history book.new.history }
    ensures observed { ObservesTurn L.observes result book.old.history observer.old observer.new }
{
    law_settling_holds_for_book(book);
    let job = match book.start() {
        Ok(Some(job)) => job,
        Ok(None) => return Ok(false),
        Err(BookFault::HistoryFull) => return Err(ServeFault::HistoryFull),
        Err(_) => return Err(ServeFault::OutOfMemory),
    };
    let mut stepper = Plain::new();
    match run_job(alloc, job, &mut stepper) {
        Ok(done) => {
            let _ruling = book.finish(&done).unwrap();
            observer.on_job_finished(&done, stepper.count())?;
            Ok(true)
        }
        Err(_) => Err(ServeFault::OutOfMemory),
    }
}

/// Settles a book, and gives an observer the job of each turn.
fn settle<L: JobObserver>(
    alloc: Global,
    book: &mut Book,
    observer: &mut L,
) -> Result<(), ServeFault>
    requires { IsQuiet book.old.history }
    ensures settles { SettlesTo result book.old.history book.new.history }
    ensures quiet { OnOk result (IsQuiet book.new.history) }
    ensures observed { ObservesSettling L.observes result book.old.history book.new.history observer.old observer.new }
{
    while run_finish_observe_next_job_if_any(alloc, book, observer)? {}
    Ok(())
}

/// The octets of the report as it stands, and whether each of its rows passes.
///
/// # Errors
/// `AllocError` where a growth is refused.
pub fn render_report_and_whether_all_pass(
    alloc: Global,
    book: &Book,
) -> Result<(Vec<u8>, bool), AllocError>
    ensures octets { IfOk result (λ shown. shown.0.items ≡ rendered (report book.now.history)) }
    ensures passed { IfOk result (λ shown. shown.1 ≡ all_pass (report book.now.history)) }
{
    let report = book.show()?;
    let octets = render(alloc, &report)?;
    Ok((octets, all_pass(&report)))
}

/// Settles a book, and gives its report as `show` does, and an observer each job.
///
/// # Errors
/// `HistoryFull` where the history has no room for a start; `OutOfMemory` where a start, a job, the observer or the report
/// finds no memory.
pub fn settle_then_render_and_whether_all_pass<L: JobObserver>(
    alloc: Global,
    book: &mut Book,
    observer: &mut L,
) -> Result<(Vec<u8>, bool), ServeFault>
    requires { IsQuiet book.old.history }
    ensures octets { IfOk result (λ shown. effect book.old.history Command.Settle ≡ Ok (shown.0.items, book.new.history)) }
    ensures passed { IfOk result (λ shown. shown.1 ≡ all_pass (report book.new.history)) }
    ensures quiet { OnOk result (IsQuiet book.new.history) }
    ensures err { IfErr result (λ fault. Fails fault book.old.history Command.Settle) }
    ensures observed { ObservesNumbered L.observes result book.old.history book.new.history observer.old observer.new }
{
    settle(alloc, book, observer)?;
    Ok(render_report_and_whether_all_pass(alloc, book)?)
}

/// Whether each row of a report passes.
pub fn all_pass(report: &Report) -> bool
    ensures { result ≡ all_pass report.now }
{
    report
        .rows()
        .iter()
        .all(|row| RowKind::Pass.includes_verdict(row.verdict))
}
