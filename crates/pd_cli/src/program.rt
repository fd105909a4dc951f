//! The whole program, over arguments, a reader and two writers.
ghost use Rattle.std.specs.Prelude.{◌≡◌, ◌≢◌, ◌≤◌, ℕ, List, [], IfSome, map};
ghost use Rattle.pd_protocol.specs.ChosenOptions.{ReportOptions, report_options, report_options_of};
ghost use Rattle.pd_protocol.specs.OptionTable.{pdregress, settings_text, worker_count, refusals};
ghost use Rattle.pd_protocol.specs.WriterOutput.{WritesTo, ExitsRefused};
ghost use Rattle.pd_cli.specs.StartedJobs.{AreStartedBy};
ghost use Rattle.pd_cli.specs.StepLines.{FinishedJob, AreNumbered};
ghost use Rattle.pd_cli.specs.Observed.{WritesMore};
ghost use Rattle.pd_cli.specs.Reported.{AreReportedUnlessFailed};
ghost use Rattle.pd_cli.specs.Grammatical.{ServesAlone};
ghost use Rattle.pd_protocol.specs.Commands.{commands};
ghost use Rattle.pd_protocol.specs.Input.{HasCause};
ghost use Rattle.pd_cli.specs.Program.{end_of, status_of, stderr_of, Finishes, FinishesOutput};

use crate::laws::law_settle_reports_from_scratch;
use crate::local_handler::LocalHandler;
use crate::reporter::Reporter;
use crate::serve_commands::serve_commands_then_settle;
use crate::workers::serve;
use pd_book::{Book, law_verdicts_are_of_current_runs};
use pd_desk::OpenGate;
use pd_protocol::{
    Exit, FAULT_STATUS, InputStream, Options, ProgramFault, ServeFault, options,
    settings_from_toml, write_clap_error_to_err_and_return_fault_exit,
    write_fault_and_return_fault_exit,
};
use pd_settings::Settings;
use std::alloc::Global;
use std::convert::AsStr;
use std::io::Write;
use std::sync::Wait;
use std::thread::Threads;

/// The program's own name, by which it says its faults.
pub const PROGRAM: &str = "pdregress";

/// Runs the program on its arguments, of which the first is its own name. For arguments that `clap` refuses, and for
/// `--help`, it prints `clap`'s own text on `err`, with the status 2. It starts threads where the arguments ask for
/// workers, and no others.
pub fn run<H: Threads + Wait + Sync, S: AsStr, R: InputStream, W: Write, E: Write>(
    rt: &H,
    alloc: Global,
    words: &[S],
    reader: &mut R,
    out: &mut W,
    err: &mut E,
) -> Exit
    ensures taken { let words = map S.text words.now in
        let input = R.remaining reader.old in
        refusals words ≡ [] → Finishes (R.has_failed reader.new) result (worker_count words) (report_options words) (settings_text pdregress words) input (W.contents out.old) (W.contents out.new) (E.contents err.old) (E.contents err.new) }
    ensures output { let words = map S.text words.now in
        let input = R.remaining reader.old in
        refusals words ≡ [] → FinishesOutput (R.has_failed reader.new) result (worker_count words) (settings_text pdregress words) input (W.contents out.old) (W.contents out.new) }
    ensures refused { refusals (map S.text words.now) ≢ [] → ExitsRefused result (W.contents out.old) (W.contents out.new) }
{
    let chosen = match options(alloc, words) {
        Ok(options) => options,
        Err(error) => return write_clap_error_to_err_and_return_fault_exit(
            alloc, PROGRAM, &error, err,
        ),
    };
    if chosen.workers == 0 {
        return run_alone(alloc, &chosen, reader, out, err);
    }
    run_beside_workers(rt, alloc, &chosen, reader, out, err)
}

/// Runs the program without workers: it serves the input, reports what the options ask for, and prints at the end why it
/// doesn't go on. After a failed write it writes nothing more. It starts no thread.
pub fn run_alone<R: InputStream, W: Write, E: Write>(
    alloc: Global,
    options: &Options<'_>,
    reader: &mut R,
    out: &mut W,
    err: &mut E,
) -> Exit
    requires some { 1 ≤ options.now.cache }
    requires few { options.now.cache ≤ 1024 }
    ensures { let input = R.remaining reader.old in
        Finishes (R.has_failed reader.new) result 0 (report_options_of options.now) options.now.settings.now input (W.contents out.old) (W.contents out.new) (E.contents err.old) (E.contents err.new) }
{
    match settings_from_toml(alloc, options.settings) {
        Ok(settings) => {
            let (err, stderr_ok, end) = serve_input_and_report_jobs_to_err(
                alloc, options, settings, reader, out, err,
            );
            print_any_fault_and_make_exit(stderr_ok, end, err)
        }
        Err(fault) => write_fault_and_return_fault_exit(PROGRAM, err, fault),
    }
}

/// Serves the input alone and reports on a writer what the options ask for. It hands the writer back, with whether all was
/// written.
fn serve_input_and_report_jobs_to_err<'a, R: InputStream, W: Write, E: Write>(
    alloc: Global,
    options: &Options<'_>,
    settings: Settings,
    reader: &mut R,
    out: &mut W,
    err: &'a mut E,
) -> (&'a mut E, bool, Result<bool, ServeFault>)
    requires some { 1 ≤ options.now.cache }
    requires few { options.now.cache ≤ 1024 }
    ensures same_reference { result.0.ghost_name ≡ err.entry.ghost_name }
    ensures stderr { (jobs : List FinishedJob) × (lines : List ℕ) × AreNumbered 0 jobs × IfSome (R.remaining reader.old) (λ input. AreStartedBy settings result.2 (commands input) jobs) × AreReportedUnlessFailed result.1 (report_options_of options.now) jobs lines × WritesTo result.1 (E.contents err.old) (E.contents result.0.now) lines }
    ensures served { ServesAlone result.2 settings (R.remaining reader.old) (W.contents out.old) (W.contents out.new) }
    ensures cause { HasCause result.2 (R.has_failed reader.new) (R.remaining reader.old) }
{
    law_verdicts_are_of_current_runs();
    law_settle_reports_from_scratch();
    let mut at = LocalHandler {
        alloc,
        book: Book::new(alloc, options.cache, settings),
        observer: Reporter {
            alloc,
            err,
            options,
            stderr_ok: true,
        },
    };
    let end = serve_commands_then_settle(&mut at, reader, out);
    let LocalHandler { observer, .. } = at;
    let Reporter { err, stderr_ok, .. } = observer;
    (err, stderr_ok, end)
}

/// Runs the program with workers: it serves the input, and says at the end why it doesn't go on.
fn run_beside_workers<H: Threads + Wait + Sync, R: InputStream, W: Write, E: Write>(
    rt: &H,
    alloc: Global,
    options: &Options<'_>,
    reader: &mut R,
    out: &mut W,
    err: &mut E,
) -> Exit
    requires some { 1 ≤ options.now.workers }
    requires few { options.now.workers ≤ 64 }
    requires least { 1 ≤ options.now.cache }
    requires most { options.now.cache ≤ 1024 }
    ensures { let input = R.remaining reader.old in
        (report_options : ReportOptions) → Finishes (R.has_failed reader.new) result options.now.workers report_options options.now.settings.now input (W.contents out.old) (W.contents out.new) (E.contents err.old) (E.contents err.new) }
{
    let (cache, workers) = (options.cache, options.workers);
    match settings_from_toml(alloc, options.settings) {
        Ok(settings) => {
            let end = serve(rt, alloc, settings, cache, workers, reader, out, &OpenGate);
            print_any_fault_and_make_exit(true, end, err)
        }
        Err(fault) => write_fault_and_return_fault_exit(PROGRAM, err, fault),
    }
}

/// Ends a run that served its input, with whether all was written so far: says the fault of serving where there is one.
fn print_any_fault_and_make_exit<E: Write>(
    stderr_ok: bool,
    end: Result<bool, ServeFault>,
    err: &mut E,
) -> Exit
    ensures status { result.status ≡ status_of (end_of end) }
    ensures stderr { WritesMore stderr_ok result.stderr_ok (E.contents err.old) (E.contents err.new) (stderr_of (end_of end)) }
{
    match end {
        Ok(passed) => Exit {
            status: if passed { 0 } else { 1 },
            stderr_ok,
        },
        Err(fault) if stderr_ok => write_fault_and_return_fault_exit(
            PROGRAM,
            err,
            ProgramFault::Serving(fault),
        ),
        Err(_) => Exit {
            status: FAULT_STATUS,
            stderr_ok: false,
        },
    }
}
