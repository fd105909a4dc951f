//! The program that records: one script in, its recording out; or the scripts of files, one after the other.
ghost use Rattle.std.specs.Prelude.{◌≡◌, ◌≢◌, ◌⊎◌, ℕ, List, [], Some, IfOk, IfErr, IfSome, map, take, true};
ghost use Rattle.std.specs.Io.KnownBytes.{Appends};
ghost use Rattle.pd_protocol.specs.SettingsText.{settings_in};
ghost use Rattle.pd_protocol.specs.WriterOutput.{ExitsRefused, WritesTo};
ghost use Rattle.pd_protocol.specs.OptionTable.{settings_text};
ghost use Rattle.pdrecord.specs.RecordProgram.{Comes, Ends, FinishesRecording, IsOutcome, IsUnmade, IsWhole};
ghost use Rattle.pdrecord.specs.RecordArguments.{pdrecord, mode_chosen, files_named, refusals};
ghost use Rattle.pdrecord.specs.FileSections.{EndsAfter, FinishesFiles, file_fault_line};
ghost use Rattle.pd_protocol.specs.ChosenOptions.{names_of};

use crate::file_sections::{FileFault, record_and_write_files};
use crate::file_source::{FileSource, NoFiles};
use crate::mend_outcome::outcome_of_mending;
use crate::outcome::{Outcome, refused_outcome_with_explanation};
use crate::record_options::{RecordMode, RecordOptions, parse_record_options};
use crate::script_input::ScriptInput;
use crate::trace_text::recording_octets;
use pd_protocol::{
    Exit, FAULT_STATUS, InputStream, ProgramFault, ServeFault, settings_from_toml,
    write_all_or_false, write_all_without_flush, write_clap_error_to_err_and_return_fault_exit,
    write_fault_and_return_fault_exit,
};
use pd_record::{RecordError, record_script_text};
use pd_settings::Settings;
use pd_text::Lines;
use std::alloc::Global;
use std::convert::AsStr;
use std::io::Write;

/// The program's own name, under which it reports its faults.
pub const PROGRAM: &str = "pdrecord";

/// The status where the script isn't recorded.
const NOT_RECORDED: u8 = 1;

/// Runs the program that records on its arguments, of which the first is its own name, where no files are. Where `clap` refuses
/// them, and for `--help`, it prints its own text on `err`, with the status 2.
pub fn run_arguments_without_file_access<S: AsStr, R: InputStream, W: Write, E: Write>(
    alloc: Global,
    arguments: &[S],
    reader: &mut R,
    out: &mut W,
    err: &mut E,
) -> Exit
    ensures taken { let arguments = map S.text arguments.now in
        let input = R.remaining reader.old in
        refusals arguments ≡ [] → files_named arguments ≡ [] → FinishesRecording (R.has_failed reader.new) result (settings_text pdrecord arguments) (mode_chosen arguments) input (W.contents out.old) (W.contents out.new) (E.contents err.old) (E.contents err.new) }
    ensures refused { refusals (map S.text arguments.now) ≢ [] → ExitsRefused result (W.contents out.old) (W.contents out.new) }
{
    run_arguments_with_file_access(alloc, arguments, reader, &NoFiles, out, err)
}

/// The same where files are.
pub fn run_arguments_with_file_access<
    S: AsStr,
    R: InputStream,
    Q: InputStream + Drop,
    F: FileSource<Q>,
    W: Write,
    E: Write,
>(alloc: Global, arguments: &[S], reader: &mut R, files: &F, out: &mut W, err: &mut E) -> Exit
    ensures taken { let arguments = map S.text arguments.now in
        let input = R.remaining reader.old in
        refusals arguments ≡ [] → files_named arguments ≡ [] → FinishesRecording (R.has_failed reader.new) result (settings_text pdrecord arguments) (mode_chosen arguments) input (W.contents out.old) (W.contents out.new) (E.contents err.old) (E.contents err.new) }
    ensures files { let arguments = map S.text arguments.now in
        refusals arguments ≡ [] → files_named arguments ≢ [] → FinishesFiles (settings_in (settings_text pdrecord arguments)) (mode_chosen arguments) (F.octets_in files.now) (files_named arguments) result (W.contents out.old) (W.contents out.new) (E.contents err.old) (E.contents err.new) }
    ensures refused { refusals (map S.text arguments.now) ≢ [] → ExitsRefused result (W.contents out.old) (W.contents out.new) }
{
    match parse_record_options(alloc, arguments) {
        Ok(options) => record_named_files_or_input(alloc, &options, reader, files, out, err),
        Err(error) => write_clap_error_to_err_and_return_fault_exit(alloc, PROGRAM, &error, err),
    }
}

/// Records what the options choose: the scripts of files, or else the input.
fn record_named_files_or_input<
    R: InputStream,
    Q: InputStream + Drop,
    F: FileSource<Q>,
    W: Write,
    E: Write,
>(
    alloc: Global,
    options: &RecordOptions<'_>,
    reader: &mut R,
    files: &F,
    out: &mut W,
    err: &mut E,
) -> Exit
    ensures input { let input = R.remaining reader.old in
        names_of options.now.files.items ≡ [] → FinishesRecording (R.has_failed reader.new) result options.now.settings.now options.now.mode input (W.contents out.old) (W.contents out.new) (E.contents err.old) (E.contents err.new) }
    ensures files { names_of options.now.files.items ≢ [] → FinishesFiles (settings_in options.now.settings.now) options.now.mode (F.octets_in files.now) (names_of options.now.files.items) result (W.contents out.old) (W.contents out.new) (E.contents err.old) (E.contents err.new) }
{
    if options.files.is_empty() {
        run_on_input(alloc, options, reader, out, err)
    } else {
        run_on_files(alloc, options, files, out, err)
    }
}

/// Records the input and writes the recording, or reports why there is none.
fn run_on_input<R: InputStream, W: Write, E: Write>(
    alloc: Global,
    options: &RecordOptions<'_>,
    reader: &mut R,
    out: &mut W,
    err: &mut E,
) -> Exit
    ensures { let input = R.remaining reader.old in
        FinishesRecording (R.has_failed reader.new) result options.now.settings.now options.now.mode input (W.contents out.old) (W.contents out.new) (E.contents err.old) (E.contents err.new) }
{
    let end = record_input(alloc, options, reader);
    exit_with_outcome(end, out, err)
}

/// Records the scripts of files, and writes what came of each.
fn run_on_files<R: InputStream + Drop, F: FileSource<R>, W: Write, E: Write>(
    alloc: Global,
    options: &RecordOptions<'_>,
    files: &F,
    out: &mut W,
    err: &mut E,
) -> Exit
    ensures { FinishesFiles (settings_in options.now.settings.now) options.now.mode (F.octets_in files.now) (names_of options.now.files.items) result (W.contents out.old) (W.contents out.new) (E.contents err.old) (E.contents err.new) }
{
    match settings_from_toml(alloc, options.settings) {
        Ok(settings) => {
            let names = options.files.as_slice();
            let end = record_and_write_files(alloc, &settings, options.mode, names, files, out);
            exit_after_files(end, err)
        }
        Err(fault) => write_fault_and_return_fault_exit(PROGRAM, err, fault),
    }
}

/// Ends a run over files.
fn exit_after_files<E: Write>(end: Result<bool, FileFault<'_>>, err: &mut E) -> Exit
    ensures { EndsAfter end.entry result (E.contents err.old) (E.contents err.new) }
{
    match end {
        Ok(are_all_recorded) => Exit {
            status: if are_all_recorded { 0 } else { NOT_RECORDED },
            stderr_ok: true,
        },
        Err(stop) => exit_with_file_fault(stop, err),
    }
}

/// Ends a run at a fault with a file, and reports it.
fn exit_with_file_fault<E: Write>(stop: FileFault<'_>, err: &mut E) -> Exit
    ensures status { result.status ≡ 2 }
    ensures stderr { WritesTo result.stderr_ok (E.contents err.old) (E.contents err.new) (file_fault_line stop.entry.name.now stop.entry.fault) }
{
    if !write_all_or_false(err, b"pdrecord: ") {
        return Exit {
            status: FAULT_STATUS,
            stderr_ok: false,
        };
    }
    write_fault_and_return_fault_exit(stop.name, err, ProgramFault::Serving(stop.fault))
}

/// Ends a run: writes a recording, or reports why there is none.
fn exit_with_outcome<W: Write, E: Write>(
    end: Result<Outcome, ProgramFault>,
    out: &mut W,
    err: &mut E,
) -> Exit
    ensures { Ends end result (W.contents out.old) (W.contents out.new) (E.contents err.old) (E.contents err.new) }
{
    match end {
        Ok(Outcome::Recorded(octets)) => match write_all_without_flush(out, octets.as_slice()) {
            Ok(()) => Exit {
                status: 0,
                stderr_ok: true,
            },
            Err(fault) => write_fault_and_return_fault_exit(
                PROGRAM,
                err,
                ProgramFault::Serving(fault),
            ),
        },
        Ok(Outcome::Refused(line)) => Exit {
            status: NOT_RECORDED,
            stderr_ok: write_all_or_false(err, line.as_slice()),
        },
        Err(fault) => write_fault_and_return_fault_exit(PROGRAM, err, fault),
    }
}

/// Records the input.
fn record_input<R: InputStream>(
    alloc: Global,
    options: &RecordOptions<'_>,
    reader: &mut R,
) -> Result<Outcome, ProgramFault>
    ensures { IfSome (R.remaining reader.old) (Comes (R.has_failed reader.new) (settings_in options.now.settings.now) options.now.mode result) }
{
    let settings = settings_from_toml(alloc, options.settings)?;
    let input = ScriptInput::read(alloc, reader)?;
    let outcome = outcome_of_recording_by_mode(alloc, &input, &settings, options.mode)?;
    Ok(outcome)
}

/// The outcome of a script that was read.
///
/// # Errors
/// `Differs` and `OutOfMemory`.
pub fn outcome_of_recording_by_mode(
    alloc: Global,
    input: &ScriptInput,
    settings: &Settings,
    mode: RecordMode,
) -> Result<Outcome, ServeFault>
    ensures outcome { IfOk result (λ outcome. IsOutcome settings.now mode input.now.lines outcome) }
    ensures only { IfErr result IsUnmade }
{
    let Some(lines) = &input.lines else {
        return refused_outcome_with_explanation(alloc, RecordError::TooLarge, input, settings);
    };
    match mode {
        RecordMode::Whole => record_whole(alloc, input, lines, settings, false),
        RecordMode::Traced => record_whole(alloc, input, lines, settings, true),
        RecordMode::Minimal(drop) => outcome_of_mending(alloc, input, lines, settings, drop),
    }
}

/// The outcome of a text that is recorded whole, with a trace or without.
fn record_whole(
    alloc: Global,
    input: &ScriptInput,
    lines: &Lines,
    settings: &Settings,
    with_trace: bool,
) -> Result<Outcome, ServeFault>
    ensures outcome { IfOk result (IsWhole settings.now with_trace lines.now) }
    ensures only { IfErr result IsUnmade }
{
    match record_script_text(alloc, lines, settings, with_trace) {
        Ok(recording) => Ok(Outcome::Recorded(recording_octets(alloc, &recording, with_trace)?)),
        Err(refusal) => refused_outcome_with_explanation(alloc, refusal, input, settings),
    }
}
