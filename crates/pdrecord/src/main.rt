//! The program that records scripts: hands its arguments and streams to `program`.
//!
//! `run_arguments_with_file_access` is the whole program but for its streams. It reads its arguments
//! (`RecordOptions`), and records the input or, one after the other, the scripts of files. A
//! `ScriptInput` is what was read, without the lines of a trace. `RecordMode` chooses how it is
//! recorded: whole or with a trace (`pd_record`), or by the least change (`pd_mend`). An `Outcome`
//! is a recording's octets or the lines of a refusal.
//!
//! ```text
//!     input --> ScriptInput --RecordMode--> record, or mend_script --> Outcome
//!       a recording: output, status 0
//!       a refusal: standard error, status 1
//!       a fault, whenever it comes: standard error, status 2
//!     of files, recordings and refusals both go to the output, each below its file's name
//! ```
//!
//! The octets that are written and the status with which the program ends: `FinishesRecording` for
//! an input (specs/RecordProgram.antt), `FinishesFiles` for files (specs/FileSections.antt).
//!
//! Why it is so:
//! - The modules are part of the program and no library of their own, since nothing else uses them.
//! - Files are opened by a `FileSource`. The program's is `HostFiles`, of which nothing is claimed,
//!   so contracts cover the output, whatever the files hold.
//! - Lines of a trace are left out as they are read, so that a trace of a trace is the same.
//!   Refusals name the lines of the input as it was given, so `ScriptInput` keeps their numbers.
//! - It explains a refusal by the cause that `pd_cause` finds in a run, in the same terms
//!   (`stop_cause`), so that a script that isn't recorded is explained as a row is.
#![tactic(auto)]

mod file_sections;
mod file_source;
mod host_files;
mod mend_outcome;
mod outcome;
mod program;
mod record_options;
mod script_input;
mod stop_cause;
mod trace_text;

use host_files::HostFiles;
use pd_protocol::{arguments, write_arguments_unreadable_and_return_exit};
use program::{PROGRAM, run_arguments_with_file_access};
use std::process::ExitCode;

fn main(rt: HostRuntime) -> ExitCode {
    let exit = match arguments(&rt) {
        Ok(arguments) => {
            let arguments = arguments.as_slice();
            run_arguments_with_file_access(
                rt.alloc(),
                arguments,
                &mut rt.stdin(),
                &HostFiles::new(&rt),
                &mut rt.stdout(),
                &mut rt.stderr(),
            )
        }
        Err(error) => write_arguments_unreadable_and_return_exit(PROGRAM, &error, &mut rt.stderr()),
    };
    ExitCode::from(exit.status)
}
