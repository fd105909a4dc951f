//! How a run of the program ends, at a fault and at arguments that are refused too.
ghost use Rattle.std.specs.Prelude.{◌≡◌};
ghost use Rattle.clap.specs.Words.{kind_of};
ghost use Rattle.pd_protocol.specs.ProgramFaults.{fault_line, line_of};
ghost use Rattle.pd_protocol.specs.WriterOutput.{WritesTo};

use crate::faults::ServeFault;
use crate::output_stream::write_all_or_false;
use crate::program_faults::ProgramFault;
use clap::Error;
use clap::error::ErrorKind;
use std::alloc::Global;
use std::io::Write;

/// How a run of the program ended.
#[derive(Clone, Copy, PartialEq, Eq)]
pub struct Exit {
    /// 0 where each row of the last report passes, 1 where one doesn't, 2 at a fault.
    pub status: u8,
    /// Whether all that was to be written is on standard error; false is the writer's fault.
    pub stderr_ok: bool,
}

/// The status at a fault.
pub const FAULT_STATUS: u8 = 2;

/// Writes `clap`'s message on arguments that it refuses to the program of this name.
pub fn write_clap_error_to_err_and_return_fault_exit<E: Write>(
    alloc: Global,
    program: &str,
    error: &Error,
    err: &mut E,
) -> Exit
    ensures status { result.status ≡ 2 }
    ensures memory { let line = fault_line program.now (ProgramFault.Serving ServeFault.OutOfMemory) in
        kind_of error.now ≡ ErrorKind.OutOfMemory → WritesTo result.stderr_ok (E.contents err.old) (E.contents err.new) line }
{
    if error.kind() != ErrorKind::OutOfMemory {
        if let Ok(text) = format!(in alloc; "{error}") {
            let stderr_ok = write_all_or_false(err, text.as_bytes());
            return Exit {
                status: FAULT_STATUS,
                stderr_ok,
            };
        }
    }
    write_fault_and_return_fault_exit(program, err, ProgramFault::Serving(ServeFault::OutOfMemory))
}

/// Ends a run of the program of this name at a fault: writes its line.
pub fn write_fault_and_return_fault_exit<E: Write>(
    program: &str,
    err: &mut E,
    fault: ProgramFault,
) -> Exit
    ensures status { result.status ≡ 2 }
    ensures stderr { WritesTo result.stderr_ok (E.contents err.old) (E.contents err.new) (fault_line program.now fault) }
{
    let stderr_ok = write_line_after_program_name_or_false(program, err, fault.number_and_name());
    Exit {
        status: FAULT_STATUS,
        stderr_ok,
    }
}

/// Writes a text after the name of a program, as a line.
pub(crate) fn write_line_after_program_name_or_false<E: Write>(
    program: &str,
    err: &mut E,
    text: &str,
) -> bool
    ensures { WritesTo result (E.contents err.old) (E.contents err.new) (line_of program.now text.now) }
{
    if !write_all_or_false(err, program.as_bytes()) {
        return false;
    }
    if !write_all_or_false(err, b": ") {
        return false;
    }
    if !write_all_or_false(err, text.as_bytes()) {
        return false;
    }
    write_all_or_false(err, b"\n")
}
