//! The arguments with which a program is called.
ghost use Rattle.std.specs.Prelude.{◌≡◌, ◌≢◌, codes};
ghost use Rattle.std.specs.IoError.{error_kind};
ghost use Rattle.pd_protocol.specs.ProgramFaults.{fault_line, line_of};
ghost use Rattle.pd_protocol.specs.WriterOutput.{WritesTo};

use crate::exit::{
    Exit, FAULT_STATUS, write_fault_and_return_fault_exit, write_line_after_program_name_or_false,
};
use crate::faults::ServeFault;
use crate::program_faults::ProgramFault;
use std::env::Env;
use std::io::{ErrorKind, Write};
use std::{env, io};

/// The arguments of a call, of which the first is the program's own name.
///
/// # Errors
/// One of the kind `OutOfMemory` where a growth is refused; else why the arguments can't be read as text.
pub fn arguments<H: Env + AllocGlobal>(rt: &H) -> io::Result<Vec<String>> {
    let args = env::args(rt)?;
    Ok(args.collect::<Vec<String>>(rt.alloc())?)
}

/// Writes why the arguments of a call of the program of this name could not be read.
pub fn write_arguments_unreadable_and_return_exit<E: Write>(
    program: &str,
    error: &io::Error,
    err: &mut E,
) -> Exit
    ensures status { result.status ≡ 2 }
    ensures memory { let line = fault_line program.now (ProgramFault.Serving ServeFault.OutOfMemory) in
        error_kind error.now ≡ ErrorKind.OutOfMemory → WritesTo result.stderr_ok (E.contents err.old) (E.contents err.new) line }
    ensures unread { let line = line_of program.now (codes "the arguments can't be read as text") in
        error_kind error.now ≢ ErrorKind.OutOfMemory → WritesTo result.stderr_ok (E.contents err.old) (E.contents err.new) line }
{
    if error.kind() == ErrorKind::OutOfMemory {
        return write_fault_and_return_fault_exit(
            program,
            err,
            ProgramFault::Serving(ServeFault::OutOfMemory),
        );
    }
    let stderr_ok = write_line_after_program_name_or_false(
        program,
        err,
        "the arguments can't be read as text",
    );
    Exit {
        status: FAULT_STATUS,
        stderr_ok,
    }
}
