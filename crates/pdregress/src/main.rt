//! The program: hands the real arguments and streams to the whole program of `pd_cli`.
//!
//! All else is in `pd_cli`, over any arguments, reader and writers, where contracts say what is written
//! and with which status it ends. This is the one place where the program meets its process: the
//! arguments of the call, standard input, output and error, the threads, and the exit status.
//!
//! Why it is so:
//! - Of the streams of a process a contract can say little, so nothing is decided here. `main`
//!   promises nothing; runs of the built program (tests/cases/runs) show that it hands in its arguments
//!   and streams and gives the status.
//! - `pdrecord` is a program of its own, since it has no book and no threads. The code that both need is in
//!   `pd_protocol`.
#![tactic(auto)]

use pd_cli::{PROGRAM, arguments, run, write_arguments_unreadable_and_return_exit};
use std::process::ExitCode;

fn main(rt: HostRuntime) -> ExitCode {
    let exit = match arguments(&rt) {
        Ok(words) => {
            let words = words.as_slice();
            run(
                &rt,
                rt.alloc(),
                words,
                &mut rt.stdin(),
                &mut rt.stdout(),
                &mut rt.stderr(),
            )
        }
        Err(error) => write_arguments_unreadable_and_return_exit(PROGRAM, &error, &mut rt.stderr()),
    };
    ExitCode::from(exit.status)
}
