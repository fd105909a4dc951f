//! Compares the reader of scripts with a plain slow one, on scripts that are cut, shortened or changed at each octet, and
//! reading an edited script again with reading it whole.
//!
//! Each line of the input is a case: a text, or a file of `data`, and what is done with it. A
//! `Comparison` reads each text both ways, and keeps what differs. The slow reader is a `ReferenceParser`:
//! it keeps all ways to read what has come, token by token, and drops those that the next token
//! ends. Its `grammar` has each thing with all the ways to write it.
//!
//! Why it is so:
//! - The definitions of `pd_lex` and `pd_script` say what a script is, and the code is proved to
//!   follow them. This program tests the definitions: it was written from the tables of
//!   docs/SCRIPTS.md, and shares no rule with the reader.
//! - It is slow and plain on purpose, so that it can be held against the tables line by line.
#![tactic(auto)]

mod cases;
mod comparison;
mod damage;
mod editor;
mod grammar;
mod make_text;
mod octet_buffer;
mod parsed_lines;
mod reference_parser;
mod reparse_check;
mod spelling;
mod stepwise_parse;
mod token_checks;
mod token_reader;

use cases::run_case;
use comparison::{Comparison, STOPPED};
use std::process::ExitCode;
use std::rt::Files;

fn main(rt: HostRuntime) -> ExitCode {
    let mut comparison = Comparison::new(rt.alloc());
    compare_all(&rt, &mut comparison);
    comparison.put_totals();
    print(&rt, &mut comparison);
    let status = comparison.status();
    if status == STOPPED {
        let _ = eprintln!(rt; "test_parser: a line can't be carried out, or no memory is left");
    }
    ExitCode::from(status)
}

/// Carries out the lines of the input.
fn compare_all(rt: &(impl Input + Print + Files + AllocGlobal), comparison: &mut Comparison) {
    for line in rt.lines(rt.alloc()) {
        match line {
            Ok(line) => run_case(rt, comparison, line.as_bytes()),
            Err(_) => {
                comparison.stop();
                break;
            }
        }
        print(rt, comparison);
    }
}

/// Prints the output since the last time.
fn print(rt: &impl Print, comparison: &mut Comparison) {
    if rt.write_all(comparison.output.octets.as_slice()).is_err() {
        comparison.is_stopped = true;
    }
    comparison.output.octets.clear();
}
