//! The arguments of the programs and their input: options, lines, commands, faults, and the text that is written of them.
//!
//! `arguments` gives the arguments of a call, and `options` reads those of `pdregress` into `Options`.
//! `settings_from_toml` reads the text of the settings. An `LineReader` takes lines off a reader
//! (`InputStream`) block by block, and `next_command` takes the next `Command`. A `ServeFault` or a
//! `ProgramFault` says why a program stops; `write_fault_and_return_fault_exit` and
//! `write_clap_error_to_err_and_return_fault_exit` write it and give the `Exit`.
//!
//! The commands of an input are defined on its octets alone, however its reader cuts them: `commands`
//! (specs/Commands.antt). Arguments are taken exactly as `clap`'s own clauses take them: `HasChosen`
//! (specs/ChosenOptions.antt).
//!
//! Why it is so:
//! - Two programs use it: `pdregress` by `pd_cli`, and `pdrecord`. So settings are read in one way,
//!   lines are taken off an input in one way, and a fault has one number and one text. It knows of
//!   no book, since `pdrecord` has none.
//! - A run makes a bounded number of reads, so that it ends for any reader, one that gives an octet
//!   a read and never an end, too.
//! - An `InputStream` says whether a read of it may have failed, so that a contract can say that
//!   the fault `Read` has a cause. Of standard input nothing is known; no read of octets in memory
//!   fails.
//! - The lines of a command are taken to their end even if they are over the limits of a text
//!   (`TextBuilder`), since the next command comes after them.
#![tactic(auto)]

mod command;
mod command_line;
mod exit;
mod faults;
mod input_stream;
mod line_reader;
mod numbers;
mod option_table;
mod output_stream;
mod parse_options;
mod program_arguments;
mod program_faults;
mod program_options;
mod settings_text;
mod text_builder;
mod verdicts;

pub use command::{Command, next_command, text_of_lines_or_none_if_over_limits};
pub use exit::{
    Exit, FAULT_STATUS, write_clap_error_to_err_and_return_fault_exit,
    write_fault_and_return_fault_exit,
};
pub use faults::ServeFault;
pub use input_stream::InputStream;
pub use line_reader::{LineReader, NextLine, without_carriage_return};
pub use option_table::toml_settings_text_option;
pub use output_stream::{write_all_or_false, write_all_without_flush};
pub use parse_options::{clap_error_for_arguments_already_refused, is_word_true, options};
pub use program_arguments::{arguments, write_arguments_unreadable_and_return_exit};
pub use program_faults::ProgramFault;
pub use program_options::{ExplainOptions, Options};
pub use settings_text::settings_from_toml;
pub use text_builder::TextBuilder;
pub use verdicts::{put_prefix_and_number, put_verdict};
