//! Tries the parts of the sender: packets as octets, the scoreboard with loss recovery, and the states that scripts lead to.
//! Runs the tables of the files of `data`, and then the scripts of the input.
//!
//! A `ScoreboardCalls` is a scoreboard with its congestion control, and the calls that rows make on them.
//! `SenderTables` reads the tables of a file and compares each answer with the row's. Then come the
//! scripts, each in one line: a stepper of its own notes the states through which the run leads,
//! and lets it go on with a copy after each event. The program prints its results, which have
//! to be the stored one.
//!
//! Why it is so:
//! - The scoreboard and congestion control are tried by themselves, below a connection, since a
//!   list of calls reaches states that few scripts reach.
//! - The results that rows want are worked out by hand, or by the second sender in tests/model, and
//!   not taken from the program. README.md has the rows.
//! - It calls the crates of the sender themselves and no book, so it is proved and built beside the
//!   crates of the report.
#![tactic(auto)]

mod hand_computed;
mod lines;
mod output;
mod packets;
mod read_back;
mod rows;
mod scoreboard_calls;
mod state_trace;
mod states;
mod tables;

use crate::hand_computed::{write_answers, write_times};
use crate::states::write_all_states;
use crate::tables::SenderTables;
use std::io;
use std::rt::Files;

fn main(rt: HostRuntime) -> io::Result<()> {
    let mut tables = SenderTables::new(rt.alloc());
    run_tables_and_scripts(&rt, &mut tables);
    tables.output.print(&rt)
}

/// Runs the tables and the scripts.
fn run_tables_and_scripts(rt: &(impl Input + Files + AllocGlobal), tables: &mut SenderTables) {
    tables.run_tables_of_file(rt, "worked.txt");
    write_answers(rt.alloc(), &mut tables.output);
    write_times(rt.alloc(), &mut tables.output);
    tables.run_tables_of_file(rt, "random_packets.txt");
    tables.run_tables_of_file(rt, "random_boards.txt");
    match io::read_to_string(rt.alloc(), rt.reader()) {
        Ok(scripts) => write_all_states(rt.alloc(), scripts.as_str(), &mut tables.output),
        Err(_) => tables.output.is_whole = false,
    }
}
