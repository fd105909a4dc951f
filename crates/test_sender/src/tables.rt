//! Runs the rows of tables. A table has packets, each a row, or lists of calls, each a row that begins with `list`
//! and the rows of its calls. A line `== TITLE` ends it.
use crate::output::OutputText;
use crate::packets::run_packet;
use crate::rows::RowReader;
use crate::scoreboard_calls::ScoreboardCalls;
use std::alloc::Global;
use std::fs;
use std::rt::Files;

/// The calls of the rows, the output, and how many packets or lists the present table has so far.
#[derive(Drop)]
pub struct SenderTables {
    alloc: Global,
    pub output: OutputText,
    pub scoreboard_calls: ScoreboardCalls,
    run: u64,
    differing: u64,
    /// Whether the last one differs.
    differs: bool,
}

impl SenderTables {
    pub fn new(alloc: Global) -> SenderTables {
        SenderTables {
            alloc,
            output: OutputText::new(alloc),
            scoreboard_calls: ScoreboardCalls::new(alloc),
            run: 0,
            differing: 0,
            differs: false,
        }
    }

    /// Runs the tables of a file.
    pub fn run_tables_of_file(&mut self, rt: &(impl Files + AllocGlobal), name: &str) {
        match fs::read_to_string(rt, name) {
            Ok(rows) => self.run_rows(rows.as_str()),
            Err(_) => self.output.is_whole = false,
        }
    }

    fn run_rows(&mut self, rows: &str) {
        for row in rows.lines() {
            self.take(row);
        }
    }

    /// Makes the call of a row.
    fn take(&mut self, written: &str) {
        let mut row = RowReader::new(written);
        match row.word() {
            "#" => self.push_output_line(row.take_all_words_left()),
            "==" => self.end(row.take_all_words_left()),
            "packet" => {
                self.count_packet_or_list();
                run_packet(self.alloc, &mut row, &mut self.output);
            }
            "list" => {
                self.count_packet_or_list();
                self.scoreboard_calls.begin(&mut row);
            }
            call => self.scoreboard_calls.make(call, &mut row),
        }
        row.expect_word("the end of the row", "");
        if let Some(what) = row.difference {
            self.note(what, written);
        }
    }

    fn push_output_line(&mut self, line: &str) {
        self.output.push_str(line);
        self.output.push_str("\n");
    }

    /// A packet or a list begins.
    fn count_packet_or_list(&mut self) {
        self.run = self.run.wrapping_add(1);
        self.differs = false;
    }

    /// Notes a difference in a row. The first difference of a list is printed, and no later one.
    fn note(&mut self, what: &str, row: &str) {
        if self.differs {
            return;
        }
        self.differs = true;
        self.differing = self.differing.wrapping_add(1);
        self.output.number(self.run);
        self.output.push_str(" differs in ");
        self.output.push_str(what);
        self.output.push_str(": ");
        self.output.push_str(row);
        self.output.push_str("\n");
    }

    /// Says how many there are, and how many of them differ.
    fn end(&mut self, title: &str) {
        self.output.number(self.run);
        self.output.push_str(" ");
        self.output.push_str(title);
        self.output.push_str(", ");
        self.output.number(self.differing);
        self.output.push_str(" differ\n");
        self.run = 0;
        self.differing = 0;
    }
}
