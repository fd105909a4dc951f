//! Verdicts, jobs and reports as they are written in answers.
use crate::output::{AnswerForm, AnswerText};
use crate::values::write_settings;
use pd_book::{Job, Report, Row};
use pd_run::{Kind, Verdict};
use pd_text::Lines;

/// The text after the line of an event that failed.
fn text_after_failed_line(kind: Kind) -> &'static str {
    match kind {
        Kind::Time => ", Time)",
        Kind::Flags => ", Flags)",
        Kind::Seq => ", Seq)",
        Kind::Ack => ", Ack)",
        Kind::Win => ", Win)",
        Kind::Options => ", Options)",
        Kind::Result => ", Result)",
        Kind::Missing => ", Missing)",
        Kind::Backwards => ", Backwards)",
    }
}

/// The class of a verdict, in full and in short, its number, and what follows that in full.
fn written_parts_of_verdict(verdict: Verdict) -> (&'static str, &'static str, usize, &'static str) {
    match verdict {
        Verdict::Pass(events) => ("Pass(", "pass ", events, ")"),
        Verdict::Fail(line, kind) => ("Fail(", "fail ", line, text_after_failed_line(kind)),
        Verdict::Syntax(line) => ("Syntax(", "syntax ", line, ")"),
        Verdict::Unsupported(line) => ("Unsupported(", "unsupported ", line, ")"),
        Verdict::Limit(line) => ("Limit(", "limit ", line, ")"),
    }
}

pub fn write_verdict(output: &mut AnswerText, verdict: Verdict) {
    let (full, short, number, after) = written_parts_of_verdict(verdict);
    match output.form {
        AnswerForm::Short => output.count(short, number as u64, ""),
        AnswerForm::Full => output.count(full, number as u64, after),
    }
}

/// Says the verdict of a run, and how many steps it took.
pub fn write_run(output: &mut AnswerText, verdict: Verdict, steps: u64) {
    write_verdict(output, verdict);
    output.count(", ", steps, " steps");
}

/// Says each script and its verdict, with its text and the settings or without.
pub fn write_report(output: &mut AnswerText, report: &Report, is_whole: bool) {
    if is_whole {
        write_settings(output, &report.settings());
    }
    for row in report.rows() {
        write_row(output, row, is_whole);
    }
}

/// Says a script's name, and its verdict or `pending`, with its text or without.
fn write_row(output: &mut AnswerText, row: &Row, is_whole: bool) {
    output.push_octets(row.name.as_slice());
    output.push_str(" ");
    match row.verdict {
        Some(verdict) => write_verdict(output, verdict),
        None => output.push_str("pending"),
    }
    output.push_str(", ");
    if is_whole {
        write_lines(output, row.text.lines());
        output.push_str(", ");
    }
}

/// Says how many verdicts are owed; `end` where nobody counts them.
pub fn write_owed(output: &mut AnswerText, owed: Option<usize>) {
    match owed {
        Some(owed) => output.count("", owed as u64, " owed"),
        None => output.push_str("end"),
    }
}

/// Says a job's number and script.
fn write_job_number_and_script(output: &mut AnswerText, job: &Job) {
    output.count("", job.number(), " ");
    output.push_octets(job.name().as_slice());
    output.push_str(", ");
}

/// Writes a job's number, script and lines, and its tolerance unless the form is short.
pub fn write_start(output: &mut AnswerText, job: &Job) {
    write_job_number_and_script(output, job);
    output.count("", job.text().lines().len() as u64, " lines");
    match output.form {
        AnswerForm::Short => {}
        AnswerForm::Full => output.count(", ", job.settings().tolerance_us, " us"),
    }
}

/// Says a job in whole: its number, script, settings and text.
pub fn write_job(output: &mut AnswerText, job: &Job) {
    write_job_number_and_script(output, job);
    write_settings(output, &job.settings());
    write_lines(output, job.text().lines());
}

/// Says the lines of a text, parted by ` | `.
pub fn write_lines(output: &mut AnswerText, lines: &Lines) {
    for place in 0..lines.len() {
        write_line(output, place, lines.line(place + 1));
    }
}

/// Says a line at its place, from 0 on.
pub fn write_line(output: &mut AnswerText, place: usize, line: Option<&[u8]>) {
    if place != 0 {
        output.push_str(" | ");
    }
    output.push_octets(line.unwrap_or(b"(none)"));
}
