//! The output of serving with workers, compared with that of serving without.
use crate::serving::ServedOutput;

/// Whether what was served with workers is what was served without, where each report was settled: each line of a
/// settled report is the same, and a line of another one the same or pending.
pub fn is_served(served: &ServedOutput, alone: &ServedOutput, are_settled: &[bool]) -> bool {
    let is_same_end = match (served.passes, alone.passes) {
        (Some(passes), Some(wanted)) => passes == wanted,
        _ => false,
    };
    is_same_end
        && is_same_but_for_pending_lines(served.out.as_str(), alone.out.as_str(), are_settled)
}

fn is_same_but_for_pending_lines(out: &str, wanted: &str, are_settled: &[bool]) -> bool {
    let mut others = wanted.split("\n");
    let mut law_reports = 0usize;
    let mut is_same = true;
    for line in out.split("\n") {
        let other = others.next().unwrap_or("(nothing)");
        let is_settled = are_settled.get(law_reports).copied().unwrap_or(true);
        is_same = is_same
            && (line == other || (!is_settled && is_pending_form_of_line(line, other)));
        if other.starts_with("total ") {
            law_reports = law_reports.saturating_add(1);
        }
    }
    is_same && others.next().is_none() && law_reports == are_settled.len()
}

/// Whether a line is that of the same script, pending, or counts the same scripts.
fn is_pending_form_of_line(line: &str, other: &str) -> bool {
    let (name, standing) = halves(line);
    let (wanted, verdict) = halves(other);
    let is_count = name == "total" && halves(standing).0 == halves(verdict).0;
    name == wanted && (standing == "pending" || is_count)
}

/// The text before the first blank, and the text after it.
fn halves(line: &str) -> (&str, &str) {
    line.split_once(" ").unwrap_or((line, ""))
}
