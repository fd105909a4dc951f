//! The answer of a call, in the place of its written result.
use crate::failure_site::FailureSite;
use crate::line_mends::mend_replacing_event_line_by_one;
use crate::mend::Mend;
use crate::replacements::FieldEdits;
use crate::tokens::{Columns, EventTokens};
use pd_print::render_answer;
use pd_seg::Answer;
use std::alloc::AllocError;

/// Where the result of a call stands.
#[derive(Clone, Copy)]
struct ResultColumns {
    /// The result.
    result: Columns,
    /// Where the call ends, its note among it.
    end: usize,
    /// Whether it is an error.
    is_error: bool,
}

/// The call answered something else: its result is written anew. A note stays where both are errors, or both numbers.
///
/// # Errors
/// `AllocError` where a growth is refused.
pub fn mend_writing_answer_as_call_result(
    site: &FailureSite<'_>,
    answer: Answer,
) -> Result<Option<Mend>, AllocError> {
    let Some(field_columns) = result_columns(&site.own.tokens) else {
        return Ok(None);
    };
    let is_error = matches!(answer, Answer::Error(_));
    let columns = if is_error == field_columns.is_error {
        field_columns.result
    } else {
        Columns {
            from: field_columns.result.from,
            to: field_columns.end,
        }
    };
    let mut field_edits = FieldEdits::new(site.alloc, site.octets(), None);
    field_edits.replace_field(columns, render_answer(site.alloc, answer)?.as_slice())?;
    let line = field_edits.finish(field_columns.end)?;
    Ok(Some(mend_replacing_event_line_by_one(site.alloc, line.as_slice())?))
}

/// Where the result of a call stands: after an equals sign outside brackets.
fn result_columns(event: &EventTokens) -> Option<ResultColumns> {
    let equals = index_of_first_equals_outside_brackets(event)?;
    let first = event.get(equals.saturating_add(1))?;
    let last = event.tokens.len().saturating_sub(1);
    let mut to = first.columns.to;
    for number in equals.saturating_add(1)..=last {
        let token = event.get(number)?;
        if token.symbol == b'(' {
            break;
        }
        to = token.columns.to;
    }
    Some(ResultColumns {
        result: Columns {
            from: first.columns.from,
            to,
        },
        end: event.columns().to,
        is_error: first.symbol == b'-',
    })
}

/// The number of the first equals sign outside brackets.
fn index_of_first_equals_outside_brackets(event: &EventTokens) -> Option<usize> {
    let mut depth = 0usize;
    for number in 0..event.tokens.len() {
        match event.get(number)?.symbol {
            b'(' | b'[' | b'{' => depth = depth.saturating_add(1),
            b')' | b']' | b'}' => depth = depth.saturating_sub(1),
            b'=' if depth == 0 => return Some(number),
            _ => {}
        }
    }
    None
}
