//! The lines of the input: each a case, which is printed again with its result.
use crate::comparison::Comparison;
use crate::damage::change_everywhere;
use crate::make_text::{line_list, text};
use crate::octet_buffer::{OctetBuffer, split_at_mark};
use crate::reparse_check::{compare_edited, edit_often};
use crate::token_reader::{TokenReader, saturating_value_of_digits};
use pd_text::LineEdit;
use std::rt::Files;
use std::{fs, str};

/// Carries out a line of the input; an empty one and one with `#` in front say nothing.
pub fn run_case(rt: &(impl Files + AllocGlobal), comparison: &mut Comparison, line: &[u8]) {
    if let [] | [b'#', ..] = line {
        return;
    }
    let (command, rest) = split_at_mark(line, b':');
    let rest = rest.get(1..).unwrap_or(&[]);
    let (kind, numbers) = split_at_mark(command, b' ');
    comparison.output.add(line);
    comparison.output.add(b" ->");
    if kind.starts_with(b"edit") || kind.starts_with(b"script") {
        check_script_of_file(rt, comparison, kind, numbers, rest);
    } else {
        check_text_of_row(comparison, kind, rest);
    }
    comparison.output.add(b"\n");
}

/// Checks the script of a file.
fn check_script_of_file(
    rt: &(impl Files + AllocGlobal),
    comparison: &mut Comparison,
    kind: &[u8],
    numbers: &[u8],
    rest: &[u8],
) {
    let (name, insert) = split_at_mark(rest, b' ');
    match fs::read(rt, str::from_utf8(name).unwrap_or("")) {
        Ok(script) => check_script_damaged_or_edited(
            comparison,
            kind,
            numbers,
            script.as_slice(),
            insert,
        ),
        Err(_) => comparison.stop(),
    }
}

/// Checks a script and each way to cut or change it, or edits it as these numbers say.
fn check_script_damaged_or_edited(
    comparison: &mut Comparison,
    kind: &[u8],
    numbers: &[u8],
    script: &[u8],
    insert: &[u8],
) {
    let (first, second) = split_at_mark(numbers, b' ');
    let (first, second) = (
        saturating_value_of_digits(first, 10) as usize,
        saturating_value_of_digits(second, 10) as usize,
    );
    if kind.starts_with(b"script") {
        comparison.compare(script);
        comparison.put_reading();
        change_everywhere(comparison, script);
    } else if kind.starts_with(b"edits") {
        edit_often(comparison, script, first);
    } else {
        check_edit(comparison, script, first, second, insert);
    }
}

/// Edits a script.
fn check_edit(
    comparison: &mut Comparison,
    script: &[u8],
    from: usize,
    remove: usize,
    insert: &[u8],
) {
    match line_list(comparison.alloc, insert) {
        Ok(insert) => {
            let edit = LineEdit {
                from,
                remove,
                insert,
            };
            check_edited(comparison, script, &edit);
        }
        Err(_) => comparison.stop(),
    }
}

/// Reads an edited script again, and says how many first lines the edit left and how many events are kept.
fn check_edited(comparison: &mut Comparison, script: &[u8], edit: &LineEdit) {
    match text(comparison.alloc, script) {
        Ok(old) => match old.apply(edit) {
            Ok(new) => {
                compare_edited(comparison, &old, &new);
                comparison.output.add_number(b"", old.same_front(&new));
                comparison.output.add_number(b"", comparison.last_kept);
            }
            Err(_) => comparison.stop(),
        },
        Err(_) => comparison.stop(),
    }
}

/// Reads a text both ways, and says of it what is asked.
fn check_text_of_row(comparison: &mut Comparison, kind: &[u8], row: &[u8]) {
    let mut octets = OctetBuffer::new(comparison.alloc);
    if kind.starts_with(b"many") {
        let (event, rest) = split_at_mark(row, b' ');
        octets.add_row_times(4_096, event);
        octets.add_row_times(1, rest);
    } else {
        octets.add_row_times(1, row);
    }
    compare_and_put_as_asked(comparison, kind, octets.octets.as_slice());
    comparison.output.is_short |= octets.is_short;
}

fn compare_and_put_as_asked(comparison: &mut Comparison, kind: &[u8], text: &[u8]) {
    comparison.compare(text);
    if kind.starts_with(b"tokens") {
        put_kinds(&mut comparison.output, text);
    } else if kind.starts_with(b"steps") {
        comparison.put_steps();
    } else if kind.starts_with(b"reads") || kind.starts_with(b"many") {
        comparison.put_reading();
    } else {
        comparison.stop();
    }
}

/// Says the kinds of a text's tokens, by their names.
fn put_kinds(output: &mut OctetBuffer, text: &[u8]) {
    let mut items = TokenReader {
        rest: text,
        line: 1,
    };
    for _item in 0..text.len() {
        let token = items.next();
        if token.text.is_empty() {
            return;
        }
        output.add(b" ");
        output.add(token.kind.name().as_bytes());
    }
}
