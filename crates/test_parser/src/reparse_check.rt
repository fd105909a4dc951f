//! Reads edited texts again, and whole, and keeps what differs.
ghost use Rattle.std.specs.Prelude.{◌≡◌, IfOk};
ghost use Rattle.pd_reparse.specs.Reading.{reading_of};

use crate::comparison::Comparison;
use crate::editor::Editor;
use crate::make_text::text;
use crate::octet_buffer::OctetBuffer;
use pd_layout::is_same_event_but_for_line;
use pd_reparse::{ParsedEvent, Reading, Reread, read, reread};
use pd_script::{Header, HeaderItem, HeaderKind};
use pd_text::Lines;
use std::alloc::{AllocError, Global};

/// Edits a script so many times, again and again, from time to time from its beginning on.
pub fn edit_often(comparison: &mut Comparison, script: &[u8], edits: usize) {
    let mut before = OctetBuffer::new(comparison.alloc);
    before.add(script);
    let mut editor = Editor {
        state: 20_261_123,
        text: OctetBuffer::new(comparison.alloc),
    };
    for _edit in 0..edits {
        edit_once(comparison, before.octets.as_slice(), &mut editor);
        before.octets.clear();
        if editor.index(3) > 0 {
            before.add(editor.text.octets.as_slice());
        } else {
            before.add(script);
        }
    }
    comparison.output.is_short |= before.is_short | editor.text.is_short;
}

/// Edits a text, and compares.
fn edit_once(comparison: &mut Comparison, before: &[u8], editor: &mut Editor) {
    match text(comparison.alloc, before) {
        Ok(old) => {
            editor.edit(&old);
            compare_text(comparison, &old, editor.text.octets.as_slice());
        }
        Err(_) => comparison.stop(),
    }
}

fn compare_text(comparison: &mut Comparison, old: &Lines, octets: &[u8]) {
    match text(comparison.alloc, octets) {
        Ok(new) => compare_edited(comparison, old, &new),
        Err(_) => comparison.stop(),
    }
}

/// Reads a text, and an edited one again and whole; and after that the first text once more.
pub fn compare_edited(comparison: &mut Comparison, old: &Lines, new: &Lines) {
    match read(comparison.alloc, old) {
        Ok(before) => reread_and_compare(comparison, old, new, &before),
        Err(_) => comparison.stop(),
    }
}

fn reread_and_compare(comparison: &mut Comparison, old: &Lines, new: &Lines, before: &Reading)
    requires { before.now ≡ reading_of old.now }
{
    match read_again(comparison.alloc, old, new, before) {
        Ok(again) => {
            let same = old.same_front(new);
            comparison.count_edit_and_kept_events(again.kept);
            comparison.count_wrong_unless(again.kept == event_count_decided_by_front(before, same));
            compare_whole(comparison, new, &again.reading);
            compare_back(comparison, new, old, &again.reading, before);
        }
        Err(_) => comparison.stop(),
    }
}

/// Compares what was read again with what is read of the whole text.
fn compare_whole(comparison: &mut Comparison, new: &Lines, again: &Reading) {
    match read(comparison.alloc, new) {
        Ok(whole) => comparison.count_wrong_unless(is_same(&whole, again)),
        Err(_) => comparison.stop(),
    }
}

/// Reads the first text once more after the edited one, and compares with what was read of it.
fn compare_back(
    comparison: &mut Comparison,
    new: &Lines,
    old: &Lines,
    again: &Reading,
    before: &Reading,
)
    requires { again.now ≡ reading_of new.now }
{
    match read_again(comparison.alloc, new, old, again) {
        Ok(back) => {
            comparison.count_wrong_unless(
                back.kept == event_count_decided_by_front(again, new.same_front(old)),
            );
            comparison.count_wrong_unless(is_same(&back.reading, before));
        }
        Err(_) => comparison.stop(),
    }
}

/// Reads an edited text again, after what was read of the text before.
fn read_again(
    alloc: Global,
    old: &Lines,
    new: &Lines,
    before: &Reading,
) -> Result<Reread, AllocError>
    requires { before.now ≡ reading_of old.now }
    ensures { IfOk result (λ again. again.reading ≡ reading_of new.now) }
{
    // A look at a line shows that no line holds a newline.
    let _ = old.line(1);
    reread(alloc, before, new, old.same_front(new))
}

/// The number of events that the first lines decide.
fn event_count_decided_by_front(reading: &Reading, same: usize) -> usize {
    let mut count = 0usize;
    let events = reading.events();
    for i in 0..events.len() {
        if events.at(i).lookahead_line.unwrap_or(usize::MAX) <= same {
            count = count.saturating_add(1);
        }
    }
    count
}

/// Whether two readings agree in all that they hold.
fn is_same(one: &Reading, other: &Reading) -> bool {
    let (events, others) = (one.events(), other.events());
    let mut is_same = one.fault() == other.fault() && events.len() == others.len();
    for i in 0..events.len().min(others.len()) {
        is_same = is_same && is_same_parsed_event(events.at(i), others.at(i));
    }
    is_same && is_same_header(one.header(), other.header())
}

fn is_same_parsed_event(one: &ParsedEvent, other: &ParsedEvent) -> bool {
    one.lookahead_line == other.lookahead_line
        && one.after.line == other.after.line
        && one.after.at == other.after.at
        && one.event.line == other.event.line
        && is_same_event_but_for_line(&one.event, &other.event)
}

fn is_same_header(one: &Header, other: &Header) -> bool {
    let mut is_same = one.len() == other.len()
        && one.end().line == other.end().line
        && one.end().at == other.end().at;
    let (items, others) = (one.as_slice(), other.as_slice());
    for i in 0..items.len().min(others.len()) {
        is_same = is_same && is_same_item(items[i], others[i]);
    }
    is_same
}

fn is_same_item(one: HeaderItem, other: HeaderItem) -> bool {
    one.line == other.line
        && match (one.kind, other.kind) {
            (HeaderKind::Tolerance(mine), HeaderKind::Tolerance(its)) => mine == its,
            (HeaderKind::OtherOption, HeaderKind::OtherOption) => true,
            (HeaderKind::Command, HeaderKind::Command) => true,
            _ => false,
        }
}
