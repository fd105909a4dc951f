//! Whether a text is read as a script, and laid out as recordings are.
ghost use Rattle.std.specs.Prelude.{◌≡◌, ◌↔◌, IfOk, IsTrue};
ghost use Rattle.pd_layout.specs.ReadAs.{AreSameEvents, IsReadAs, IsScript, kinds_of};
ghost use Rattle.pd_layout.specs.Canonical.{IsCanonical};

use crate::canonical::is_canonical;
use crate::equality::is_same_event_but_for_line;
use pd_script::{Event, Header, HeaderItem, HeaderKind, Parsed, parse};
use pd_text::Lines;
use std::alloc::{AllocError, Global};

/// Whether a text is read as a script with such a header and such events, but for their lines, and is laid out as recordings
/// are.
///
/// # Errors
/// `AllocError` where a growth is refused.
pub fn is_canonical_text_of_header_and_events(
    alloc: Global,
    lines: &Lines,
    header: &Header,
    events: &[Event],
) -> Result<bool, AllocError>
    ensures { IfOk result (λ canonical. IsTrue canonical ↔ IsReadAs header.now.items events.now lines.now × IsCanonical lines.now) }
{
    let parsed = parse(alloc, lines)?;
    if is_faultless_parse_of_header_and_events(&parsed, header, events) {
        is_canonical(
            alloc,
            lines,
            parsed.header.as_slice(),
            parsed.events.as_slice(),
        )
    } else {
        Ok(false)
    }
}

/// Whether what was read is a script with such a header and such events, but for their lines.
fn is_faultless_parse_of_header_and_events(
    parsed: &Parsed,
    header: &Header,
    events: &[Event],
) -> bool
    ensures { IsTrue result ↔ IsScript header.now.items events.now parsed.now }
{
    parsed.fault.is_none()
        && is_same_header_but_for_lines(parsed.header.as_slice(), header.as_slice())
        && are_same_events_but_for_lines(parsed.events.as_slice(), events)
}

/// Whether both say the same in the same order.
fn is_same_header_but_for_lines(one: &[HeaderItem], other: &[HeaderItem]) -> bool
    ensures { IsTrue result ↔ (kinds_of one.now ≡ kinds_of other.now) }
{
    one.len() == other.len()
        && one.iter().zip(other).all(|(mine, its)| is_same_header_kind_and_tolerance(
            mine.kind, its.kind,
        ))
}

/// Whether both are the same kind with the same number.
fn is_same_header_kind_and_tolerance(one: HeaderKind, other: HeaderKind) -> bool
    ensures { IsTrue result ↔ (one ≡ other) }
{
    match (one, other) {
        (HeaderKind::Tolerance(mine), HeaderKind::Tolerance(its)) => mine == its,
        (HeaderKind::OtherOption, HeaderKind::OtherOption)
        | (HeaderKind::Command, HeaderKind::Command) => true,
        _ => false,
    }
}

/// Whether both are the same events in the same order, but for their lines.
pub fn are_same_events_but_for_lines(one: &[Event], other: &[Event]) -> bool
    ensures { IsTrue result ↔ AreSameEvents one.now other.now }
{
    one.len() == other.len()
        && one
            .iter()
            .zip(other)
            .all(|(mine, its)| is_same_event_but_for_line(mine, its))
}
