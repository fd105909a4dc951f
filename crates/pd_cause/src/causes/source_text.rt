//! The octets of an event as they are written in its text.
use pd_layout::{LayoutReader, TextSpan, put_text_span};
use pd_lex::Place;
use pd_text::Lines;
use std::alloc::{AllocError, Global};

/// The octets of an event as written.
#[derive(Drop)]
pub struct SourceText {
    /// The whole event, a call's note among it.
    pub event: Vec<u8>,
    /// The time of a packet.
    pub time: Vec<u8>,
    /// The result of a call.
    pub result: Vec<u8>,
}

/// The octets of the event at a place as written, which something follows at another one.
///
/// # Errors
/// `AllocError` where a growth is refused.
pub fn texts_of_event_its_time_and_its_result(
    alloc: Global,
    lines: &Lines,
    from: Place,
    until: Place,
) -> Result<SourceText, AllocError> {
    let parts = LayoutReader::new(alloc, lines, from)?
        .read_event(alloc, until)?
        .parts;
    Ok(SourceText {
        event: text_span_octets(alloc, lines, parts.event)?,
        time: text_span_octets(alloc, lines, parts.time)?,
        result: text_span_octets(alloc, lines, parts.result)?,
    })
}

/// The octets of an extent, lines parted by newlines.
fn text_span_octets(
    alloc: Global,
    lines: &Lines,
    text_span: TextSpan,
) -> Result<Vec<u8>, AllocError> {
    let mut out = Vec::new(alloc);
    put_text_span(&mut out, lines, text_span)?;
    Ok(out)
}
