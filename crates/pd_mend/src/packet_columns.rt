//! Where the fields of an awaited packet stand on its line.
use crate::tokens::{Columns, EventToken, EventTokens, octets_in_columns};

/// Where the fields of an awaited packet stand on its line.
#[derive(Clone, Copy)]
pub struct PacketColumns {
    pub time: Columns,
    pub flags: Columns,
    pub start: Columns,
    pub end: Columns,
    pub length: Columns,
    /// The acknowledgment number, if it is written.
    pub ack: Option<Columns>,
    /// The window, if it is written.
    pub win: Option<Columns>,
    /// The options with their brackets, if they are written.
    pub options: Option<Columns>,
    /// Where the field before the options ends.
    pub before_options: usize,
}

/// Where a packet's fields stand.
pub fn find_columns_of_packet_fields(event: &EventTokens, octets: &[u8]) -> Option<PacketColumns> {
    let arrow = event.index_after_time();
    let first = index_of_first_number_after_arrow(event, arrow)?;
    let length = columns_if_token_is_number(event, first.saturating_add(4))?;
    let mut next = first.saturating_add(6);
    let mut before_options = event.get(first.saturating_add(5))?.columns.to;
    let ack = columns_of_number_if_after_word(event, octets, next, b"ack");
    if let Some(columns) = ack {
        before_options = columns.to;
        next = next.saturating_add(2);
    }
    let win = columns_of_number_if_after_word(event, octets, next, b"win");
    if let Some(columns) = win {
        before_options = columns.to;
        next = next.saturating_add(2);
    }
    Some(PacketColumns {
        time: event.time_columns(),
        flags: event.columns_between(arrow.saturating_add(1), first.saturating_sub(1)),
        start: columns_if_token_is_number(event, first)?,
        end: columns_if_token_is_number(event, first.saturating_add(2))?,
        length,
        ack,
        win,
        options: options_columns_if_at_token(event, next),
        before_options,
    })
}

/// The number of the first token after the arrow that is a number.
fn index_of_first_number_after_arrow(event: &EventTokens, arrow: usize) -> Option<usize> {
    for number in 0..event.tokens.len() {
        if number > arrow && event.get(number)?.is_integer_token() {
            return Some(number);
        }
    }
    None
}

fn columns_if_token_is_number(event: &EventTokens, number: usize) -> Option<Columns> {
    let token = event.get(number)?;
    if token.is_integer_token() {
        Some(token.columns)
    } else {
        None
    }
}

/// The number after a word, where that word stands.
fn columns_of_number_if_after_word(
    event: &EventTokens,
    octets: &[u8],
    number: usize,
    word: &[u8],
) -> Option<Columns> {
    let token = event.get(number)?;
    if octets_in_columns(octets, token.columns) == word {
        columns_if_token_is_number(event, number.saturating_add(1))
    } else {
        None
    }
}

/// The options, from a token on to the last one.
fn options_columns_if_at_token(event: &EventTokens, number: usize) -> Option<Columns> {
    let first: EventToken = event.get(number)?;
    if first.symbol == b'<' {
        Some(event.columns_between(number, event.tokens.len().saturating_sub(1)))
    } else {
        None
    }
}
