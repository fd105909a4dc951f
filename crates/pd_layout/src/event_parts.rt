//! Where the parts of an event stand in its text, found token by token.
use crate::spans::TextSpan;
use pd_lex::Place;

/// Where the parts of an event stand, as far as it was read.
#[derive(Clone, Copy)]
pub struct EventParts {
    /// The event, a call's note among it, or a header item.
    pub event: TextSpan,
    /// The time of a packet.
    pub time: TextSpan,
    /// A call up to `=`, without its time.
    pub call: TextSpan,
    /// The result of a call.
    pub result: TextSpan,
    /// The note of a call.
    pub note: Option<TextSpan>,
    current: TextPart,
    /// How many brackets are open.
    depth: usize,
}

/// The part of an event that was read last.
#[derive(Clone, Copy, PartialEq, Eq)]
pub(crate) enum TextPart {
    /// Its time, or a header item.
    Time,
    Packet,
    /// A call before its equals sign.
    Call,
    Equals,
    Result,
    Note,
}

impl EventParts {
    /// Nothing of an event whose first token is at a place.
    pub(crate) fn empty_at(place: Place) -> EventParts {
        let nothing = TextSpan {
            from: place,
            to: place,
        };
        EventParts {
            event: nothing,
            time: nothing,
            call: nothing,
            result: nothing,
            note: None,
            current: TextPart::Time,
            depth: 0,
        }
    }

    /// Those of a packet that stands in a line from a place up to an octet, its time up to another.
    pub(crate) fn of_packet_with_end_and_time_end(
        from: Place,
        time_to: usize,
        to: usize,
    ) -> EventParts {
        let up_to = |at: usize| TextSpan {
            from,
            to: Place {
                line: from.line,
                at,
            },
        };
        EventParts {
            event: up_to(to),
            time: up_to(time_to),
            current: TextPart::Packet,
            ..EventParts::empty_at(from)
        }
    }

    /// The part that was read last.
    pub(crate) fn part_of_last_token(&self) -> TextPart {
        self.current
    }

    /// Reads the next token: a symbol by its octet, a word by a letter.
    #[inline(always)]
    pub(crate) fn extend_part_by_token(&mut self, octet: u8, token: TextSpan) {
        match self.current {
            TextPart::Time => self.begin_packet_or_call_at_its_token(octet, token),
            TextPart::Packet => {}
            TextPart::Call => self.count_brackets_and_end_call_at_equals(octet, token),
            TextPart::Equals => {
                self.current = TextPart::Result;
                self.result = token;
            }
            TextPart::Result => self.begin_note_or_extend_result_by_token(octet, token),
            TextPart::Note => {
                if let Some(note) = &mut self.note {
                    note.to = token.to;
                }
            }
        }
        self.event.to = token.to;
    }

    /// Reads a token of a time, or the one after it.
    fn begin_packet_or_call_at_its_token(&mut self, octet: u8, token: TextSpan) {
        if matches!(octet, b'<' | b'>') {
            self.current = TextPart::Packet;
            self.time.to = self.event.to;
        } else if is_letter_or_underscore(octet) {
            self.current = TextPart::Call;
            self.call.from = token.from;
        }
    }

    /// Reads a token of a call before its result.
    fn count_brackets_and_end_call_at_equals(&mut self, octet: u8, token: TextSpan) {
        match octet {
            b'(' | b'[' | b'{' => self.depth = self.depth.saturating_add(1),
            b')' | b']' | b'}' => self.depth = self.depth.saturating_sub(1),
            b'=' if self.depth == 0 => {
                self.current = TextPart::Equals;
                self.call.to = token.to;
            }
            _ => {}
        }
    }

    /// Reads a token of a result, or the one after it.
    fn begin_note_or_extend_result_by_token(&mut self, octet: u8, token: TextSpan) {
        if octet == b'(' {
            self.current = TextPart::Note;
            self.note = Some(token);
        } else {
            self.result.to = token.to;
        }
    }
}

/// Whether an octet is a letter of a word, and no digit.
pub(crate) fn is_letter_or_underscore(octet: u8) -> bool {
    octet == b'_' || octet.is_ascii_alphabetic()
}
