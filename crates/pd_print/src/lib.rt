//! Packets, answers and moments as octets of the script language.
//!
//! `render_packet_event` writes an event in which a packet arrives or leaves (`Direction`), and
//! `render_sent_segment_event` one of a segment that was sent, with every field written
//! (`script_packet_of_segment`). `render_answer` writes the result of a call, `render_time` and
//! `render_seconds_with_six_decimals` times. `PacketParts` has the parts of a packet apart, for a
//! caller that puts each into a column. A function that begins with `put_` adds octets to others.
//!
//! The text that is written is read as it was meant. Wherever the octets are the rest of a line of a text,
//! the grammar reads just that value: `IsReadAs` (specs/RoundTrip.antt), for all that the language
//! can write (`FitsTime`, `FitsPacket`, `FitsSegment`). A segment agrees in each field with the
//! packet that is written of it: the law `law_printed_packet_agrees_with_segment`.
//!
//! Why it is so:
//! - Clauses `octets` say which octets are written, and clauses `back` how the grammar reads them.
//!   So nobody has to hold a format against the grammar to believe that a packet that is shown, or
//!   a line that is put into a script, is the one that was meant.
//! - `IsReadAs` is about the rest of a line, since octets that follow could make the last token
//!   longer.
//! - `render_time` writes no more decimals than a time takes, as people write scripts;
//!   `render_seconds_with_six_decimals` always writes six.
#![tactic(auto)]

mod answers;
mod digits;
mod laws;
mod option_texts;
mod packet_texts;
mod parts;
mod sent_packets;
mod times;

pub use answers::{put_answer, render_answer};
pub use laws::{law_event_line_is_one_event_script, law_printed_packet_agrees_with_segment};
pub use packet_texts::{Direction, put_event, render_packet_event};
pub use parts::{PacketParts, render_packet_parts};
pub use sent_packets::{render_sent_segment_event, script_packet_of_segment};
pub use times::{put_time, render_seconds_with_six_decimals, render_time};
