//! Scripts of packetdrill, read from their tokens.
//!
//! `parse` reads a whole text. A `Parsed` has the `Header`, the events, and the line of the fault
//! if the text is no script. An `Event` has a `Time`, the end of a blocking call if one is written
//! (`BlockingEnd`), and an `Action`: a `Packet` that arrives or is expected to leave, a `Call`, a shell
//! command, or code. An `EventReader` reads one event after the other from any place of a text.
//!
//! A text is read as what the grammar gives for it, and the grammar gives one reading: `IsScriptOf`
//! (specs/Faults.antt), the law `law_parse_gives_the_only_grammatical_reading`. The fault is the first token at which no
//! script goes on: `IsFault`.
//!
//! Why it is so:
//! - The folder `specs` has the grammar twice. Grammar.antt, PacketGrammar.antt and Arguments.antt
//!   say which tokens spell an event: that is what one has to read to believe a promise.
//!   Reader.antt and the files whose names end in Reading say how a script is read from left to
//!   right with one token of lookahead, as the code does it. The law says that both give the same,
//!   so nobody has to believe the second form.
//! - An event is decided by the token after it, and isn't kept if that token begins none. The place
//!   of that token is the place after the event, so a caller that reads on begins at a token.
//!   Callers of `EventReader` and `next_event` count the events of a script themselves.
//! - A script keeps nothing that no rule reads: not the text of a header option or of a command.
//!   Other words are `Unknown`, other arguments `Other`, and the flags U, E, W and C one `other`. A
//!   number above 2^64 - 1 is kept as 2^64 - 1.
//! - Open brackets are kept in an `arrayvec`, so that depth costs no memory. The arguments of a
//!   call are kept in a `smallvec` of three, since most calls have no more.
#![tactic(auto)]

mod argument_builder;
mod brackets;
mod calls;
mod cursor;
mod event_reader;
mod expect;
mod header_reader;
mod lookahead;
mod names;
mod numbers;
mod packets;
mod parse_error;
mod parsed;
mod read_arguments;
mod read_events;
mod read_packets;
mod read_script;
mod script_events;
mod script_header;
mod script_laws;
mod timing;
mod token_tests;

pub use calls::{Argument, Arguments, Call, Constant, ErrorName, ExpectedResult, Function};
pub use event_reader::{EventReader, NextEvent, NextEventStatus, next_event};
pub use header_reader::read_header;
pub use packets::{
    OptionList, Options, Packet, PacketFlags, PacketOption, SackBlock, SackBlockList,
};
pub use parsed::Parsed;
pub use read_script::{MAX_EVENTS, parse};
pub use script_events::{Action, Event, Events};
pub use script_header::{Header, HeaderItem, HeaderKind};
pub use script_laws::{
    law_lexing_from_event_start_gives_same_items, law_parse_gives_the_only_grammatical_reading,
};
pub use timing::{BlockingEnd, Time};
