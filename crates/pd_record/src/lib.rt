//! Recordings: a script's inputs with the sender's answers and packets, as a script that passes.
//!
//! `record_script_text` gives the `Recording` of a text: its lines, how many events it has and, for a
//! trace, a `TraceEntry` of each event that has the sender's state (`TraceSnapshot`). `RecordError` gives
//! the reason why there is none, and `find_recorder_state_stopped_on_line` where on a line recording
//! stops.
//!
//! ```text
//!     text --> events --> Recorder: the recording of each event, step by step
//!      |                     | no trace is asked for, these are the text's own events, and
//!      |                     | it has the layout of recordings: the text itself
//!      |                     v else
//!      '--> LayoutReader --> Writer: the lines --> read again: is_canonical_text_of_header_and_events --no--> Differs
//!                                                     '-- yes --> the recording
//! ```
//!
//! A recording is defined on the sender's rules alone: `recording_of` (specs/Recording.antt).
//! It is read as just these events, passes, and is a recording of itself: `IsRecording`
//! (specs/Answered.antt).
//!
//! Why it is so:
//! - A `Recorder` takes each step of the recording itself, as soon as it is known. So the events
//!   recorded so far always pass, and no second run has to show it.
//! - The next packet or answer of the sender is found on a copy (the module `preview`), since an
//!   event has its time and its result before its step is taken.
//! - A recording is read and compared before it is answered, and isn't proved right by how it was
//!   written.
//! - A text that is its own recording is answered as it is, so that a recording of a recording
//!   keeps its lines, however they were written.
#![tactic(auto)]

mod compose;
mod find_stop;
mod placed_script;
mod preview;
mod record_error;
mod recorded;
mod recorded_script;
mod recorder;
mod recording;
mod recording_text;
mod results;
mod unchanged;
mod writer;

pub use find_stop::{RecordingStop, find_recorder_state_stopped_on_line};
pub use record_error::RecordError;
pub use recorded::TraceSnapshot;
pub use recording::record_script_text;
pub use recording_text::{Recording, TraceEntry, TraceOrigin};
