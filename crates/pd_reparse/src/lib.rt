//! Reading an edited script again from the first event that the edit can have changed.
//!
//! `read` reads a whole text and gives a `Reading`: its header and events, each with what decided
//! it (`ParsedEvent`). That is its reach, the line of the token after it, and the place of this token.
//! `reread` takes the reading of an earlier text, and how many first lines are the same. It keeps
//! the events that these lines decide, and reads on from the place after the last of them.
//!
//! ```text
//!     lines that are the same         | lines that may differ
//!     event    event    event    event ...
//!     '--- reach within: kept --'  ^
//!                                  the place after the last kept event, from which it reads on
//! ```
//!
//! `reread` gives the reading of the whole new text, and keeps exactly `kept_of` events
//! (specs/Reading.antt). Without what decided its events, a reading is what `pd_script` parses: the
//! law `law_readings_are_scripts`. If the first lines don't decide an event, they decide none after it:
//! `ReachesRise`.
//!
//! Why it is so:
//! - The reach of an event counts, and not its own last line. The next token may still belong to it,
//!   as a note does, and decides whether it is kept at all.
//! - If the first lines decide no event, nothing is kept, not even the header, since an edit may
//!   change the header's last item.
//! - Events stand in a `SharedList`: in blocks that other lists share. A list of the first items of
//!   another shares the blocks that it keeps whole. It shares the last one if it keeps enough of
//!   it, and else copies these few items, so that an owner leaves at most half of a block idle. To
//!   copy all events at each edit would take a time that grows with the script. `pd_track` keeps
//!   its checkpoints in such a list, too.
#![tactic(auto)]

mod laws;
mod parsed_event;
mod reading;
mod reparse;
mod reread_result;
mod shared_list;

pub use laws::{
    law_equal_first_lines_keep_first_events, law_events_are_chained, law_readings_are_scripts,
};
pub use parsed_event::ParsedEvent;
pub use reading::Reading;
pub use reparse::{read, reread};
pub use reread_result::Reread;
pub use shared_list::{SharedBlock, SharedList, TryClone};
