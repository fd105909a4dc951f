//! The least change with which a script passes: its run is mended line by line, where it stops.
//!
//! `mend_script` gives a `Mended` text, or why there is none (`MendError`). A `Mender` makes one
//! mend after the other. A `FailureSite` is the event at which the run stopped, as it stands on its
//! line; `find_mend_by_stop_reason` finds a `Mend` by which it holds, and
//! `relation_of_oldest_sent_to_first_awaited` which awaited packet is which of those that were sent. `LineMap` gives the line of the given text from which each line comes.
//!
//! ```text
//!     text --run--> it passes and takes all packets, or awaits none ---------> Mended
//!      ^              | it fails at a line: FailureSite --> Mend --.
//!      |              | it passes and leaves packets --------------+--> an edit --apply--.
//!      |              | no mend helps ----------------------------------> Unmendable     |
//!      '---------------------------------------------------------------------------------'
//!     if lines turned out to move, the given text is mended once more with what is known of them
//! ```
//!
//! The text that comes out `IsMended` (specs/Mended.antt): edits lead to it, each of which is at a
//! stop or puts lines in (`IsMend`, specs/Mending.antt), it passes, and it takes all packets if it
//! awaits any. All other lines stay: the law `law_other_lines_stay`.
//!
//! Why it is so:
//! - Mends aren't a function of the client over `edit` and `--explain --json`: that would need a
//!   second account in Python of which packet is which and how a line is written anew in its
//!   columns, and `pdrecord` needs them, too. In Rattle a contract decides whether a text is
//!   mended.
//! - Which line is changed, and how, isn't proved, since every proposal is run.
//! - A mend goes from stop to stop, and isn't read off a whole recording. Which line is wrong, a
//!   time or an input after it, shows only in how far the script gets. That a line that was taken
//!   out and a packet that was put in are the same is known only at the end, so the text is mended
//!   again then, with the lines that move.
//! - A line that is put in before an input may change the input's time, since it counts from the
//!   line. That is one edit of two lines, with a contract of its own (`IsRetiming`): all after the
//!   time stays, octet for octet.
#![tactic(auto)]

mod alignment;
mod differences;
mod displaced;
mod event_line;
mod event_text;
mod expected_ahead;
mod failure_site;
mod input_gap;
mod laws;
mod leftovers;
mod line_map;
mod line_mends;
mod mend;
mod mend_error;
mod mend_loop;
mod mend_result;
mod mend_state;
mod mender;
mod missing_packet;
mod moved_lines;
mod packet_columns;
mod replacements;
mod rewrite_packet;
mod times;
mod tokens;
mod try_mend;

pub use laws::law_other_lines_stay;
pub use mend_error::{MendError, Unmendable};
pub use mend_loop::{Mended, mend_script};
