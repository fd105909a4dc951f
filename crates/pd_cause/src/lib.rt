//! Why a script's row isn't `pass`, and what a script that passes leaves.
//!
//! `explain_by_rerun_unless_pass` looks into the run where it stopped, or into the text where the
//! grammar refuses it. An `Explanation` has the verdict, its line and a `Cause`: a `Refusal` of the
//! grammar, the `RuleViolation` of a rule by which the script isn't run, or the `Failure` of an
//! event. `explain_job_unless_pass` explains a job that was run. `find_leftovers_if_passes` gives the
//! packets that a script that passes leaves (`Leftovers`).
//!
//! ```text
//!     a verdict
//!       | pass         --> Leftovers: the unmatched packets
//!       | syntax       --> Refusal: the token, and what could stand there
//!       | unsupported,
//!       | limit        --> RuleViolation: the rule, and the part of the text that it is about
//!       | fail         --> Failure: what differs, the sender's state, what it waits for,
//!                          the packets' origins, the segments that were dropped
//! ```
//!
//! The cause is that of the event, or of the text, that the verdict names: `IsCause`
//! (specs/Explained.antt). The origin of a packet is the input or the timer in whose step it was
//! put out, and nothing else: the law `law_packet_has_at_most_one_origin`.
//!
//! Why it is so:
//! - A run notes nothing for its explanation. It is run again when somebody asks for a reason, and
//!   a job is taken up from its last checkpoint, so mostly few events are run again (the module
//!   `resume`). So those who ask for no reason pay nothing for it.
//! - `pd_explain` writes causes as lines and as JSON. So a crate that needs the cause alone, as
//!   `pd_mend` does, is proved without them.
#![tactic(auto)]

mod causes;
mod dropped;
mod explain_verdict;
mod laws;
mod leftovers;
mod origins;
mod resume;

pub use causes::{
    Cause, ExpectedTime, Failed, Failure, MissingPacket, NotSentReason, Outlook, Phrase,
    SenderSnapshot, TimeBackwards, Unmatched, WrongPacket, WrongResult, applied_rto_bound,
    cause_of_event_stop, computed_rto_us_capped_at_u64, put_concatenated_phrases, span_text,
};
pub use dropped::{DroppedSegment, deciding_check};
pub use explain_verdict::{Explanation, explain_by_rerun_unless_pass, explain_job_unless_pass};
pub use laws::{
    law_event_passes_with_actual_packet, law_packet_has_at_most_one_origin,
    law_passes_iff_run_reaches_end, law_unsent_octets_lie_beyond_window,
};
pub use leftovers::{Leftovers, find_leftovers_if_passes};
pub use origins::{Origin, Trigger};
