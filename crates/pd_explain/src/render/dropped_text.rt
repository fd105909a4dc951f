//! The text of blocks on a segment that a check dropped.
use Phrase::{Number, Words};
use pd_cause::{DroppedSegment, Phrase, put_concatenated_phrases};
use pd_host::SegmentCheck;
use std::alloc::{AllocError, Global};

/// A segment that was dropped, in words: its line, and the check that it didn't pass.
///
/// # Errors
/// `AllocError` where a growth is refused.
pub fn dropped_text(alloc: Global, dropped: DroppedSegment) -> Result<Vec<u8>, AllocError> {
    let mut text = Vec::new(alloc);
    let words = failed_check_words(dropped.failed_check);
    put_concatenated_phrases(
        &mut text,
        &[
            Words("line "),
            Number(dropped.line as u64),
            Words(": "),
            Words(words),
        ],
    )?;
    Ok(text)
}

/// A check in words, with what answers the segment, and its section.
pub fn failed_check_words(failed_check: SegmentCheck) -> &'static str {
    match failed_check {
        SegmentCheck::StrayRst => {
            "an RST outside the receive window (RFC 9293, section 3.10.7.4, first check)"
        }
        SegmentCheck::OutsideWindow => {
            "its number lies outside the receive window, so an ACK answers (RFC 9293, section 3.10.7.4, first check)"
        }
        SegmentCheck::ChallengedRst => {
            "an RST that isn't at RCV.NXT, so an ACK answers (RFC 5961, section 3.2)"
        }
        SegmentCheck::WithoutAck => "it has no ACK flag (RFC 9293, section 3.10.7.4, fifth check)",
        SegmentCheck::RefusedAck => {
            "it doesn't acknowledge the SYN, so an RST answers (RFC 9293, section 3.10.7.4, fifth check)"
        }
        SegmentCheck::EarlyAck => {
            "its ACK lies above top, so an ACK answers (RFC 9293, section 3.10.7.4, fifth check)"
        }
        SegmentCheck::OldAck => "its ACK lies below una (RFC 9293, section 3.10.7.4, fifth check)",
        SegmentCheck::NotRun | SegmentCheck::ExactRst | SegmentCheck::FirstAck => "",
    }
}

/// The key of a check.
pub fn failed_check_key(failed_check: SegmentCheck) -> &'static str {
    match failed_check {
        SegmentCheck::StrayRst => "stray_rst",
        SegmentCheck::OutsideWindow => "outside_window",
        SegmentCheck::ChallengedRst => "challenged_rst",
        SegmentCheck::WithoutAck => "without_ack",
        SegmentCheck::RefusedAck => "refused_ack",
        SegmentCheck::EarlyAck => "early_ack",
        SegmentCheck::OldAck => "old_ack",
        SegmentCheck::NotRun => "not_run",
        SegmentCheck::ExactRst => "exact_rst",
        SegmentCheck::FirstAck => "first_ack",
    }
}
