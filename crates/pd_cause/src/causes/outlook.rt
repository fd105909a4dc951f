//! The events that may lead to sending next, where a script awaits a packet that wasn't sent.
ghost use Rattle.std.specs.Prelude.{◌≡◌, ◌-◌, IfOk, length, take};
ghost use Rattle.pd_cause.specs.Outlook.{sacked_limit, ListsSacked, IsOutlook};

use crate::causes::sentences::{Phrase, put_concatenated_phrases};
use Phrase::{Moment, Number, Words};
use pd_host::{DupAckEffect, Host, LossEvidence, SackEvidence};
use pd_seg::Span;
use pd_timer::Timeout;
use std::alloc::{AllocError, Global};

/// The most SACKed ranges that are listed one by one.
const MAX_SACKED: usize = 4;

/// The events that may lead to sending next.
#[derive(Drop)]
pub struct Outlook {
    /// The effect of a duplicate; nothing where no octet is outstanding or recovery goes on.
    pub dup_ack_effect: Option<DupAckEffect>,
    /// The same in words; none where nothing has come that shows a loss.
    pub duplicates_words: Vec<u8>,
    /// How the timeout comes from what was measured; nothing before any measurement.
    pub timeout: Option<Timeout>,
    /// The same in words; none where the timer doesn't run.
    pub timeout_words: Vec<u8>,
    /// The octets that are SACKed.
    pub sacked: SackedRanges,
    /// The same in words; none where nothing is.
    pub sacked_words: Vec<u8>,
}

/// The octets that are SACKed.
#[derive(Drop)]
pub struct SackedRanges {
    /// The lowest maximal ranges of them, four at most.
    pub ranges: Vec<Span>,
    /// How many more there are.
    pub more: usize,
}

/// The events that may lead a sender to sending next.
///
/// # Errors
/// `AllocError` where a growth is refused.
pub fn dup_ack_timeout_and_sack_outlook(alloc: Global, host: &Host) -> Result<Outlook, AllocError>
    ensures { IfOk result (IsOutlook host.now.state) }
{
    let dup_ack_effect = host.loss_evidence_or_barring_recovery_point();
    let timeout = host.measured_rto_derivation_before_backoff();
    let sacked = lowest_sacked_ranges_of_sender(alloc, host)?;
    Ok(Outlook {
        dup_ack_effect,
        duplicates_words: words_of_dup_ack_effect(alloc, dup_ack_effect)?,
        timeout,
        timeout_words: rto_derivation_words_if_timer_runs(alloc, timeout, host)?,
        sacked_words: words_of_sacked(alloc, &sacked)?,
        sacked,
    })
}

/// The octets that are SACKed at a sender.
fn lowest_sacked_ranges_of_sender(alloc: Global, host: &Host) -> Result<SackedRanges, AllocError>
    ensures { IfOk result (ListsSacked host.now.state) }
{
    let sacked = first_ranges_and_count_of_more(alloc, host.sacked_runs())?;
    Ok(sacked)
}

/// The lowest of some ranges, and how many more there are.
#[tactic(auto, using(crate::proofs::OutlookLemmas::first_listed))]
fn first_ranges_and_count_of_more(
    alloc: Global,
    ranges: &[Span],
) -> Result<SackedRanges, AllocError>
    ensures listed { IfOk result (λ sacked. sacked.ranges.items ≡ take sacked_limit ranges.now) }
    ensures more { IfOk result (λ sacked. sacked.more ≡ length ranges.now - sacked_limit) }
{
    let listed = MAX_SACKED.min(ranges.len());
    Ok(SackedRanges {
        ranges: Vec::from_slice(alloc, &ranges[..listed])?,
        more: ranges.len() - listed,
    })
}

fn words_of_dup_ack_effect(
    alloc: Global,
    dup_ack_effect: Option<DupAckEffect>,
) -> Result<Vec<u8>, AllocError> {
    let mut words = Vec::new(alloc);
    match dup_ack_effect {
        None => {}
        Some(DupAckEffect::Below(number)) => put_concatenated_phrases(
            &mut words,
            &[
                Words("no duplicate begins it before una is "),
                Number(u64::from(number)),
                Words(" (RFC 6675, section 5.1)"),
            ],
        )?,
        Some(DupAckEffect::Counted(loss_evidence)) => put_loss_evidence(&mut words, loss_evidence)?,
    }
    Ok(words)
}

/// Adds what has come of what shows a loss, where something has, and how much has to come.
fn put_loss_evidence(words: &mut Vec<u8>, loss_evidence: LossEvidence) -> Result<(), AllocError> {
    let counted = [
        Number(u64::from(loss_evidence.dup_acks)),
        Words(" of "),
        Number(u64::from(loss_evidence.needed)),
        Words(" duplicates"),
    ];
    match loss_evidence.sacked {
        Some(above) if loss_evidence.dup_acks > 0 || above.octets > 0 => {
            put_concatenated_phrases(words, &counted)?;
            put_sack_evidence(words, above)
        }
        None if loss_evidence.dup_acks > 0 => {
            put_concatenated_phrases(words, &counted)?;
            put_concatenated_phrases(words, &[Words(" (RFC 5681, section 3.2)")])
        }
        _ => Ok(()),
    }
}

fn put_sack_evidence(words: &mut Vec<u8>, above: SackEvidence) -> Result<(), AllocError> {
    put_concatenated_phrases(
        words,
        &[
            Words("; "),
            Number(u64::from(above.octets)),
            Words(" of more than "),
            Number(u64::from(above.most)),
            Words(" SACKed octets above una; "),
            Number(above.runs as u64),
            Words(" of "),
            Number(above.needed as u64),
            Words(" SACKed ranges (RFC 6675, section 5)"),
        ],
    )
}

/// How the timeout comes about, where the timer ranges.
fn rto_derivation_words_if_timer_runs(
    alloc: Global,
    timeout: Option<Timeout>,
    host: &Host,
) -> Result<Vec<u8>, AllocError> {
    let mut words = Vec::new(alloc);
    match (timeout, host.connection_snapshot(), host.deadline()) {
        (Some(timeout), Some(connection_snapshot), Some(_)) => {
            put_rto_with_its_srtt_and_rttvar(&mut words, timeout)?;
            put_rto_bound(&mut words, timeout)?;
            put_rto_value_if_backed_off(&mut words, timeout, connection_snapshot.rto_us)?;
        }
        _ => {}
    }
    Ok(words)
}

fn put_rto_with_its_srtt_and_rttvar(
    words: &mut Vec<u8>,
    timeout: Timeout,
) -> Result<(), AllocError> {
    let estimate = timeout.estimate;
    put_concatenated_phrases(words, &[Words("SRTT "), Moment(estimate.srtt)])?;
    match timeout.granularity_us {
        None => put_concatenated_phrases(words, &[Words(" and RTTVAR "), Moment(estimate.rttvar)])?,
        Some(granularity_us) => put_concatenated_phrases(
            words,
            &[
                Words(", RTTVAR "),
                Moment(estimate.rttvar),
                Words(" and granularity_us "),
                Moment(granularity_us),
            ],
        )?,
    }
    put_concatenated_phrases(
        words,
        &[
            Words(" make "),
            Moment(computed_rto_us_capped_at_u64(timeout)),
        ],
    )
}

/// RTO before its bounds, up to 2^64 - 1.
pub fn computed_rto_us_capped_at_u64(timeout: Timeout) -> u64 {
    timeout.computed_us.min(u128::from(u64::MAX)) as u64
}

/// The setting that moves RTO into its bounds; none where it lies within them.
pub fn applied_rto_bound(timeout: Timeout) -> Option<&'static str> {
    let bounded = u128::from(timeout.bounded_us);
    if timeout.computed_us < bounded {
        Some("min_rto_us")
    } else if bounded < timeout.computed_us {
        Some("max_rto_us")
    } else {
        None
    }
}

fn put_rto_bound(words: &mut Vec<u8>, timeout: Timeout) -> Result<(), AllocError> {
    if let Some(setting) = applied_rto_bound(timeout) {
        let verb = if timeout.computed_us < u128::from(timeout.bounded_us) {
            " raises to "
        } else {
            " lowers to "
        };
        put_concatenated_phrases(
            words,
            &[
                Words(", which "),
                Words(setting),
                Words(verb),
                Moment(timeout.bounded_us),
            ],
        )?;
    }
    put_concatenated_phrases(words, &[Words(" (RFC 6298, section 2)")])
}

/// Adds what expiries have made of RTO.
fn put_rto_value_if_backed_off(
    words: &mut Vec<u8>,
    timeout: Timeout,
    rto_us: u64,
) -> Result<(), AllocError> {
    if rto_us == timeout.bounded_us {
        return Ok(());
    }
    put_concatenated_phrases(
        words,
        &[
            Words("; expiries have made it "),
            Moment(rto_us),
            Words(" (section 5.5)"),
        ],
    )
}

fn words_of_sacked(alloc: Global, sacked: &SackedRanges) -> Result<Vec<u8>, AllocError> {
    let mut words = Vec::new(alloc);
    for run in &sacked.ranges {
        if !words.is_empty() {
            put_concatenated_phrases(&mut words, &[Words(", ")])?;
        }
        words.extend_from_slice(&span_text(alloc, *run)?)?;
    }
    if sacked.more > 0 {
        let more = [Words(" and "), Number(sacked.more as u64), Words(" more")];
        put_concatenated_phrases(&mut words, &more)?;
    }
    Ok(words)
}

/// A run of octets as a `sack` of a script names it.
///
/// # Errors
/// `AllocError` where a growth is refused.
pub fn span_text(alloc: Global, run: Span) -> Result<Vec<u8>, AllocError> {
    let mut text = Vec::new(alloc);
    let pieces = [
        Number(u64::from(run.start)),
        Words(":"),
        Number(u64::from(run.end)),
    ];
    put_concatenated_phrases(&mut text, &pieces)?;
    Ok(text)
}
