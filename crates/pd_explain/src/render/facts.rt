//! The facts of an explanation, each with its name in text and in JSON.
ghost use Rattle.std.specs.Prelude.{◌≡◌, ◌∷◌, [], ◌++◌, codes, slice_get, Some, IfOk, OnOk};
ghost use Rattle.pd_explain.specs.BlockLines.{failure_texts, origin_text, packet_texts};
ghost use Rattle.pd_explain.specs.Inner.{AddsFacts, AddsNumbers, BeginsWith, fact_texts, loss_evidence_numbers, sack_evidence_numbers};

use pd_cause::{
    Cause, ExpectedTime, Failed, Failure, MissingPacket, Origin, Outlook, TimeBackwards,
    WrongPacket, WrongResult, applied_rto_bound, computed_rto_us_capped_at_u64,
};
use pd_host::{DupAckEffect, LossEvidence, SackEvidence};
use pd_refusal::Rule;
use pd_timer::Timeout;
use std::alloc::{AllocError, Global};

/// A fact that is reported.
#[derive(Clone, Copy)]
pub struct Fact<'a> {
    /// Its name in text; one without a name stands only in JSON.
    pub label: &'static str,
    /// Its key in JSON.
    pub key: &'static str,
    /// The value.
    pub value: FactValue<'a>,
}

/// The value of a fact.
#[derive(Clone, Copy)]
pub enum FactValue<'a> {
    /// Octets, as a script has them.
    Octets(&'a [u8]),
    /// A packet that was sent, as a script has it, with what let it go, where that is known; in JSON the packet alone.
    Packet(&'a [u8], Option<Origin>),
    /// A text of this program.
    Words(&'static str),
    /// Microseconds; in text they are seconds.
    Moment(u64),
    /// A number.
    Number(u64),
    /// Nothing, in words; in JSON null.
    Nothing(&'static str),
}

use FactValue::{Moment, Nothing, Number, Octets, Packet, Words};

/// Facts in the order in which they are reported.
pub type Facts<'a> = Vec<Fact<'a>>;

/// A fact with its name in text and its key in JSON.
pub fn named_fact<'a>(label: &'static str, key: &'static str, value: FactValue<'a>) -> Fact<'a>
    ensures { result ≡ record { label = label.entry; key = key.entry; value = value.entry } }
{
    Fact { label, key, value }
}

/// A number of a sender.
pub fn number_fact<'a>(label: &'static str, key: &'static str, number: u32) -> Fact<'a>
    ensures { result ≡ record { label = label.entry; key = key.entry; value = FactValue.Number number } }
{
    named_fact(label, key, Number(u64::from(number)))
}

/// The facts of a cause, but for a refusal of the grammar.
///
/// # Errors
/// `AllocError` where a growth is refused.
#[tactic(auto, using(crate::proofs::FactLemmas::no_facts, crate::proofs::FactLemmas::all_facts))]
pub fn facts_of_cause<'a>(alloc: Global, cause: &'a Cause) -> Result<Facts<'a>, AllocError>
    ensures { IfOk result (λ facts. BeginsWith (packet_texts cause.now) (fact_texts facts.items)) }
{
    let mut facts = Vec::new(alloc);
    match cause {
        Cause::Syntax(_) => {}
        Cause::Rule(violation) => put_rule(&mut facts, violation.rule)?,
        Cause::Failed(failure) => put_failed_facts(&mut facts, failure)?,
    }
    Ok(facts)
}

fn put_failed_facts<'a>(facts: &mut Facts<'a>, failure: &'a Failure) -> Result<(), AllocError>
    ensures { OnOk result (AddsFacts (failure_texts failure.now.failed (slice_get failure.now.origins.items 0)) facts.old.items facts.new.items) }
{
    match &failure.failed {
        Failed::Packet(packets) => put_wrong_packet(facts, packets, &failure.origins),
        Failed::Missing(missing_packet) => put_missing_packet(facts, missing_packet),
        Failed::Result(wrong_result) => put_wrong_result(facts, wrong_result),
        Failed::Backwards(time_backwards) => put_time_backwards(facts, time_backwards),
    }
}

#[tactic(auto, using(crate::proofs::FactLemmas::any_facts, crate::proofs::FactLemmas::then_facts))]
fn put_rule<'a>(facts: &mut Facts<'a>, rule: Rule) -> Result<(), AllocError>
    ensures { OnOk result (AddsFacts [] facts.old.items facts.new.items) }
{
    facts.extend_from_slice(&[
        named_fact("rule", "rule_words", Words(rule.words())),
        named_fact("", "rule", Words(rule.key())),
    ])?;
    match rule.limit() {
        None => Ok(()),
        Some(limit) => facts.extend_from_slice(&[named_fact("limit", "limit", Number(limit))]),
    }
}

#[tactic(auto, using(crate::proofs::FactLemmas::then_facts))]
fn put_wrong_packet<'a>(
    facts: &mut Facts<'a>,
    packets: &'a WrongPacket,
    origins: &[Origin],
) -> Result<(), AllocError>
    ensures { OnOk result (AddsFacts (failure_texts (Failed.Packet packets.now) (slice_get origins.now 0)) facts.old.items facts.new.items) }
{
    put_compared_packets(facts, packets, origins.first().copied())?;
    put_unexpected_count_and_expected_time(facts, packets)
}

/// Adds both packets, and when the actual one was sent.
#[tactic(auto, using(crate::proofs::FactLemmas::whole_facts))]
fn put_compared_packets<'a>(
    facts: &mut Facts<'a>,
    packets: &'a WrongPacket,
    origin: Option<Origin>,
) -> Result<(), AllocError>
    ensures { OnOk result (AddsFacts (failure_texts (Failed.Packet packets.now) origin) facts.old.items facts.new.items) }
{
    let actual = Packet(&packets.actual, origin);
    facts.extend_from_slice(&[
        named_fact("script packet", "script_packet", Octets(&packets.script)),
        named_fact("actual packet", "actual_packet", actual),
        named_fact("", "sent_us", Moment(packets.at)),
    ])
}

/// Adds how many packets before the awaited one no line asks for, and when that one was awaited, where its time differs.
#[tactic(auto, using(crate::proofs::FactLemmas::any_facts, crate::proofs::FactLemmas::no_facts, crate::proofs::FactLemmas::then_facts))]
fn put_unexpected_count_and_expected_time<'a>(
    facts: &mut Facts<'a>,
    packets: &'a WrongPacket,
) -> Result<(), AllocError>
    ensures { OnOk result (AddsFacts [] facts.old.items facts.new.items) }
{
    if packets.unexpected > 0 {
        let count = Number(packets.unexpected as u64);
        facts.extend_from_slice(&[named_fact("", "unasked_packets", count)])?;
    }
    match packets.expected_time {
        None => Ok(()),
        Some(expected_time) => put_expected_time_and_earliness(facts, expected_time, packets.at),
    }
}

/// Adds when a packet was awaited, and how long before that it was sent. None is sent too late: the clock is never further past
/// the base than the tolerance, and no expiry is performed that comes later than the event's last moment and the tolerance.
#[tactic(auto, using(crate::proofs::FactLemmas::any_facts, crate::proofs::FactLemmas::then_facts))]
fn put_expected_time_and_earliness<'a>(
    facts: &mut Facts<'a>,
    expected_time: ExpectedTime,
    at: u64,
) -> Result<(), AllocError>
    ensures { OnOk result (AddsFacts [] facts.old.items facts.new.items) }
{
    put_expected_time_range_facts(facts, expected_time)?;
    let early = expected_time.first.saturating_sub(at);
    facts.extend_from_slice(&[named_fact("early by", "early_us", Moment(early))])
}

#[tactic(auto, using(crate::proofs::FactLemmas::any_facts))]
fn put_expected_time_range_facts<'a>(
    facts: &mut Facts<'a>,
    expected_time: ExpectedTime,
) -> Result<(), AllocError>
    ensures { OnOk result (AddsFacts [] facts.old.items facts.new.items) }
{
    facts.extend_from_slice(&[
        named_fact(
            "awaited from",
            "awaited_from_us",
            Moment(expected_time.first),
        ),
        named_fact(
            "awaited until",
            "awaited_until_us",
            Moment(expected_time.last),
        ),
        named_fact("tolerance", "tolerance_us", Moment(expected_time.tolerance)),
    ])
}

#[tactic(auto, using(crate::proofs::FactLemmas::then_facts))]
fn put_missing_packet<'a>(
    facts: &mut Facts<'a>,
    missing_packet: &'a MissingPacket,
) -> Result<(), AllocError>
    ensures { OnOk result (AddsFacts ((codes "script packet: " ++ missing_packet.now.script.items) ∷ []) facts.old.items facts.new.items) }
{
    put_script_packet(facts, &missing_packet.script)?;
    put_awaited_time_and_timer(facts, missing_packet)?;
    put_rto_derivation_if_timer_runs(facts, &missing_packet.outlook)?;
    put_reason_not_sent(facts, missing_packet)?;
    put_dup_ack_effect_on_recovery(facts, &missing_packet.outlook)?;
    put_sacked(facts, &missing_packet.outlook)
}

#[tactic(auto, using(crate::proofs::FactLemmas::whole_facts))]
fn put_script_packet<'a>(facts: &mut Facts<'a>, packet: &'a [u8]) -> Result<(), AllocError>
    ensures { OnOk result (AddsFacts ((codes "script packet: " ++ packet.now) ∷ []) facts.old.items facts.new.items) }
{
    facts.extend_from_slice(&[named_fact("script packet", "script_packet", Octets(packet))])
}

/// Adds until when a packet was awaited, and when the timer expires.
#[tactic(auto, using(crate::proofs::FactLemmas::any_facts, crate::proofs::FactLemmas::then_facts))]
fn put_awaited_time_and_timer<'a>(
    facts: &mut Facts<'a>,
    missing_packet: &'a MissingPacket,
) -> Result<(), AllocError>
    ensures { OnOk result (AddsFacts [] facts.old.items facts.new.items) }
{
    match missing_packet.expected_time {
        None => facts.extend_from_slice(&[named_fact(
            "awaited until",
            "awaited_until_us",
            Nothing("any time"),
        )])?,
        Some(expected_time) => put_expected_time_range_facts(facts, expected_time)?,
    }
    facts.extend_from_slice(&[named_fact(
        "timer expires",
        "timer_us",
        fact_value_of_moment_or_nothing(missing_packet.expiry, "never, it doesn't run"),
    )])
}

/// Adds why a packet wasn't sent.
#[tactic(auto, using(crate::proofs::FactLemmas::any_facts))]
fn put_reason_not_sent<'a>(
    facts: &mut Facts<'a>,
    missing_packet: &'a MissingPacket,
) -> Result<(), AllocError>
    ensures { OnOk result (AddsFacts [] facts.old.items facts.new.items) }
{
    facts.extend_from_slice(&[
        named_fact("reason", "reason_words", Octets(&missing_packet.words)),
        named_fact("", "reason", Words(missing_packet.reason.key())),
    ])
}

/// Adds how RTO comes about, where the timer runs and a round trip was measured.
#[tactic(auto, using(crate::proofs::FactLemmas::any_facts, crate::proofs::FactLemmas::no_facts, crate::proofs::FactLemmas::then_facts))]
fn put_rto_derivation_if_timer_runs<'a>(
    facts: &mut Facts<'a>,
    outlook: &'a Outlook,
) -> Result<(), AllocError>
    ensures { OnOk result (AddsFacts [] facts.old.items facts.new.items) }
{
    let words = &outlook.timeout_words;
    match outlook.timeout {
        Some(timeout) if !words.is_empty() => {
            facts.extend_from_slice(&[
                named_fact("RTO", "rto_words", Octets(words)),
                named_fact("", "srtt_us", Moment(timeout.estimate.srtt)),
                named_fact("", "rttvar_us", Moment(timeout.estimate.rttvar)),
                named_fact(
                    "",
                    "computed_rto_us",
                    Moment(computed_rto_us_capped_at_u64(timeout)),
                ),
                named_fact("", "bounded_rto_us", Moment(timeout.bounded_us)),
            ])?;
            put_granularity_and_rto_bound(facts, timeout)
        }
        _ => Ok(()),
    }
}

/// Adds the settings that move RTO.
#[tactic(auto, using(crate::proofs::FactLemmas::any_facts, crate::proofs::FactLemmas::no_facts, crate::proofs::FactLemmas::then_facts))]
fn put_granularity_and_rto_bound<'a>(
    facts: &mut Facts<'a>,
    timeout: Timeout,
) -> Result<(), AllocError>
    ensures { OnOk result (AddsFacts [] facts.old.items facts.new.items) }
{
    if let Some(granularity_us) = timeout.granularity_us {
        facts.extend_from_slice(&[named_fact("", "granularity_us", Moment(granularity_us))])?;
    }
    match applied_rto_bound(timeout) {
        Some(setting) => facts.extend_from_slice(&[named_fact("", "rto_bound", Words(setting))]),
        None => Ok(()),
    }
}

/// Adds the effect of a duplicate, where that is reported.
#[tactic(auto, using(crate::proofs::FactLemmas::any_facts, crate::proofs::FactLemmas::no_facts, crate::proofs::FactLemmas::then_facts))]
fn put_dup_ack_effect_on_recovery<'a>(
    facts: &mut Facts<'a>,
    outlook: &'a Outlook,
) -> Result<(), AllocError>
    ensures { OnOk result (AddsFacts [] facts.old.items facts.new.items) }
{
    let words = &outlook.duplicates_words;
    match outlook.dup_ack_effect {
        Some(dup_ack_effect) if !words.is_empty() => {
            facts.extend_from_slice(&[named_fact("recovery", "recovery_words", Octets(words))])?;
            match dup_ack_effect {
                DupAckEffect::Below(number) => {
                    facts.extend_from_slice(&[number_fact("", "counts_from", number)])
                }
                DupAckEffect::Counted(loss_evidence) => put_loss_evidence(facts, loss_evidence),
            }
        }
        _ => Ok(()),
    }
}

/// Adds what has come of what shows a loss, and how much has to come.
#[tactic(auto, using(crate::proofs::FactLemmas::then_facts, crate::proofs::FactLemmas::then_numbers))]
fn put_loss_evidence<'a>(
    facts: &mut Facts<'a>,
    loss_evidence: LossEvidence,
) -> Result<(), AllocError>
    ensures adds { OnOk result (AddsFacts [] facts.old.items facts.new.items) }
    ensures numbers { OnOk result (AddsNumbers (loss_evidence_numbers loss_evidence) facts.old.items facts.new.items) }
{
    put_duplicates_counted_and_needed(facts, loss_evidence)?;
    put_sack_evidence(facts, loss_evidence.sacked)
}

/// Adds how many duplicates came, and how many have to come.
#[tactic(auto, using(crate::proofs::FactLemmas::any_facts, crate::proofs::FactLemmas::whole_numbers))]
fn put_duplicates_counted_and_needed<'a>(
    facts: &mut Facts<'a>,
    loss_evidence: LossEvidence,
) -> Result<(), AllocError>
    ensures adds { OnOk result (AddsFacts [] facts.old.items facts.new.items) }
    ensures numbers { OnOk result (AddsNumbers ((codes "duplicates", Some loss_evidence.dup_acks) ∷ (codes "duplicates_needed", Some loss_evidence.needed) ∷ []) facts.old.items facts.new.items) }
{
    facts.extend_from_slice(&[
        number_fact("", "duplicates", loss_evidence.dup_acks),
        number_fact("", "duplicates_needed", loss_evidence.needed),
    ])
}

/// Adds how many octets and ranges are SACKed, and how many have to be, where SACK is in use.
#[tactic(auto, using(crate::proofs::FactLemmas::any_facts, crate::proofs::FactLemmas::no_facts, crate::proofs::FactLemmas::whole_numbers, crate::proofs::FactLemmas::no_numbers))]
fn put_sack_evidence<'a>(
    facts: &mut Facts<'a>,
    sacked: Option<SackEvidence>,
) -> Result<(), AllocError>
    ensures adds { OnOk result (AddsFacts [] facts.old.items facts.new.items) }
    ensures numbers { OnOk result (AddsNumbers (sack_evidence_numbers sacked) facts.old.items facts.new.items) }
{
    match sacked {
        None => Ok(()),
        Some(above) => facts.extend_from_slice(&[
            number_fact("", "sacked_octets", above.octets),
            number_fact("", "sacked_octets_exceeded", above.most),
            named_fact("", "sacked_ranges", Number(above.runs as u64)),
            named_fact("", "sacked_ranges_needed", Number(above.needed as u64)),
        ]),
    }
}

/// Adds what is SACKed, where something is.
#[tactic(auto, using(crate::proofs::FactLemmas::any_facts, crate::proofs::FactLemmas::no_facts))]
fn put_sacked<'a>(facts: &mut Facts<'a>, outlook: &'a Outlook) -> Result<(), AllocError>
    ensures { OnOk result (AddsFacts [] facts.old.items facts.new.items) }
{
    let words = &outlook.sacked_words;
    if words.is_empty() {
        return Ok(());
    }
    let more = Number(outlook.sacked.more as u64);
    facts.extend_from_slice(&[
        named_fact("SACKed", "sacked_words", Octets(words)),
        named_fact("", "more_sacked", more),
    ])
}

#[tactic(auto, using(crate::proofs::FactLemmas::any_facts))]
fn put_wrong_result<'a>(
    facts: &mut Facts<'a>,
    wrong_result: &'a WrongResult,
) -> Result<(), AllocError>
    ensures { OnOk result (AddsFacts [] facts.old.items facts.new.items) }
{
    facts.extend_from_slice(&[
        named_fact("call", "call", Octets(&wrong_result.call)),
        named_fact(
            "expected result",
            "expected_result",
            Octets(&wrong_result.expected),
        ),
        named_fact(
            "actual result",
            "actual_result",
            Octets(&wrong_result.answer),
        ),
    ])
}

#[tactic(auto, using(crate::proofs::FactLemmas::any_facts))]
fn put_time_backwards<'a>(
    facts: &mut Facts<'a>,
    time_backwards: &'a TimeBackwards,
) -> Result<(), AllocError>
    ensures { OnOk result (AddsFacts [] facts.old.items facts.new.items) }
{
    facts.extend_from_slice(&[
        named_fact("event", "event", Octets(&time_backwards.event)),
        named_fact("its moment", "moment_us", Moment(time_backwards.time)),
        named_fact("lies before", "before_us", Moment(time_backwards.base)),
    ])
}

/// A moment, or nothing in these words.
pub fn fact_value_of_moment_or_nothing<'a>(
    time: Option<u64>,
    nothing: &'static str,
) -> FactValue<'a> {
    match time {
        Some(time) => Moment(time),
        None => Nothing(nothing),
    }
}
