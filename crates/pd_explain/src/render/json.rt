//! The block of an explanation as a JSON object.
use super::send_rules::{send_rule_name, send_rule_words};
use crate::render::dropped_text::{failed_check_key, failed_check_words};
use crate::render::facts::{Fact, FactValue, facts_of_cause, named_fact};
use crate::render::headings::{
    leftovers_words, verdict_name, verdict_or_packets_before_awaited_words,
};
use crate::render::sender_facts::{facts_of_sender_without_state_name, state_name};
use pd_cause::{
    Cause, DroppedSegment, Explanation, Failed, Leftovers, Origin, SenderSnapshot, Trigger,
    Unmatched, span_text,
};
use pd_refusal::{Refusal, RuleViolation, escaped};
use pd_run::Verdict;
use pd_text::Name;
use serde_json::{Map, Value, put};
use std::alloc::{AllocError, Global};

/// The members of an object.
type Members = Map<String, Value>;

/// The same as one JSON object, ended by a newline.
///
/// # Errors
/// `AllocError` where a growth is refused.
pub fn explanation_json(
    alloc: Global,
    name: &Name,
    explanation: &Explanation,
) -> Result<Vec<u8>, AllocError> {
    let mut object = Map::new(alloc);
    put_heading(alloc, &mut object, name, explanation)?;
    put_cause(alloc, &mut object, &explanation.cause)?;
    object_to_line(alloc, object)
}

/// The packets that a script that passes leaves at its end, as one JSON object, ended by a newline.
///
/// # Errors
/// `AllocError` where a growth is refused.
pub fn leftovers_json(
    alloc: Global,
    name: &Name,
    leftovers: &Leftovers,
) -> Result<Vec<u8>, AllocError> {
    let mut object = Map::new(alloc);
    put_leftovers(alloc, &mut object, name, leftovers)?;
    object_to_line(alloc, object)
}

/// Adds what a script that passes leaves.
fn put_leftovers(
    alloc: Global,
    object: &mut Members,
    name: &Name,
    leftovers: &Leftovers,
) -> Result<(), AllocError> {
    put_facts(
        alloc,
        object,
        &[
            named_fact("", "name", FactValue::Octets(name.as_slice())),
            named_fact("", "line", FactValue::Number(leftovers.line as u64)),
            named_fact("", "verdict", FactValue::Words("pass")),
        ],
    )?;
    put_words_as_what_member(alloc, object, &leftovers_words(alloc, leftovers)?)?;
    put(
        object,
        alloc,
        "awaits_packet",
        Value::Bool(leftovers.awaits),
    )?;
    put_unmatched_and_sender(
        alloc,
        object,
        &leftovers.unmatched,
        &leftovers.origins,
        &leftovers.sender,
    )
}

/// Adds the first words.
fn put_words_as_what_member(
    alloc: Global,
    object: &mut Members,
    words: &[u8],
) -> Result<(), AllocError> {
    put(object, alloc, "what", string_value(alloc, words)?)
}

/// The line of an object.
fn object_to_line(alloc: Global, object: Members) -> Result<Vec<u8>, AllocError> {
    let mut out = Value::Object(object).to_vec(alloc)?;
    out.push(b'\n')?;
    Ok(out)
}

/// Adds what is in the first line of a text.
fn put_heading(
    alloc: Global,
    object: &mut Members,
    name: &Name,
    explanation: &Explanation,
) -> Result<(), AllocError> {
    let verdict = explanation.verdict;
    put_facts(
        alloc,
        object,
        &[
            named_fact("", "name", FactValue::Octets(name.as_slice())),
            named_fact("", "line", FactValue::Number(explanation.line as u64)),
            named_fact("", "verdict", FactValue::Words(verdict_name(verdict))),
        ],
    )?;
    put_words_as_what_member(
        alloc,
        object,
        &verdict_or_packets_before_awaited_words(alloc, explanation)?,
    )?;
    match verdict {
        Verdict::Fail(_, kind) => put_facts(
            alloc,
            object,
            &[named_fact("", "kind", FactValue::Words(kind.word()))],
        ),
        _ => Ok(()),
    }
}

/// Adds what is reported of a cause.
fn put_cause(alloc: Global, object: &mut Members, cause: &Cause) -> Result<(), AllocError> {
    put_facts(alloc, object, &facts_of_cause(alloc, cause)?)?;
    match cause {
        Cause::Syntax(refusal) => put_refusal(alloc, object, refusal),
        Cause::Rule(violation) => put_violation(alloc, object, violation),
        Cause::Failed(failure) => {
            put_sacked(alloc, object, &failure.failed)?;
            put_dropped_segments(alloc, object, &failure.dropped)?;
            if let Some(origin) = failure.origin_of_compared_packet_if_any() {
                put(
                    object,
                    alloc,
                    "sent_by",
                    origin_as_json_object(alloc, origin)?,
                )?;
            }
            put_unmatched_and_sender(
                alloc,
                object,
                &failure.unmatched,
                failure.unmatched_origins(),
                &failure.sender,
            )
        }
    }
}

/// Adds the ranges of octets that are SACKed as a list, where a packet wasn't sent and some are.
fn put_sacked(alloc: Global, object: &mut Members, failed: &Failed) -> Result<(), AllocError> {
    let Failed::Missing(missing_packet) = failed else {
        return Ok(());
    };
    let ranges = &missing_packet.outlook.sacked.ranges;
    if ranges.is_empty() {
        return Ok(());
    }
    let mut list = Vec::new(alloc);
    for run in ranges {
        list.push(string_value(alloc, &span_text(alloc, *run)?)?)?;
    }
    put(object, alloc, "sacked", Value::Array(list))
}

/// Adds the segments that were dropped as a list, where some were.
fn put_dropped_segments(
    alloc: Global,
    object: &mut Members,
    dropped: &[DroppedSegment],
) -> Result<(), AllocError> {
    if dropped.is_empty() {
        return Ok(());
    }
    let mut list = Vec::new(alloc);
    for segment in dropped {
        let mut member = Map::new(alloc);
        put_facts(
            alloc,
            &mut member,
            &[
                named_fact("", "line", FactValue::Number(segment.line as u64)),
                named_fact(
                    "",
                    "rule",
                    FactValue::Words(failed_check_key(segment.failed_check)),
                ),
                named_fact(
                    "",
                    "rule_words",
                    FactValue::Words(failed_check_words(segment.failed_check)),
                ),
            ],
        )?;
        list.push(Value::Object(member))?;
    }
    put(object, alloc, "dropped_segments", Value::Array(list))
}

fn put_facts(alloc: Global, object: &mut Members, facts: &[Fact<'_>]) -> Result<(), AllocError> {
    for fact in facts {
        put(
            object,
            alloc,
            fact.key,
            fact_value_to_json(alloc, fact.value)?,
        )?;
    }
    Ok(())
}

fn fact_value_to_json(alloc: Global, value: FactValue<'_>) -> Result<Value, AllocError> {
    match value {
        FactValue::Octets(octets) | FactValue::Packet(octets, _) => escaped_value(alloc, octets),
        FactValue::Words(text) => Value::try_from_str(alloc, text),
        FactValue::Moment(number) | FactValue::Number(number) => Ok(Value::from(number)),
        FactValue::Nothing(_) => Ok(Value::Null),
    }
}

/// Octets as shown, as a string.
fn escaped_value(alloc: Global, octets: &[u8]) -> Result<Value, AllocError> {
    string_value(alloc, &escaped(alloc, octets)?)
}

/// Octets that are shown already, as a string.
fn string_value(alloc: Global, text: &[u8]) -> Result<Value, AllocError> {
    let mut string = String::new(alloc);
    for octet in text {
        string.push(char::from(*octet))?;
    }
    Ok(Value::String(string))
}

/// The origin of a packet, as an object.
fn origin_as_json_object(alloc: Global, origin: Origin) -> Result<Value, AllocError> {
    let trigger = match origin.trigger {
        Trigger::Line(line) => named_fact("", "line", FactValue::Number(line as u64)),
        Trigger::Timer => named_fact("", "timer_us", FactValue::Moment(origin.at)),
    };
    let rule = FactValue::Words(send_rule_name(origin.rule));
    let words = FactValue::Words(send_rule_words(origin.rule));
    let facts = [
        trigger,
        named_fact("", "rule", rule),
        named_fact("", "rule_words", words),
    ];
    let mut object = Map::new(alloc);
    put_facts(alloc, &mut object, &facts)?;
    Ok(Value::Object(object))
}

/// The origins of packets, as a list.
fn origin_values(alloc: Global, origins: &[Origin], count: usize) -> Result<Value, AllocError> {
    let mut list = Vec::new(alloc);
    for origin in origins.iter().take(count) {
        list.push(origin_as_json_object(alloc, *origin)?)?;
    }
    Ok(Value::Array(list))
}

/// Adds the packets that were put out and not taken, with what let each go, and how the sender stands.
fn put_unmatched_and_sender(
    alloc: Global,
    object: &mut Members,
    unmatched: &Unmatched,
    origins: &[Origin],
    sender: &SenderSnapshot,
) -> Result<(), AllocError> {
    let packets = escaped_list_value(alloc, &unmatched.packets)?;
    put(object, alloc, "untaken_packets", packets)?;
    let triggers = origin_values(alloc, origins, unmatched.packets.len())?;
    put(object, alloc, "untaken_sent_by", triggers)?;
    let more = FactValue::Number(unmatched.more as u64);
    put_facts(
        alloc,
        object,
        &[named_fact("", "more_untaken_packets", more)],
    )?;
    put(object, alloc, "state", sender_value(alloc, sender)?)
}

/// Texts as a list.
fn escaped_list_value(alloc: Global, texts: &[Vec<u8>]) -> Result<Value, AllocError> {
    let mut list = Vec::new(alloc);
    for text in texts {
        list.push(escaped_value(alloc, text)?)?;
    }
    Ok(Value::Array(list))
}

/// How a sender stands as an object.
fn sender_value(alloc: Global, sender: &SenderSnapshot) -> Result<Value, AllocError> {
    let mut state = Map::new(alloc);
    let name = FactValue::Words(state_name(sender.state));
    put_facts(alloc, &mut state, &[named_fact("", "name", name)])?;
    put_facts(
        alloc,
        &mut state,
        &facts_of_sender_without_state_name(alloc, sender)?,
    )?;
    Ok(Value::Object(state))
}

/// Adds the line of what a rule is about, the column of that, what is run in its place, and how the script may be mended.
fn put_violation(
    alloc: Global,
    object: &mut Members,
    violation: &RuleViolation,
) -> Result<(), AllocError> {
    let part = &violation.part;
    put(object, alloc, "text", string_value(alloc, &part.text)?)?;
    put_facts(
        alloc,
        object,
        &[
            named_fact("", "text_line", FactValue::Number(part.line as u64)),
            named_fact("", "column", FactValue::Number(part.column as u64)),
        ],
    )?;
    if !violation.alternatives.is_empty() {
        put(
            object,
            alloc,
            "runs",
            escaped_list_value(alloc, &violation.alternatives)?,
        )?;
    }
    put_named_words_if_some(
        alloc,
        object,
        "found",
        violation.rule.flag_meanings_text_if_flag_rule(),
    )?;
    put_named_words_if_some(
        alloc,
        object,
        "mend",
        violation.rule.import_advice_if_header_rule(),
    )
}

/// Adds words under a key, where there are any.
fn put_named_words_if_some(
    alloc: Global,
    object: &mut Members,
    key: &'static str,
    words: Option<&'static str>,
) -> Result<(), AllocError> {
    match words {
        Some(words) => put_facts(
            alloc,
            object,
            &[named_fact("", key, FactValue::Words(words))],
        ),
        None => Ok(()),
    }
}

/// Adds the line at which no script goes on, the column of its token, and what could be there.
fn put_refusal(alloc: Global, object: &mut Members, refusal: &Refusal) -> Result<(), AllocError> {
    put(object, alloc, "text", string_value(alloc, &refusal.text)?)?;
    let column = match refusal.mark {
        Some(column) => FactValue::Number(column as u64),
        None => FactValue::Nothing(""),
    };
    let line = FactValue::Number(refusal.line as u64);
    put_facts(
        alloc,
        object,
        &[
            named_fact("", "text_line", line),
            named_fact("", "column", column),
        ],
    )?;
    put_named_words_if_some(alloc, object, "found", refusal.foreign_syntax_in_words())?;
    put(
        object,
        alloc,
        "expected",
        escaped_list_value(alloc, &refusal.expected)?,
    )
}
