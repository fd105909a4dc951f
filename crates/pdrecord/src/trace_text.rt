//! The octets of a recording.
ghost use Rattle.std.specs.Prelude.{◌≡◌, ◌++◌, ◌∷◌, [], true, false, IfOk, IfErr, OnOk};
ghost use Rattle.pdrecord.specs.RecordProgram.{IsUnmade};
ghost use Rattle.pdrecord.specs.ScriptInput.{is_trace_line};
ghost use Rattle.pdrecord.specs.Written.{IsWritten};
ghost use Rattle.pdrecord.specs.Inner.{GoesOn};

use crate::script_input::is_trace_line;
use pd_cause::SenderSnapshot;
use pd_explain::sender_state_text;
use pd_print::render_seconds_with_six_decimals;
use pd_protocol::ServeFault;
use pd_record::{Recording, TraceEntry, TraceOrigin};
use std::alloc::{AllocError, Global};

/// The octets of a recording, each line ended by a newline; with a trace each event has a line of its own after it.
///
/// # Errors
/// `Differs` where a line of the recording would be taken for one of a trace, or one of the trace for none, which is a fault of
/// this program; `OutOfMemory`.
pub fn recording_octets(
    alloc: Global,
    recording: &Recording,
    with_trace: bool,
) -> Result<Vec<u8>, ServeFault>
    ensures written { IfOk result (λ octets. IsWritten with_trace recording.now.lines octets.items) }
    ensures only { IfErr result IsUnmade }
{
    let mut out = Vec::new(alloc);
    let mut traced = 0usize;
    for done in 0..recording.lines.len() {
        put_recording_line_refusing_trace(&mut out, recording.lines.line(done + 1).unwrap_or(&[]))?;
        let trace_entry = recording.trace_entries.get(traced);
        if put_trace_returning_whether_event_ends(
            alloc,
            &mut out,
            trace_entry,
            done + 1,
            with_trace,
        )? {
            traced = traced.saturating_add(1);
        }
    }
    Ok(out)
}

/// Adds a line of the recording.
fn put_recording_line_refusing_trace(out: &mut Vec<u8>, line: &[u8]) -> Result<(), ServeFault>
    ensures line { OnOk result ((is_trace_line line.now ≡ false) × (out.new.items ≡ out.old.items ++ (line.now ++ 10 ∷ []))) }
    ensures only { IfErr result IsUnmade }
{
    if is_trace_line(line) {
        return Err(ServeFault::Differs);
    }
    add_line_with_newline(out, line)?;
    Ok(())
}

/// Adds the line of an event after its last line, if a trace is written; whether an event ends there.
fn put_trace_returning_whether_event_ends(
    alloc: Global,
    out: &mut Vec<u8>,
    trace_entry: Option<&TraceEntry>,
    number: usize,
    with_trace: bool,
) -> Result<bool, ServeFault>
    ensures line { OnOk result (GoesOn with_trace out.old.items out.new.items) }
    ensures only { IfErr result IsUnmade }
{
    match trace_entry {
        Some(trace_entry) if trace_entry.lines == number => {
            if with_trace {
                put_trace_line(alloc, out, trace_entry)?;
            }
            Ok(true)
        }
        _ => Ok(false),
    }
}

/// Adds the line of an event: its moment, how the sender stands, and of a packet that left what let it go.
fn put_trace_line(
    alloc: Global,
    out: &mut Vec<u8>,
    trace_entry: &TraceEntry,
) -> Result<(), ServeFault>
    ensures line { OnOk result (GoesOn true out.old.items out.new.items) }
    ensures only { IfErr result IsUnmade }
{
    let line = trace_line(alloc, trace_entry)?;
    if !is_trace_line(line.as_slice()) {
        return Err(ServeFault::Differs);
    }
    add_line_with_newline(out, line.as_slice())?;
    Ok(())
}

/// Adds a line with its newline.
fn add_line_with_newline(out: &mut Vec<u8>, line: &[u8]) -> Result<(), AllocError>
    ensures { OnOk result (out.new.items ≡ out.old.items ++ (line.now ++ 10 ∷ [])) }
{
    out.extend_from_slice(line)?;
    out.extend_from_slice(b"\n")
}

/// The line of an event in a trace.
fn trace_line(alloc: Global, trace_entry: &TraceEntry) -> Result<Vec<u8>, AllocError> {
    let sender = SenderSnapshot {
        state: trace_entry.sender.state,
        connection_snapshot: trace_entry.sender.connection_snapshot,
        expiry: trace_entry.sender.expiry,
    };
    let mut line = Vec::from_slice(alloc, b"//= at ")?;
    line.extend_from_slice(render_seconds_with_six_decimals(alloc, trace_entry.at)?.as_slice())?;
    line.extend_from_slice(b" ")?;
    line.extend_from_slice(sender_state_text(alloc, &sender)?.as_slice())?;
    match trace_entry.origin {
        Some(TraceOrigin::Line(number)) => {
            line.extend_from_slice(b" sent_by:line")?;
            line.extend_from_slice(number.to_string(alloc)?.as_bytes())?;
        }
        Some(TraceOrigin::Timer) => line.extend_from_slice(b" sent_by:timer")?,
        None => {}
    }
    Ok(line)
}
