//! Explains a verdict: looks into the run where it stopped.
ghost use Rattle.std.specs.Prelude.{◌≡◌, true, None, Some, option_map, IfOk, IfSome};
ghost use Rattle.pd_reparse.specs.Reading.{reading_of, script_part};
ghost use Rattle.pd_run.specs.Run.{verdict_of};
ghost use Rattle.pd_run.specs.StopPoints.{line_of, stop_in};
ghost use Rattle.pd_script.specs.Script.{script_of};
ghost use Rattle.pd_cause.specs.Causes.{IsCauseOf};
ghost use Rattle.pd_cause.specs.Dropped.{last_dropped_segments_if_packet_stop};
ghost use Rattle.pd_cause.specs.Explained.{line_unless_pass, first_unsupported_header_item, HasHistory, IsCauseIn, IsCause, IsHeaderCause};
ghost use Rattle.pd_cause.specs.Inner.{IsResumed, IsTraced, knows_all_origins};

use crate::causes::{Cause, cause_of_event_stop, with_origins_and_dropped};
use crate::dropped::{DroppedSegment, last_dropped_segments_if_packet_stop};
use crate::resume::{
    ResumedRun, TracedStop, find_resume_point_for_dropped, find_resume_point_for_origins,
    trace_stop_resumed_or_from_start,
};
use pd_lex::Place;
use pd_refusal::{find_refused_token_and_expected, header_violation, place_of_event_after_passed};
use pd_reparse::{ParsedEvent, Reading, law_readings_are_scripts, read};
use pd_run::{Verdict, law_verdicts_have_reasons};
use pd_script::{Header, HeaderItem, HeaderKind};
use pd_settings::Settings;
use pd_text::Lines;
use pd_track::Done;
use std::alloc::{AllocError, Global};

/// Why a row isn't `pass`.
#[derive(Drop)]
pub struct Explanation {
    /// The row's line.
    pub line: usize,
    /// The row's verdict.
    pub verdict: Verdict,
    /// Why it came to that.
    pub cause: Cause,
}

/// Explains the verdict that a run of a text under settings came to; nothing for a pass. The text is read and run again, up to the
/// stop.
///
/// # Errors
/// `AllocError` where a growth is refused.
pub fn explain_by_rerun_unless_pass(
    alloc: Global,
    lines: &Lines,
    settings: &Settings,
    verdict: Verdict,
) -> Result<Option<Explanation>, AllocError>
    requires { verdict ≡ verdict_of lines.now settings.now }
    ensures reported { IfOk result (λ reported. option_map (λ e. e.verdict) reported ≡ option_map (λ _. verdict) (line_unless_pass verdict)) }
    ensures at { IfOk result (λ reported. option_map (λ e. e.line) reported ≡ line_unless_pass verdict) }
    ensures cause { IfOk result (λ reported. IfSome reported (λ e. IsCause lines.now settings.now verdict e.cause)) }
{
    let Some(line) = line_unless_pass(verdict) else {
        return Ok(None);
    };
    let cause = cause_of_verdict(alloc, lines, settings, verdict, line)?;
    Ok(Some(Explanation {
        line,
        verdict,
        cause,
    }))
}

/// Explains the verdict of a job that was run; nothing for a pass. Its text isn't read again, and of its run mostly at most
/// three events before those of the line at which it stopped.
///
/// # Errors
/// `AllocError` where a growth is refused.
pub fn explain_job_unless_pass(
    alloc: Global,
    done: &Done,
) -> Result<Option<Explanation>, AllocError>
    ensures reported { IfOk result (λ reported. option_map (λ e. e.verdict) reported ≡ option_map (λ _. verdict_of done.now.text done.now.settings) (line_unless_pass (verdict_of done.now.text done.now.settings))) }
    ensures at { IfOk result (λ reported. option_map (λ e. e.line) reported ≡ line_unless_pass (verdict_of done.now.text done.now.settings)) }
    ensures cause { IfOk result (λ reported. IfSome reported (λ e. IsCause done.now.text done.now.settings (verdict_of done.now.text done.now.settings) e.cause)) }
{
    let verdict = done.verdict();
    let Some(line) = line_unless_pass(verdict) else {
        return Ok(None);
    };
    let cause = cause_of_job(alloc, done, verdict, line)?;
    Ok(Some(Explanation {
        line,
        verdict,
        cause,
    }))
}

/// The line of a row that isn't a pass.
fn line_unless_pass(verdict: Verdict) -> Option<usize>
    ensures { result ≡ line_unless_pass verdict }
{
    match verdict {
        Verdict::Pass(_) => None,
        Verdict::Fail(line, _) => Some(line),
        Verdict::Syntax(line) | Verdict::Unsupported(line) | Verdict::Limit(line) => Some(line),
    }
}

/// Why a text comes to its verdict at a line.
fn cause_of_verdict(
    alloc: Global,
    lines: &Lines,
    settings: &Settings,
    verdict: Verdict,
    line: usize,
) -> Result<Cause, AllocError>
    requires verdict { verdict ≡ verdict_of lines.now settings.now }
    requires line { line_unless_pass verdict ≡ Some line }
    ensures { IfOk result (IsCause lines.now settings.now verdict) }
{
    match verdict {
        Verdict::Syntax(_) => Ok(Cause::Syntax(find_refused_token_and_expected(
            alloc, lines, line,
        )?)),
        _ => {
            let reading = read(alloc, lines)?;
            cause_in_header_or_run(alloc, lines, settings, verdict, line, &reading, None, None)
        }
    }
}

/// Why a job that was run comes to its verdict at a line.
fn cause_of_job(
    alloc: Global,
    done: &Done,
    verdict: Verdict,
    line: usize,
) -> Result<Cause, AllocError>
    requires verdict { verdict ≡ verdict_of done.now.text done.now.settings }
    requires line { line_unless_pass verdict ≡ Some line }
    ensures { IfOk result (IsCause done.now.text done.now.settings verdict) }
{
    let lines = done.text().lines();
    match verdict {
        Verdict::Syntax(_) => Ok(Cause::Syntax(find_refused_token_and_expected(
            alloc, lines, line,
        )?)),
        _ => {
            let track = done.track();
            let resumed = find_resume_point_for_origins(track, line)?;
            let resumed_early = find_resume_point_for_dropped(track, verdict, line)?;
            cause_in_header_or_run(
                alloc,
                lines,
                track.settings(),
                verdict,
                line,
                track.reading(),
                resumed,
                resumed_early,
            )
        }
    }
}

/// Why the run of a script that was read comes to its verdict at a line. The run is taken up on its way, once more early where
/// segments are looked for that were dropped, or else is run from its first event.
fn cause_in_header_or_run(
    alloc: Global,
    lines: &Lines,
    settings: &Settings,
    verdict: Verdict,
    line: usize,
    reading: &Reading,
    resumed: Option<ResumedRun>,
    resumed_early: Option<ResumedRun>,
) -> Result<Cause, AllocError>
    requires verdict { verdict ≡ verdict_of lines.now settings.now }
    requires line { line_of verdict ≡ Some line }
    requires reading { reading.now ≡ reading_of lines.now }
    requires resumed { IfSome resumed (λ t. IsResumed settings.now (script_of lines.now) t.passed t.run) }
    requires resumed_early { IfSome resumed_early (λ t. IsResumed settings.now (script_of lines.now) t.passed t.run) }
    ensures { IfOk result (IsCauseIn lines.now line settings.now (script_of lines.now) verdict) }
{
    // The laws do no work here and below: that a stop is found rests on them.
    law_readings_are_scripts();
    match first_unsupported_header_item(reading.header()) {
        Some(item) => cause_of_header_item(alloc, lines, &item),
        None => cause_of_run_stop(
            alloc,
            lines,
            settings,
            verdict,
            line,
            reading,
            resumed,
            resumed_early,
        ),
    }
}

/// Why a script isn't run: for an item of its header.
fn cause_of_header_item(
    alloc: Global,
    lines: &Lines,
    item: &HeaderItem,
) -> Result<Cause, AllocError>
    ensures { IfOk result (IsHeaderCause lines.now item.now.kind) }
{
    Ok(Cause::Rule(header_violation(alloc, lines, item)?))
}

/// The same of a script whose header is run.
fn cause_of_run_stop(
    alloc: Global,
    lines: &Lines,
    settings: &Settings,
    verdict: Verdict,
    line: usize,
    reading: &Reading,
    resumed: Option<ResumedRun>,
    resumed_early: Option<ResumedRun>,
) -> Result<Cause, AllocError>
    requires verdict { verdict ≡ verdict_of lines.now settings.now }
    requires line { line_of verdict ≡ Some line }
    requires reading { reading.now ≡ reading_of lines.now }
    requires header { first_unsupported_header_item (script_part reading.now).header.items ≡ None }
    requires resumed { IfSome resumed (λ t. IsResumed settings.now (script_of lines.now) t.passed t.run) }
    requires resumed_early { IfSome resumed_early (λ t. IsResumed settings.now (script_of lines.now) t.passed t.run) }
    ensures { IfOk result (IsCauseIn lines.now line settings.now (script_of lines.now) verdict) }
{
    law_verdicts_have_reasons();
    law_readings_are_scripts();
    match trace_stop_resumed_or_from_start(alloc, reading, settings, resumed, line)? {
        Some(traced) => cause_of_traced_stop(
            alloc,
            lines,
            settings,
            verdict,
            line,
            reading,
            &traced,
            resumed_early,
        ),
        None => unreachable!(),
    }
}

/// The same where the run was traced to its stop.
fn cause_of_traced_stop(
    alloc: Global,
    lines: &Lines,
    settings: &Settings,
    _verdict: Verdict,
    _line: usize,
    reading: &Reading,
    traced: &TracedStop,
    resumed_early: Option<ResumedRun>,
) -> Result<Cause, AllocError>
    requires verdict { _verdict ≡ verdict_of lines.now settings.now }
    requires line { line_of _verdict ≡ Some _line }
    requires reading { reading.now ≡ reading_of lines.now }
    requires header { first_unsupported_header_item (script_part reading.now).header.items ≡ None }
    requires resumed_early { IfSome resumed_early (λ t. IsResumed settings.now (script_of lines.now) t.passed t.run) }
    requires stop { stop_in _line settings.now (script_part reading.now) ≡ Some traced.now.stop }
    requires traced { IsTraced settings.now (script_part reading.now) traced.now.stop traced.now.triggers.items }
    requires whole { knows_all_origins traced.now.stop traced.now.triggers.items ≡ true }
    ensures { IfOk result (IsCauseIn lines.now _line settings.now (script_of lines.now) _verdict) }
{
    law_verdicts_have_reasons();
    law_readings_are_scripts();
    let place = place_of_event_after_passed(reading, traced.stop.passed);
    let parsed_event = reading.events().at(traced.stop.passed);
    let dropped = last_dropped_segments_if_packet_stop(
        alloc,
        reading,
        settings,
        resumed_early,
        &traced.stop,
    )?;
    cause_with_origins_and_dropped(
        alloc,
        lines,
        settings,
        reading,
        place,
        parsed_event,
        traced,
        dropped,
    )
}

/// Why an event stopped a run that was traced, with what let the packets go that nobody has taken there, and which segments were
/// dropped.
fn cause_with_origins_and_dropped(
    alloc: Global,
    lines: &Lines,
    _settings: &Settings,
    _reading: &Reading,
    place: Place,
    parsed_event: &ParsedEvent,
    traced: &TracedStop,
    dropped: Vec<DroppedSegment>,
) -> Result<Cause, AllocError>
    requires traced { IsTraced _settings.now (script_part _reading.now) traced.now.stop traced.now.triggers.items }
    requires whole { knows_all_origins traced.now.stop traced.now.triggers.items ≡ true }
    requires dropped { dropped.items ≡ last_dropped_segments_if_packet_stop _settings.now (script_part _reading.now) traced.now.stop }
    ensures { IfOk result (λ cause. IsCauseOf lines.now place parsed_event.now.event traced.now.stop cause × HasHistory _settings.now (script_part _reading.now) traced.now.stop cause) }
{
    let cause = cause_of_event_stop(alloc, lines, place, parsed_event, &traced.stop)?;
    let origins = traced.origins_of_unmatched(alloc)?;
    Ok(with_origins_and_dropped(cause, origins, dropped))
}

/// The first header item that isn't run.
fn first_unsupported_header_item(header: &Header) -> Option<HeaderItem>
    ensures { result ≡ first_unsupported_header_item header.now.items }
{
    header
        .as_slice()
        .iter()
        .copied()
        .find(|item| !matches!(item.kind, HeaderKind::Tolerance(_)))
}
