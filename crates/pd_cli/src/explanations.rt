//! Why a job came to another verdict than pass, or what one that passes leaves, as a block of lines.
ghost use Rattle.std.specs.Prelude.{◌≡◌, bytes_eq, true, false, [], IfOk};
ghost use Rattle.std.specs.List.{list_any};
ghost use Rattle.pd_explain.specs.BlockLines.{IsExplanationText, IsLeftoversText};
ghost use Rattle.pd_cause.specs.Leftovers.{is_pass};
ghost use Rattle.pd_protocol.specs.ChosenOptions.{explaining_of, names_of};
ghost use Rattle.pd_cli.specs.ExplanationBlocks.{IsBlockOf, IsFailureBlock, IsPassBlock, is_selected_or_none_selected, verdict_of_task};

use pd_book::Done;
use pd_cause::{Explanation, Leftovers, explain_job_unless_pass, find_leftovers_if_passes};
use pd_explain::{explanation_json, explanation_text, leftovers_json, leftovers_text};
use pd_protocol::ExplainOptions;
use pd_run::Verdict;
use pd_text::Name;
use std::alloc::{AllocError, Global};

/// The block that is written of a job: nothing where its script isn't among those that are looked into, or where it passes
/// and ends aren't asked for.
///
/// # Errors
/// `AllocError` where a growth is refused.
pub(crate) fn explanation_or_leftovers_if_asked(
    alloc: Global,
    explain_options: &ExplainOptions<'_>,
    done: &Done,
) -> Result<Vec<u8>, AllocError>
    ensures { IfOk result (λ block. IsBlockOf (explaining_of explain_options.now) done.now block.items) }
{
    if !is_selected_or_none_selected(explain_options.only.as_slice(), done.name()) {
        return Ok(Vec::new(alloc));
    }
    if is_pass(done.verdict()) {
        return render_leftovers_if_asked(alloc, explain_options, done);
    }
    render_failure_as_json_or_text(alloc, explain_options.json, done)
}

fn is_pass(verdict: Verdict) -> bool
    ensures { result ≡ is_pass verdict }
{
    matches!(verdict, Verdict::Pass(_))
}

/// Why a job doesn't pass.
fn render_failure_as_json_or_text(
    alloc: Global,
    json: bool,
    done: &Done,
) -> Result<Vec<u8>, AllocError>
    requires { is_pass (verdict_of_task done.now) ≡ false }
    ensures { IfOk result (λ block. IsFailureBlock json done.now block.items) }
{
    match explain_job_unless_pass(alloc, done)? {
        Some(explanation) => render_explanation_as_json_or_text(
            alloc,
            json,
            done.name(),
            &explanation,
        ),
        None => Ok(Vec::new(alloc)),
    }
}

/// The block of an explanation, as JSON or as text.
fn render_explanation_as_json_or_text(
    alloc: Global,
    json: bool,
    name: &Name,
    explanation: &Explanation,
) -> Result<Vec<u8>, AllocError>
    ensures { IfOk result (λ block. json ≡ false → IsExplanationText name.now explanation.now block.items) }
{
    if json {
        explanation_json(alloc, name, explanation)
    } else {
        explanation_text(alloc, name, explanation)
    }
}

/// The leftovers at the end of a job that passes, where they are asked for.
fn render_leftovers_if_asked(
    alloc: Global,
    explain_options: &ExplainOptions<'_>,
    done: &Done,
) -> Result<Vec<u8>, AllocError>
    ensures silent { IfOk result (λ block. explain_options.now.leftovers ≡ false → block.items ≡ []) }
    ensures reports { IfOk result (λ block. explain_options.now.leftovers ≡ true → IsPassBlock explain_options.now.json done.now block.items) }
{
    if !explain_options.leftovers {
        return Ok(Vec::new(alloc));
    }
    match find_leftovers_if_passes(alloc, done.text().lines(), &done.settings())? {
        Some(leftovers) => render_leftovers(alloc, explain_options.json, done.name(), &leftovers),
        None => Ok(Vec::new(alloc)),
    }
}

/// The block of leftovers, as JSON or as text.
fn render_leftovers(
    alloc: Global,
    json: bool,
    name: &Name,
    leftovers: &Leftovers,
) -> Result<Vec<u8>, AllocError>
    ensures { IfOk result (λ block. json ≡ false → IsLeftoversText name.now leftovers.now block.items) }
{
    if json {
        leftovers_json(alloc, name, leftovers)
    } else {
        leftovers_text(alloc, name, leftovers)
    }
}

/// Whether a script of this name is looked into: it is among the names, or there are none.
fn is_selected_or_none_selected(only: &[&str], name: &Name) -> bool
    ensures { result ≡ is_selected_or_none_selected (names_of only.now) name.now }
{
    only.is_empty() || is_among(only, name)
}

/// Whether a name is among others.
fn is_among(names: &[&str], name: &Name) -> bool
    ensures { result ≡ list_any (λ each. bytes_eq each.now name.now) names.now }
{
    names.iter().any(|each| each.as_bytes() == name.as_slice())
}
