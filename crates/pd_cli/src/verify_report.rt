//! The reports that a seat at a desk is shown, as its own copy has them.
ghost use Rattle.std.specs.Prelude.{◌≡◌, ◌↔◌, All, IsTrue, IfErr, OnOk};
ghost use Rattle.pd_book.specs.Report.{IsRunUnder};
ghost use Rattle.pd_desk.specs.Desk.{IsCurrent};
ghost use Rattle.pd_cli.specs.Beside.{from_scratch, IsScratchOf, IsPartOf};
ghost use Rattle.pd_cli.specs.BesideSteps.{scripts_of, IsOfSame, FailsBeside};

use pd_book::{Book, Report, Row, law_verdicts_are_of_current_runs};
use pd_protocol::{Command, ServeFault};

/// Compares a report with the own copy.
///
/// # Errors
/// `Differs` where the settings, the names or the texts do.
pub(crate) fn check_same_scripts_and_settings_as_own(
    own: &Book,
    report: &Report,
) -> Result<(), ServeFault>
    ensures part { OnOk result (IsPartOf own.now.history report.now) }
    ensures whole { OnOk result (IsCurrent report.now → report.now ≡ from_scratch own.now.history) }
    ensures scratch { OnOk result (IsCurrent report.now → IsScratchOf own.now.history report.now) }
    ensures only { (command : Command) → IfErr result (λ fault. FailsBeside fault command) }
{
    law_verdicts_are_of_current_runs();
    let kept = own.show()?;
    if has_same_scripts_and_settings(report, &kept) {
        Ok(())
    } else {
        Err(ServeFault::Differs)
    }
}

/// Whether two reports are of the same scripts under the same settings.
fn has_same_scripts_and_settings(report: &Report, other: &Report) -> bool
    ensures same { IsTrue result ↔ IsOfSame report.now other.now }
    ensures runs { All (IsRunUnder report.now.settings) report.now.rows }
{
    let same_rows = have_same_names_and_texts(report.rows(), other.rows());
    same_rows && report.settings().is_same(&other.settings())
}

fn have_same_names_and_texts(rows: &[Row], others: &[Row]) -> bool
    ensures { IsTrue result ↔ (scripts_of rows.now ≡ scripts_of others.now) }
{
    let mut rows = rows;
    let mut others = others;
    while let (Some((row, more)), Some((other, rest))) = (
        rows.split_first(),
        others.split_first(),
    ) {
        if !row.name.is_same(&other.name) || !row.text.is_same(&other.text) {
            return false;
        }
        rows = more;
        others = rest;
    }
    rows.is_empty() && others.is_empty()
}
