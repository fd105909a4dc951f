//! The laws of each history that serving goes through and of each report that it prints; the functions
//! do nothing.
ghost use Rattle.pd_cli.specs.Reported.{NothingIsReported, StepsAreReported, RulesAreReported, BlocksAreReported};
ghost use Rattle.pd_cli.specs.Laws.{OutputGoesOn, StoriesAreLegal, SettlesPrintScratch, ShowsPrintPart, AloneIsPossibleBeside, SessionsArePossibleBeside, WritesAreOutput};

use pd_book::{
    law_acts_are_accepted_iff_legal, law_settling_ends_with_none_pending,
    law_verdicts_are_of_current_runs,
};

/// Each history that serving comes to is legal. A settle leaves nothing pending and the same scripts and settings, and
/// prints their report from scratch; in a report that a show prints each row is pending or that from scratch. The octets
/// that commands print they may print with workers too. The octets that are written by the grammar are just the output.
pub fn law_settle_reports_from_scratch()
    ensures output { OutputGoesOn }
    ensures legal { StoriesAreLegal }
    ensures settles { SettlesPrintScratch }
    ensures shows { ShowsPrintPart }
    ensures beside { AloneIsPossibleBeside }
    ensures sessions { SessionsArePossibleBeside }
    ensures written { WritesAreOutput }
{
    law_verdicts_are_of_current_runs();
    law_acts_are_accepted_iff_legal();
    law_settling_ends_with_none_pending();
}

/// Of jobs nothing is reported where nothing is asked for, a line of steps each where steps alone are, the lines on its rules
/// each where rules alone are, and a block each where explanations alone are.
pub fn law_jobs_report_only_what_is_asked()
    ensures nothing { NothingIsReported }
    ensures steps { StepsAreReported }
    ensures rules { RulesAreReported }
    ensures blocks { BlocksAreReported }
{}
