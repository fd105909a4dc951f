//! The laws of each legal history; the functions do nothing.
ghost use Rattle.std.specs.Prelude.{List};
ghost use Rattle.pd_settings.specs.declared.settings.Settings.{Settings};
ghost use Rattle.pd_book.specs.declared.act.Act.{Act};
ghost use Rattle.pd_book.specs.Legal.{Legal};
ghost use Rattle.pd_book.specs.Report.{shown};
ghost use Rattle.pd_book.specs.Acts.{NamedText};
ghost use Rattle.pd_book.specs.History.{History};
ghost use Rattle.pd_book.specs.Accepted.{AddsAreLegal, EditsAreLegal, RemovesAreLegal, SetsAreLegal, LegalAddsAreAccepted, LegalEditsAreAccepted, LegalRemovesAreAccepted, LegalSetsAreAccepted, StartsAreLegal, FinishesAreLegal, AbandonsAreLegal};
ghost use Rattle.pd_book.specs.Turns.{IsAtRest, StartsAreOutstanding, TurnsSettle, NoneOwedWhenNoneWaits, TurnsAreLegal, TurnsSuffice, SettlesAll};
ghost use Rattle.pd_book.specs.Headline.{CurrentWhenAnswered, RowsAreScripts, VerdictsAreRuns, VerdictsAreGrammars, ScratchWhenAllAnswered, WholeWhenAllAnswered, RowsAreOfScratch, RowsAreOfWhole, ScratchIsOne, NoneOwedWhenAllAnswered, TakenWhenUnchanged};

use pd_run::law_verdicts_are_of_grammar_scripts;

/// After any list of accepted calls, in any order, a script is shown with a verdict exactly when a job
/// started since its last change was answered; its verdict is the run of its present text under the present
/// settings; and when all are answered, none is owed and the report is the one from scratch. That each book's
/// acts are legal is a clause of `Book::history`.
pub fn law_verdicts_are_of_current_runs()
    ensures current { (opening : Settings) → (past : List Act) → Legal opening past → CurrentWhenAnswered past (shown opening past) }
    ensures scripts { (opening : Settings) → (past : List Act) → RowsAreScripts past (shown opening past) }
    ensures verdicts { (opening : Settings) → (past : List Act) → VerdictsAreRuns opening past (shown opening past) }
    ensures scratch { (opening : Settings) → (past : List Act) → ScratchWhenAllAnswered opening past (shown opening past) }
    ensures rows { (opening : Settings) → (past : List Act) → RowsAreOfScratch opening past (shown opening past) }
    ensures grammar { (opening : Settings) → (past : List Act) → VerdictsAreGrammars opening past (shown opening past) }
    ensures whole { (opening : Settings) → (past : List Act) → WholeWhenAllAnswered opening past (shown opening past) }
    ensures parts { (opening : Settings) → (past : List Act) → RowsAreOfWhole opening past (shown opening past) }
    ensures one { (scripts : List NamedText) → (settings : Settings) → ScratchIsOne scripts settings }
    ensures owed { (opening : Settings) → (past : List Act) → NoneOwedWhenAllAnswered opening past (shown opening past) }
    ensures taken { (opening : Settings) → (past : List Act) → Legal opening past → TakenWhenUnchanged opening past }
{
    law_verdicts_are_of_grammar_scripts();
}

/// After a legal history, exactly the acts of calls that aren't refused leave a legal one.
pub fn law_acts_are_accepted_iff_legal()
    ensures adds { (history : History) → Legal history.opening history.past → AddsAreLegal history }
    ensures edits { (history : History) → Legal history.opening history.past → EditsAreLegal history }
    ensures removes { (history : History) → Legal history.opening history.past → RemovesAreLegal history }
    ensures sets { (history : History) → Legal history.opening history.past → SetsAreLegal history }
    ensures added { (history : History) → Legal history.opening history.past → LegalAddsAreAccepted history }
    ensures edited { (history : History) → Legal history.opening history.past → LegalEditsAreAccepted history }
    ensures removed { (history : History) → Legal history.opening history.past → LegalRemovesAreAccepted history }
    ensures assigned { (history : History) → Legal history.opening history.past → LegalSetsAreAccepted history }
    ensures starts { (history : History) → Legal history.opening history.past → StartsAreLegal history }
    ensures finishes { (history : History) → Legal history.opening history.past → FinishesAreLegal history }
    ensures abandons { (history : History) → Legal history.opening history.past → AbandonsAreLegal history }
{}

/// Starts and finishes by turns, with no other job between, come to an end: each turn leaves one row fewer
/// pending and a legal history, where no script waits none is pending, and a settling that isn't refused a start
/// leaves the report from scratch of the same scripts and settings. More turns give nothing more. A job that is handed
/// out is outstanding then.
pub fn law_settling_ends_with_none_pending()
    ensures starts { (history : History) → Legal history.opening history.past → StartsAreOutstanding history }
    ensures turns { (opening : Settings) → (past : List Act) → Legal opening past → TurnsSettle opening past }
    ensures end { (opening : Settings) → (past : List Act) → Legal opening past → NoneOwedWhenNoneWaits opening past }
    ensures legal { (history : History) → IsAtRest history → TurnsAreLegal history }
    ensures enough { (history : History) → IsAtRest history → TurnsSuffice history }
    ensures settles { (history : History) → IsAtRest history → SettlesAll history }
{}
