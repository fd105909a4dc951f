//! Reports.
ghost use Rattle.std.specs.Prelude.{◌≡◌, All};
ghost use Rattle.pd_book.specs.Report.{IsRunUnder};

use pd_run::Verdict;
use pd_settings::Settings;
use pd_text::{Name, Text};
use std::marker::Model;

/// A script in a report; `None` means that its verdict is pending.
#[derive(Drop)]
pub struct Row {
    /// The name of the script.
    pub name: Name,
    /// Its text, as it was at the report.
    pub text: Text,
    /// The verdict of that text, unless it is pending.
    pub verdict: Option<Verdict>,
}

/// The settings and a row for each script, in order of adding. Each verdict in it is the run of its row's
/// text under these settings.
#[derive(Drop)]
pub struct Report {
    /// The settings under which the verdicts hold.
    settings: Settings,
    /// A row for each script, in order of adding.
    rows: Vec<Row>,
}

impl Model for Report {
    ghost use Rattle.std.specs.Prelude.{All};
    ghost use Rattle.pd_book.specs.Report.{ReportView, IsRunUnder};

    ghost Value = { ReportView };

    ghost view = { λ r. record { settings = r.settings; rows = r.rows.items } };

    ghost invariant = { λ r. All (IsRunUnder r.settings) r.rows.items };
}

impl Report {
    /// The report of these rows.
    pub(crate) fn new(settings: Settings, rows: Vec<Row>) -> Report
        requires { All (IsRunUnder settings) rows.items }
        ensures { result ≡ record { settings = settings; rows = rows.items } }
    {
        Report { settings, rows }
    }

    /// The settings under which its verdicts hold.
    pub fn settings(&self) -> Settings
        ensures { result ≡ self.now.settings }
    {
        self.settings
    }

    /// A row for each script, in the order of adding.
    pub fn rows(&self) -> &[Row]
        ensures rows { result.now ≡ self.now.rows }
        ensures runs { All (IsRunUnder self.now.settings) self.now.rows }
    {
        self.rows.as_slice()
    }
}
