//! The options that a program's arguments choose.

/// The options that the program's arguments choose.
#[derive(Drop)]
pub struct Options<'a> {
    /// A TOML text of settings.
    pub settings: &'a str,
    /// How many workers run the scripts, at most 64; with none the commands are served alone.
    pub workers: usize,
    /// How many tracks the book keeps, 1 to 1,024.
    pub cache: usize,
    /// Whether a line on standard error gives each finished job's number of steps.
    pub steps: bool,
    /// Whether lines on standard error give the rules of the sender that each finished job's events come to.
    pub rules: bool,
    /// Which scripts that don't pass are explained on standard error, and how; where it is `None`, none are.
    pub explain: Option<ExplainOptions<'a>>,
}

/// Which scripts are explained, and how.
#[derive(Drop)]
pub struct ExplainOptions<'a> {
    /// The names of the scripts that are explained; where there are none, all are.
    pub only: Vec<&'a str>,
    /// Whether explanations are JSON.
    pub json: bool,
    /// Whether the leftovers at the ends of scripts that pass are reported too.
    pub leftovers: bool,
}
