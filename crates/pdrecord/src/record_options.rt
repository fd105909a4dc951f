//! The options of the program that records, read by `clap`.
ghost use Rattle.std.specs.Prelude.{false, ◌≡◌, ◌≢◌, ◌⊎◌, ◌||◌, List, [], IfOk, IfErr, codes, map, option_map, unwrap_or};
ghost use Rattle.clap.specs.Words.{HasMatchesOf, Text, app_of, found_of, kind_of, matched_of, raw_values, rule_of};
ghost use Rattle.pd_protocol.specs.ChosenOptions.{names_of};
ghost use Rattle.pdrecord.specs.RecordArguments.{pdrecord, trace_rule, minimal_rule, drop_missing_rule, file_rule, is_flag_given, is_trace_beside_minimal, is_drop_missing_alone, refusals, record_mode, HasRecordOptions};

use clap::error::ErrorKind;
use clap::{Arg, ArgAction, ArgMatches, Command, Error};
use pd_protocol::{
    clap_error_for_arguments_already_refused, is_word_true, toml_settings_text_option,
};
use std::alloc::{AllocError, Global};
use std::convert::AsStr;

/// How a script is recorded.
#[derive(Clone, Copy, PartialEq, Eq)]
pub enum RecordMode {
    /// Whole.
    Whole,
    /// Whole, with a trace.
    Traced,
    /// By the least change with which it passes. A packet that is awaited and isn't sent becomes a comment, or if so is taken
    /// away.
    Minimal(bool),
}

/// The options of the program that records.
#[derive(Drop)]
pub struct RecordOptions<'a> {
    /// A TOML text of settings.
    pub settings: &'a str,
    /// How scripts are recorded.
    pub mode: RecordMode,
    /// The files whose scripts are recorded; without one it is the input.
    pub files: Vec<&'a str>,
}

/// The beginning of `--help`.
const ABOUT: &str = "\
Records packetdrill scripts: from the inputs of a script, a script that passes.";

/// The end of `--help`.
const AFTER: &str = "\
One script is read from standard input. The recorded script is written to
standard output: its inputs with what the sender answers, and each packet that
the sender puts out, at its moment. The exit status is 0 if the script was
recorded, 1 if not, and 2 after a fault; standard error says why.

With FILE.. the scripts of files are recorded, one after the other. Each has a
title, `recorded COUNT FILE` with the COUNT lines of its recording after it, or
`refused COUNT FILE` with the COUNT lines that say why.

Example:
  printf '+0 socket(..., SOCK_STREAM, 0) = 0\\n' | pdrecord
prints
  +0 socket(..., SOCK_STREAM, 0) = 3";

/// Reads the arguments of the program that records.
///
/// # Errors
/// `clap`'s message on the arguments, the text of `--help` among it.
pub fn parse_record_options<'a, S: AsStr>(
    alloc: Global,
    arguments: &'a [S],
) -> Result<RecordOptions<'a>, Error>
    ensures options_of { IfOk result (λ options. HasRecordOptions (map S.text arguments.entry.now) options) }
    ensures taken { IfOk result (λ _. refusals (map S.text arguments.entry.now) ≡ []) }
    ensures refused { IfErr result (λ error. (kind_of error ≡ ErrorKind.OutOfMemory) ⊎ (refusals (map S.text arguments.entry.now) ≢ [])) }
{
    let command = command_without_conflicts(alloc)?;
    let matches = command.try_get_matches_from(arguments)?;
    if are_options_conflicting(&matches) {
        let with_conflicts = command_with_conflicts(alloc, is_trace_beside_minimal(&matches));
        return Err(clap_error_for_arguments_already_refused(with_conflicts, arguments));
    }
    Ok(options_of_matches(alloc, &matches)?)
}

/// Whether options are refused together of which each may be written.
fn are_options_conflicting(matches: &ArgMatches<'_>) -> bool
    ensures { (arguments : List Text) → HasMatchesOf pdrecord arguments matches.now → result ≡ (is_trace_beside_minimal arguments || is_drop_missing_alone arguments) }
{
    is_trace_beside_minimal(matches) || is_drop_missing_alone(matches)
}

/// Whether `--trace` is beside `--minimal`, of which there is no trace.
fn is_trace_beside_minimal(matches: &ArgMatches<'_>) -> bool
    ensures { (arguments : List Text) → HasMatchesOf pdrecord arguments matches.now → result ≡ is_trace_beside_minimal arguments }
{
    is_flag_given(matches, "trace") && is_flag_given(matches, "minimal")
}

/// Whether `--drop-missing` is without `--minimal`, to which it belongs.
fn is_drop_missing_alone(matches: &ArgMatches<'_>) -> bool
    ensures { (arguments : List Text) → HasMatchesOf pdrecord arguments matches.now → result ≡ is_drop_missing_alone arguments }
{
    is_flag_given(matches, "drop-missing") && !is_flag_given(matches, "minimal")
}

/// Whether a flag is written.
fn is_flag_given(matches: &ArgMatches<'_>, name: &str) -> bool
    ensures { (arguments : List Text) → HasMatchesOf pdrecord arguments matches.now → result ≡ is_flag_given name.now arguments }
{
    is_word_true(matches.get_str(name).unwrap_or("").as_bytes())
}

/// The options that arguments choose which aren't refused.
fn options_of_matches<'a>(
    alloc: Global,
    matches: &ArgMatches<'a>,
) -> Result<RecordOptions<'a>, AllocError>
    ensures { (arguments : List Text) → HasMatchesOf pdrecord arguments matches.now → IfOk result (λ options. HasRecordOptions arguments options) }
{
    let files = file_names(alloc, matches)?;
    let is_minimal = is_flag_given(matches, "minimal");
    let drops_missing = is_flag_given(matches, "drop-missing");
    let with_trace = is_flag_given(matches, "trace");
    Ok(RecordOptions {
        settings: matches.get_str("settings").unwrap_or(""),
        mode: record_mode(is_minimal, drops_missing, with_trace),
        files,
    })
}

/// How scripts are recorded, by whether the least change, one without comments, and a trace are asked for.
fn record_mode(is_minimal: bool, drops_missing: bool, with_trace: bool) -> RecordMode
    ensures { result ≡ record_mode is_minimal drops_missing with_trace }
{
    if is_minimal {
        RecordMode::Minimal(drops_missing)
    } else if with_trace {
        RecordMode::Traced
    } else {
        RecordMode::Whole
    }
}

/// The files that are named.
fn file_names<'a>(alloc: Global, matches: &ArgMatches<'a>) -> Result<Vec<&'a str>, AllocError>
    ensures { IfOk result (λ names. names_of names.items ≡ unwrap_or (option_map raw_values (matched_of (found_of matches.now) (codes "file"))) []) }
{
    match matches.get_strs("file") {
        Some(names) => Vec::from_slice(alloc, names),
        None => Ok(Vec::new(alloc)),
    }
}

/// The options that may be written, each whatever the others are.
fn command_without_conflicts<'a>(alloc: Global) -> Result<Command<'a>, Error>
    ensures arguments { IfOk result (λ command. app_of command ≡ pdrecord) }
    ensures memory { IfErr result (λ error. kind_of error ≡ ErrorKind.OutOfMemory) }
{
    Ok(command_with_options(alloc)?)
}

/// A command that takes each option.
fn command_with_options<'a>(alloc: Global) -> Result<Command<'a>, AllocError>
    ensures { IfOk result (λ command. app_of command ≡ pdrecord) }
{
    Ok(
        Command::new(alloc, "pdrecord")
            .bin_name("pdrecord")?
            .arg(toml_settings_text_option(alloc))?
            .arg(trace_option(alloc))?
            .arg(minimal_option(alloc))?
            .arg(drop_missing_option(alloc))?
            .arg(file_option(alloc))?
            .about(ABOUT)
            .after_help(AFTER),
    )
}

/// The options that may be written together. Where `--trace` may never be beside `--minimal`, `clap` doesn't ask for
/// `--minimal` beside `--drop-missing` and `--trace`.
fn command_with_conflicts<'a>(alloc: Global, is_trace_apart: bool) -> Result<Command<'a>, Error> {
    let mut options = Vec::new(alloc);
    push_options_with_conflicts(alloc, &mut options, is_trace_apart)?;
    let command = Command::new(alloc, "pdrecord")
        .about(ABOUT)
        .after_help(AFTER);
    Ok(command.args(options)?.bin_name("pdrecord")?)
}

/// Adds each option, with what it may be beside.
fn push_options_with_conflicts<'a>(
    alloc: Global,
    options: &mut Vec<Arg<'a>>,
    is_trace_apart: bool,
) -> Result<(), AllocError> {
    options.push(toml_settings_text_option(alloc))?;
    options.push(trace_option_refusing_minimal_if_set(alloc, is_trace_apart)?)?;
    options.push(minimal_option(alloc))?;
    options.push(drop_missing_option(alloc).requires_arg("minimal")?)?;
    options.push(file_option(alloc))?;
    Ok(())
}

/// `--trace`, with the options that may be beside it.
fn trace_option_refusing_minimal_if_set<'a>(
    alloc: Global,
    is_trace_apart: bool,
) -> Result<Arg<'a>, AllocError> {
    let trace = trace_option(alloc);
    if is_trace_apart {
        trace.conflicts_with("minimal")
    } else {
        Ok(trace)
    }
}

fn trace_option<'a>(alloc: Global) -> Arg<'a>
    ensures rule { rule_of result ≡ trace_rule }
    ensures local { result.global ≡ false }
{
    Arg::new(alloc, "trace")
        .long("trace")
        .help(
            "Writes after each event its moment and the state of the sender, in a line that begins with //=",
        )
        .action(ArgAction::SetTrue)
}

fn minimal_option<'a>(alloc: Global) -> Arg<'a>
    ensures rule { rule_of result ≡ minimal_rule }
    ensures local { result.global ≡ false }
{
    Arg::new(alloc, "minimal")
        .long("minimal")
        .help("Changes as little of a script as makes it pass; no trace is written")
        .action(ArgAction::SetTrue)
}

fn drop_missing_option<'a>(alloc: Global) -> Arg<'a>
    ensures rule { rule_of result ≡ drop_missing_rule }
    ensures local { result.global ≡ false }
{
    Arg::new(alloc, "drop-missing")
        .long("drop-missing")
        .help("With --minimal, leaves no comments of packets that aren't sent")
        .action(ArgAction::SetTrue)
}

fn file_option<'a>(alloc: Global) -> Arg<'a>
    ensures rule { rule_of result ≡ file_rule }
    ensures local { result.global ≡ false }
{
    Arg::new(alloc, "file")
        .value_name("FILE")
        .help("Records the scripts of files, and writes a title before each recording")
        .action(ArgAction::Append)
}
