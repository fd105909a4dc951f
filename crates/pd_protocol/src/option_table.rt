//! The options that the program takes, and the text of its `--help`.
ghost use Rattle.std.specs.Prelude.{false, codes, ◌≡◌, IfOk, IfErr};
ghost use Rattle.clap.specs.Words.{app_of, kind_of, new_app, rule_of, with_rule};
ghost use Rattle.pd_protocol.specs.OptionTable.{pdregress, settings_rule, cache_rule, workers_rule, steps_rule, rules_rule, explain_rule, only_rule, json_rule, leftovers_rule};

use clap::error::ErrorKind;
use clap::{Arg, ArgAction, Command, Error, value_parser};
use std::alloc::{AllocError, Global};

/// The beginning of `--help`.
const ABOUT: &str =
    "Runs packetdrill scripts against a verified TCP sender and prints their verdicts.";

/// The end of `--help`.
const COMMANDS: &str = "\
Commands are read from standard input, one a line, words separated by spaces:
  add NAME COUNT               adds a script; the next COUNT lines are its text
  edit NAME FROM REMOVE COUNT  removes REMOVE lines from line FROM on, and
                               inserts the next COUNT lines there
  remove NAME                  removes a script
  set KEY VALUE                changes a setting; VALUE is digits, true, false
                               or a word
  show                         prints the report as it stands
  settle                       runs each pending script, and prints the report
The end of the input acts as a settle. The exit status is 0 if each script of
the last report passes, 1 if not, and 2 after a fault, which is named on
standard error.

Example:
  printf 'add a 1\\n0 socket(..., SOCK_STREAM, IPPROTO_TCP) = 3\\n' | \
pdregress --settings 'tolerance_us = 5000'
prints
  a pass 1
  total 1 pass 1 fail 0 syntax 0 unsupported 0 limit 0 pending 0";

/// The options that may be written, each whatever the others are.
pub(crate) fn command_without_conflicts<'a>(alloc: Global) -> Result<Command<'a>, Error>
    ensures words { IfOk result (λ command. app_of command ≡ pdregress) }
    ensures memory { IfErr result (λ error. kind_of error ≡ ErrorKind.OutOfMemory) }
{
    let command = command_with_settings_and_cache(alloc)?;
    Ok(add_options_beyond_settings_and_cache(alloc, command)?)
}

/// A command that takes settings and a cache, with each other option.
fn add_options_beyond_settings_and_cache<'a>(
    alloc: Global,
    command: Command<'a>,
) -> Result<Command<'a>, AllocError>
    requires { app_of command ≡ with_rule (with_rule (new_app (codes "pdregress")) settings_rule) cache_rule }
    ensures { IfOk result (λ whole. app_of whole ≡ pdregress) }
{
    command
        .arg(workers_option(alloc))?
        .arg(step_counts_on_stderr_flag(alloc))?
        .arg(met_rules_on_stderr_flag(alloc))?
        .arg(explain_failures_flag(alloc))?
        .arg(repeatable_only_name_option(alloc))?
        .arg(json_option(alloc))?
        .arg(explain_leftovers_flag(alloc))
}

/// The options that may be written together. Where `--workers` may be beside all of them, `clap` asks for `--explain` beside
/// it too.
pub(crate) fn command_with_conflicts_and_requirements<'a>(
    alloc: Global,
    are_workers_apart: bool,
) -> Result<Command<'a>, Error> {
    let command = command_with_settings_and_cache(alloc)?;
    let mut options = Vec::new(alloc);
    push_options_with_conflicts_and_requirements(alloc, &mut options, are_workers_apart)?;
    Ok(command.args(options)?)
}

/// Adds each other option, with what it may be beside.
fn push_options_with_conflicts_and_requirements<'a>(
    alloc: Global,
    options: &mut Vec<Arg<'a>>,
    are_workers_apart: bool,
) -> Result<(), AllocError> {
    options.push(workers_option_with_conflicts_if_asked(alloc, are_workers_apart)?)?;
    options.push(step_counts_on_stderr_flag(alloc))?;
    options.push(met_rules_on_stderr_flag(alloc))?;
    options.push(explain_failures_flag(alloc))?;
    options.push(repeatable_only_name_option(alloc).requires_arg("explain")?)?;
    options.push(json_option(alloc).requires_arg("explain")?)?;
    options.push(explain_leftovers_flag(alloc).requires_arg("explain")?)?;
    Ok(())
}

/// `--workers N`, with the options that may be beside it.
fn workers_option_with_conflicts_if_asked<'a>(
    alloc: Global,
    are_workers_apart: bool,
) -> Result<Arg<'a>, AllocError> {
    let workers = workers_option(alloc);
    if are_workers_apart {
        workers
            .conflicts_with("steps")?
            .conflicts_with("rules")?
            .conflicts_with("explain")
    } else {
        Ok(workers)
    }
}

/// A command that takes settings and a cache.
fn command_with_settings_and_cache<'a>(alloc: Global) -> Result<Command<'a>, Error>
    ensures words { IfOk result (λ command. app_of command ≡ with_rule (with_rule (new_app (codes "pdregress")) settings_rule) cache_rule) }
    ensures memory { IfErr result (λ error. kind_of error ≡ ErrorKind.OutOfMemory) }
{
    Ok(
        Command::new(alloc, "pdregress")
            .bin_name("pdregress")?
            .arg(toml_settings_text_option(alloc))?
            .arg(cache_option(alloc))?
            .about(ABOUT)
            .after_help(COMMANDS),
    )
}

/// `--settings TEXT`: one text, empty where it isn't written.
pub fn toml_settings_text_option<'a>(alloc: Global) -> Arg<'a>
    ensures rule { rule_of result ≡ settings_rule }
    ensures local { result.global ≡ false }
{
    Arg::new(alloc, "settings")
        .long("settings")
        .value_name("TEXT")
        .help("Settings at the start, as a TOML text")
        .default_value("")
        .action(ArgAction::Set)
}

fn cache_option<'a>(alloc: Global) -> Arg<'a>
    ensures rule { rule_of result ≡ cache_rule }
    ensures local { result.global ≡ false }
{
    Arg::new(alloc, "cache")
        .long("cache")
        .value_name("N")
        .help("Scripts whose last run is kept to shorten the next one, 1 to 1024")
        .default_value("64")
        .value_parser(value_parser!(u16).range(1..=1024))
        .action(ArgAction::Set)
}

/// It has no default value, so that `clap` says whether it is written.
fn workers_option<'a>(alloc: Global) -> Arg<'a>
    ensures rule { rule_of result ≡ workers_rule }
    ensures local { result.global ≡ false }
{
    Arg::new(alloc, "workers")
        .long("workers")
        .value_name("N")
        .help(
            "Threads that run scripts while commands are read, 0 to 64; without it there are none",
        )
        .value_parser(value_parser!(u8).range(..=64))
        .action(ArgAction::Set)
}

fn step_counts_on_stderr_flag<'a>(alloc: Global) -> Arg<'a>
    ensures rule { rule_of result ≡ steps_rule }
    ensures local { result.global ≡ false }
{
    Arg::new(alloc, "steps")
        .long("steps")
        .help("Writes on standard error how many steps each run took")
        .action(ArgAction::SetTrue)
}

fn met_rules_on_stderr_flag<'a>(alloc: Global) -> Arg<'a>
    ensures rule { rule_of result ≡ rules_rule }
    ensures local { result.global ≡ false }
{
    Arg::new(alloc, "rules")
        .long("rules")
        .help("Writes on standard error which rules of the sender each event of a script comes to")
        .action(ArgAction::SetTrue)
}

fn explain_failures_flag<'a>(alloc: Global) -> Arg<'a>
    ensures rule { rule_of result ≡ explain_rule }
    ensures local { result.global ≡ false }
{
    Arg::new(alloc, "explain")
        .long("explain")
        .help("Writes on standard error why each script that doesn't pass doesn't")
        .action(ArgAction::SetTrue)
}

fn repeatable_only_name_option<'a>(alloc: Global) -> Arg<'a>
    ensures rule { rule_of result ≡ only_rule }
    ensures local { result.global ≡ false }
{
    Arg::new(alloc, "only")
        .long("only")
        .value_name("NAME")
        .help("Explains the script of this name alone; may be given several times")
        .action(ArgAction::Append)
}

fn json_option<'a>(alloc: Global) -> Arg<'a>
    ensures rule { rule_of result ≡ json_rule }
    ensures local { result.global ≡ false }
{
    Arg::new(alloc, "json")
        .long("json")
        .help("Writes each explanation as one JSON object in a line")
        .action(ArgAction::SetTrue)
}

fn explain_leftovers_flag<'a>(alloc: Global) -> Arg<'a>
    ensures rule { rule_of result ≡ leftovers_rule }
    ensures local { result.global ≡ false }
{
    Arg::new(alloc, "leftovers")
        .long("leftovers")
        .help(
            "Also tells of a script that passes what it leaves at its end, or that it awaits no packet",
        )
        .action(ArgAction::SetTrue)
}
