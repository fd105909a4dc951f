//! The arguments of the program, read by `clap`.
ghost use Rattle.std.specs.Prelude.{bytes_eq, codes, ◌≡◌, ◌≢◌, ◌⊎◌, ◌≤◌, ◌||◌, List, [], IfOk, IfErr, map, option_map, unwrap_or};
ghost use Rattle.clap.specs.Words.{HasMatchesOf, Text, found_of, kind_of, matched_of, raw_values};
ghost use Rattle.pd_protocol.specs.ChosenOptions.{explaining_of, names_of, report_options, HasChosen};
ghost use Rattle.pd_protocol.specs.OptionTable.{pdregress, without_sign, worker_count_or_zero, cache_size_in_range_or_64, is_option_given, has_flag, are_in_conflict, lack_explain, refusals};

use crate::numbers::parse_number;
use crate::option_table::{command_with_conflicts_and_requirements, command_without_conflicts};
use crate::program_options::{ExplainOptions, Options};
use clap::error::ErrorKind;
use clap::{ArgMatches, Command, Error};
use std::alloc::{AllocError, Global};
use std::convert::AsStr;

/// Reads the arguments of the program, of which the first is its own name.
///
/// # Errors
/// `clap`'s message on the arguments, the text of `--help` among it.
pub fn options<'a, S: AsStr>(alloc: Global, words: &'a [S]) -> Result<Options<'a>, Error>
    ensures chosen_options { IfOk result (λ options. HasChosen (map S.text words.entry.now) options) }
    ensures few { IfOk result (λ options. options.workers ≤ 64) }
    ensures some { IfOk result (λ options. 1 ≤ options.cache) }
    ensures most { IfOk result (λ options. options.cache ≤ 1024) }
    ensures taken { IfOk result (λ _. refusals (map S.text words.entry.now) ≡ []) }
    ensures refused { IfErr result (λ error. (kind_of error ≡ ErrorKind.OutOfMemory) ⊎ (refusals (map S.text words.entry.now) ≢ [])) }
{
    let command = command_without_conflicts(alloc)?;
    let matches = command.try_get_matches_from(words)?;
    if are_options_conflicting_or_lacking_explain(&matches) {
        let with_conflicts = command_with_conflicts_and_requirements(
            alloc,
            has_workers_conflict(&matches),
        );
        return Err(clap_error_for_arguments_already_refused(with_conflicts, words));
    }
    Ok(chosen_options(alloc, &matches)?)
}

/// The error with which `clap` refuses arguments of which it takes each by itself, by a command that knows which options go together; or
/// why there is no such command.
pub fn clap_error_for_arguments_already_refused<'a, S: AsStr>(
    command: Result<Command<'a>, Error>,
    arguments: &'a [S],
) -> Error {
    match command {
        Ok(mut command) => clap_error_or_conflict_error(&mut command, arguments),
        Err(error) => error,
    }
}

/// The message of a command on arguments that it refuses, or that are refused all the same.
fn clap_error_or_conflict_error<'a, S: AsStr>(
    command: &mut Command<'a>,
    arguments: &'a [S],
) -> Error {
    match command.try_get_matches_from_mut(arguments) {
        Ok(_) => conflict_error(command),
        Err(error) => error,
    }
}

/// That options can't be used together.
fn conflict_error(command: &mut Command<'_>) -> Error {
    match command.error(
        ErrorKind::ArgumentConflict,
        "these options can't be used together",
    ) {
        Ok(error) => error,
        Err(error) => Error::from(error),
    }
}

/// Whether arguments are refused together of which each may be written.
fn are_options_conflicting_or_lacking_explain(matches: &ArgMatches<'_>) -> bool
    ensures { (words : List Text) → HasMatchesOf pdregress words matches.now → result ≡ (are_in_conflict words || lack_explain words) }
{
    has_workers_conflict(matches) || has_option_that_lacks_explain(matches)
}

/// Whether `--workers` is beside an option that goes without workers.
fn has_workers_conflict(matches: &ArgMatches<'_>) -> bool
    ensures { (words : List Text) → HasMatchesOf pdregress words matches.now → result ≡ are_in_conflict words }
{
    is_option_given(matches, "workers")
        && (has_flag(matches, "steps")
            || has_flag(matches, "rules")
            || has_flag(matches, "explain"))
}

/// Whether an option is without `--explain`, to which it belongs.
fn has_option_that_lacks_explain(matches: &ArgMatches<'_>) -> bool
    ensures { (words : List Text) → HasMatchesOf pdregress words matches.now → result ≡ lack_explain words }
{
    !has_flag(matches, "explain")
        && (is_option_given(matches, "only")
            || has_flag(matches, "json")
            || has_flag(matches, "leftovers"))
}

/// Whether an option without a default value is written.
fn is_option_given(matches: &ArgMatches<'_>, name: &str) -> bool
    ensures { (words : List Text) → HasMatchesOf pdregress words matches.now → result ≡ is_option_given name.now words }
{
    matches.get_str(name).is_some()
}

/// Whether a flag is written.
fn has_flag(matches: &ArgMatches<'_>, name: &str) -> bool
    ensures { (words : List Text) → HasMatchesOf pdregress words matches.now → result ≡ has_flag name.now words }
{
    is_word_true(matches.get_str(name).unwrap_or("").as_bytes())
}

/// The options that arguments choose which aren't refused.
fn chosen_options<'a>(alloc: Global, matches: &ArgMatches<'a>) -> Result<Options<'a>, AllocError>
    ensures chosen_options { (words : List Text) → HasMatchesOf pdregress words matches.now → IfOk result (λ options. HasChosen words options) }
    ensures few { IfOk result (λ options. options.workers ≤ 64) }
    ensures some { IfOk result (λ options. 1 ≤ options.cache) }
    ensures most { IfOk result (λ options. options.cache ≤ 1024) }
{
    let explain = explain_options_if_flag_given(alloc, matches)?;
    Ok(Options {
        settings: matches.get_str("settings").unwrap_or(""),
        workers: worker_count_or_zero(matches.get_str("workers").unwrap_or("").as_bytes()),
        cache: cache_size_in_range_or_64(matches.get_str("cache").unwrap_or("").as_bytes()),
        steps: has_flag(matches, "steps"),
        rules: has_flag(matches, "rules"),
        explain,
    })
}

/// The scripts that arguments have explained, and how.
fn explain_options_if_flag_given<'a>(
    alloc: Global,
    matches: &ArgMatches<'a>,
) -> Result<Option<ExplainOptions<'a>>, AllocError>
    ensures { (words : List Text) → HasMatchesOf pdregress words matches.now → IfOk result (λ explain. option_map explaining_of explain ≡ (report_options words).explain) }
{
    if !has_flag(matches, "explain") {
        return Ok(None);
    }
    let only = only_names(alloc, matches)?;
    let json = has_flag(matches, "json");
    let leftovers = has_flag(matches, "leftovers");
    Ok(Some(ExplainOptions {
        only,
        json,
        leftovers,
    }))
}

/// The names that are singled out.
fn only_names<'a>(alloc: Global, matches: &ArgMatches<'a>) -> Result<Vec<&'a str>, AllocError>
    ensures { IfOk result (λ names. names_of names.items ≡ unwrap_or (option_map raw_values (matched_of (found_of matches.now) (codes "only"))) []) }
{
    match matches.get_strs("only") {
        Some(names) => Vec::from_slice(alloc, names),
        None => Ok(Vec::new(alloc)),
    }
}

/// Whether an argument is that of a flag which is written.
pub fn is_word_true(word: &[u8]) -> bool
    ensures { result ≡ bytes_eq word.now (codes "true") }
{
    word == b"true".as_slice()
}

/// The number of workers that an argument writes, which `clap` let through.
fn worker_count_or_zero(word: &[u8]) -> usize
    ensures count { result ≡ worker_count_or_zero word.now }
    ensures few { result ≤ 64 }
{
    match parse_number(without_sign(word)) {
        Some(count) if count <= 64 => count as usize,
        _ => 0,
    }
}

/// The number of tracks that an argument writes, which `clap` let through.
fn cache_size_in_range_or_64(word: &[u8]) -> usize
    ensures size { result ≡ cache_size_in_range_or_64 word.now }
    ensures some { 1 ≤ result }
    ensures most { result ≤ 1024 }
{
    match parse_number(without_sign(word)) {
        Some(size) if 1 <= size && size <= 1024 => size as usize,
        _ => 64,
    }
}

/// An argument without a sign before it.
fn without_sign(word: &[u8]) -> &[u8]
    ensures { result.now ≡ without_sign word.now }
{
    match word {
        [b'+' | b'-', digits @ ..] => digits,
        _ => word,
    }
}
