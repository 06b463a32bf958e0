//! What clap finds in the words of a command.
ghost use Rattle.std.specs.Prelude.{◌≡◌, ◌≢◌, ◌↔◌, IsTrue, true, false, IfOk, IfErr, IsOkAnd, Some};
ghost use Rattle.std.specs.Prelude.{codes, is_some, map, option_map, []};
ghost use Rattle.clap.specs.Faults.{is_simple_and_free};
ghost use Rattle.clap.specs.Kinds.{FailsBy};
ghost use Rattle.clap.specs.Matches.{found_of};
ghost use Rattle.clap.specs.Simple.{app_of, new_app, with_rule};
ghost use Rattle.clap.specs.Walk.{Text, first_of, rows_of, rule_of};
ghost use Rattle.contest_cli_words.specs.Arguments.{faults_in, flag, option, rows_in, wants_word};
ghost use Rattle.contest_cli_words.specs.Arguments.{word};
ghost use Rattle.contest_cli_words.specs.CommandErrors.{RefusesWords};

use crate::command_error::CommandError;
use clap::{Arg, ArgAction, ArgMatches, Command};
use std::alloc::{AllocError, Global};

/// A command's name, as it is called, and its first line of help. The error is want of memory.
pub(crate) fn headed<'a>(
    alloc: Global,
    name: &'a str,
    called: &str,
    about: &'a str,
) -> Result<Command<'a>, AllocError>
    ensures { IfOk result (λ c. app_of c ≡ new_app name.entry.now) }
{
    let command = Command::new(alloc, name).about(about).bin_name(called)?;
    Ok(command)
}

/// A word that has to be there.
pub(crate) fn word<'a>(alloc: Global, name: &'a str, help: &'a str) -> Arg<'a>
    ensures rule { rule_of result ≡ word name.entry.now }
    ensures local { result.global ≡ false }
{
    Arg::new(alloc, name)
        .required(true)
        .action(ArgAction::Set)
        .help(help)
}

/// An option without a value: `--name`.
pub(crate) fn flag<'a>(alloc: Global, name: &'a str, help: &'a str) -> Arg<'a>
    ensures rule { rule_of result ≡ flag name.entry.now }
    ensures local { result.global ≡ false }
{
    Arg::new(alloc, name)
        .long(name)
        .action(ArgAction::SetTrue)
        .help(help)
}

/// An option with a value: `--name VALUE`.
pub(crate) fn option<'a>(
    alloc: Global,
    name: &'a str,
    value_name: &'a str,
    help: &'a str,
) -> Arg<'a>
    ensures rule { rule_of result ≡ option name.entry.now }
    ensures local { result.global ≡ false }
{
    Arg::new(alloc, name)
        .long(name)
        .value_name(value_name)
        .help(help)
}

/// A command with one more word, flag or option, where there was memory for what it has so far. The
/// error is want of memory. So a command is put together in a straight line, and each part is moved
/// but once.
pub(crate) fn with_arg<'a>(
    command: Result<Command<'a>, AllocError>,
    arg: Arg<'a>,
) -> Result<Command<'a>, AllocError>
    requires { arg.global ≡ false }
    ensures { IfOk result (λ c. IsOkAnd command.entry (λ old. app_of c ≡ with_rule (app_of old) (rule_of arg.entry))) }
{
    command?.arg(arg)
}

/// What clap finds in the words of a command; the first word is the command's own. The error is
/// what clap says of words that have a fault, or want of memory. A call for help counts as a fault.
pub(crate) fn matches_in<'a>(
    alloc: Global,
    command: Command<'a>,
    words: &'a [&'a str],
) -> Result<ArgMatches<'a>, CommandError>
    requires { is_simple_and_free (app_of command) ≡ true }
    ensures faultless { IfOk result (λ _. faults_in (app_of command.entry) (map (λ s. s.now) words.entry.now) ≡ []) }
    ensures rows { IfOk result (λ m. rows_of (found_of m) ≡ rows_in (app_of command.entry) (map (λ s. s.now) words.entry.now)) }
    ensures wanted { IfOk result (λ m. (name : Text) → wants_word name (app_of command.entry) ≡ true → is_some (first_of name (rows_of (found_of m))) ≡ true) }
    ensures refused { IfErr result (RefusesWords (faults_in (app_of command.entry) (map (λ s. s.now) words.entry.now))) }
{
    match command.try_get_matches_from(words) {
        Ok(matches) => Ok(matches),
        Err(error) => Err(CommandError::from_clap(alloc, &error)),
    }
}

/// The value of the option or word of this name, where it is there.
pub fn value_in<'a>(matches: &ArgMatches<'a>, name: &str) -> Option<&'a str>
    ensures { option_map (λ s. s.now) result ≡ first_of name.now (rows_of (found_of matches.now)) }
{
    matches.get_str(name)
}

/// The word of this name, which is known to be there.
pub fn word_in<'a>(matches: &ArgMatches<'a>, name: &str) -> &'a str
    requires { is_some (first_of name.now (rows_of (found_of matches.now))) ≡ true }
    ensures { first_of name.now (rows_of (found_of matches.now)) ≡ Some result.now }
{
    match value_in(matches, name) {
        Some(text) => text,
        None => unreachable!(),
    }
}

/// Whether the option of this name, which has no value, is there.
pub fn has_flag(matches: &ArgMatches<'_>, name: &str) -> bool
    ensures { IsTrue result ↔ (first_of name.now (rows_of (found_of matches.now)) ≡ Some (codes "true")) }
{
    match value_in(matches, name) {
        Some(text) => text == "true",
        None => false,
    }
}
