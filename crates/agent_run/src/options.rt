//! The options of a command, as clap reads them from the words.
ghost use Rattle.std.specs.Prelude.{◌≡◌, ◌≢◌, ◌||◌, None, false, not, map, option_map, IfOk};
ghost use Rattle.std.specs.List.{list_all};
ghost use Rattle.std.specs.String.{string_bytes};
ghost use Rattle.clap.specs.Words.{app_of, first_value, found_of, rule_of};
ghost use Rattle.agent_run.specs.Options.{is_dashed, is_option, values_of};
ghost use Rattle.agent_run.specs.Parser.{option_rule, app_with, is_word};

use clap::error::ErrorKind;
use clap::{Arg, ArgAction, ArgMatches, Command};
use money_units::NoMemory;
use std::alloc::Global;

fn is_dashed(word: &[u8]) -> bool
    ensures { result ≡ is_dashed word.now }
{
    match word {
        [] => false,
        [first, ..] => *first == b'-',
    }
}

fn is_option(word: &[u8]) -> bool
    ensures { result ≡ is_option word.now }
{
    is_dashed(word) && is_dashed(&word[1..]) && 2 < word.len()
}

// What begins with `-` is an option: clap takes `-` for a value, and `--` before other words.
fn is_word(word: &[u8]) -> bool
    ensures { result ≡ is_word word.now }
{
    !is_dashed(word) || is_option(word)
}

fn are_words(words: &[String]) -> bool
    ensures { result ≡ list_all is_word (map string_bytes words.now) }
{
    for word in words {
        if !is_word(word.as_bytes()) {
            return false;
        }
    }
    true
}

// An option that takes a value and may not be left out.
fn option_named<'a>(alloc: Global, name: &'a str) -> Arg<'a>
    ensures rule { rule_of result ≡ option_rule name.entry.now }
    ensures local { result.global ≡ false }
{
    Arg::new(alloc, name)
        .long(name)
        .required(true)
        .action(ArgAction::Set)
}

// A command with these options alone, which takes the words behind its name.
fn command_with<'a>(
    alloc: Global,
    name: &'a str,
    options: &'a [&'a str],
) -> Result<Command<'a>, NoMemory>
    ensures { IfOk result (λ command.
        app_of command ≡ app_with name.entry.now (map (λ option. option.now) options.entry.now)) }
{
    let mut command = Command::new(alloc, name)
        .no_binary_name(true)
        .disable_help_flag(true)
        .disable_version_flag(true);
    for option in options {
        command = command.arg(option_named(alloc, option))?;
    }
    Ok(command)
}

/// The values of a command's options, where the words give each of them once and nothing else.
pub fn values_in<'a>(
    alloc: Global,
    name: &'a str,
    options: &'a [&'a str],
    words: &'a [String],
) -> Result<Option<ArgMatches<'a>>, NoMemory>
    ensures { IfOk result (λ found. option_map (λ given. first_value (found_of given)) found
        ≡ values_of (map (λ option. option.now) options.entry.now)
        (map string_bytes words.entry.now)) }
{
    if !are_words(words) {
        return Ok(None);
    }
    let command = command_with(alloc, name, options)?;
    match command.try_get_matches_from(words) {
        Ok(given) => Ok(Some(given)),
        Err(error) => without(error.kind()),
    }
}

// clap refuses the words, or had no memory.
fn without<'a>(kind: ErrorKind) -> Result<Option<ArgMatches<'a>>, NoMemory>
    ensures none { IfOk result (λ found. found ≡ None) }
    ensures refused { IfOk result (λ _. kind ≢ ErrorKind.OutOfMemory) }
{
    match kind {
        ErrorKind::OutOfMemory => Err(NoMemory),
        _ => Ok(None),
    }
}
