//! The commands, and what the value of each option has to be.
ghost use Rattle.std.specs.Prelude.{◌≡◌, map, option_map, option_and_then, codes, IfOk};
ghost use Rattle.std.specs.String.{string_bytes};
ghost use Rattle.agent_events.specs.Fields.{operator_key};
ghost use Rattle.clap.specs.Words.{first_value, found_of};
ghost use Rattle.agent_run.specs.Options.{values_of};
ghost use Rattle.agent_run.specs.Commands as spec;
ghost use Rattle.agent_run.specs.Views.{command_view};

use crate::options::values_in;
use agent_events::is_operator_key;
use clap::ArgMatches;
use money_units::{NoMemory, read_number, same_bytes};
use std::alloc::Global;

/// A command with its options, as the words of the command line give it.
#[derive(Clone, Copy, Debug, PartialEq, Eq)]
pub enum Command<'a> {
    /// Answers the script that is read.
    Apply {
        /// The path of the store, which isn't empty.
        store: &'a str,
        /// The operator's key.
        key: &'a [u8],
    },
    /// Runs the generated script, and prints what it came to.
    Load {
        /// The number from which the script is generated.
        number: u32,
        /// How many households, 1 to 1,000.
        households: u32,
        /// How many days, at most 2,000.
        days: u32,
    },
    /// Serves connections in turn.
    Serve {
        /// The path of the store, which isn't empty.
        store: &'a str,
        /// The port to listen at, 1 to 65,535.
        port: u16,
        /// The operator's key.
        key: &'a [u8],
        /// After how many connections it ends, 1 to 1,000,000.
        connections: u32,
    },
}

static APPLY: [&str; 2] = ["store", "key"];

static LOAD: [&str; 3] = ["number", "households", "days"];

static SERVE: [&str; 4] = ["store", "port", "key", "connections"];

// The path of a store in the option `store`.
fn path_in<'a>(given: &ArgMatches<'a>) -> Option<&'a str>
    ensures { option_map (λ text. text.now) result
        ≡ option_and_then spec.path (first_value (found_of given.now) (codes "store")) }
{
    let text = given.get_str("store")?;
    if text.is_empty() { None } else { Some(text) }
}

// The operator's key in the option `key`.
fn key_in<'a>(given: &ArgMatches<'a>) -> Option<&'a [u8]>
    ensures { option_map (λ text. text.now) result
        ≡ option_and_then operator_key (first_value (found_of given.now) (codes "key")) }
{
    let key = given.get_str("key")?.as_bytes();
    if is_operator_key(key) {
        Some(key)
    } else {
        None
    }
}

// The number of a text, where it is from `least` to `most`.
fn number_within(least: u64, most: u64, text: &[u8]) -> Option<u64>
    ensures { result ≡ spec.number_within least most text.now }
{
    match read_number(text) {
        Ok(number) => {
            if least <= number && number <= most {
                Some(number)
            } else {
                None
            }
        }
        Err(_) => None,
    }
}

// The number in the option of this name, from `least` to `most`.
fn number_in(given: &ArgMatches<'_>, name: &str, least: u64, most: u64) -> Option<u64>
    ensures { result ≡ option_and_then (spec.number_within least most)
        (first_value (found_of given.now) name.now) }
{
    let text = given.get_str(name)?;
    number_within(least, most, text.as_bytes())
}

fn apply_of<'a>(given: &ArgMatches<'a>) -> Option<Command<'a>>
    ensures { option_map command_view result ≡ spec.apply_of (first_value (found_of given.now)) }
{
    let store = path_in(given)?;
    let key = key_in(given)?;
    Some(Command::Apply { store, key })
}

fn load_of<'a>(given: &ArgMatches<'a>) -> Option<Command<'a>>
    ensures { option_map command_view result ≡ spec.load_of (first_value (found_of given.now)) }
{
    let number = number_in(given, "number", 0, 4_294_967_295)? as u32;
    let households = number_in(given, "households", 1, 1000)? as u32;
    let days = number_in(given, "days", 0, 2000)? as u32;
    Some(Command::Load {
        number,
        households,
        days,
    })
}

fn serve_of<'a>(given: &ArgMatches<'a>) -> Option<Command<'a>>
    ensures { option_map command_view result ≡ spec.serve_of (first_value (found_of given.now)) }
{
    let store = path_in(given)?;
    let port = number_in(given, "port", 1, 65_535)? as u16;
    let key = key_in(given)?;
    let connections = number_in(given, "connections", 1, 1_000_000)? as u32;
    Some(Command::Serve {
        store,
        port,
        key,
        connections,
    })
}

fn apply_from<'a>(alloc: Global, words: &'a [String]) -> Result<Option<Command<'a>>, NoMemory>
    ensures { IfOk result (λ found. option_map command_view found
        ≡ option_and_then spec.apply_of
        (values_of spec.apply_options (map string_bytes words.now))) }
{
    match values_in(alloc, "apply", APPLY.as_slice(), words)? {
        Some(given) => Ok(apply_of(&given)),
        None => Ok(None),
    }
}

fn load_from<'a>(alloc: Global, words: &'a [String]) -> Result<Option<Command<'a>>, NoMemory>
    ensures { IfOk result (λ found. option_map command_view found
        ≡ option_and_then spec.load_of
        (values_of spec.load_options (map string_bytes words.now))) }
{
    match values_in(alloc, "load", LOAD.as_slice(), words)? {
        Some(given) => Ok(load_of(&given)),
        None => Ok(None),
    }
}

fn serve_from<'a>(alloc: Global, words: &'a [String]) -> Result<Option<Command<'a>>, NoMemory>
    ensures { IfOk result (λ found. option_map command_view found
        ≡ option_and_then spec.serve_of
        (values_of spec.serve_options (map string_bytes words.now))) }
{
    match values_in(alloc, "serve", SERVE.as_slice(), words)? {
        Some(given) => Ok(serve_of(&given)),
        None => Ok(None),
    }
}

/// The command that the words give, which are those after the program's name; `None` exactly where they don't meet
/// the rule. The first word is the command, and the rest are its options, each once and in any order.
pub fn command_of<'a>(alloc: Global, words: &'a [String]) -> Result<Option<Command<'a>>, NoMemory>
    ensures { IfOk result (λ found.
        option_map command_view found ≡ spec.command_of (map string_bytes words.now)) }
{
    match words {
        [] => Ok(None),
        [first, rest @ ..] => command_named(alloc, first.as_bytes(), rest),
    }
}

// The command of this name, with its options.
fn command_named<'a>(
    alloc: Global,
    name: &[u8],
    words: &'a [String],
) -> Result<Option<Command<'a>>, NoMemory>
    ensures { IfOk result (λ found.
        option_map command_view found ≡ spec.command_named name.now (map string_bytes words.now)) }
{
    if same_bytes(name, b"apply") {
        return apply_from(alloc, words);
    }
    if same_bytes(name, b"load") {
        return load_from(alloc, words);
    }
    if same_bytes(name, b"serve") {
        return serve_from(alloc, words);
    }
    Ok(None)
}
