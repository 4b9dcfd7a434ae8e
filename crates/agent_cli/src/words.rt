//! What is wrong with words that give no command, told on standard error.
use agent_events::is_operator_key;
use money_units::{read_number, same_bytes};
use std::fmt;

// What the value of an option has to be.
#[derive(Clone, Copy)]
pub(crate) enum Value {
    Path,
    Key,
    Number(u64, u64),
}

// An option of a command.
#[derive(Clone, Copy)]
pub(crate) struct Choice {
    name: &'static str,
    value: Value,
}

static APPLY: [Choice; 2] = [
    Choice {
        name: "store",
        value: Value::Path,
    },
    Choice {
        name: "key",
        value: Value::Key,
    },
];

static LOAD: [Choice; 3] = [
    Choice {
        name: "number",
        value: Value::Number(0, 4_294_967_295),
    },
    Choice {
        name: "households",
        value: Value::Number(1, 1000),
    },
    Choice {
        name: "days",
        value: Value::Number(0, 2000),
    },
];

static SERVE: [Choice; 4] = [
    Choice {
        name: "store",
        value: Value::Path,
    },
    Choice {
        name: "port",
        value: Value::Number(1, 65_535),
    },
    Choice {
        name: "key",
        value: Value::Key,
    },
    Choice {
        name: "connections",
        value: Value::Number(1, 1_000_000),
    },
];

/// What is wrong with the words of a command line.
#[derive(Clone, Copy)]
pub(crate) enum WordsFault<'a> {
    /// No word is given, or one that isn't UTF-8.
    NoCommand,
    NoSuchCommand(&'a str),
    /// An option of the command, or its value, has to stand here.
    NoOption(&'a str),
    NoValue(&'static str),
    BadValue(Choice),
    Twice(&'static str),
    Missing(&'static str),
}

impl<'a> fmt::Display for WordsFault<'a> {
    fn fmt<W: fmt::Write>(&self, f: &mut fmt::Formatter<W>) -> fmt::Result {
        match self {
            WordsFault::NoCommand => f.write_str(
                "the first word is apply, load or serve, in UTF-8",
            ),
            WordsFault::NoSuchCommand(word) => {
                write!(
                    f,
                    "{word:?} is no command; the first word is apply, load or serve"
                )
            }
            WordsFault::NoOption(word) => write!(f, "{word:?} is no option of this command"),
            WordsFault::NoValue(name) => write!(f, "--{name} has no value behind it"),
            WordsFault::BadValue(choice) => write_value(f, choice),
            WordsFault::Twice(name) => write!(f, "--{name} stands twice"),
            WordsFault::Missing(name) => write!(f, "--{name} is missing"),
        }
    }
}

fn write_value<W: fmt::Write>(f: &mut fmt::Formatter<W>, choice: &Choice) -> fmt::Result {
    let name = choice.name;
    match choice.value {
        Value::Path => write!(f, "--{name} is the path of a file"),
        Value::Key => write!(f, "--{name} is op- and 8 to 56 of a to z and 0 to 9"),
        Value::Number(least, most) => write!(f, "--{name} is a number from {least} to {most}"),
    }
}

fn is_good(value: Value, text: &[u8]) -> bool {
    match value {
        Value::Path => !text.is_empty(),
        Value::Key => is_operator_key(text),
        Value::Number(least, most) => match read_number(text) {
            Ok(number) => least <= number && number <= most,
            Err(_) => false,
        },
    }
}

fn choices_of(command: &[u8]) -> Option<&'static [Choice]> {
    if same_bytes(command, b"apply") {
        Some(APPLY.as_slice())
    } else if same_bytes(command, b"load") {
        Some(LOAD.as_slice())
    } else if same_bytes(command, b"serve") {
        Some(SERVE.as_slice())
    } else {
        None
    }
}

fn is_dashed(word: &[u8]) -> bool {
    match word {
        [] => false,
        [first, ..] => *first == b'-',
    }
}

// The name that an option's word has, and the value that stands in the same word.
fn parts_of(option: &[u8]) -> (&[u8], Option<&[u8]>) {
    match option.iter().position(|byte| *byte == b'=') {
        Some(place) => (&option[..place], Some(&option[place + 1..])),
        None => (option, None),
    }
}

fn choice_named(choices: &'static [Choice], name: &[u8]) -> Option<Choice> {
    for choice in choices {
        if same_bytes(choice.name.as_bytes(), name) {
            return Some(*choice);
        }
    }
    None
}

// Reads one word: the option that awaits its value behind it, if one does.
fn step<'a>(
    choices: &'static [Choice],
    awaits: Option<Choice>,
    word: &'a str,
) -> Result<Option<Choice>, WordsFault<'a>> {
    let bytes = word.as_bytes();
    if let Some(choice) = awaits {
        return value_behind(choice, bytes);
    }
    if bytes.len() < 3 || !is_dashed(bytes) || !is_dashed(&bytes[1..]) {
        return Err(WordsFault::NoOption(word));
    }
    let (name, value) = parts_of(&bytes[2..]);
    match choice_named(choices, name) {
        Some(choice) => value_within(choice, value),
        None => Err(WordsFault::NoOption(word)),
    }
}

fn value_behind<'a>(choice: Choice, text: &[u8]) -> Result<Option<Choice>, WordsFault<'a>> {
    if is_dashed(text) {
        Err(WordsFault::NoValue(choice.name))
    } else {
        value_within(choice, Some(text))
    }
}

fn value_within<'a>(choice: Choice, text: Option<&[u8]>) -> Result<Option<Choice>, WordsFault<'a>> {
    match text {
        Some(text) => {
            if is_good(choice.value, text) {
                Ok(None)
            } else {
                Err(WordsFault::BadValue(choice))
            }
        }
        None => Ok(Some(choice)),
    }
}

// The first word that can't stand where it does.
fn first_bad<'a>(choices: &'static [Choice], words: &'a [String]) -> Option<WordsFault<'a>> {
    let mut awaits = None;
    for word in words {
        match step(choices, awaits, word.as_str()) {
            Ok(next) => awaits = next,
            Err(fault) => return Some(fault),
        }
    }
    match awaits {
        Some(choice) => Some(WordsFault::NoValue(choice.name)),
        None => None,
    }
}

// How often an option stands among the words.
fn times(name: &str, words: &[String]) -> usize {
    let mut count = 0usize;
    for word in words {
        let bytes = word.as_bytes();
        if 2 < bytes.len() && is_dashed(bytes) {
            let (found, _) = parts_of(&bytes[2..]);
            if same_bytes(found, name.as_bytes()) {
                count = count.saturating_add(1);
            }
        }
    }
    count
}

// The first option that doesn't stand once.
fn first_unfit<'a>(choices: &'static [Choice], words: &[String]) -> Option<WordsFault<'a>> {
    for choice in choices {
        let count = times(choice.name, words);
        if count == 0 {
            return Some(WordsFault::Missing(choice.name));
        }
        if 1 < count {
            return Some(WordsFault::Twice(choice.name));
        }
    }
    None
}

/// What is wrong first with the words, which are those after the program's name.
pub(crate) fn fault_in(words: &[String]) -> Option<WordsFault<'_>> {
    let [first, rest @ ..] = words else {
        return Some(WordsFault::NoCommand);
    };
    let Some(choices) = choices_of(first.as_bytes()) else {
        return Some(WordsFault::NoSuchCommand(first.as_str()));
    };
    match first_bad(choices, rest) {
        Some(fault) => Some(fault),
        None => first_unfit(choices, rest),
    }
}
