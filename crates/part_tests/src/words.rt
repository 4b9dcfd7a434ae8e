//! Words of the command line: the command that they give, with the numbers at both ends of their ranges.
use agent_run::{Command, command_of};
use money_units::NoMemory;
use std::alloc::{AllocError, Global};
use std::test::Fail;

// The words of a line, one space apart.
fn words_of(alloc: Global, line: &str) -> Result<Vec<String>, AllocError> {
    let mut words = Vec::new(alloc);
    for word in line.split(' ') {
        words.push(String::from_str(alloc, word)?)?;
    }
    Ok(words)
}

// Whether the words of a line give this command.
fn gives(alloc: Global, line: &str, wanted: Option<Command>) -> Result<bool, NoMemory> {
    let words = words_of(alloc, line)?;
    Ok(command_of(alloc, &words)? == wanted)
}

// The first line that gives another command; empty without one.
fn first_other<'a>(alloc: Global, lines: &[(&'a str, Command)]) -> Result<&'a str, NoMemory> {
    for (line, wanted) in lines {
        if !gives(alloc, line, Some(*wanted))? {
            return Ok(*line);
        }
    }
    Ok("")
}

const APPLY: Command = Command::Apply {
    store: "r",
    key: b"op-desk000001",
};

const COMMANDS: [(&str, Command); 14] = [
    // The options of one command in each order and form.
    ("apply --store r --key op-desk000001", APPLY),
    ("apply --key op-desk000001 --store r", APPLY),
    ("apply --store=r --key op-desk000001", APPLY),
    ("apply --key op-desk000001 --store=r", APPLY),
    ("apply --store r --key=op-desk000001", APPLY),
    ("apply --key=op-desk000001 --store r", APPLY),
    ("apply --store=r --key=op-desk000001", APPLY),
    ("apply --key=op-desk000001 --store=r", APPLY),
    // A load has three numbers.
    (
        "load --number 0 --households 1 --days 0",
        Command::Load {
            number: 0,
            households: 1,
            days: 0,
        },
    ),
    (
        "load --days=2000 --number=4294967295 --households=1000",
        Command::Load {
            number: 4_294_967_295,
            households: 1000,
            days: 2000,
        },
    ),
    (
        "load --households 20 --days=3 --number 7",
        Command::Load {
            number: 7,
            households: 20,
            days: 3,
        },
    ),
    // A server has four options.
    (
        "serve --store r --port 1 --key op-desk000001 --connections 1",
        Command::Serve {
            store: "r",
            port: 1,
            key: b"op-desk000001",
            connections: 1,
        },
    ),
    (
        "serve --connections=1000000 --key=op-desk000001 --port=65535 --store=r",
        Command::Serve {
            store: "r",
            port: 65_535,
            key: b"op-desk000001",
            connections: 1_000_000,
        },
    ),
    (
        "serve --port 8080 --connections=12 --store r --key op-desk000001",
        Command::Serve {
            store: "r",
            port: 8080,
            key: b"op-desk000001",
            connections: 12,
        },
    ),
];

#[test]
fn commands_take_their_options_in_any_order_and_form(rt: HostRuntime) -> Result<(), Fail> {
    let other = first_other(rt.alloc(), &COMMANDS)?;
    assert_eq!(rt; other, "");
    Ok(())
}
