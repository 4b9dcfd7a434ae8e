//! What is measured by itself, for the figures of bench/run: the first word behind the name says which part, and the words behind it
//! how much. Where they are no such words the program prints those that there are, and ends with 1.
#![tactic(auto)]

mod commits;
mod http;
mod rows;
mod sheets;

ghost use Rattle.std.specs.Prelude.{◌≡◌, ◌<◌};

use crate::commits::commit_all;
use crate::http::{is_way, read_by, read_each};
use crate::rows::counts_of;
use crate::sheets::{Kept, kept_of};
use agent_keeper::{KeepFault, Keeper};
use household_fold::Steps;
use money_units::{NoMemory, read_number};
use sqlite_keeper::SqliteKeeper;
use std::env;
use std::marker::Brand;
use std::process::ExitCode;
use std::sync::ledger::{Blank, Ledger};

/// What the words ask for: rows so often written and read, requests read in a way or once in each, a load of so many households and
/// days, or so many rows committed to the store at a path.
#[derive(Drop)]
enum Part {
    Rows(u64, u64),
    Http(Option<String>),
    Sheets(u32, u32),
    Commits(String, u64),
}

// By itself each a thousand times.
fn rows_asked(first: Option<String>, second: Option<String>) -> Option<Part> {
    match (first, second) {
        (None, None) => Some(Part::Rows(1_000, 1_000)),
        (Some(word), None) => {
            let (writes, reads) = counts_of(&word)?;
            Some(Part::Rows(writes, reads))
        }
        _ => None,
    }
}

fn http_asked(first: Option<String>, second: Option<String>) -> Option<Part> {
    match (first, second) {
        (None, None) => Some(Part::Http(None)),
        (Some(word), None) => {
            if is_way(&word) {
                Some(Part::Http(Some(word)))
            } else {
                None
            }
        }
        _ => None,
    }
}

fn number_in(word: &str) -> Option<u64> {
    match read_number(word.as_bytes()) {
        Ok(number) => Some(number),
        Err(_) => None,
    }
}

// The numbers of households and of days; by itself few.
fn sheets_asked(first: Option<String>, second: Option<String>) -> Option<Part> {
    match (first, second) {
        (None, None) => Some(Part::Sheets(10, 12)),
        (Some(households), Some(days)) => {
            let households = number_in(&households)?.min(2_000) as u32;
            let days = number_in(&days)?.min(2_000) as u32;
            Some(Part::Sheets(households, days))
        }
        _ => None,
    }
}

fn commits_asked(first: Option<String>, second: Option<String>) -> Option<Part> {
    match (first, second) {
        (Some(path), Some(rows)) => {
            let rows = number_in(&rows)?;
            Some(Part::Commits(path, rows))
        }
        _ => None,
    }
}

// The part of this name, by the words behind it.
fn part_of(name: &str, first: Option<String>, second: Option<String>) -> Option<Part> {
    if name == "rows" {
        rows_asked(first, second)
    } else if name == "http" {
        http_asked(first, second)
    } else if name == "sheets" {
        sheets_asked(first, second)
    } else if name == "commits" {
        commits_asked(first, second)
    } else {
        None
    }
}

// The first three words behind the name.
fn part_in(words: env::Args) -> Option<Part> {
    let mut words = words.skip(1);
    let name = words.next()?;
    let first = words.next();
    let second = words.next();
    part_of(&name, first, second)
}

fn asked(rt: &HostRuntime) -> Option<Part> {
    match env::args(rt) {
        Ok(words) => part_in(words),
        Err(_) => None,
    }
}

fn print_words(rt: &HostRuntime) -> ExitCode {
    let _printed = println!(rt;
        "usage: figures rows [write|read] | http [heads|shows|values|orders|pieces] | sheets [HOUSEHOLDS DAYS] | commits STORE ROWS"
    );
    ExitCode::FAILURE
}

fn print_rows(rt: &HostRuntime, writes: u64, reads: u64) -> ExitCode {
    match rows::figures(rt.alloc(), writes, reads) {
        Ok((bytes, found)) => match println!(rt; "{bytes} bytes written, {found} rows read") {
            Ok(()) => ExitCode::SUCCESS,
            Err(_) => ExitCode::FAILURE,
        },
        Err(_) => ExitCode::FAILURE,
    }
}

fn requests_read(rt: &HostRuntime, way: Option<String>) -> Result<u64, NoMemory> {
    match way {
        Some(word) => read_by(rt.alloc(), &word),
        None => read_each(rt.alloc()),
    }
}

fn print_requests(rt: &HostRuntime, way: Option<String>) -> ExitCode {
    match requests_read(rt, way) {
        Ok(count) => match println!(rt; "{count} requests read") {
            Ok(()) => ExitCode::SUCCESS,
            Err(_) => ExitCode::FAILURE,
        },
        Err(_) => ExitCode::FAILURE,
    }
}

fn print_kept(rt: &HostRuntime, kept: Kept) -> ExitCode {
    let Kept { events, sheets } = kept;
    match println!(rt; "{events} events, {sheets} sheets") {
        Ok(()) => ExitCode::SUCCESS,
        Err(_) => ExitCode::FAILURE,
    }
}

// Runs a load, whose steps count on this ledger.
fn run_on<L: Ledger>(rt: HostRuntime, blank: Blank, households: u32, days: u32) -> ExitCode
    requires name { blank.name ≡ L.name }
    requires parts { blank.parts ≡ L.parts }
    requires some { 0 < blank.parts }
{
    let mut steps = Steps::<L>::new(blank);
    match kept_of(rt.alloc(), households, days, &mut steps) {
        Ok(kept) => print_kept(&rt, kept),
        Err(_) => ExitCode::FAILURE,
    }
}

// Commits so many rows to the store at a path.
fn commit_to(rt: HostRuntime, path: &str, rows: u64) -> Result<(), KeepFault> {
    let alloc = rt.alloc();
    let mut keeper = SqliteKeeper::new(rt);
    keeper.attach(path)?;
    commit_all(alloc, &mut keeper, rows)
}

fn commits_done(rt: HostRuntime, path: &str, rows: u64) -> ExitCode {
    match commit_to(rt, path, rows) {
        Ok(()) => ExitCode::SUCCESS,
        Err(_) => ExitCode::FAILURE,
    }
}

fn main(rt: HostRuntime) -> ExitCode {
    match asked(&rt) {
        Some(Part::Rows(writes, reads)) => print_rows(&rt, writes, reads),
        Some(Part::Http(way)) => print_requests(&rt, way),
        Some(Part::Sheets(households, days)) => {
            run_on::<Brand>(rt, Blank::new(1), households, days)
        }
        Some(Part::Commits(path, rows)) => commits_done(rt, &path, rows),
        None => print_words(&rt),
    }
}
