//! Runs made again with their bytes in other pieces, or with a connection that ends early.
ghost use Rattle.std.specs.Prelude.{◌≤◌};

use crate::cases::Run;
use crate::faults::{Tried, told_front_of_rows};
use crate::runs::{Outcome, Setting, outcome_of};
use crate::stores::Store;
use crate::trouble::Trouble;
use crate::wants::{bytes_at, told_outcome, told_rows, told_texts};
use household_fold::Steps;
use std::alloc::Global;
use std::sync::ledger::Ledger;

// The length of the longest input.
fn longest(run: &Run) -> usize {
    let mut most = run.given.script.len();
    for connection in &run.given.connections {
        most = most.max(connection.len());
    }
    most
}

fn with_words(
    alloc: Global,
    words: &str,
    number: usize,
    told: Option<String>,
) -> Result<Option<String>, Trouble> {
    match told {
        Some(told) => Ok(Some(format!(in alloc; "  {words} {number}\n{told}")?)),
        None => Ok(None),
    }
}

// How a run in pieces of this length differs from what must come.
fn told_in_pieces<L: Ledger>(
    alloc: Global,
    run: &Run,
    pieces: usize,
    before: &Store,
    steps: &mut Steps<L>,
) -> Result<Option<String>, Trouble> {
    let setting = Setting {
        given: &run.given,
        fails: &run.given.fails,
        pieces,
        end: None,
    };
    let (found, _) = outcome_of(alloc, &setting, before, &[], steps)?;
    let told = told_outcome(alloc, &run.wanted, before, &found)?;
    with_words(alloc, "in pieces of", pieces, told)
}

/// Runs again in pieces of each length from 1 to the whole input.
pub(crate) fn tried_cuts<L: Ledger>(
    alloc: Global,
    run: &Run,
    before: &Store,
    steps: &mut Steps<L>,
) -> Result<Tried, Trouble> {
    let mut runs: u64 = 0;
    for shorter in 0..longest(run) {
        let pieces = shorter.saturating_add(1);
        let told = told_in_pieces(alloc, run, pieces, before, steps)?;
        runs = runs.saturating_add(1);
        if told.is_some() {
            return Ok(Tried { runs, told });
        }
    }
    Ok(Tried { runs, told: None })
}

// Whole replies stand on a connection: all, or the first ones.
fn are_whole_replies(wanted: &[u8], found: &[u8]) -> bool {
    match wanted.strip_prefix(found) {
        Some(rest) => rest.is_empty() || rest.starts_with(b"HTTP/1.1 "),
        None => false,
    }
}

// How the rows differ behind a connection that ended early: a front of those of the whole run, and nothing new where no reply came.
fn told_rows_of_end(
    alloc: Global,
    came: &[u8],
    before: &Store,
    without: &Outcome,
    found: &Outcome,
) -> Result<Option<String>, Trouble> {
    if came.is_empty() && found.replies.len() == 1 {
        return told_rows(alloc, &before.rows, &found.store.rows);
    }
    told_front_of_rows(alloc, &without.store.rows, &found.store.rows)
}

// How the replies on the connection that ends behind so many bytes differ, and the rows behind it.
fn told_ended<L: Ledger>(
    alloc: Global,
    run: &Run,
    end: (usize, usize),
    before: &Store,
    without: &Outcome,
    steps: &mut Steps<L>,
) -> Result<Option<String>, Trouble> {
    let setting = Setting {
        given: &run.given,
        fails: &run.given.fails,
        pieces: run.given.pieces,
        end: Some(end),
    };
    let (found, _) = outcome_of(alloc, &setting, before, &[], steps)?;
    let (number, length) = end;
    let wanted = bytes_at(&without.replies, number);
    let came = bytes_at(&found.replies, number);
    let told = if are_whole_replies(wanted, came) {
        told_rows_of_end(alloc, came, before, without, &found)?
    } else {
        told_texts(alloc, "the connection that ended early", wanted, came)?
    };
    with_words(alloc, "ended behind byte", length, told)
}

// Runs again with one connection ended behind each of its bytes.
fn tried_ends_of<L: Ledger>(
    alloc: Global,
    run: &Run,
    number: usize,
    before: &Store,
    without: &Outcome,
    steps: &mut Steps<L>,
) -> Result<Tried, Trouble> {
    let mut runs: u64 = 0;
    for length in 0..bytes_at(&run.given.connections, number).len() {
        let told = told_ended(alloc, run, (number, length), before, without, steps)?;
        runs = runs.saturating_add(1);
        if told.is_some() {
            return Ok(Tried { runs, told });
        }
    }
    Ok(Tried { runs, told: None })
}

/// Runs again with each connection ended behind each of its bytes.
pub(crate) fn tried_ends<L: Ledger>(
    alloc: Global,
    run: &Run,
    before: &Store,
    without: &Outcome,
    steps: &mut Steps<L>,
) -> Result<Tried, Trouble> {
    let mut runs: u64 = 0;
    for number in 0..run.given.connections.len() {
        let tried = tried_ends_of(alloc, run, number, before, without, steps)?;
        runs = runs.saturating_add(tried.runs);
        if tried.told.is_some() {
            return Ok(Tried {
                runs,
                told: tried.told,
            });
        }
    }
    Ok(Tried { runs, told: None })
}
