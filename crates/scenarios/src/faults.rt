//! Runs made again with one call failing: what must come then, held against the run without faults.
ghost use Rattle.std.specs.Prelude.{◌≤◌};

use crate::cases::{Failing, Fails, Run, no_fails};
use crate::runs::{Outcome, Setting, outcome_of, plain};
use crate::stores::{Store, store_of};
use crate::trouble::Trouble;
use crate::wants::{bytes_at, first_difference, told_numbers, told_rows, told_texts};
use agent_keeper::MemoryKeeper;
use household_fold::Steps;
use money_units::Bytes;
use std::alloc::Global;
use std::sync::ledger::Ledger;

// No run makes so many calls.
const MOST_CALLS: u64 = 1_000_000;

/// How many runs were made, and how the first one that was wrong differs.
#[derive(Drop)]
pub struct Tried {
    pub runs: u64,
    pub told: Option<String>,
}

fn is_serving(run: &Run) -> bool {
    match run.given.words.first() {
        Some(word) => word.as_str() == "serve",
        None => false,
    }
}

// The call of this number fails.
fn fails_at(alloc: Global, failing: Failing, number: u64) -> Result<Fails, Trouble> {
    let mut fails = no_fails(alloc);
    match failing {
        Failing::Keeper => fails.keeper.push(number)?,
        Failing::Source => fails.source.push(number)?,
        Failing::Sink => fails.sink.push(number)?,
        Failing::Door => fails.door.push(number)?,
        Failing::Link => fails.link.push(number)?,
    }
    Ok(fails)
}

fn are_same(one: &[Bytes], other: &[Bytes]) -> bool {
    one.len() == other.len()
        && one
            .iter()
            .zip(other)
            .all(|pair| pair.0.as_slice() == pair.1.as_slice())
}

// Whether the call failed that was to. A keeper tells nothing of its calls, and a fault of its shows.
fn has_failed(failing: Failing, without: &Outcome, found: &Outcome) -> bool {
    if failing != Failing::Keeper {
        return found.faults > 0;
    }
    found.status != without.status
        || found.written != without.written
        || !are_same(&found.replies, &without.replies)
        || !are_same(&found.store.rows, &without.store.rows)
}

fn say(alloc: Global, words: &str) -> Result<Option<String>, Trouble> {
    Ok(Some(format!(in alloc; "  {words}\n")?))
}

// The lines before the last one are whole lines of the run without faults, and the last one is this.
fn told_front(
    alloc: Global,
    without: &[u8],
    found: &[u8],
    last: &[u8],
) -> Result<Option<String>, Trouble> {
    let Some(front) = found.strip_suffix(last) else {
        return told_texts(alloc, "the last line", last, found);
    };
    if !front.is_empty() && !front.ends_with(b"\n") {
        return say(alloc, "a line was cut");
    }
    if !without.starts_with(front) {
        return told_texts(alloc, "standard output", without, found);
    }
    Ok(None)
}

/// How rows differ from a front of those of the run without faults.
pub(crate) fn told_front_of_rows(
    alloc: Global,
    without: &[Bytes],
    found: &[Bytes],
) -> Result<Option<String>, Trouble> {
    let front = without.get(..found.len()).unwrap_or(without);
    told_rows(alloc, front, found)
}

fn told_status(alloc: Global, wanted: u8, found: &Outcome) -> Result<Option<String>, Trouble> {
    told_numbers(alloc, "status", wanted as u64, found.status as u64)
}

// A fault of the keeper in `apply`: status and bytes.
fn told_keeper_in_script(
    alloc: Global,
    without: &Outcome,
    found: &Outcome,
) -> Result<Option<String>, Trouble> {
    let told = told_status(alloc, 5, found)?;
    if told.is_some() {
        return Ok(told);
    }
    let told = told_front(alloc, &without.written, &found.written, b"keeper fault\n")?;
    if told.is_some() {
        return Ok(told);
    }
    told_front_of_rows(alloc, &without.store.rows, &found.store.rows)
}

// What came on a connection where it differs first is the reply to a request that the keeper failed.
fn told_reply_to_fault(
    alloc: Global,
    wanted: &[u8],
    found: &[u8],
) -> Result<Option<String>, Trouble> {
    let place = first_difference(wanted, found);
    let reply = found.get(place.saturating_sub(9)..).unwrap_or(b"");
    if reply.starts_with(b"HTTP/1.1 503 ") {
        return Ok(None);
    }
    told_texts(alloc, "a connection", wanted, found)
}

// The first connection that differs from the run without faults.
fn first_other(without: &Outcome, found: &Outcome) -> Option<usize> {
    let count = without.replies.len().max(found.replies.len());
    (0..count).find(|number| bytes_at(&without.replies, *number)
        != bytes_at(&found.replies, *number))
}

// A fault of the keeper in `serve`: it fails to open, or a request is answered 503.
fn told_keeper_in_service(
    alloc: Global,
    without: &Outcome,
    found: &Outcome,
) -> Result<Option<String>, Trouble> {
    if found.status == 5 {
        if !found.replies.is_empty() {
            return say(alloc, "a connection was served over no store");
        }
        return told_texts(alloc, "standard output", b"keeper fault\n", &found.written);
    }
    let told = told_status(alloc, 0, found)?;
    if told.is_some() {
        return Ok(told);
    }
    match first_other(without, found) {
        Some(number) => told_reply_to_fault(
            alloc,
            bytes_at(&without.replies, number),
            bytes_at(&found.replies, number),
        ),
        None => say(alloc, "no request was answered 503"),
    }
}

// A fault of the source: nothing is answered, and nothing kept.
fn told_source(alloc: Global, before: &Store, found: &Outcome) -> Result<Option<String>, Trouble> {
    let told = told_status(alloc, 3, found)?;
    if told.is_some() {
        return Ok(told);
    }
    let told = told_texts(alloc, "standard output", b"read fault\n", &found.written)?;
    if told.is_some() {
        return Ok(told);
    }
    told_rows(alloc, &before.rows, &found.store.rows)
}

// A fault of the sink: a front of the bytes, and of the rows.
fn told_sink(alloc: Global, without: &Outcome, found: &Outcome) -> Result<Option<String>, Trouble> {
    let told = told_status(alloc, 4, found)?;
    if told.is_some() {
        return Ok(told);
    }
    if !without.written.starts_with(&found.written) {
        return told_texts(alloc, "standard output", &without.written, &found.written);
    }
    told_front_of_rows(alloc, &without.store.rows, &found.store.rows)
}

// A fault of the door: the connections before it are answered, and no other.
fn told_door(alloc: Global, without: &Outcome, found: &Outcome) -> Result<Option<String>, Trouble> {
    let told = told_status(alloc, 8, found)?;
    if told.is_some() {
        return Ok(told);
    }
    let told = told_texts(alloc, "standard output", b"door fault\n", &found.written)?;
    if told.is_some() {
        return Ok(told);
    }
    let count = found.replies.len();
    let front = without.replies.get(..count).unwrap_or(&without.replies);
    if !are_same(front, &found.replies) {
        return say(alloc, "a connection before the fault has other replies");
    }
    told_front_of_rows(alloc, &without.store.rows, &found.store.rows)
}

// A fault of a connection: those before it are answered, and on its own stands a front of the replies.
fn told_link(alloc: Global, without: &Outcome, found: &Outcome) -> Result<Option<String>, Trouble> {
    let told = told_status(alloc, without.status, found)?;
    if told.is_some() {
        return Ok(told);
    }
    if let Some(number) = first_other(without, found) {
        let wanted = bytes_at(&without.replies, number);
        let came = bytes_at(&found.replies, number);
        if !wanted.starts_with(came) {
            return told_texts(alloc, "a connection", wanted, came);
        }
    }
    told_texts(alloc, "standard output", &without.written, &found.written)
}

fn told_fault(
    alloc: Global,
    failing: Failing,
    run: &Run,
    before: &Store,
    without: &Outcome,
    found: &Outcome,
) -> Result<Option<String>, Trouble> {
    match failing {
        Failing::Keeper if is_serving(run) => told_keeper_in_service(alloc, without, found),
        Failing::Keeper => told_keeper_in_script(alloc, without, found),
        Failing::Source => told_source(alloc, before, found),
        Failing::Sink => told_sink(alloc, without, found),
        Failing::Door => told_door(alloc, without, found),
        Failing::Link => told_link(alloc, without, found),
    }
}

// Behind a stop in the last commit the same, sent unchanged, leaves what it leaves without faults: a script the same rows,
// connections as many.
fn told_again<L: Ledger>(
    alloc: Global,
    run: &Run,
    keeper: &MemoryKeeper,
    with_last: bool,
    without: &Outcome,
    steps: &mut Steps<L>,
) -> Result<Option<String>, Trouble> {
    let mut left = keeper.after_stop(alloc, with_last)?;
    let store = store_of(alloc, &mut left, &[])?;
    let (found, _) = outcome_of(alloc, &plain(&run.given), &store, &[], steps)?;
    if is_serving(run) {
        let wanted = without.store.rows.len() as u64;
        let count = found.store.rows.len() as u64;
        return told_numbers(alloc, "rows behind a stop, sent again", wanted, count);
    }
    let told = told_status(alloc, without.status, &found)?;
    if told.is_some() {
        return Ok(told);
    }
    told_rows(alloc, &without.store.rows, &found.store.rows)
}

fn told_behind_stops<L: Ledger>(
    alloc: Global,
    run: &Run,
    keeper: &MemoryKeeper,
    without: &Outcome,
    steps: &mut Steps<L>,
) -> Result<Option<String>, Trouble> {
    for with_last in [false, true] {
        let told = told_again(alloc, run, keeper, with_last, without, steps)?;
        if told.is_some() {
            return Ok(told);
        }
    }
    Ok(None)
}

// What is told of a call that failed.
fn with_number(
    alloc: Global,
    failing: Failing,
    number: u64,
    told: Option<String>,
) -> Result<Option<String>, Trouble> {
    match told {
        Some(told) => Ok(Some(format!(in alloc; "  call {number} of {failing:?} fails\n{told}")?)),
        None => Ok(None),
    }
}

// One run in which a call fails: `None` where no call of this number came.
fn told_call<L: Ledger>(
    alloc: Global,
    failing: Failing,
    number: u64,
    run: &Run,
    before: &Store,
    without: &Outcome,
    steps: &mut Steps<L>,
) -> Result<Option<Tried>, Trouble> {
    let fails = fails_at(alloc, failing, number)?;
    let setting = Setting {
        given: &run.given,
        fails: &fails,
        pieces: run.given.pieces,
        end: None,
    };
    let (found, keeper) = outcome_of(alloc, &setting, before, &[], steps)?;
    if !has_failed(failing, without, &found) {
        return Ok(None);
    }
    let told = told_fault(alloc, failing, run, before, without, &found)?;
    if told.is_some() || failing != Failing::Keeper {
        let told = with_number(alloc, failing, number, told)?;
        return Ok(Some(Tried { runs: 1, told }));
    }
    let told = told_behind_stops(alloc, run, &keeper, without, steps)?;
    let told = with_number(alloc, failing, number, told)?;
    Ok(Some(Tried { runs: 3, told }))
}

/// Runs again with the first call failing, the second one, and so on, as long as one fails.
pub(crate) fn tried_faults<L: Ledger>(
    alloc: Global,
    failing: Failing,
    run: &Run,
    before: &Store,
    without: &Outcome,
    steps: &mut Steps<L>,
) -> Result<Tried, Trouble> {
    let mut runs: u64 = 0;
    for number in 1..MOST_CALLS {
        let Some(tried) = told_call(alloc, failing, number, run, before, without, steps)? else {
            break;
        };
        runs = runs.saturating_add(tried.runs);
        if tried.told.is_some() {
            return Ok(Tried {
                runs,
                told: tried.told,
            });
        }
    }
    if runs == 0 {
        return Ok(Tried {
            runs,
            told: say(alloc, "no call failed")?,
        });
    }
    Ok(Tried { runs, told: None })
}
