//! A case is tried: its runs one after another over one store.

use crate::cases::{Case, Run};
use crate::cuts::{tried_cuts, tried_ends};
use crate::faults::{Tried, tried_faults};
use crate::runs::{Outcome, outcome_of, plain};
use crate::stores::{Store, store_of};
use crate::trouble::Trouble;
use crate::wants::told_outcome;
use agent_keeper::{CheckName, CheckPut, MemoryKeeper};
use household_fold::Steps;
use money_units::Bytes;
use std::alloc::Global;
use std::sync::ledger::Ledger;

// The names of the checkpoint rows that a run speaks of, and of those that stood before it.
fn names_of(alloc: Global, run: &Run, before: &Store) -> Result<Vec<CheckName>, Trouble> {
    let mut names = Vec::new(alloc);
    for kept in &run.wanted.kept {
        names.push(kept.name)?;
    }
    for check in &before.checks {
        names.push(CheckName {
            household: check.household,
            sheet: check.sheet,
        })?;
    }
    Ok(names)
}

// The store behind a run, or as a stop leaves it.
fn store_behind(
    alloc: Global,
    run: &Run,
    outcome: Outcome,
    keeper: &MemoryKeeper,
    names: &[CheckName],
) -> Result<Store, Trouble> {
    match run.stop {
        Some(with_last) => {
            let mut left = keeper.after_stop(alloc, with_last)?;
            store_of(alloc, &mut left, names)
        }
        None => Ok(outcome.store),
    }
}

// Adds what came of runs that were made again.
fn joined(tried: Tried, more: Tried) -> Tried {
    Tried {
        runs: tried.runs.saturating_add(more.runs),
        told: match tried.told {
            Some(told) => Some(told),
            None => more.told,
        },
    }
}

// Makes a run again in the ways that it asks for.
fn tried_again<L: Ledger>(
    alloc: Global,
    run: &Run,
    before: &Store,
    without: &Outcome,
    steps: &mut Steps<L>,
) -> Result<Tried, Trouble> {
    let mut tried = Tried {
        runs: 0,
        told: None,
    };
    if run.again.each_cut {
        tried = joined(tried, tried_cuts(alloc, run, before, steps)?);
    }
    if run.again.each_end {
        tried = joined(tried, tried_ends(alloc, run, before, without, steps)?);
    }
    for failing in &run.again.each_fault {
        let more = tried_faults(alloc, *failing, run, before, without, steps)?;
        tried = joined(tried, more);
    }
    Ok(tried)
}

// Tries a run over a store: what is told of it, and the store behind it.
fn tried_run<L: Ledger>(
    alloc: Global,
    run: &Run,
    before: &Store,
    steps: &mut Steps<L>,
) -> Result<(Tried, Store), Trouble> {
    let names = names_of(alloc, run, before)?;
    let (outcome, keeper) = outcome_of(alloc, &plain(&run.given), before, &names, steps)?;
    let told = told_outcome(alloc, &run.wanted, before, &outcome)?;
    let once = Tried { runs: 1, told };
    let tried = joined(once, tried_again(alloc, run, before, &outcome, steps)?);
    let store = store_behind(alloc, run, outcome, &keeper, &names)?;
    Ok((tried, store))
}

fn with_line(alloc: Global, line: u64, told: Option<String>) -> Result<Option<String>, Trouble> {
    match told {
        Some(told) => Ok(Some(format!(in alloc; "  the run of line {line}\n{told}")?)),
        None => Ok(None),
    }
}

/// The store of the rows that a case begins with, behind those of a store before it.
pub(crate) fn begun(case: &mut Case, before: Store) -> Result<Store, Trouble> {
    let mut store = before;
    let rows: &mut Vec<Bytes> = &mut case.rows;
    store.rows.append(rows)?;
    let checks: &mut Vec<CheckPut> = &mut case.checks;
    store.checks.append(checks)?;
    Ok(store)
}

/// Tries the runs of a case over a store: how many runs were made, how the first one differs, and the store behind the last one.
pub(crate) fn tried_case<L: Ledger>(
    alloc: Global,
    case: &Case,
    before: Store,
    steps: &mut Steps<L>,
) -> Result<(Tried, Store), Trouble> {
    let mut store = before;
    let mut all = Tried {
        runs: 0,
        told: None,
    };
    for run in &case.runs {
        let (mut tried, behind) = tried_run(alloc, run, &store, steps)?;
        tried.told = with_line(alloc, run.line, tried.told)?;
        all = joined(all, tried);
        store = behind;
    }
    Ok((all, store))
}

/// The store that the runs of a case leave, each made once.
pub(crate) fn store_of_case<L: Ledger>(
    alloc: Global,
    case: &Case,
    before: Store,
    steps: &mut Steps<L>,
) -> Result<Store, Trouble> {
    let mut store = before;
    for run in &case.runs {
        let names = names_of(alloc, run, &store)?;
        let (outcome, keeper) = outcome_of(alloc, &plain(&run.given), &store, &names, steps)?;
        store = store_behind(alloc, run, outcome, &keeper, &names)?;
    }
    Ok(store)
}
