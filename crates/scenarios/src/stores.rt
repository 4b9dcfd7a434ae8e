//! The store of a case: the rows that stand in it before a run, and what a run leaves.

use crate::trouble::Trouble;
use agent_keeper::{Batch, CheckName, CheckPut, KeepFault, Keeper, MemoryKeeper};
use money_units::Bytes;
use std::alloc::Global;

/// The rows of the journal, and checkpoint rows.
#[derive(Drop)]
pub struct Store {
    pub rows: Vec<Bytes>,
    pub checks: Vec<CheckPut>,
}

// Opening the keeper and two commits bring the store into it.
const CALLS_BEFORE: u64 = 3;

// How often a call is tried again that was listed to fail and didn't come in the run.
const TRIES: usize = 1000;

/// An empty store.
pub(crate) fn no_store(alloc: Global) -> Store {
    Store {
        rows: Vec::new(alloc),
        checks: Vec::new(alloc),
    }
}

fn copy_of(alloc: Global, bytes: &Bytes) -> Result<Bytes, Trouble> {
    Ok(Bytes::from_slice(alloc, bytes.as_slice())?)
}

// All of a store as one commit.
fn batch_of(alloc: Global, store: &Store) -> Result<Batch, Trouble> {
    let mut batch = Batch::new(alloc);
    for row in &store.rows {
        batch.rows.push(copy_of(alloc, row)?)?;
    }
    for check in &store.checks {
        let bytes = copy_of(alloc, &check.bytes)?;
        batch.puts.push(CheckPut {
            household: check.household,
            sheet: check.sheet,
            bytes,
        })?;
    }
    Ok(batch)
}

/// A keeper of this store, whose calls of these numbers fail from here on. A stop before its next commit leaves the store.
pub(crate) fn keeper_of(
    alloc: Global,
    store: &Store,
    fails: &[u64],
) -> Result<MemoryKeeper, Trouble> {
    let mut later = Vec::new(alloc);
    for number in fails {
        later.push(number.saturating_add(CALLS_BEFORE))?;
    }
    let mut keeper = MemoryKeeper::new(alloc, &later)?;
    keeper.attach("r")?;
    keeper.commit(0, &batch_of(alloc, store)?)?;
    keeper.commit(store.rows.len() as u64, &Batch::new(alloc))?;
    Ok(keeper)
}

fn rows_kept(keeper: &mut MemoryKeeper) -> Result<u64, Trouble> {
    for _ in 0..TRIES {
        if let Ok(count) = keeper.len() {
            return Ok(count);
        }
    }
    Err(Trouble::Store)
}

fn row_kept(alloc: Global, keeper: &mut MemoryKeeper, number: u64) -> Result<Bytes, Trouble> {
    let mut row = Vec::new(alloc);
    for _ in 0..TRIES {
        match keeper.row(number, &mut row) {
            Ok(true) => return Ok(Bytes::from_vec(row)),
            Ok(false) => return Err(Trouble::Store),
            Err(KeepFault::NoMemory) => return Err(Trouble::NoMemory),
            Err(KeepFault::Failed) => {}
        }
    }
    Err(Trouble::Store)
}

/// The checkpoint row of this name, where there is one.
pub(crate) fn check_kept(
    alloc: Global,
    keeper: &mut MemoryKeeper,
    name: CheckName,
) -> Result<Option<Bytes>, Trouble> {
    let mut row = Vec::new(alloc);
    for _ in 0..TRIES {
        match keeper.check(name.household, name.sheet, &mut row) {
            Ok(true) => return Ok(Some(Bytes::from_vec(row))),
            Ok(false) => return Ok(None),
            Err(KeepFault::NoMemory) => return Err(Trouble::NoMemory),
            Err(KeepFault::Failed) => {}
        }
    }
    Err(Trouble::Store)
}

// Reads the checkpoint row of this name into a list of them, where there is one.
fn push_check(
    alloc: Global,
    keeper: &mut MemoryKeeper,
    name: CheckName,
    into: &mut Vec<CheckPut>,
) -> Result<(), Trouble> {
    if let Some(bytes) = check_kept(alloc, keeper, name)? {
        into.push(CheckPut {
            household: name.household,
            sheet: name.sheet,
            bytes,
        })?;
    }
    Ok(())
}

/// What a keeper keeps: its rows, and the checkpoint rows of these names.
pub(crate) fn store_of(
    alloc: Global,
    keeper: &mut MemoryKeeper,
    names: &[CheckName],
) -> Result<Store, Trouble> {
    let mut rows = Vec::new(alloc);
    for number in 0..rows_kept(keeper)? {
        rows.push(row_kept(alloc, keeper, number)?)?;
    }
    let mut checks = Vec::new(alloc);
    for name in names {
        push_check(alloc, keeper, *name, &mut checks)?;
    }
    Ok(Store { rows, checks })
}
