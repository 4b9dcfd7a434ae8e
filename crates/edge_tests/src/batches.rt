//! Two batches, and what a keeper shows of them.
ghost use Rattle.std.specs.Prelude.{IsTrue};

use agent_keeper::{Batch, CheckName, CheckPut, KeepFault, Keeper};
use money_units::Bytes;
use std::alloc::Global;

const GONE: CheckName = CheckName {
    household: 7,
    sheet: 64,
};

/// What a keeper shows before any commit, after the first batch, and after both.
pub const NOTHING: &[u8] = b"0 rows - -, checks - - -";

pub const FIRST: &[u8] = b"1 rows first -, checks a b c";

pub const BOTH: &[u8] = b"2 rows first second, checks longer - c";

fn put_of(alloc: Global, household: u32, sheet: u32, bytes: &[u8]) -> Result<CheckPut, KeepFault> {
    Ok(CheckPut {
        household,
        sheet,
        bytes: Bytes::from_slice(alloc, bytes)?,
    })
}

/// A row, and three checkpoint rows.
pub(crate) fn first_batch(alloc: Global) -> Result<Batch, KeepFault> {
    let mut batch = Batch::new(alloc);
    batch.rows.push(Bytes::from_slice(alloc, b"first")?)?;
    batch.puts.push(put_of(alloc, 7, 32, b"a")?)?;
    batch.puts.push(put_of(alloc, 7, 64, b"b")?)?;
    batch.puts.push(put_of(alloc, 8, 32, b"c")?)?;
    Ok(batch)
}

/// A row more; of the checkpoint rows one is replaced and one removed.
pub(crate) fn second_batch(alloc: Global) -> Result<Batch, KeepFault> {
    let mut batch = Batch::new(alloc);
    batch.rows.push(Bytes::from_slice(alloc, b"second")?)?;
    batch.puts.push(put_of(alloc, 7, 32, b"longer")?)?;
    batch.removes.push(GONE)?;
    Ok(batch)
}

/// Appends a batch behind the rows that are kept: two calls.
pub(crate) fn commit<K: Keeper>(keeper: &mut K, batch: &Batch) -> Result<(), KeepFault>
    requires { IsTrue (K.is_attached keeper.old) }
    ensures { IsTrue (K.is_attached keeper.new) }
{
    let base = keeper.len()?;
    keeper.commit(base, batch)
}

/// Both commits, of two calls each.
pub(crate) fn two_commits<K: Keeper>(alloc: Global, keeper: &mut K) -> Result<(), KeepFault>
    requires { IsTrue (K.is_attached keeper.old) }
    ensures { IsTrue (K.is_attached keeper.new) }
{
    let first = first_batch(alloc)?;
    let second = second_batch(alloc)?;
    commit(keeper, &first)?;
    commit(keeper, &second)
}

// Appends what was read, or a dash where nothing was found.
fn push_read(text: &mut Vec<u8>, found: bool, bytes: &[u8]) -> Result<(), KeepFault> {
    text.push(b' ')?;
    if found {
        text.extend_from_slice(bytes)?;
    } else {
        text.push(b'-')?;
    }
    Ok(())
}

// A row is read over bytes that were there before.
fn push_row<K: Keeper>(
    text: &mut Vec<u8>,
    alloc: Global,
    keeper: &mut K,
    seq: u64,
) -> Result<(), KeepFault>
    requires { IsTrue (K.is_attached keeper.old) }
    ensures { IsTrue (K.is_attached keeper.new) }
{
    let mut into = b"old".to_vec(alloc)?;
    let found = keeper.row(seq, &mut into)?;
    push_read(text, found, &into)
}

fn push_check<K: Keeper>(
    text: &mut Vec<u8>,
    alloc: Global,
    keeper: &mut K,
    household: u32,
    sheet: u32,
) -> Result<(), KeepFault>
    requires { IsTrue (K.is_attached keeper.old) }
    ensures { IsTrue (K.is_attached keeper.new) }
{
    let mut into = b"old".to_vec(alloc)?;
    let found = keeper.check(household, sheet, &mut into)?;
    push_read(text, found, &into)
}

/// The number of rows below ten, two rows and three checkpoint rows, as text.
pub(crate) fn shown<K: Keeper>(alloc: Global, keeper: &mut K) -> Result<Vec<u8>, KeepFault>
    requires { IsTrue (K.is_attached keeper.old) }
    ensures { IsTrue (K.is_attached keeper.new) }
{
    let mut text = Vec::new(alloc);
    let count = keeper.len()?;
    text.push(b'0' + (count % 10) as u8)?;
    text.extend_from_slice(b" rows")?;
    push_row(&mut text, alloc, keeper, 0)?;
    push_row(&mut text, alloc, keeper, 1)?;
    text.extend_from_slice(b", checks")?;
    push_check(&mut text, alloc, keeper, 7, 32)?;
    push_check(&mut text, alloc, keeper, 7, 64)?;
    push_check(&mut text, alloc, keeper, 8, 32)?;
    Ok(text)
}
