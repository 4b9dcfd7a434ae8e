//! Copies of rows and batches.
ghost use Rattle.std.specs.Prelude.{◌≡◌, IfOk};

use crate::batch::{Batch, ByteRows, CheckNames, CheckPut, CheckPuts};
use money_units::{Bytes, NoMemory};
use std::alloc::Global;

/// A copy of a batch.
pub fn copy_batch(alloc: Global, batch: &Batch) -> Result<Batch, NoMemory>
    ensures { IfOk result (λ copy. copy ≡ batch.now) }
{
    Ok(Batch {
        rows: copy_rows(alloc, batch.rows.as_slice())?,
        puts: copy_puts(alloc, batch.puts.as_slice())?,
        removes: CheckNames::from_slice(alloc, batch.removes.as_slice())?,
    })
}

fn copy_rows(alloc: Global, rows: &[Bytes]) -> Result<ByteRows, NoMemory>
    ensures { IfOk result (λ copy. copy ≡ rows.now) }
{
    let mut copy = ByteRows::new(alloc);
    for row in rows {
        copy.push(Bytes::from_slice(alloc, row.as_slice())?)?;
    }
    Ok(copy)
}

/// A copy of checkpoint rows to put.
pub fn copy_puts(alloc: Global, puts: &[CheckPut]) -> Result<CheckPuts, NoMemory>
    ensures { IfOk result (λ copy. copy ≡ puts.now) }
{
    let mut copy = CheckPuts::new(alloc);
    for put in puts {
        copy.push(CheckPut {
            household: put.household,
            sheet: put.sheet,
            bytes: Bytes::from_slice(alloc, put.bytes.as_slice())?,
        })?;
    }
    Ok(copy)
}
