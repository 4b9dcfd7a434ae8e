//! What a keeper in memory keeps, and the change that a batch makes of it.
ghost use Rattle.std.specs.Prelude.{◌≡◌, ◌≤◌, ◌<◌, ◌^◌, [], length, slice_get, None, IfOk, OnOk, OnErr, if◌then◌else◌};
ghost use Rattle.std.specs.Option.{option_copied};
ghost use Rattle.std.specs.HashMap.{get, spare};
ghost use Rattle.agent_keeper.specs.declared.batch.CheckName.{CheckName as Name};
ghost use Rattle.agent_keeper.specs.Content.{after_puts, is_removed, after, empty};
ghost use Rattle.agent_keeper.specs.Memory.{is_same, check_of, content};

use crate::batch::{Batch, CheckName, CheckPut};
use crate::copies::copy_puts;
use crate::packed_rows::PackedRows;
use money_units::{Bytes, NoMemory};
use std::alloc::Global;
use std::collections::HashMap;

/// The rows of the journal, in order, and the checkpoint rows by household and sheet.
#[derive(Drop)]
pub struct Kept {
    rows: PackedRows,
    checks: HashMap<CheckName, Bytes>,
}

impl Kept {
    /// Nothing is kept, which takes no memory yet.
    pub fn new(alloc: Global) -> Kept
        ensures { content result ≡ empty }
    {
        Kept {
            rows: PackedRows::new(alloc),
            checks: HashMap::new(alloc),
        }
    }

    /// How many rows the journal has.
    pub fn len(&self) -> usize
        ensures count { result ≡ length (content self.now).rows }
        ensures bound { result < 2 ^ 63 }
    {
        self.rows.len()
    }

    /// The row of the journal at a place.
    pub fn row(&self, seq: u64) -> Option<&[u8]>
        ensures { option_copied result ≡ slice_get (content self.now).rows seq }
    {
        self.rows.get(seq)
    }

    /// The checkpoint row of a household at a sheet.
    pub fn check(&self, household: u32, sheet: u32) -> Option<&[u8]>
        ensures { option_copied result ≡ (content self.now).checks household sheet }
    {
        let bytes = self.checks.get(&CheckName { household, sheet })?;
        Some(bytes.as_slice())
    }

    /// Makes a batch part of what is kept. After `NoMemory` there is what was kept before.
    pub fn keep(&mut self, alloc: Global, batch: &Batch) -> Result<(), NoMemory>
        ensures ok { OnOk result (content self.new ≡ after batch.now (content self.old)) }
        ensures err { OnErr result (content self.new ≡ content self.old) }
    {
        let puts = copy_puts(alloc, batch.puts.as_slice())?.into_vec();
        make_room(&mut self.checks, puts.len())?;
        self.rows.append(batch.rows.as_slice())?;
        put_all(&mut self.checks, puts);
        remove_all(&mut self.checks, batch.removes.as_slice());
        Ok(())
    }

    /// The same rows again.
    pub fn copy(&self, alloc: Global) -> Result<Kept, NoMemory>
        ensures { IfOk result (λ copy. content copy ≡ content self.now) }
    {
        Ok(Kept {
            rows: self.rows.copy(alloc)?,
            checks: copy_checks(alloc, &self.checks)?,
        })
    }
}

fn copy_checks(
    alloc: Global,
    checks: &HashMap<CheckName, Bytes>,
) -> Result<HashMap<CheckName, Bytes>, NoMemory>
    ensures { IfOk result (λ copy. (q : Name) → get is_same copy q ≡ get is_same checks.now q) }
{
    let mut copy = HashMap::new(alloc);
    for (name, bytes) in checks {
        copy.insert(*name, Bytes::from_slice(alloc, bytes.as_slice())?)?;
    }
    Ok(copy)
}

// Takes the memory for so many rows more.
fn make_room(checks: &mut HashMap<CheckName, Bytes>, count: usize) -> Result<(), NoMemory>
    ensures room { OnOk result (count ≤ spare checks.new) }
    ensures same { (q : Name) → get is_same checks.new q ≡ get is_same checks.old q }
{
    checks.reserve(count)?;
    Ok(())
}

// Puts each row in the place of the one of the same name, if there is one.
fn put_all(checks: &mut HashMap<CheckName, Bytes>, puts: Vec<CheckPut>)
    requires { length puts.items ≤ spare checks.old }
    ensures { (q : Name) → get is_same checks.new q
        ≡ after_puts puts.items (get is_same checks.old q) q.household q.sheet }
{
    for put in puts {
        let CheckPut {
            household,
            sheet,
            bytes,
        } = put;
        let put: Result<_, _> = checks.insert(CheckName { household, sheet }, bytes);
        let _before = put.unwrap();
    }
}

// Removes the rows of these names.
fn remove_all(checks: &mut HashMap<CheckName, Bytes>, removes: &[CheckName])
    ensures { (q : Name) → get is_same checks.new q
        ≡ (if is_removed removes.now q.household q.sheet then None else get is_same checks.old q) }
{
    for name in removes {
        let _before = checks.remove(name);
    }
}
