//! A keeper in memory that fails where it is told to.
ghost use Rattle.std.specs.Prelude.{◌≡◌, ◌⊎◌, ◌==◌, slice_get, [], None, Some, Ok, Err, true, length, IfOk, OnOk, OnErr, if◌then◌else◌};
ghost use Rattle.std.specs.Option.{option_copied};
ghost use Rattle.std.specs.Bool.{OnFalse};
ghost use Rattle.std.specs.List.{list_any};
ghost use Rattle.std.proofs.Common.{sym, ◌∙◌, inl};
ghost use Rattle.agent_keeper.specs.Content.{after_puts, is_removed, after, empty};
ghost use Rattle.agent_keeper.specs.Memory.{content, before_last, after_last, now_kept, calls_that_fail, calls_made, faults_made, next_call, fails_next, CountsCall, KeepsAll};

use crate::batch::{Batch, CheckName, CheckPut};
use crate::copies::copy_batch;
use crate::fault::KeepFault;
use crate::keeper::Keeper;
use crate::kept::Kept;
use crate::reads::hand_out;
use money_units::NoMemory;
use std::alloc::Global;

/// Keeps rows in memory, fails at the calls that it is told to fail at, and can be copied as a stop of the program in
/// its last commit leaves it.
#[derive(Drop)]
pub struct MemoryKeeper {
    alloc: Global,
    // What was kept before the last commit, which beside it is kept whole, so that either can be left by a stop.
    settled: Kept,
    last: Batch,
    is_kept: bool,
    fails: Vec<u64>,
    calls: u64,
    faults: u64,
}

impl MemoryKeeper {
    /// An empty keeper whose calls of these numbers fail, from 1, in the order in which they are made.
    pub fn new(alloc: Global, fails: &[u64]) -> Result<MemoryKeeper, NoMemory>
        ensures kept { IfOk result (λ keeper. now_kept keeper ≡ empty) }
        ensures before { IfOk result (λ keeper. before_last keeper ≡ empty) }
        ensures after { IfOk result (λ keeper. after_last keeper ≡ empty) }
        ensures fails { IfOk result (λ keeper. calls_that_fail keeper ≡ fails.now) }
        ensures calls { IfOk result (λ keeper. calls_made keeper ≡ 0) }
        ensures faults { IfOk result (λ keeper. faults_made keeper ≡ 0) }
    {
        let fails = Vec::from_slice(alloc, fails)?;
        Ok(MemoryKeeper::over(alloc, Kept::new(alloc), fails))
    }

    /// A copy with no calls made and none that fail, as a stop in the last commit leaves it: with what that commit
    /// made, or without. Until the copy's first commit a stop leaves the same.
    pub fn after_stop(&self, alloc: Global, with_last: bool) -> Result<MemoryKeeper, NoMemory>
        ensures kept { IfOk result (λ copy.
            now_kept copy ≡ (if with_last then after_last self.now else before_last self.now)) }
        ensures before { IfOk result (λ copy. before_last copy ≡ now_kept copy) }
        ensures after { IfOk result (λ copy. after_last copy ≡ now_kept copy) }
        ensures fails { IfOk result (λ copy. calls_that_fail copy ≡ []) }
        ensures calls { IfOk result (λ copy. calls_made copy ≡ 0) }
        ensures faults { IfOk result (λ copy. faults_made copy ≡ 0) }
    {
        let left = self.left(alloc, with_last)?;
        Ok(MemoryKeeper::over(alloc, left, Vec::new(alloc)))
    }

    // A keeper before its first commit.
    fn over(alloc: Global, settled: Kept, fails: Vec<u64>) -> MemoryKeeper
        ensures kept { now_kept result ≡ content settled }
        ensures before { before_last result ≡ content settled }
        ensures after { after_last result ≡ content settled }
        ensures fails { calls_that_fail result ≡ fails.items }
        ensures calls { calls_made result ≡ 0 }
        ensures faults { faults_made result ≡ 0 }
    {
        MemoryKeeper {
            alloc,
            settled,
            last: Batch::new(alloc),
            is_kept: true,
            fails,
            calls: 0,
            faults: 0,
        }
    }

    // A copy of what was kept before the last commit, or of what that commit made of it.
    fn left(&self, alloc: Global, with_last: bool) -> Result<Kept, NoMemory>
        ensures { IfOk result (λ left. content left
            ≡ (if with_last then after_last self.now else before_last self.now)) }
    {
        let mut left = self.settled.copy(alloc)?;
        if with_last {
            left.keep(alloc, &self.last)?;
            Ok(left)
        } else {
            Ok(left)
        }
    }

    // Counts a call, which fails where it is listed.
    fn begin(&mut self) -> Result<(), KeepFault>
        ensures answer { result ≡ (if fails_next self.old then Err KeepFault.Failed else Ok tt) }
        ensures call { CountsCall self.old self.new result }
        ensures kept { (self.new.settled ≡ self.old.settled) × (self.new.last ≡ self.old.last)
            × (self.new.is_kept ≡ self.old.is_kept) }
    {
        let fails = self.is_listed_next();
        self.calls = self.calls.saturating_add(1);
        if fails {
            self.faults = self.faults.saturating_add(1);
            return Err(KeepFault::Failed);
        }
        Ok(())
    }

    fn is_listed_next(&self) -> bool
        ensures { result ≡ fails_next self.now }
    {
        let next = self.calls.saturating_add(1);
        self.fails.contains(&next)
    }

    // Makes this batch the last commit's, over what was kept so far.
    fn note(&mut self, batch: &Batch, is_kept: bool) -> Result<(), NoMemory>
        ensures ok { OnOk result ((before_last self.new ≡ now_kept self.old)
            × (self.new.last ≡ batch.now) × (self.new.is_kept ≡ is_kept)) }
        ensures err { OnErr result ((before_last self.new ≡ before_last self.old)
            × (self.new.last ≡ self.old.last) × (self.new.is_kept ≡ self.old.is_kept)) }
        ensures counts { (self.new.calls ≡ self.old.calls) × (self.new.faults ≡ self.old.faults)
            × (self.new.fails ≡ self.old.fails) }
    {
        let copy = copy_batch(self.alloc, batch)?;
        if self.is_kept {
            self.settled.keep(self.alloc, &self.last)?;
        }
        self.last = copy;
        self.is_kept = is_kept;
        Ok(())
    }

    fn count(&self) -> u64
        ensures { result ≡ length (now_kept self.now).rows }
    {
        let settled = self.settled.len() as u64;
        if self.is_kept {
            settled + self.last.rows.as_slice().len() as u64
        } else {
            settled
        }
    }

    fn row_at(&self, seq: u64) -> Option<&[u8]>
        ensures { option_copied result ≡ slice_get (now_kept self.now).rows seq }
    {
        let settled = self.settled.len() as u64;
        if seq < settled || !self.is_kept {
            return self.settled.row(seq);
        }
        let row = self.last.rows.as_slice().get((seq - settled) as usize)?;
        Some(row.as_slice())
    }

    fn check_at(&self, household: u32, sheet: u32) -> Option<&[u8]>
        ensures { option_copied result ≡ (now_kept self.now).checks household sheet }
    {
        let before = self.settled.check(household, sheet);
        if !self.is_kept {
            return before;
        }
        if names_check(self.last.removes.as_slice(), household, sheet) {
            return None;
        }
        last_put(self.last.puts.as_slice(), before, household, sheet)
    }
}

impl Keeper for MemoryKeeper {
    ghost tells = { λ keeper kept. kept ≡ now_kept keeper };

    ghost faults = { faults_made };

    ghost moment = { λ _. 0 };

    ghost gave = { λ _ _ _. Unit {0} };

    ghost is_attached = { λ _. true };

    ghost is_honest = { λ _. Unit {0} };

    ghost may_leave = { λ keeper left. (left ≡ now_kept keeper) ⊎ (left ≡ after_last keeper) };

    ghost one_content = { λ keeper a b is also. is ∙ sym also };

    ghost honest = { λ _ _ _. tt };

    ghost stop_leaves = { λ keeper kept is. inl is };

    fn attach(&mut self, _path: &str) -> Result<(), KeepFault>
        ensures answer { result ≡ (if fails_next self.old then Err KeepFault.Failed else Ok tt) }
        ensures call { CountsCall self.old self.new result }
        ensures kept { KeepsAll self.old self.new }
    {
        self.begin()
    }

    fn len(&mut self) -> Result<u64, KeepFault>
        ensures answer { result ≡ (if fails_next self.old then Err KeepFault.Failed
            else Ok (length (now_kept self.old).rows)) }
        ensures call { CountsCall self.old self.new result }
        ensures kept { KeepsAll self.old self.new }
    {
        self.begin()?;
        Ok(self.count())
    }

    fn row(&mut self, seq: u64, into: &mut Vec<u8>) -> Result<bool, KeepFault>
        ensures exact { IfOk result (λ found. slice_get (now_kept self.old).rows seq
            ≡ (if found then Some into.new.items else None)) }
        ensures missing { IfOk result (λ found. OnFalse found (into.new.items ≡ [])) }
        ensures refused { OnErr result (into.new.items ≡ []) }
        ensures call { CountsCall self.old self.new result }
        ensures kept { KeepsAll self.old self.new }
    {
        into.clear();
        self.begin()?;
        Ok(hand_out(self.row_at(seq), into)?)
    }

    fn check(&mut self, household: u32, sheet: u32, into: &mut Vec<u8>) -> Result<bool, KeepFault>
        ensures exact { IfOk result (λ found. (now_kept self.old).checks household sheet
            ≡ (if found then Some into.new.items else None)) }
        ensures missing { IfOk result (λ found. OnFalse found (into.new.items ≡ [])) }
        ensures refused { OnErr result (into.new.items ≡ []) }
        ensures call { CountsCall self.old self.new result }
        ensures kept { KeepsAll self.old self.new }
    {
        into.clear();
        self.begin()?;
        Ok(hand_out(self.check_at(household, sheet), into)?)
    }

    fn commit(&mut self, _base: u64, batch: &Batch) -> Result<(), KeepFault>
        ensures ok { OnOk result (now_kept self.new ≡ after batch.now (now_kept self.old)) }
        ensures err { OnErr result (now_kept self.new ≡ now_kept self.old) }
        ensures call { CountsCall self.old self.new result }

        // A stop in this commit leaves what was kept before it, or what it makes of that. Where there is no memory to
        // note a commit that fails, a stop leaves what one in the commit before would.
        ensures stops { OnOk result ((before_last self.new ≡ now_kept self.old)
            × (after_last self.new ≡ after batch.now (now_kept self.old))) }
        ensures torn { OnErr result (((before_last self.new ≡ now_kept self.old)
            × (after_last self.new ≡ after batch.now (now_kept self.old)))
            ⊎ ((before_last self.new ≡ before_last self.old)
            × (after_last self.new ≡ after_last self.old))) }
    {
        let begun = self.begin();
        // A commit that fails may still be found after a stop, so it is noted, if there is memory for it.
        let noted = self.note(batch, begun.is_ok());
        begun?;
        Ok(noted?)
    }
}

fn names_check(names: &[CheckName], household: u32, sheet: u32) -> bool
    ensures { result ≡ is_removed names.now household sheet }
{
    names
        .iter()
        .any(|name| name.household == household && name.sheet == sheet)
}

// The bytes of the last row to put there, or what was there before.
fn last_put<'a>(
    puts: &'a [CheckPut],
    before: Option<&'a [u8]>,
    household: u32,
    sheet: u32,
) -> Option<&'a [u8]>
    ensures { option_copied result ≡ after_puts puts.now
        (option_copied before.entry) household sheet }
{
    let mut there = before;
    for put in puts {
        if put.household == household && put.sheet == sheet {
            there = Some(put.bytes.as_slice());
        }
    }
    there
}
