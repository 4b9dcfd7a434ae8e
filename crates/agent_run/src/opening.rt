//! Opens the store, before anything is read.
ghost use Rattle.std.specs.Prelude.{◌≡◌, ◌≤◌, Err, IfOk, IsTrue, OnErr, OnOk, ℕ};
ghost use Rattle.agent_run.specs.Runs.{GrowLawfully, TellSame};
ghost use Rattle.agent_keeper.specs.Calls.{OnlyReads, Rose};
ghost use Rattle.agent_keeper.specs.Content.{Content};
ghost use Rattle.register_desk.specs.Rows.{IsDamagedAt, TellsRowsOf};
ghost use Rattle.register_desk.specs.declared.faults.StartFault.{StartFault as Fault};
ghost use Rattle.register_machine.specs.journal.Lawful.{IsLawful};

use agent_keeper::{KeepFault, Keeper};
use household_fold::Steps;
use register_desk::{Desk, StartFault};
use std::alloc::Global;
use std::sync::ledger::Ledger as StepLedger;

// Attaches the keeper to the store at a path.
fn attach<K: Keeper>(path: &str, keeper: &mut K) -> Result<(), StartFault>
    ensures attached { OnOk result (IsTrue (K.is_attached keeper.new)) }
    ensures same { TellSame (K.tells keeper.old) (K.tells keeper.new) }
    ensures speaks { OnOk result
        (K.is_honest keeper.new → (kept : Content) → K.tells keeper.old kept
        → K.tells keeper.new kept) }
    ensures not_damaged { (place : ℕ) → result ≡ Err (Fault.Damaged place) → ⊥ }
    ensures fault { result ≡ Err Fault.Keeper → Rose (K.faults keeper.old) (K.faults keeper.new) }
    ensures never_falls { K.faults keeper.old ≤ K.faults keeper.new }
{
    match keeper.attach(path) {
        Ok(()) => Ok(()),
        Err(KeepFault::Failed) => Err(StartFault::Keeper),
        Err(KeepFault::NoMemory) => Err(StartFault::NoMemory),
    }
}

// The desk of the journal whose rows an attached keeper keeps.
fn started<K: Keeper, L: StepLedger>(
    alloc: Global,
    keeper: &mut K,
    steps: &mut Steps<L>,
) -> Result<Desk, StartFault>
    requires { IsTrue (K.is_attached keeper.old) }
    ensures attached { IsTrue (K.is_attached keeper.new) }
    ensures told { IfOk result (λ desk. TellsRowsOf (K.tells keeper.new) desk.book.journal) }
    ensures lawful { IfOk result (λ desk. IsLawful desk.book.journal) }
    ensures reads { OnlyReads K.tells K.may_leave K.is_honest keeper.old keeper.new }
    ensures speaks { OnOk result
        (K.is_honest keeper.new → (kept : Content) → K.tells keeper.old kept
        → K.tells keeper.new kept) }
    ensures damaged { (place : ℕ) → result ≡ Err (Fault.Damaged place) → (kept : Content)
        → K.tells keeper.new kept
        → IsDamagedAt place kept.rows }
    ensures fault { result ≡ Err Fault.Keeper → Rose (K.faults keeper.old) (K.faults keeper.new) }
    ensures never_falls { K.faults keeper.old ≤ K.faults keeper.new }
{
    match Desk::start(alloc, keeper, steps) {
        Ok(desk) => {
            desk.journal_is_lawful();
            Ok(desk)
        }
        Err(fault) => Err(fault),
    }
}

/// Opens the store at a path: the desk of the journal whose rows it keeps.
pub fn open<K: Keeper, L: StepLedger>(
    alloc: Global,
    path: &str,
    keeper: &mut K,
    steps: &mut Steps<L>,
) -> Result<Desk, StartFault>
    ensures attached { OnOk result (IsTrue (K.is_attached keeper.new)) }
    ensures told { IfOk result (λ desk. TellsRowsOf (K.tells keeper.new) desk.book.journal) }
    ensures lawful { IfOk result (λ desk. IsLawful desk.book.journal) }
    ensures same { TellSame (K.tells keeper.old) (K.tells keeper.new) }
    ensures speaks { OnOk result
        (K.is_honest keeper.new → (kept : Content) → K.tells keeper.old kept
        → K.tells keeper.new kept) }
    ensures damaged { (place : ℕ) → result ≡ Err (Fault.Damaged place) → (kept : Content)
        → K.tells keeper.new kept
        → IsDamagedAt place kept.rows }
    ensures kept { (first last : Content) → K.tells keeper.old first → K.tells keeper.new last
        → GrowLawfully first.rows last.rows }
    ensures fault { result ≡ Err Fault.Keeper → Rose (K.faults keeper.old) (K.faults keeper.new) }
    ensures never_falls { K.faults keeper.old ≤ K.faults keeper.new }
{
    attach(path, keeper)?;
    started(alloc, keeper, steps)
}
