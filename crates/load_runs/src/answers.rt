//! Asking the desk as the operator, and keeping what it answers; want of memory alone can stop either.
ghost use Rattle.std.specs.Prelude.{◌≡◌, ◌≤◌, ◌++◌, [], IfOk, OnOk};
ghost use Rattle.agent_keeper.specs.Memory.{surely_kept};
ghost use Rattle.agent_keeper.specs.declared.fault.KeepFault.TheVariants as kept;
ghost use Rattle.agent_events.specs.declared.verdict.Caller.{Caller as AnyCaller};
ghost use Rattle.register_desk.specs.Answered.{events_of};
ghost use Rattle.register_desk.specs.PreparedAnswers.{IsPreparedAt};
ghost use Rattle.register_desk.specs.Rows.{rows_of};
ghost use Rattle.register_desk.specs.declared.faults.StartFault.TheVariants as start;
ghost use Rattle.register_laws.specs.Lawful.{own_at};
ghost use Rattle.register_machine.specs.journal.Journals.{last_moment};
ghost use Rattle.register_machine.specs.run.Answers.{answer};

use agent_events::{Caller, Request};
use agent_keeper::{KeepFault, SureKeeper};
use household_fold::Steps;
use money_units::{Moment, NoMemory};
use register_desk::{Desk, LedgerFault, Prepared, StartFault};
use std::alloc::Global;
use std::sync::ledger::Ledger as StepLedger;

// A keeper that never fails and has no row leaves nothing but memory to be wanting.
fn not_started(fault: StartFault) -> NoMemory
    requires { fault ≡ start.NoMemory }
    ensures { fault ≡ start.NoMemory }
{
    match fault {
        StartFault::NoMemory => NoMemory,
        StartFault::Keeper => unreachable!(),
        StartFault::Damaged(_) => unreachable!(),
    }
}

fn not_kept(fault: KeepFault) -> NoMemory
    requires { fault ≡ kept.NoMemory }
    ensures { fault ≡ kept.NoMemory }
{
    match fault {
        KeepFault::NoMemory => NoMemory,
        KeepFault::Failed => unreachable!(),
    }
}

/// The desk of a keeper that keeps nothing yet.
pub(crate) fn start<L: StepLedger>(
    alloc: Global,
    keeper: &mut SureKeeper,
    steps: &mut Steps<L>,
) -> Result<Desk, NoMemory>
    requires { (surely_kept keeper.old).rows ≡ [] }
    ensures journal { IfOk result (λ desk. desk.book.journal ≡ []) }
    ensures kept { (surely_kept keeper.new).rows ≡ [] }
{
    match Desk::start(alloc, keeper, steps) {
        Ok(desk) => Ok(desk),
        Err(fault) => Err(not_started(fault)),
    }
}

/// Prepares the answer to a request of the operator.
pub(crate) fn ask<L: StepLedger>(
    desk: &mut Desk,
    keeper: &mut SureKeeper,
    moment: Moment,
    request: &Request,
    steps: &mut Steps<L>,
) -> Result<Prepared, NoMemory>
    requires moment { last_moment desk.old.book.journal ≤ moment }
    requires told { (surely_kept keeper.old).rows ≡ rows_of desk.old.book.journal }
    ensures journal { desk.new.book.journal ≡ desk.old.book.journal }
    ensures keeper { keeper.new ≡ keeper.old }
    ensures answer { IfOk result (λ prepared.
        answer (own_at desk.old.book.journal moment AnyCaller.Operator) request.now
        ≡ record { reply = prepared.reply; events = events_of prepared.change }) }
    ensures prepared { IfOk result (IsPreparedAt desk.new) }
{
    match desk.prepare(keeper, moment, Caller::Operator, request, steps) {
        Ok(prepared) => Ok(prepared),
        Err(LedgerFault::NoMemory) => Err(NoMemory),
    }
}

/// Keeps the events of a prepared answer.
pub(crate) fn keep(
    desk: &mut Desk,
    keeper: &mut SureKeeper,
    prepared: Prepared,
) -> Result<(), NoMemory>
    requires prepared { IsPreparedAt desk.old prepared }
    requires told { (surely_kept keeper.old).rows ≡ rows_of desk.old.book.journal }
    ensures ok { OnOk result (desk.new.book.journal
        ≡ desk.old.book.journal ++ events_of prepared.change) }
    ensures told { (surely_kept keeper.new).rows ≡ rows_of desk.new.book.journal }
{
    match desk.commit(keeper, prepared) {
        Ok(()) => Ok(()),
        Err(fault) => Err(not_kept(fault)),
    }
}
