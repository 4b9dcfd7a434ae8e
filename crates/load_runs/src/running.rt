//! A load under way: its requests are sent one after the other.
ghost use Rattle.std.specs.Prelude.{◌≡◌, ◌≤◌, ◌<◌, ◌+◌, if◌then◌else◌, fold, length, IfOk, OnOk};
ghost use Rattle.load_requests.specs.Runs.{NeverFall, first_run, is_refusal, load_step};
ghost use Rattle.load_runs.specs.Running.{HasRun, most_requests, run_at};
ghost use Rattle.register_machine.specs.journal.Journals.{last_moment};

use crate::answers::{ask, keep, start};
use agent_events::Reply;
use agent_keeper::SureKeeper;
use household_fold::Steps;
use load_requests::{LoadRequests, Sent};
use money_units::NoMemory;
use register_desk::Desk;
use std::alloc::Global;
use std::sync::ledger::Ledger as StepLedger;

/// The desk with its keeper, and how many requests were refused.
#[derive(Drop)]
pub struct Running {
    pub desk: Desk,
    pub keeper: SureKeeper,
    pub refused: u64,
}

/// A load of which nothing was sent yet.
pub(crate) fn open<L: StepLedger>(alloc: Global, steps: &mut Steps<L>) -> Result<Running, NoMemory>
    ensures run { IfOk result (λ running. run_at running ≡ first_run) }
    ensures has_run { IfOk result HasRun }
{
    let mut keeper = SureKeeper::new(alloc);
    let desk = start(alloc, &mut keeper, steps)?;
    Ok(Running {
        desk,
        keeper,
        refused: 0,
    })
}

fn is_refusal(reply: &Reply) -> bool
    ensures { result ≡ is_refusal reply.now }
{
    match reply {
        Reply::Refused(_) => true,
        _ => false,
    }
}

pub(crate) fn one_if(holds: bool) -> u64
    ensures value { result ≡ (if holds then 1 else 0) }
    ensures most { result ≤ 1 }
{
    if holds { 1 } else { 0 }
}

/// Sends a request of the operator, and keeps its event.
fn send<L: StepLedger>(
    running: &mut Running,
    sent: Sent,
    steps: &mut Steps<L>,
) -> Result<(), NoMemory>
    requires has_run { HasRun running.old }
    requires moment { last_moment running.old.desk.book.journal ≤ sent.moment }
    requires few { running.old.refused < most_requests }
    ensures run { OnOk result (run_at running.new ≡ load_step (run_at running.old) sent) }
    ensures has_run { OnOk result (HasRun running.new) }
{
    let prepared = ask(
        &mut running.desk,
        &mut running.keeper,
        sent.moment,
        &sent.request,
        steps,
    )?;
    running.refused += one_if(is_refusal(prepared.reply()));
    keep(&mut running.desk, &mut running.keeper, prepared)?;
    Ok(())
}

/// Sends all requests that are to come.
pub(crate) fn send_all<L: StepLedger>(
    alloc: Global,
    requests: &mut LoadRequests,
    running: &mut Running,
    steps: &mut Steps<L>,
) -> Result<(), NoMemory>
    requires has_run { HasRun running.old }
    requires fall { NeverFall (last_moment running.old.desk.book.journal) requests.old }
    requires few { running.old.refused + length requests.old ≤ most_requests }
    ensures run { OnOk result (run_at running.new
        ≡ fold load_step (run_at running.old) requests.old) }
    ensures has_run { OnOk result (HasRun running.new) }
{
    while let Some(sent) = requests.next(alloc)? {
        send(running, sent, steps)?;
    }
    Ok(())
}
