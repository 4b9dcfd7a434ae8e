//! A load from its number to its text.
ghost use Rattle.std.specs.Prelude.{◌≡◌, ◌≤◌, IfOk};
ghost use Rattle.load_requests.specs.Requests.{requests_of};
ghost use Rattle.load_requests.specs.Runs.{run_over};
ghost use Rattle.load_requests.specs.Summaries.{load_text};
ghost use Rattle.load_runs.specs.Running.{HasRun, run_at};

use crate::running::{Running, open, send_all};
use crate::summary::summary_of;
use crate::text::text_of;
use household_fold::Steps;
use load_requests::LoadRequests;
use money_units::NoMemory;
use std::alloc::Global;
use std::sync::ledger::Ledger as StepLedger;

/// A load whose requests were all sent.
fn sent<L: StepLedger>(
    alloc: Global,
    number: u32,
    households: u32,
    days: u32,
    steps: &mut Steps<L>,
) -> Result<Running, NoMemory>
    requires some { 1 ≤ households }
    requires few { households ≤ 1000 }
    requires short { days ≤ 2000 }
    ensures run { IfOk result (λ running. run_at running ≡ run_over (requests_of (record {
      number = number;
      households = households;
      days = days;
    }))) }
    ensures has_run { IfOk result HasRun }
{
    let mut requests = LoadRequests::new(alloc, number, households, days)?;
    let mut running = open(alloc, steps)?;
    send_all(alloc, &mut requests, &mut running, steps)?;
    Ok(running)
}

// Gives a load up, in one place for all exits.
fn close(running: Running) {
    running.desk.close();
}

/// What a load of 1 to 1,000 households over at most 2,000 days prints, whose draws begin from a number: the operator sends each of
/// its requests to a desk of its own, which is kept in memory alone. No more than one request is in memory.
pub fn load_text<L: StepLedger>(
    alloc: Global,
    number: u32,
    households: u32,
    days: u32,
    steps: &mut Steps<L>,
) -> Result<Vec<u8>, NoMemory>
    requires some { 1 ≤ households }
    requires few { households ≤ 1000 }
    requires short { days ≤ 2000 }
    ensures { IfOk result (λ text. text.items ≡ load_text (record {
      number = number;
      households = households;
      days = days;
    })) }
{
    let mut running = sent(alloc, number, households, days, steps)?;
    let made = summary_of(alloc, &mut running, steps);
    close(running);
    let summary = made?;
    let text = text_of(alloc, &summary)?;
    Ok(text)
}
