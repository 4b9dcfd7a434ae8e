//! The summary of a load that was sent.
ghost use Rattle.std.specs.Prelude.{◌≡◌, IfOk};
ghost use Rattle.load_requests.specs.Summaries.{summary_of};
ghost use Rattle.load_runs.specs.Running.{HasRun, run_at};
ghost use Rattle.load_runs.specs.Seen.{summary_seen};

use crate::laws::classes_are_shown;
use crate::looks::{classes_of, count_orders};
use crate::running::Running;
use agent_events::BooksOfClasses;
use holder_statements::look_laws::sheets_are_counted;
use household_fold::Steps;
use money_units::NoMemory;
use std::alloc::Global;
use std::sync::ledger::Ledger as StepLedger;

/// What a load made: events and sheets, refused requests, filled and unfilled orders, and the classes in the books.
#[derive(Drop)]
pub struct Summary {
    pub events: u64,
    pub sheets: u64,
    pub refused: u64,
    pub filled: u64,
    pub unfilled: u64,
    pub classes: BooksOfClasses,
}

/// The summary of a load whose requests were sent.
pub(crate) fn summary_of<L: StepLedger>(
    alloc: Global,
    running: &mut Running,
    steps: &mut Steps<L>,
) -> Result<Summary, NoMemory>
    requires { HasRun running.old }
    ensures { IfOk result (λ summary. summary_seen summary ≡ summary_of (run_at running.old)) }
{
    classes_are_shown();
    sheets_are_counted();
    let orders = count_orders(&running.desk);
    let classes = classes_of(alloc, &mut running.desk, &mut running.keeper, steps)?;
    Ok(Summary {
        events: running.desk.len(),
        sheets: running.desk.sheets() as u64,
        refused: running.refused,
        filled: orders.filled,
        unfilled: orders.unfilled,
        classes,
    })
}
