//! What a replay makes of one household, beside the ledger.
ghost use Rattle.std.specs.Prelude.{◌≡◌, ◌+◌, ◌-◌, ◌≤◌, IfOk};
ghost use Rattle.checkpoint_replay.specs.Reopenings.{move_by_replay};
ghost use Rattle.household_fold.specs.Households.{first_of};
ghost use Rattle.checkpoint_replay.specs.Premises.{CanBeReplayed};

use crate::change::HouseholdMove;
use crate::numbered_orders::NumberedOrders;
use crate::replay::replay_on;
use household_fold::{Facts, HouseholdState, Steps};
use money_units::NoMemory;
use std::alloc::Global;
use std::sync::ledger::Ledger;

/// Where the replay of a household starts: the sheet behind which it stands, and how many of its trades are of the sheets so
/// far.
#[derive(Drop)]
pub struct ReplayStart {
    pub household: u32,
    pub state: HouseholdState,
    pub sheet: u32,
    pub kept: usize,
}

/// What a replay makes of a household from a start on, by its orders under the numbers of their sheets, as far as the sheet
/// at hand: the new trades stand behind so many of the old ones as the start keeps. It reads the orders of the later sheets
/// alone, and costs a step for each of these at most.
pub fn move_by_replay<L: Ledger>(
    alloc: Global,
    facts: &Facts,
    start: ReplayStart,
    orders: &NumberedOrders,
    steps: &mut Steps<L>,
) -> Result<HouseholdMove, NoMemory>
    requires begin { start.sheet ≤ facts.now.sheet }
    requires number { start.state.number ≡ start.household }
    requires ready { CanBeReplayed facts.now start.household orders.now start.sheet
        (facts.now.sheet - start.sheet) (first_of start.state.register) }
    ensures change { IfOk result (λ change. change ≡ move_by_replay facts.now orders.now start) }
    ensures steps { steps.new ≤ steps.old + (facts.now.sheet - start.sheet) }
{
    let ReplayStart {
        household,
        state,
        sheet,
        kept,
    } = start;
    let (state, trades) = replay_on(alloc, facts, state, sheet, orders, steps)?;
    Ok(HouseholdMove {
        household,
        state,
        kept,
        trades,
    })
}
