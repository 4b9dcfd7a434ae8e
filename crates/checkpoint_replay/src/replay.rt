//! A household over all sheets behind the one that it stands behind.
ghost use Rattle.std.specs.Prelude.{◌≡◌, ◌+◌, ◌++◌, ◌-◌, ◌≤◌, IfOk, OnOk};
ghost use Rattle.household_fold.specs.Facts.{FactsFit};
ghost use Rattle.household_fold.specs.Households.{AreOrdersOf, AreOwned, first_of, step_known};
ghost use Rattle.household_fold.specs.Numbers.{AreNumbersWithin};
ghost use Rattle.checkpoint_replay.specs.BusySheets.{busy_sheets, steps_over};
ghost use Rattle.checkpoint_replay.specs.Premises.{CanBeReplayed};
ghost use Rattle.checkpoint_replay.specs.Replays.{day_behind, days_behind, known_on};

use crate::numbered_orders::NumberedOrders;
use agent_events::{Order, Trades};
use household_fold::{Facts, HouseholdState, Steps};
use money_units::NoMemory;
use std::alloc::Global;
use std::sync::ledger::Ledger;

/// The state of a household after the sheet of the facts, and the trades of all sheets behind sheet `from` as far as that one,
/// where the household is given as it stands behind sheet `from`, and its orders by the sheets that price them.
///
/// A sheet that is quiet for the household takes no step and copies nothing. After `NoMemory` the state is given up.
pub fn replay_on<L: Ledger>(
    alloc: Global,
    facts: &Facts,
    state: HouseholdState,
    from: u32,
    orders: &NumberedOrders,
    steps: &mut Steps<L>,
) -> Result<(HouseholdState, Trades), NoMemory>
    requires begin { from ≤ facts.now.sheet }
    requires ready { CanBeReplayed facts.now state.number orders.now from
        (facts.now.sheet - from) (first_of state.register) }
    ensures day { IfOk result (λ after. record { register = after.0.register; trades = after.1 }
        ≡ days_behind facts.now orders.now from (facts.now.sheet - from)
        (first_of state.register)) }
    ensures number { IfOk result (λ after. after.0.number ≡ state.number) }
    ensures owned { IfOk result (λ after. AreOwned facts.now after.0.number after.0.register) }
    ensures steps { OnOk result (steps.new ≡ steps.old + busy_sheets facts.now orders.now from
        (facts.now.sheet - from) (first_of state.register)) }
    ensures most { steps.new ≤ steps.old + (facts.now.sheet - from) }
{
    let mut reached = state;
    let mut trades = Trades::new(alloc);
    let last = sheet_of(facts);
    let mut sheet = from;
    while sheet < last {
        sheet += 1;
        let at_hand = facts_on(facts, sheet);
        reached = state_behind(
            alloc,
            &at_hand,
            reached,
            orders.under(sheet),
            steps,
            &mut trades,
        )?;
    }
    Ok((reached, trades))
}

/// The number of the sheet at hand.
fn sheet_of(facts: &Facts) -> u32
    ensures { result ≡ facts.now.sheet }
{
    facts.sheet
}

/// The facts with another sheet at hand.
fn facts_on<'a>(facts: &Facts<'a>, sheet: u32) -> Facts<'a>
    ensures { result ≡ known_on facts.now sheet }
{
    Facts {
        prices: facts.prices,
        terms: facts.terms,
        accounts: facts.accounts,
        rates: facts.rates,
        patch: facts.patch,
        sheet,
    }
}

/// The state after the sheet of the facts, whose trades are appended. A quiet sheet takes no step.
fn state_behind<L: Ledger>(
    alloc: Global,
    facts: &Facts,
    state: HouseholdState,
    orders: &[Order],
    steps: &mut Steps<L>,
    trades: &mut Trades,
) -> Result<HouseholdState, NoMemory>
    requires facts { FactsFit facts.now }
    requires owned { AreOwned facts.now state.number state.register }
    requires orders { AreOrdersOf facts.now state.number orders.now }
    requires lots { AreNumbersWithin (step_known facts.now orders.now state.register).register }
    ensures day { IfOk result (λ after. record { register = after.register; trades = trades.new }
        ≡ day_behind facts.now orders.now
        (record { register = state.register; trades = trades.old })) }
    ensures number { IfOk result (λ after. after.number ≡ state.number) }
    ensures owned { IfOk result (λ after. AreOwned facts.now after.number after.register) }
    ensures steps { OnOk result (steps.new
        ≡ steps.old + steps_over facts.now orders.now state.register) }
    ensures most { steps.new ≤ steps.old + 1 }
{
    if state.is_quiet(facts, orders) {
        return Ok(state);
    }
    let (after, made) = state.advanced(alloc, facts, orders, steps)?;
    append(trades, &made)?;
    Ok(after)
}

/// Appends trades to others.
fn append(trades: &mut Trades, made: &Trades) -> Result<(), NoMemory>
    ensures { OnOk result (trades.new ≡ trades.old ++ made.now) }
{
    for trade in made.as_slice() {
        trades.push_copy(trade)?;
    }
    Ok(())
}
