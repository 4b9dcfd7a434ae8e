//! What a sheet makes of all households, beside the ledger.
ghost use Rattle.std.specs.Prelude.{All, ◌≡◌, ◌+◌, ◌++◌, ◌≤◌, ℕ, IfOk, OnOk, length};
ghost use Rattle.checkpoint_replay.specs.Moves.{AreMoves, part_after};
ghost use Rattle.checkpoint_replay.specs.Parts.{AreParts, day_of, first_day, part_in};
ghost use Rattle.checkpoint_replay.specs.Sheets.{CanAdvance, CanStep, IsReached, move_on, move_unless_quiet, moves_of_other, moves_of_others, moves_of_parts, moves_of_sheet};
ghost use Rattle.household_fold.specs.Facts.{FactsFit};
ghost use Rattle.checkpoint_replay.specs.NumberedRows.{numbers_met};
ghost use Rattle.checkpoint_replay.specs.Replays.{day_behind, orders_under};

use crate::change::HouseholdMove;
use crate::numbered_orders::NumberedOrders;
use crate::part::HouseholdPart;
use agent_events::Order;
use household_fold::{Facts, HouseholdState, Steps};
use money_units::NoMemory;
use number_hashing::NumberMap;
use std::alloc::Global;
use std::sync::ledger::Ledger;

/// What a sheet makes of all households, by its orders under the numbers of their households: one step for each household
/// that it doesn't leave alone, and never more, also where memory is wanted.
pub(crate) fn moves_of_sheet<L: Ledger>(
    alloc: Global,
    facts: &Facts,
    orders: &NumberedOrders,
    parts: &NumberMap<u32, HouseholdPart>,
    steps: &mut Steps<L>,
) -> Result<Vec<HouseholdMove>, NoMemory>
    requires facts { FactsFit facts.now }
    requires parts { AreParts parts.now.entries }
    requires households { CanAdvance facts.now orders.now parts.now.entries }
    ensures days { IfOk result (λ moves. (household : ℕ)
        → part_after moves.items parts.now.entries household
        ≡ day_behind facts.now (orders_under household orders.now)
        (part_in parts.now.entries household)) }
    ensures reached { IfOk result (λ moves.
        All (IsReached facts.now orders.now parts.now.entries) moves.items) }
    ensures moves { IfOk result (λ moves. AreMoves moves.items) }
    ensures steps { IfOk result (λ moves. steps.new ≡ steps.old + length moves.items) }
    ensures most { steps.new ≤ steps.old
        + length (moves_of_sheet facts.now orders.now parts.now.entries) }
{
    gathered_moves(alloc, facts, orders, parts, steps)
}

// The same, move by move.
fn gathered_moves<L: Ledger>(
    alloc: Global,
    facts: &Facts,
    orders: &NumberedOrders,
    parts: &NumberMap<u32, HouseholdPart>,
    steps: &mut Steps<L>,
) -> Result<Vec<HouseholdMove>, NoMemory>
    requires facts { FactsFit facts.now }
    requires parts { AreParts parts.now.entries }
    requires households { CanAdvance facts.now orders.now parts.now.entries }
    ensures moves { IfOk result (λ moves. moves.items
        ≡ moves_of_sheet facts.now orders.now parts.now.entries) }
    ensures steps { IfOk result (λ moves. steps.new ≡ steps.old + length moves.items) }
    ensures most { steps.new ≤ steps.old
        + length (moves_of_sheet facts.now orders.now parts.now.entries) }
{
    let mut moves = Vec::with_capacity(alloc, orders.len())?;
    push_moves_of_parts(alloc, facts, orders, parts, steps, &mut moves)?;
    push_moves_of_others(alloc, facts, orders, parts, steps, &mut moves)?;
    Ok(moves)
}

// What a step makes of a household.
fn move_on<L: Ledger>(
    alloc: Global,
    facts: &Facts,
    orders: &[Order],
    household: u32,
    part: &HouseholdPart,
    steps: &mut Steps<L>,
) -> Result<HouseholdMove, NoMemory>
    requires facts { FactsFit facts.now }
    requires number { part.now.state.number ≡ household }
    requires step { CanStep facts.now orders.now household part.now.state.register }
    ensures moves { IfOk result (λ change. change
        ≡ move_on facts.now orders.now household (day_of part.now)) }
    ensures steps { steps.new ≡ steps.old + 1 }
{
    let (state, trades) = part.state.advance(alloc, facts, orders, steps)?;
    Ok(HouseholdMove {
        household,
        state,
        kept: part.trades.len(),
        trades,
    })
}

// Appends what a step makes of a household, unless the sheet leaves it alone.
fn push_move<L: Ledger>(
    alloc: Global,
    facts: &Facts,
    orders: &[Order],
    household: u32,
    part: &HouseholdPart,
    steps: &mut Steps<L>,
    moves: &mut Vec<HouseholdMove>,
) -> Result<(), NoMemory>
    requires facts { FactsFit facts.now }
    requires number { part.now.state.number ≡ household }
    requires step { CanStep facts.now orders.now household part.now.state.register }
    ensures moves { OnOk result (moves.new.items ≡ moves.old.items
        ++ move_unless_quiet facts.now orders.now household (day_of part.now)) }
    ensures steps { OnOk result (steps.new + length moves.old.items
        ≡ steps.old + length moves.new.items) }
    ensures most { steps.new ≤ steps.old
        + length (move_unless_quiet facts.now orders.now household (day_of part.now)) }
{
    if part.state.is_quiet(facts, orders) {
        return Ok(());
    }
    let change = move_on(alloc, facts, orders, household, part, steps)?;
    moves.push(change)?;
    Ok(())
}

// Appends what the sheet makes of the households of which something is kept.
fn push_moves_of_parts<L: Ledger>(
    alloc: Global,
    facts: &Facts,
    orders: &NumberedOrders,
    parts: &NumberMap<u32, HouseholdPart>,
    steps: &mut Steps<L>,
    moves: &mut Vec<HouseholdMove>,
) -> Result<(), NoMemory>
    requires facts { FactsFit facts.now }
    requires parts { AreParts parts.now.entries }
    requires households { CanAdvance facts.now orders.now parts.now.entries }
    ensures moves { OnOk result (moves.new.items ≡ moves.old.items
        ++ moves_of_parts facts.now orders.now parts.now.entries) }
    ensures steps { OnOk result (steps.new + length moves.old.items
        ≡ steps.old + length moves.new.items) }
    ensures most { steps.new ≤ steps.old
        + length (moves_of_parts facts.now orders.now parts.now.entries) }
{
    for (household, part) in parts {
        let own = orders.under(*household);
        push_move(alloc, facts, own, *household, part, steps, moves)?;
    }
    Ok(())
}

// Appends what the sheet makes of a household, unless something is kept of it.
fn push_other<L: Ledger>(
    alloc: Global,
    facts: &Facts,
    orders: &NumberedOrders,
    parts: &NumberMap<u32, HouseholdPart>,
    household: u32,
    steps: &mut Steps<L>,
    moves: &mut Vec<HouseholdMove>,
) -> Result<(), NoMemory>
    requires facts { FactsFit facts.now }
    requires households { CanAdvance facts.now orders.now parts.now.entries }
    ensures moves { OnOk result (moves.new.items ≡ moves.old.items
        ++ moves_of_other facts.now orders.now parts.now.entries household) }
    ensures steps { OnOk result (steps.new + length moves.old.items
        ≡ steps.old + length moves.new.items) }
    ensures most { steps.new ≤ steps.old
        + length (moves_of_other facts.now orders.now parts.now.entries household) }
{
    if parts.contains_key(&household) {
        return Ok(());
    }
    let part = fresh_part(alloc, household);
    let own = orders.under(household);
    push_move(alloc, facts, own, household, &part, steps, moves)
}

// The part of a household of which nothing is kept.
fn fresh_part(alloc: Global, household: u32) -> HouseholdPart
    ensures day { day_of result ≡ first_day }
    ensures number { result.state.number ≡ household }
{
    HouseholdPart {
        state: HouseholdState::fresh(alloc, household),
        trades: Vec::new(alloc),
    }
}

// Appends what the sheet makes of the other households that have orders.
fn push_moves_of_others<L: Ledger>(
    alloc: Global,
    facts: &Facts,
    orders: &NumberedOrders,
    parts: &NumberMap<u32, HouseholdPart>,
    steps: &mut Steps<L>,
    moves: &mut Vec<HouseholdMove>,
) -> Result<(), NoMemory>
    requires facts { FactsFit facts.now }
    requires households { CanAdvance facts.now orders.now parts.now.entries }
    ensures moves { OnOk result (moves.new.items ≡ moves.old.items
        ++ moves_of_others facts.now orders.now parts.now.entries (numbers_met orders.now)) }
    ensures steps { OnOk result (steps.new + length moves.old.items
        ≡ steps.old + length moves.new.items) }
    ensures most { steps.new ≤ steps.old
        + length (moves_of_others facts.now orders.now parts.now.entries
        (numbers_met orders.now)) }
{
    let mut place = 0;
    while let Some((household, behind)) = orders.number_from(place) {
        push_other(alloc, facts, orders, parts, household, steps, moves)?;
        place = behind;
    }
    Ok(())
}
