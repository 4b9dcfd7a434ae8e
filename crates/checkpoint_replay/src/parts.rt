//! The parts of all households by their numbers, and what a change makes of them within their room.
ghost use Rattle.std.specs.Prelude.{All, ◌≡◌, ◌≤◌, ◌+◌, ◌==◌, ℕ, OnOk, length, nat_eq, false};
ghost use Rattle.std.specs.HashMap.{get, spare};
ghost use Rattle.checkpoint_replay.specs.Moves.{AreApart, AreMoves, AreOwnMoves, HasTradeRoom, day_if_moved, part_after};
ghost use Rattle.checkpoint_replay.specs.declared.change.HouseholdMove.{HouseholdMove as Move};
ghost use Rattle.checkpoint_replay.specs.Parts.{AreParts, part_in};

use crate::change::HouseholdMove;
use crate::part::{HouseholdPart, first_part, move_part};
use money_units::NoMemory;
use number_hashing::NumberMap;

/// Moves a household on, within the room that there is.
pub(crate) fn put_move(parts: &mut NumberMap<u32, HouseholdPart>, change: HouseholdMove)
    requires room { 1 ≤ spare parts.old }
    requires trades { HasTradeRoom parts.old.entries change }
    ensures parts { (household : ℕ) → part_in parts.new.entries household
        ≡ day_if_moved household (part_in parts.old.entries household) change }
    ensures others { (household : ℕ) → nat_eq change.household household ≡ false
        → get nat_eq parts.new household ≡ get nat_eq parts.old household }
    ensures own { AreParts parts.old.entries → change.state.number ≡ change.household
        → AreParts parts.new.entries }
    ensures room { spare parts.old ≤ spare parts.new + 1 }
{
    let household = change.household;
    if let Some(part) = parts.get_mut(&household) {
        move_part(part, change);
        return;
    }
    let put: Result<_, _> = parts.insert(household, first_part(change));
    let _before = put.unwrap();
}

/// Moves households on, one after another, within the room that there is.
pub(crate) fn put_moves(parts: &mut NumberMap<u32, HouseholdPart>, moves: Vec<HouseholdMove>)
    requires room { length moves.items ≤ spare parts.old }
    requires trades { All (HasTradeRoom parts.old.entries) moves.items }
    requires moves { AreMoves moves.items }
    ensures parts { (household : ℕ) → part_in parts.new.entries household
        ≡ part_after moves.items parts.old.entries household }
    ensures own { AreParts parts.old.entries → AreParts parts.new.entries }
{
    for change in moves {
        put_move(parts, change);
    }
}

// Makes room for the new trades of a household, where something is kept of it.
fn reserve_trades(
    parts: &mut NumberMap<u32, HouseholdPart>,
    change: &HouseholdMove,
) -> Result<(), NoMemory>
    ensures trades { OnOk result (HasTradeRoom parts.new.entries change.now) }
    ensures rooms { (other : Move) → HasTradeRoom parts.old.entries other
        → HasTradeRoom parts.new.entries other }
    ensures same { (household : ℕ) → part_in parts.new.entries household
        ≡ part_in parts.old.entries household }
    ensures own { AreParts parts.old.entries → AreParts parts.new.entries }
    ensures room { spare parts.new ≡ spare parts.old }
{
    if let Some(part) = parts.get_mut(&change.household) {
        part.trades.reserve(change.trades.len())?;
    }
    Ok(())
}

/// Makes room for moves. After `NoMemory` all parts are as before.
pub(crate) fn reserve_moves(
    parts: &mut NumberMap<u32, HouseholdPart>,
    moves: &[HouseholdMove],
) -> Result<(), NoMemory>
    ensures room { OnOk result (length moves.now ≤ spare parts.new) }
    ensures trades { OnOk result (All (HasTradeRoom parts.new.entries) moves.now) }
    ensures same { (household : ℕ) → part_in parts.new.entries household
        ≡ part_in parts.old.entries household }
    ensures own { AreParts parts.old.entries → AreParts parts.new.entries }
{
    parts.reserve(moves.len())?;
    for change in moves {
        reserve_trades(parts, change)?;
    }
    Ok(())
}
