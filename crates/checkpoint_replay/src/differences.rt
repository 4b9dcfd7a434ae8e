//! What moves change of the cash of parties and of the outstanding shares of classes.
ghost use Rattle.std.specs.Prelude.{◌≡◌, ◌+◌, ◌*◌, ◌≤◌, ◌^◌, ℕ, drop, take, true, IfOk, OnOk, length};
ghost use Rattle.agent_events.specs.declared.order.Party.{Party as AnyParty};
ghost use Rattle.checkpoint_replay.specs.Differences.{AreChangesOf, cash_by_moves, dropped_trades, mils_by_moves, trades_cash, with_cash_of, with_mils_of};
ghost use Rattle.gain_loss_book.specs.Flows.{net, reverse_flow, with_flow};
ghost use Rattle.gain_loss_book.specs.Movements.{mils_flow_of, trades_mils};
ghost use Rattle.gain_loss_book.specs.Tallies.{IsWithin, cash_tallied, mils_tallied};
ghost use Rattle.register_machine.specs.corrections.Cash.{movements_in};

use crate::change::HouseholdMove;
use crate::part::HouseholdPart;
use agent_events::{Changes, Trade};
use gain_loss_book::Tally;
use money_units::NoMemory;
use number_hashing::NumberMap;
use std::alloc::Global;

/// So many trades at most are tallied for one change: 2^60, which no memory holds.
const MAX_TRADES: u64 = 1_152_921_504_606_846_976;

/// By how much moves make the cash of each party and the outstanding shares of each class differ.
pub(crate) fn changes_of_moves(
    alloc: Global,
    parts: &NumberMap<u32, HouseholdPart>,
    moves: &[HouseholdMove],
) -> Result<Changes, NoMemory>
    ensures { IfOk result (λ changes. AreChangesOf changes parts.now.entries moves.now) }
{
    let tally = tally_of_moves(alloc, parts, moves)?;
    tally.changes(alloc)
}

// What moves bring, less what they take back.
fn tally_of_moves(
    alloc: Global,
    parts: &NumberMap<u32, HouseholdPart>,
    moves: &[HouseholdMove],
) -> Result<Tally, NoMemory>
    ensures cash { IfOk result (λ tally. (party : AnyParty) → net (cash_tallied tally party)
        ≡ net (cash_by_moves parts.now.entries moves.now party)) }
    ensures mils { IfOk result (λ tally. (class : ℕ) → net (mils_tallied tally class)
        ≡ net (mils_by_moves parts.now.entries moves.now class)) }
    ensures within { IfOk result (λ tally. IsWithin tally (2 ^ 126)) }
{
    let mut tally = Tally::with_room(alloc, moves.len())?;
    let mut count = 0;
    for change in moves {
        count = tally_move(&mut tally, parts, change, count)?;
    }
    Ok(tally)
}

// Tallies a move, and answers how many trades were tallied so far.
fn tally_move(
    tally: &mut Tally,
    parts: &NumberMap<u32, HouseholdPart>,
    change: &HouseholdMove,
    count: u64,
) -> Result<u64, NoMemory>
    requires within { IsWithin tally.old (count * 2 ^ 65) }
    requires few { count ≤ 2 ^ 60 }
    ensures cash { OnOk result ((party : AnyParty) → net (cash_tallied tally.new party)
        ≡ net (with_cash_of parts.now.entries party (cash_tallied tally.old party) change.now)) }
    ensures mils { OnOk result ((class : ℕ) → net (mils_tallied tally.new class)
        ≡ net (with_mils_of parts.now.entries class (mils_tallied tally.old class) change.now)) }
    ensures within { IfOk result (λ counted. IsWithin tally.new (counted * 2 ^ 65)) }
    ensures few { IfOk result (λ counted. counted ≤ 2 ^ 60) }
{
    let dropped = dropped_trades(parts, change);
    let brought = change.trades.as_slice();
    let count = count_with(count, brought, dropped)?;
    tally_trades(tally, brought, dropped)?;
    Ok(count)
}

// Tallies what some trades bring, less what others brought. Trades at the front of both that move
// the same change nothing, and are left out.
fn tally_trades(tally: &mut Tally, brought: &[Trade], dropped: &[Trade]) -> Result<(), NoMemory>
    requires within { IsWithin tally.old (2 ^ 125) }
    requires brought { length brought.now ≤ 2 ^ 60 }
    requires dropped { length dropped.now ≤ 2 ^ 60 }
    ensures cash { OnOk result ((party : AnyParty) → net (cash_tallied tally.new party)
        ≡ net (with_flow (with_flow (cash_tallied tally.old party) (trades_cash brought.now party))
        (reverse_flow (trades_cash dropped.now party)))) }
    ensures mils { OnOk result ((class : ℕ) → net (mils_tallied tally.new class)
        ≡ net (with_flow (with_flow (mils_tallied tally.old class) (trades_mils brought.now class))
        (reverse_flow (trades_mils dropped.now class)))) }
    ensures within { OnOk result ((most : ℕ) → IsWithin tally.old most
        → IsWithin tally.new (most + (length brought.now + length dropped.now) * 2 ^ 65)) }
{
    let alike = common_front(brought, dropped);
    tally.bring(&brought[alike..])?;
    tally.take_back(&dropped[alike..])?;
    Ok(())
}

// How many trades at the front of both move the same.
fn common_front(a: &[Trade], b: &[Trade]) -> usize
    ensures first { result ≤ length a.now }
    ensures second { result ≤ length b.now }
    ensures cash { (party : AnyParty) → trades_cash (take result a.now) party
        ≡ trades_cash (take result b.now) party }
    ensures mils { (class : ℕ) → trades_mils (take result a.now) class
        ≡ trades_mils (take result b.now) class }
{
    let mut place = 0;
    while place < a.len() && place < b.len() && move_alike(&a[place], &b[place]) {
        place += 1;
    }
    place
}

// Two trades move the same cash and shares.
fn move_alike(a: &Trade, b: &Trade) -> bool
    ensures cash { result ≡ true → movements_in a.now.outcome a.now
        ≡ movements_in b.now.outcome b.now }
    ensures mils { result ≡ true → (class : ℕ) → mils_flow_of a.now class
        ≡ mils_flow_of b.now class }
{
    a.outcome == b.outcome
        && a.kind == b.kind
        && a.account == b.account
        && a.class == b.class
        && a.to_class == b.to_class
        && a.mils == b.mils
        && a.to_mils == b.to_mils
        && a.cash == b.cash
        && a.charge == b.charge
}

// A count of trades with these.
fn count_with(count: u64, brought: &[Trade], dropped: &[Trade]) -> Result<u64, NoMemory>
    ensures sum { IfOk result (λ sum. sum
        ≡ (count + length brought.now) + length dropped.now) }
    ensures few { IfOk result (λ sum. sum ≤ 2 ^ 60) }
{
    let sum = count.checked_add(brought.len() as u64).ok_or(NoMemory)?;
    let sum = sum.checked_add(dropped.len() as u64).ok_or(NoMemory)?;
    if MAX_TRADES < sum {
        return Err(NoMemory);
    }
    Ok(sum)
}

// The old trades of a household that don't stay.
fn dropped_trades<'a>(
    parts: &'a NumberMap<u32, HouseholdPart>,
    change: &HouseholdMove,
) -> &'a [Trade]
    ensures { result.now ≡ dropped_trades parts.now.entries change.now }
{
    match parts.get(&change.household) {
        Some(part) => trades_behind(&part.trades, change.kept),
        None => &[],
    }
}

// The trades from a place on.
fn trades_behind(trades: &[Trade], place: usize) -> &[Trade]
    ensures { result.now ≡ drop place trades.now }
{
    if place <= trades.len() {
        &trades[place..]
    } else {
        &[]
    }
}
