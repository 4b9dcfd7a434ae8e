//! The first trade that a correction breaks, between two replays.
ghost use Rattle.std.specs.Prelude.{◌≡◌, ◌++◌, ◌&&◌, IfOk, false, find};
ghost use Rattle.std.specs.HashSet.{contains};
ghost use Rattle.std.specs.Option.{option_copied, option_map_or};
ghost use Rattle.desk_books.specs.Filled.{is_broken_by, same_name};
ghost use Rattle.register_machine.specs.rules.Breaks.{is_broken, is_filled, is_trade_of, was_filled};

use crate::filled::{TradeName, filled_names, is_filled, name_of};
use agent_events::{Order, Trade};
use money_units::NoMemory;
use std::alloc::Global;
use std::collections::HashSet;

/// So many unfilled trades at most are looked up one by one.
const FEW: usize = 16;

/// The first trade of the replay behind a correction that is unfilled though its order was filled before, or is the order that the
/// correction enters or replaces; `None` exactly where there is none. The replay comes in two parts, one behind the other. It goes
/// over both replays once, and over the one before once more for each of a few unfilled trades: where they are many, by the
/// names of what was filled.
pub fn first_broken<'a>(
    alloc: Global,
    order: Option<&Order>,
    before: &[Trade],
    front: &'a [Trade],
    back: &'a [Trade],
) -> Result<Option<&'a Trade>, NoMemory>
    ensures { IfOk result (λ broken. option_copied broken
        ≡ find (is_broken (option_copied order.entry) before.now) (front.now ++ back.now)) }
{
    if has_few_unfilled(front, back) {
        Ok(first_by_look(order, before, front, back))
    } else {
        first_by_names(alloc, order, before, front, back)
    }
}

// Whether few trades of the two parts are unfilled.
fn has_few_unfilled(front: &[Trade], back: &[Trade]) -> bool {
    front
        .iter()
        .chain(back.iter())
        .filter(|trade| !is_filled(trade))
        .nth(FEW)
        .is_none()
}

// The same, by a look at all that was before for each unfilled trade.
fn first_by_look<'a>(
    order: Option<&Order>,
    before: &[Trade],
    front: &'a [Trade],
    back: &'a [Trade],
) -> Option<&'a Trade>
    ensures { option_copied result
        ≡ find (is_broken (option_copied order.entry) before.now) (front.now ++ back.now) }
{
    front
        .iter()
        .chain(back.iter())
        .find(|trade| breaks(order, before, trade))
}

fn breaks(order: Option<&Order>, before: &[Trade], trade: &Trade) -> bool
    ensures { result ≡ is_broken (option_copied order.entry) before.now trade.now }
{
    !is_filled(trade) && (was_filled(before, trade) || is_own(order, trade))
}

fn was_filled(before: &[Trade], trade: &Trade) -> bool
    ensures { result ≡ was_filled before.now trade.now }
{
    before.iter().any(|other| fills(other, trade))
}

// Whether a trade is filled and of the same order as another.
fn fills(other: &Trade, trade: &Trade) -> bool
    ensures { result ≡ (is_trade_of trade.now.account trade.now.ref_no other.now
        && is_filled other.now.outcome) }
{
    other.account == trade.account && other.ref_no == trade.ref_no && is_filled(other)
}

// The same, by the names of what was filled.
fn first_by_names<'a>(
    alloc: Global,
    order: Option<&Order>,
    before: &[Trade],
    front: &'a [Trade],
    back: &'a [Trade],
) -> Result<Option<&'a Trade>, NoMemory>
    ensures { IfOk result (λ broken. option_copied broken
        ≡ find (is_broken (option_copied order.entry) before.now) (front.now ++ back.now)) }
{
    let filled = filled_names(alloc, before)?;
    Ok(first_in_parts(order, &filled, front, back))
}

fn first_in_parts<'a>(
    order: Option<&Order>,
    filled: &HashSet<TradeName>,
    front: &'a [Trade],
    back: &'a [Trade],
) -> Option<&'a Trade>
    ensures { option_copied result
        ≡ find (is_broken_by (option_copied order.entry) (contains same_name filled.now))
        (front.now ++ back.now) }
{
    match first_among(order, filled, front) {
        Some(trade) => Some(trade),
        None => first_among(order, filled, back),
    }
}

fn first_among<'a>(
    order: Option<&Order>,
    filled: &HashSet<TradeName>,
    after: &'a [Trade],
) -> Option<&'a Trade>
    ensures { option_copied result
        ≡ find (is_broken_by (option_copied order.entry) (contains same_name filled.now))
        after.now }
{
    after.iter().find(|trade| is_broken(order, filled, trade))
}

fn is_broken(order: Option<&Order>, filled: &HashSet<TradeName>, trade: &Trade) -> bool
    ensures { result
        ≡ is_broken_by (option_copied order.entry) (contains same_name filled.now) trade.now }
{
    !is_filled(trade) && (filled.contains(&name_of(trade)) || is_own(order, trade))
}

fn is_own(order: Option<&Order>, trade: &Trade) -> bool
    ensures { result ≡ option_map_or
        (λ own. is_trade_of own.account own.ref_no trade.now) (option_copied order.entry) false }
{
    match order {
        Some(own) => {
            trade.account == own.account.number() && trade.ref_no == own.ref_no.number()
        }
        None => false,
    }
}
