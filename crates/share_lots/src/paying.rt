//! Held mils that pay a charge, by date and number.
ghost use Rattle.std.specs.Prelude.{◌≡◌, ◌≤◌, All, find, map, min, sum_by};
ghost use Rattle.std.specs.Option.{option_copied};
ghost use Rattle.share_lots.specs.Lots as spec;
ghost use Rattle.share_lots.specs.Taking as taking;

use crate::Lot;
use crate::lot_list::{before_by_date, cost_of, held_of, loose_of};
use crate::taking::piece_cost;
use money_units::{Cents, Mils};

/// Pays held mils of lots by date and number.
pub(crate) fn pay_lots(lots: &mut [Lot], asked: u64)
    requires lots { All spec.IsLot lots.old }
    requires ranked { spec.AreRanked lots.old }
    requires total { sum_by (λ lot. lot.held) lots.old ≤ spec.most_mils }
    ensures { lots.new ≡ map (taking.lot_paying lots.old asked) lots.old }
{
    let free = free_lot(lots);
    let before_free = held_before_free(lots, &free);
    let mut passed = 0;
    for lot in lots.iter_mut() {
        let before = before_of(lot, &free, before_free, passed);
        passed += owned_held(lot);
        *lot = paying_lot(lot, asked.saturating_sub(before));
    }
}

/// A copy of the free lot, where there is one.
fn free_lot(lots: &[Lot]) -> Option<Lot>
    ensures { result ≡ find (λ lot. lot.free) lots.now }
{
    found_free(lots).copied()
}

/// The free lot in the list, where there is one.
fn found_free(lots: &[Lot]) -> Option<&Lot>
    ensures { option_copied result ≡ find (λ lot. lot.free) lots.now }
{
    lots.iter().find(|lot| lot.free)
}

/// The held mils of the lots before the free one by date and number.
fn held_before_free(lots: &[Lot], free: &Option<Lot>) -> u64
    requires { taking.held_before_free lots.now free.now ≤ spec.most_mils }
    ensures { result ≡ taking.held_before_free lots.now free.now }
{
    match free {
        Some(free) => held_before(lots, free),
        None => 0,
    }
}

/// The held mils of the lots before one by date and number.
fn held_before(lots: &[Lot], lot: &Lot) -> u64
    requires { taking.held_before lots.now lot.now ≤ spec.most_mils }
    ensures { result ≡ taking.held_before lots.now lot.now }
{
    lots.iter().map(|other| held_if_before(lot, other)).sum()
}

/// The held mils of another lot, where it comes before this one by date and number.
fn held_if_before(lot: &Lot, other: &Lot) -> u64
    ensures { result ≡ taking.held_if_before lot.now other.now }
{
    if before_by_date(other, lot) {
        held_of(other)
    } else {
        0
    }
}

/// The held mils of a lot that isn't free.
fn owned_held(lot: &Lot) -> u64
    ensures { result ≡ taking.owned_held lot.now }
{
    if lot.free { 0 } else { held_of(lot) }
}

/// The held mils of the lots before one by date and number, given those that aren't free and come before it by rank.
fn before_of(lot: &Lot, free: &Option<Lot>, before_free: u64, passed: u64) -> u64
    requires free { taking.free_held free.now lot.now ≤ spec.most_mils }
    requires passed { passed ≤ spec.most_mils }
    ensures { result ≡ taking.before_of lot.now free.now before_free passed }
{
    if lot.free {
        before_free
    } else {
        passed + free_held(free, lot)
    }
}

/// The held mils of the free lot, where it comes before another by date and number.
fn free_held(free: &Option<Lot>, lot: &Lot) -> u64
    ensures { result ≡ taking.free_held free.now lot.now }
{
    match free {
        Some(free) => held_if_before(lot, free),
        None => 0,
    }
}

/// A lot after it has paid as much as it holds of what is left.
fn paying_lot(lot: &Lot, left: u64) -> Lot
    requires { spec.IsLot lot.now }
    ensures { result ≡ taking.lot_paid lot.now (min lot.now.held left) }
{
    let quantity = held_of(lot).min(left);
    Lot {
        number: lot.number,
        day: lot.day,
        loose: Mils(loose_of(lot)),
        held: Mils(held_of(lot) - quantity),
        cost: Cents(cost_of(lot) - piece_cost(lot, quantity)),
        free: lot.free,
    }
}
