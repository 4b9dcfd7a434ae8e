//! Shares come into a position: as a new lot, or into the free one.
ghost use Rattle.std.specs.Prelude.{◌≡◌, ◌≤◌, true, false, length, map, All, IfOk, OnOk, OnErr};
ghost use Rattle.std.specs.List.Sorted.{IsPartitionPoint};
ghost use Rattle.share_lots.specs.Lots as spec;

use crate::Lot;
use crate::escrow::copy_of;
use crate::lot_list::{cost_of, held_of, loose_of, ranks_before};
use fund_calendar::Day;
use money_units::{Cents, Mils, NoMemory};
use std::alloc::Global;

/// The number of the free lot, where there is one.
pub(crate) fn free_number(lots: &[Lot]) -> Option<u32>
    ensures { result ≡ spec.free_number lots.now }
{
    lots.iter().find(|lot| lot.free).map(|lot| lot.number)
}

/// A new lot of loose mils.
pub(crate) fn new_lot(number: u32, day: Day, mils: Mils, cost: Cents, free: bool) -> Lot
    ensures { result
        ≡ record { number = number; day = day; loose = mils; held = 0; cost = cost; free = free } }
{
    Lot {
        number,
        day,
        loose: mils,
        held: Mils(0),
        cost,
        free,
    }
}

/// Adds mils and cost to the free lot.
pub(crate) fn join_free(lots: &mut [Lot], mils: &Mils, cost: &Cents)
    requires lots { All spec.IsLot lots.old }
    requires mils { mils.now ≤ spec.most_mils }
    requires cost { cost.now ≤ spec.most_cost }
    ensures { lots.new ≡ map (spec.join_free mils.now cost.now) lots.old }
{
    for lot in lots.iter_mut() {
        *lot = joined_lot(lot, mils, cost);
    }
}

/// The lot with these mils and this cost besides, where it is free.
fn joined_lot(lot: &Lot, mils: &Mils, cost: &Cents) -> Lot
    requires lot { spec.IsLot lot.now }
    requires mils { mils.now ≤ spec.most_mils }
    requires cost { cost.now ≤ spec.most_cost }
    ensures { result ≡ spec.join_free mils.now cost.now lot.now }
{
    Lot {
        number: lot.number,
        day: lot.day,
        loose: Mils(loose_of(lot) + if lot.free { mils.0 } else { 0 }),
        held: Mils(held_of(lot)),
        cost: Cents(cost_of(lot) + if lot.free { cost.0 } else { 0 }),
        free: lot.free,
    }
}

/// Puts a lot in its place by rank.
pub(crate) fn insert_lot(lots: &mut Vec<Lot>, lot: Lot) -> Result<(), NoMemory>
    requires { spec.AreRanked lots.old.items }
    ensures ok { OnOk result (lots.new.items ≡ spec.lots_with lot lots.old.items) }
    ensures err { OnErr result (lots.new.items ≡ lots.old.items) }
{
    let place = place_of(lots, &lot);
    lots.insert(place, lot)?;
    Ok(())
}

/// The place of a lot by rank: the lots that come before it stand there.
fn place_of(lots: &[Lot], lot: &Lot) -> usize
    requires { spec.AreRanked lots.now }
    ensures point { IsPartitionPoint (λ other. spec.ranks_before other lot.now ≡ true)
        (λ other. spec.ranks_before other lot.now ≡ false) lots.now result }
    ensures bound { result ≤ length lots.now }
{
    lots.partition_point(|other| ranks_before(other, lot))
}

/// The lots in their places by rank.
pub(crate) fn ranked_lots(alloc: Global, lots: &[Lot], next_lot: u32) -> Result<Vec<Lot>, NoMemory>
    requires { spec.IsLotList lots.now next_lot }
    ensures ranked { IfOk result (λ places. places.items ≡ spec.ranked_lots lots.now) }
    ensures holding { IfOk result (λ places. spec.IsHolding
        (record { lots = places.items; next_lot = next_lot })) }
{
    let mut places = Vec::new(alloc);
    for lot in lots {
        insert_lot(&mut places, copy_of(lot))?;
    }
    Ok(places)
}
