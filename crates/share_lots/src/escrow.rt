//! Loose mils that are held under a letter, and held mils that become loose.
ghost use Rattle.std.specs.Prelude.{◌≡◌, ◌≤◌, ◌==◌, map, All};
ghost use Rattle.std.specs.List.{list_any};
ghost use Rattle.share_lots.specs.Lots as spec;

use crate::Lot;
use crate::lot_list::{cost_of, held_of, loose_of};
use money_units::{Cents, Mils};

/// One of the lots has this number.
pub(crate) fn has_number(lots: &[Lot], number: u32) -> bool
    ensures { result ≡ list_any (λ lot. lot.number == number) lots.now }
{
    lots.iter().any(|lot| lot.number == number)
}

/// Keeps loose mils of the lot with a number back.
pub(crate) fn hold_back(lots: &mut [Lot], number: u32, quantity: u64)
    requires lots { All spec.IsLot lots.old }
    requires has { spec.HasLoose lots.old number quantity }
    ensures { lots.new ≡ map (spec.hold_in number quantity) lots.old }
{
    for lot in lots.iter_mut() {
        *lot = held_lot(lot, number, quantity);
    }
}

/// The lot with so many of its loose mils kept back, where it has the number.
fn held_lot(lot: &Lot, number: u32, quantity: u64) -> Lot
    requires lot { spec.IsLot lot.now }
    requires has { lot.now.number ≡ number → quantity ≤ lot.now.loose }
    ensures { result ≡ spec.hold_in number quantity lot.now }
{
    if lot.number != number {
        return copy_of(lot);
    }
    Lot {
        number: lot.number,
        day: lot.day,
        loose: Mils(loose_of(lot) - quantity),
        held: Mils(held_of(lot) + quantity),
        cost: Cents(cost_of(lot)),
        free: lot.free,
    }
}

/// The lot as it is.
pub(crate) fn copy_of(lot: &Lot) -> Lot
    ensures { result ≡ lot.now }
{
    *lot
}

/// Makes the held mils of each lot loose.
pub(crate) fn release_lots(lots: &mut [Lot])
    requires { All spec.IsLot lots.old }
    ensures { lots.new ≡ map spec.release_lot lots.old }
{
    for lot in lots.iter_mut() {
        *lot = released_lot(lot);
    }
}

/// The lot with all its mils loose.
fn released_lot(lot: &Lot) -> Lot
    requires { spec.IsLot lot.now }
    ensures { result ≡ spec.release_lot lot.now }
{
    Lot {
        number: lot.number,
        day: lot.day,
        loose: Mils(loose_of(lot) + held_of(lot)),
        held: Mils(0),
        cost: Cents(cost_of(lot)),
        free: lot.free,
    }
}
