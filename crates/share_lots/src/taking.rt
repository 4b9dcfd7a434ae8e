//! What a redemption takes of each lot, by rank, and what it leaves.
ghost use Rattle.std.specs.Prelude.{◌≡◌, ◌+◌, ◌≤◌, ◌<◌, ◌++◌, All, filter, sum_by, IfOk, OnOk, OnErr};
ghost use Rattle.share_lots.specs.Lots as spec;
ghost use Rattle.share_lots.specs.Taking as taking;

use crate::lot_list::{cost_of, cost_total, held_of, loose_of};
use crate::{Lot, Piece, Pieces};
use money_units::{Cents, Mils, NoMemory, half};

/// Appends the pieces of lots by rank: each gives its loose mils as far as any are still asked for.
pub(crate) fn take_pieces(given: Pieces, lots: &[Lot], asked: u64) -> Result<Pieces, NoMemory>
    requires { All spec.IsLot lots.now }
    ensures { IfOk result (λ pieces. pieces ≡ given ++ taking.pieces asked lots.now) }
{
    let mut taken = given;
    let mut left = asked;
    for lot in lots {
        if left == 0 {
            return Ok(taken);
        }
        let quantity = loose_of(lot).min(left);
        push_piece(&mut taken, lot, quantity)?;
        left -= quantity;
    }
    Ok(taken)
}

/// Appends a lot's piece, where it gives any mils.
fn push_piece(taken: &mut Pieces, lot: &Lot, quantity: u64) -> Result<(), NoMemory>
    requires lot { spec.IsLot lot.now }
    requires within { quantity ≤ lot.now.loose }
    ensures ok { OnOk result (taken.new ≡ taken.old ++ taking.pieces_of lot.now quantity) }
    ensures err { OnErr result (taken.new ≡ taken.old) }
{
    if quantity > 0 {
        taken.push(Piece {
            lot: lot.number,
            day: lot.day,
            mils: Mils(quantity),
            cost: Cents(piece_cost(lot, quantity)),
            free: lot.free,
        })?;
    }
    Ok(())
}

/// The cost of so many mils of a lot.
pub(crate) fn piece_cost(lot: &Lot, quantity: u64) -> u64
    requires lot { spec.IsLot lot.now }
    requires within { quantity ≤ spec.mils lot.now }
    ensures value { result ≡ taking.piece_cost lot.now quantity }
    ensures bound { result ≤ lot.now.cost }
{
    if quantity == 0 {
        return 0;
    }
    let mils = loose_of(lot) as u128 + held_of(lot) as u128;
    half(cost_of(lot) as u128 * quantity as u128, mils) as u64
}

/// A lot without so many of its loose mils.
fn lot_less(lot: &Lot, quantity: u64) -> Lot
    requires lot { spec.IsLot lot.now }
    requires within { quantity ≤ lot.now.loose }
    ensures { result ≡ taking.lot_less lot.now quantity }
{
    Lot {
        number: lot.number,
        day: lot.day,
        loose: Mils(loose_of(lot) - quantity),
        held: lot.held,
        cost: Cents(cost_of(lot) - piece_cost(lot, quantity)),
        free: lot.free,
    }
}

/// Takes mils from lots by rank.
pub(crate) fn reduce_lots(lots: &mut [Lot], asked: u64)
    requires { All spec.IsLot lots.old }
    ensures { lots.new ≡ taking.lots_less asked lots.old }
{
    let mut left = asked;
    for lot in lots.iter_mut() {
        if left == 0 {
            return;
        }
        let quantity = loose_of(lot).min(left);
        lessen(lot, quantity);
        left -= quantity;
    }
}

/// Takes so many loose mils from a lot, which stays as it is where they are none.
fn lessen(lot: &mut Lot, quantity: u64)
    requires lot { spec.IsLot lot.old }
    requires within { quantity ≤ lot.old.loose }
    ensures { lot.new ≡ taking.lot_less lot.old quantity }
{
    if quantity > 0 {
        *lot = lot_less(lot, quantity);
    }
}

/// The lot has mils.
fn has_mils(lot: &Lot) -> bool
    ensures { result ≡ taking.has_mils lot.now }
{
    loose_of(lot) > 0 || held_of(lot) > 0
}

/// Removes the lots without mils.
pub(crate) fn remove_empty(lots: &mut Vec<Lot>)
    ensures { lots.new.items ≡ filter taking.has_mils lots.old.items }
{
    lots.retain(|lot| has_mils(lot));
}

/// Takes mils from lots by rank and removes those without mils, and answers the cost that the mils had.
pub(crate) fn take_row(lots: &mut Vec<Lot>, asked: u64) -> u64
    requires lots { All spec.IsLot lots.old.items }
    requires cost { sum_by (λ lot. lot.cost) lots.old.items ≤ spec.most_cost }
    ensures rest { lots.new.items ≡ filter taking.has_mils (taking.lots_less asked lots.old.items) }
    ensures cost { result + sum_by (λ lot. lot.cost) lots.new.items
        ≡ sum_by (λ lot. lot.cost) lots.old.items }
{
    let before = cost_total(lots);
    reduce_lots(lots, asked);
    remove_empty(lots);
    before - cost_total(lots)
}
