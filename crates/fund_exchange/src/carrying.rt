//! What an exchange carries from one class to another.
ghost use Rattle.std.specs.Prelude.{◌≡◌, ◌*◌, ◌≤◌, All, IfOk};
ghost use Rattle.money_units.specs.Rounding.{half};
ghost use Rattle.fund_exchange.specs.Exchange as spec;

use crate::renewing::{carried_pieces, cost_total, mils_bought, mils_total};
use money_units::{Cents, Mils, Nav, NoMemory};
use share_lots::{Piece, Pieces, value_at};
use std::alloc::Global;

/// What an exchange carries: the cents that all pieces are worth in the class that they leave, and the pieces that have new
/// mils in the class that they come into, with their sums. Each has the lot number, the date, the cost and the free mark of
/// the piece that it comes from.
#[derive(Debug, Drop)]
pub struct Carried {
    pub value: Cents,
    pub mils: Mils,
    pub cost: Cents,
    pub pieces: Pieces,
}

/// Carries pieces in rank order from one net asset value to another, without a charge: on the basis of the two net asset
/// values, as section 11(a) of the Investment Company Act of 1940 has it. The new mils of a piece are what the value of all
/// pieces up to its end buys, less what that up to its beginning buys, so that they sum to what the whole value buys; a
/// piece without new mils is left out, and its cost with it.
pub fn carry(alloc: Global, pieces: &[Piece], from: Nav, to: Nav) -> Result<Carried, NoMemory>
    requires mils_within { spec.mils_total pieces.now ≤ 1000000000000 }
    requires cost_within { spec.cost_total pieces.now ≤ 1000000000000000 }
    ensures carried { IfOk result (λ carried. carried ≡ spec.transfer_of from to pieces.now) }
    ensures with_mils { IfOk result (λ carried. All (λ piece. 1 ≤ piece.mils) carried.pieces) }
    ensures mils_sum { IfOk result (λ carried. carried.mils ≡ spec.mils_total carried.pieces) }
    ensures cost_sum { IfOk result (λ carried. carried.cost ≡ spec.cost_total carried.pieces) }
    ensures whole { IfOk result (λ carried. carried.mils ≡ half (1000 * carried.value) to) }
    ensures value_most { IfOk result (λ carried. carried.value ≤ 10000000000000000) }
    ensures mils_most { IfOk result (λ carried. carried.mils ≤ 10000000000000000000) }
    ensures cost_most { IfOk result (λ carried. carried.cost ≤ 1000000000000000) }
{
    let value = value_at(from, Mils(mils_total(pieces)));
    let mils = mils_bought(value, to.cents());
    let carried = carried_pieces(alloc, pieces, from, to)?;
    let cost = cost_total(carried.as_slice());
    Ok(Carried {
        value,
        mils: Mils(mils),
        cost: Cents(cost),
        pieces: carried,
    })
}
