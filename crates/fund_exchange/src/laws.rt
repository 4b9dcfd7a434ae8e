//! Laws of an exchange in the trade's words. Each function is empty: its clauses hold of the definitions.
ghost use Rattle.std.specs.Prelude.{◌≡◌, ◌+◌, ◌-◌, ◌*◌, ◌≤◌, ◌<◌, ◌∷◌, ◌++◌, length, map, filter, slice_get, Some, All};
ghost use Rattle.money_units.specs.Rounding.{half};
ghost use Rattle.share_lots.specs.Values.{value_at};
ghost use Rattle.fund_exchange.specs.Exchange.{mils_total, cost_total, mils_at, renewed_all, has_mils, transfer_of, without_mils};

use money_units::Nav;
use share_lots::Piece;

/// The new mils of all pieces sum to what their whole value buys, whatever the pieces are.
pub fn new_mils_make_the_whole(pieces: &[Piece], from: Nav, to: Nav)
    requires { 1 ≤ to }
    ensures all { mils_total (renewed_all from to pieces.now)
        ≡ half (1000 * value_at from (mils_total pieces.now)) to }
    ensures carried { (transfer_of from to pieces.now).mils
        ≡ half (1000 * value_at from (mils_total pieces.now)) to }
{}

/// Every piece keeps its lot number, its date, its cost and its free mark, and those that are carried are those of them
/// that have new mils.
#[tactic(auto, using(crate::proofs::ExchangeFacts::renewed_keeps, crate::proofs::ExchangeFacts::all_have_mils, crate::proofs::ExchangeFacts::carried_cost))]
pub fn dates_costs_and_marks_are_kept(pieces: &[Piece], from: Nav, to: Nav)
    ensures kept { map without_mils (renewed_all from to pieces.now) ≡ map without_mils pieces.now }
    ensures carried { (transfer_of from to pieces.now).pieces
        ≡ filter has_mils (renewed_all from to pieces.now) }
    ensures with_mils { All (λ piece. 1 ≤ piece.mils) (transfer_of from to pieces.now).pieces }
    ensures cost { (transfer_of from to pieces.now).cost ≤ cost_total pieces.now }
{}

/// The new mils of a piece are what the value up to its end buys, less what the value up to its beginning buys.
pub fn new_mils_are_a_difference(
    before: &[Piece],
    piece: Piece,
    behind: &[Piece],
    from: Nav,
    to: Nav,
)
    ensures { slice_get (renewed_all from to (before.now ++ piece ∷ behind.now)) (length before.now)
        ≡ Some (record piece {
          mils = mils_at from to (mils_total before.now + piece.mils)
              - mils_at from to (mils_total before.now);
        }) }
{}

/// The shares that come in are worth what goes out, to half a mil: an exchange goes by the two net asset values alone.
pub fn shares_are_worth_their_value(pieces: &[Piece], from: Nav, to: Nav)
    requires { 1 ≤ to }
    ensures not_above { 2 * ((transfer_of from to pieces.now).mils * to)
        ≤ 2 * (1000 * (transfer_of from to pieces.now).value) + to }
    ensures not_below { 2 * (1000 * (transfer_of from to pieces.now).value)
        < 2 * ((transfer_of from to pieces.now).mils * to) + to }
{}
