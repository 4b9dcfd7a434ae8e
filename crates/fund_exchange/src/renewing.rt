//! The pieces of an exchange with their new mils, rounded together.
ghost use Rattle.std.specs.Prelude.{◌≡◌, [], ◌∷◌, ◌++◌, ◌+◌, ◌-◌, ◌*◌, ◌≤◌, filter, All, IfOk, OnOk, OnErr};
ghost use Rattle.money_units.specs.Rounding.{half};
ghost use Rattle.fund_exchange.specs.Exchange as spec;

use money_units::{Cents, Mils, Nav, NoMemory, half};
use share_lots::{Piece, Pieces, value_at};
use std::alloc::Global;

/// The pieces with their new mils, without those that have none.
pub(crate) fn carried_pieces(
    alloc: Global,
    pieces: &[Piece],
    from: Nav,
    to: Nav,
) -> Result<Pieces, NoMemory>
    requires mils_within { spec.mils_total pieces.now ≤ 1000000000000 }
    requires positive { 1 ≤ to }
    ensures pieces { IfOk result (λ carried. carried ≡ spec.carried_pieces from to pieces.now) }
    ensures with_mils { IfOk result (λ carried. All (λ piece. 1 ≤ piece.mils) carried) }
    ensures mils { IfOk result
        (λ carried. spec.mils_total carried ≡ spec.mils_at from to (spec.mils_total pieces.now)) }
    ensures cost { IfOk result (λ carried. spec.cost_total carried ≤ spec.cost_total pieces.now) }
{
    let mut carried = Pieces::new(alloc);
    let mut before = 0;
    for piece in pieces {
        push_renewed(&mut carried, piece, from, to, before)?;
        before += mils_of(piece);
    }
    Ok(carried)
}

/// Appends a piece with its new mils, where it has any; so many mils stand before it.
fn push_renewed(
    carried: &mut Pieces,
    piece: &Piece,
    from: Nav,
    to: Nav,
    before: u64,
) -> Result<(), NoMemory>
    requires { before + piece.now.mils ≤ 1000000000000 }
    ensures ok { OnOk result
        (carried.new
        ≡ carried.old ++ filter spec.has_mils (spec.with_new_mils from to before piece.now ∷ [])) }
    ensures err { OnErr result (carried.new ≡ carried.old) }
{
    let mils = new_mils(from, to, before, mils_of(piece));
    if mils > 0 {
        carried.push(Piece {
            lot: piece.lot,
            day: piece.day,
            mils: Mils(mils),
            cost: piece.cost,
            free: piece.free,
        })?;
    }
    Ok(())
}

/// The new mils of a piece of so many mils, where so many stand before it.
fn new_mils(from: Nav, to: Nav, before: u64, mils: u64) -> u64
    requires { before + mils ≤ 1000000000000 }
    ensures { result ≡ spec.mils_at from to (before + mils) - spec.mils_at from to before }
{
    mils_at(from, to, before + mils) - mils_at(from, to, before)
}

/// The mils at one net asset value that the value of so many mils at another buys.
fn mils_at(from: Nav, to: Nav, mils: u64) -> u64
    requires { mils ≤ 1000000000000 }
    ensures { result ≡ spec.mils_at from to mils }
{
    mils_bought(value_at(from, Mils(mils)), to.cents())
}

/// The mils that a value buys at a net asset value of so many cents.
pub(crate) fn mils_bought(value: Cents, nav: u64) -> u64
    requires positive { 1 ≤ nav }
    requires within { value ≤ 10000000000000000 }
    ensures value { result ≡ half (1000 * value) nav }
    ensures most { result ≤ 10000000000000000000 }
{
    half(1000 * u128::from(value.0), u128::from(nav)) as u64
}

/// The mils of a piece.
fn mils_of(piece: &Piece) -> u64
    ensures { result ≡ piece.now.mils }
{
    piece.mils.0
}

/// The mils of pieces together.
pub(crate) fn mils_total(pieces: &[Piece]) -> u64
    requires { spec.mils_total pieces.now ≤ 1000000000000 }
    ensures { result ≡ spec.mils_total pieces.now }
{
    pieces.iter().map(|piece| piece.mils.0).sum()
}

/// The cost of pieces together.
pub(crate) fn cost_total(pieces: &[Piece]) -> u64
    requires { spec.cost_total pieces.now ≤ 1000000000000000 }
    ensures { result ≡ spec.cost_total pieces.now }
{
    pieces.iter().map(|piece| piece.cost.0).sum()
}
