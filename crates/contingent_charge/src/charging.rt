//! The deferred charge of the pieces of a redemption.
ghost use Rattle.std.specs.Prelude.{◌≡◌, ◌+◌, ◌*◌, ◌≤◌, All, min, sum_by};
ghost use Rattle.money_units.specs.Rounding.{half};
ghost use Rattle.share_lots.specs.Lots.{most_mils, most_cost};
ghost use Rattle.share_lots.specs.Values.{value_at};
ghost use Rattle.contingent_charge.specs.DeferredCharge as spec;

use crate::rates::rate_on;
use fund_calendar::Day;
use money_units::{Bps, Cents, Mils, Nav, half};
use share_lots::{Piece, value_at};

/// A redemption in cents: the value of the shares, the part of it that the deferred charge is taken on, and the charge.
#[derive(Clone, Copy, Debug, PartialEq, Eq)]
pub struct Charged {
    pub value: Cents,
    pub base: Cents,
    pub charge: Cents,
}

/// The value, base and deferred charge of pieces that are sold together on a day, in the order in which they are taken. A
/// piece's value is what it adds to the value of the mils before it; its charge is what its rate takes of the lesser of its
/// cost and its value, to the nearest cent; a free piece has none. The charge is at most what the rates take of the cost
/// (17 CFR 270.6c-10(a)(1)). Together the pieces keep the limits of a position, and no rate is above 850 basis points.
pub fn charge(pieces: &[Piece], nav: Nav, day: Day, schedule: &[Bps]) -> Charged
    requires few_mils { sum_by (λ piece. piece.mils) pieces.now ≤ most_mils }
    requires low_cost { sum_by (λ piece. piece.cost) pieces.now ≤ most_cost }
    requires rates { All (λ rate. rate ≤ 850) schedule.now }
    ensures charged { result ≡ spec.charge_of_pieces pieces.now nav day schedule.now }
    ensures whole_value { result.value ≡ value_at nav (sum_by (λ piece. piece.mils) pieces.now) }
    ensures base_within_value { result.base ≤ result.value }
    ensures within_cost { result.charge ≤ spec.most_charged pieces.now day schedule.now }
    ensures within_value { result.charge ≤ result.value }
{
    let mut before = 0;
    let mut so_far = Charged {
        value: Cents(0),
        base: Cents(0),
        charge: Cents(0),
    };
    for piece in pieces {
        let value = value_between(nav, before, mils_of(piece));
        so_far = joined(&so_far, &piece_charged(piece, value, day, schedule));
        before += mils_of(piece);
    }
    so_far
}

/// The mils of a piece.
fn mils_of(piece: &Piece) -> u64
    ensures { result ≡ piece.now.mils }
{
    piece.mils.0
}

/// What mils are worth that have so many before them.
fn value_between(nav: Nav, before: u64, mils: u64) -> Cents
    requires { before + mils ≤ most_mils }
    ensures value { result ≡ spec.value_between nav before mils }
    ensures within { value_at nav before + result ≤ 10000000000000000 }
{
    let start = value_at(nav, Mils(before));
    let end = value_at(nav, Mils(before + mils));
    Cents(end.0 - start.0)
}

/// The sums of two redemptions.
fn joined(one: &Charged, other: &Charged) -> Charged
    requires value { one.now.value + other.now.value ≤ 10000000000000000 }
    requires base { one.now.base + other.now.base ≤ 10000000000000000 }
    requires charge { one.now.charge + other.now.charge ≤ 10000000000000000 }
    ensures value { result.value ≡ one.now.value + other.now.value }
    ensures base { result.base ≡ one.now.base + other.now.base }
    ensures charge { result.charge ≡ one.now.charge + other.now.charge }
{
    Charged {
        value: Cents(one.value.0 + other.value.0),
        base: Cents(one.base.0 + other.base.0),
        charge: Cents(one.charge.0 + other.charge.0),
    }
}

/// A piece by itself, with its value.
fn piece_charged(piece: &Piece, value: Cents, day: Day, schedule: &[Bps]) -> Charged
    requires rates { All (λ rate. rate ≤ 850) schedule.now }
    ensures value { result.value ≡ value }
    ensures base { result.base ≡ spec.base_of (record { piece = piece.now; value = value }) }
    ensures base_within { result.base ≤ value }
    ensures charge { result.charge
        ≡ spec.charge_of day schedule.now (record { piece = piece.now; value = value }) }
    ensures charge_within { result.charge ≤ value }
{
    Charged {
        value,
        base: base_of(piece, value),
        charge: charge_of(piece, value, day, schedule),
    }
}

/// The lesser of a piece's cost and its value.
fn lesser(piece: &Piece, value: Cents) -> Cents
    ensures lesser { result ≡ min piece.now.cost value }
    ensures within { result ≤ value }
{
    Cents(piece.cost.0.min(value.0))
}

/// What a piece is charged on.
fn base_of(piece: &Piece, value: Cents) -> Cents
    ensures base { result ≡ spec.base_of (record { piece = piece.now; value = value }) }
    ensures within { result ≤ value }
{
    if piece.free {
        Cents(0)
    } else {
        lesser(piece, value)
    }
}

/// The charge of a piece.
fn charge_of(piece: &Piece, value: Cents, day: Day, schedule: &[Bps]) -> Cents
    requires rates { All (λ rate. rate ≤ 850) schedule.now }
    ensures charge { result ≡ spec.charge_of day schedule.now
        (record { piece = piece.now; value = value }) }
    ensures within { result ≤ value }
{
    if piece.free {
        return Cents(0);
    }
    let rate = rate_on(piece.day, day, schedule);
    taken(lesser(piece, value), rate)
}

/// What a rate takes of an amount.
fn taken(amount: Cents, rate: Bps) -> Cents
    requires { rate ≤ 850 }
    ensures taken { result ≡ half (amount * rate) 10000 }
    ensures within { result ≤ amount }
{
    let cents = half(u128::from(amount.0) * u128::from(rate.0), 10_000);
    Cents(cents as u64)
}
