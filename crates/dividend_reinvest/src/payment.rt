//! What a dividend pays: shares, cash or nothing.
ghost use Rattle.std.specs.Prelude.{◌≡◌, ◌≤◌};
ghost use Rattle.dividend_reinvest.specs.Dividend as spec;

use money_units::{Cents, Mils, Nav, half};

/// What a dividend brings to a position. No payment is of 0 cents, and no reinvestment is of 0 mils.
#[derive(Clone, Copy, Debug, PartialEq, Eq)]
pub enum Payment {
    /// Not half a cent is paid.
    Nothing,
    /// So many cents are paid in cash.
    Cash(Cents),
    /// So many cents are reinvested, and buy so many mils.
    Shares { cash: Cents, mils: Mils },
}

/// The payment of a dividend on the mils of a position, loose and held together. `rate` is in millionths of a dollar per
/// share. It is reinvested at the net asset value, which is the default, or paid in cash: where the holder elected so (the
/// options that Form N-1A, Item 11(d), asks a prospectus for), where it buys no mil, and where it would bring the position
/// past its ceiling. `room` is how many mils and `cost_room` how many cents of cost the position may still gain.
pub fn pay(mils: Mils, rate: u64, nav: Nav, in_cash: bool, room: Mils, cost_room: Cents) -> Payment
    requires mils_within { mils ≤ 1000000000000 }
    requires rate_within { rate ≤ 1000000000 }
    ensures payment { result ≡ spec.payment mils rate nav in_cash room cost_room }
    ensures cents { spec.cents_of result ≡ spec.cash_of mils rate }
    ensures most { spec.cents_of result ≤ 100000000000000 }
    ensures ceiling { spec.KeepsCeiling room cost_room result }
    ensures least { spec.BuysMils result }
{
    let cash = cash_of(mils, rate);
    if cash.0 == 0 {
        return Payment::Nothing;
    }
    let bought = mils_of(cash, nav);
    if in_cash || bought.0 == 0 || passes_ceiling(bought, cash, room, cost_room) {
        return Payment::Cash(cash);
    }
    Payment::Shares { cash, mils: bought }
}

/// The cents that a rate pays on mils.
fn cash_of(mils: Mils, rate: u64) -> Cents
    requires mils_within { mils ≤ 1000000000000 }
    requires rate_within { rate ≤ 1000000000 }
    ensures value { result ≡ spec.cash_of mils rate }
    ensures most { result ≤ 100000000000000 }
{
    let cents = half(u128::from(mils.0) * u128::from(rate), 10_000_000);
    Cents(cents as u64)
}

/// The mils that cents buy at a net asset value.
fn mils_of(cash: Cents, nav: Nav) -> Mils
    requires { cash ≤ 100000000000000 }
    ensures { result ≡ spec.mils_of cash nav }
{
    let mils = half(1000 * u128::from(cash.0), u128::from(nav.cents()));
    Mils(mils as u64)
}

/// The mils or the cents are more than the position may still gain.
fn passes_ceiling(mils: Mils, cash: Cents, room: Mils, cost_room: Cents) -> bool
    ensures { result ≡ spec.passes_ceiling mils cash room cost_room }
{
    mils.0 > room.0 || cash.0 > cost_room.0
}
