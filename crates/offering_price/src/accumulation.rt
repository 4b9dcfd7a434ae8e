//! The rate of a purchase from its amount and from what the household owns.
ghost use Rattle.std.specs.Prelude.{◌≡◌, ◌≤◌, ◌*◌, ◌^◌, ◌<◌, All, length};
ghost use Rattle.offering_price.specs.Accumulation.{bracket, worth, credit};

use class_terms::{Bracket, Terms};
use money_units::{Bps, Cents, Mils, Nav, half};

/// A position of a household: its mils, what they cost, and the last net asset value of their class, where there is one.
#[derive(Clone, Copy, Debug, PartialEq, Eq)]
pub struct Holding {
    pub mils: Mils,
    pub cost: Cents,
    pub nav: Option<Nav>,
}

/// The rate of an amount in cents by the table of the class: that of the last row that it reaches.
pub fn bracket(terms: &Terms, amount: u128) -> Bps
    ensures rate { result ≡ bracket terms.now.front amount }
    ensures ceiling { result ≤ 850 }
{
    rate_of(terms.front().as_slice(), amount)
}

fn rate_of(rows: &[Bracket], amount: u128) -> Bps
    ensures { result ≡ bracket rows.now amount }
{
    let mut rate = Bps(0);
    for row in rows {
        if u128::from(row.floor.0) <= amount {
            rate = row.rate;
        }
    }
    rate
}

/// The credit of a household's positions, in cents: of each the greater of its cost and its value, or its cost where its
/// class has no net asset value yet.
pub fn credit(holdings: &[Holding]) -> u128
    requires count { length holdings.now ≤ 64000 }
    requires within { All (λ holding. (holding.mils ≤ 1000000000000)
        × (holding.cost ≤ 1000000000000000))
        holdings.now }
    ensures { result ≡ credit holdings.now }
{
    let mut sum = 0;
    for holding in holdings {
        sum += credit_of_holding(*holding);
    }
    sum
}

/// What one position adds to the credit of its household, in cents.
pub fn credit_of_holding(holding: Holding) -> u128
    requires mils { holding.mils ≤ 1000000000000 }
    requires cost { holding.cost ≤ 1000000000000000 }
    ensures value { result ≡ worth holding }
    ensures bound { result ≤ 10000000000000000 }
{
    let cost = u128::from(holding.cost.0);
    match holding.nav {
        None => cost,
        Some(nav) => {
            let value = half(u128::from(holding.mils.0) * u128::from(nav.cents()), 1000);
            cost.max(value)
        }
    }
}
