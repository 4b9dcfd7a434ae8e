//! The value of shares at a price.
ghost use Rattle.std.specs.Prelude.{◌≡◌, ◌≤◌};
ghost use Rattle.share_lots.specs.Lots.{most_mils};
ghost use Rattle.share_lots.specs.Values as spec;

use money_units::{Cents, Mils, Nav, half};

/// The value of mils at a net asset value, in whole cents.
pub fn value_at(nav: Nav, mils: Mils) -> Cents
    requires { mils ≤ most_mils }
    ensures value { result ≡ spec.value_at nav mils }
    ensures bound { result ≤ 10000000000000000 }
{
    let value = half(u128::from(mils.0) * u128::from(nav.cents()), 1000);
    Cents(value as u64)
}
