//! The offering price and the split of a purchase.
ghost use Rattle.std.specs.Prelude.{◌≡◌, ◌+◌, ◌≤◌, IfSome};
ghost use Rattle.offering_price.specs.Purchase.{offering_price, mils_bought, proceeds_of, split_at_price, split_of};

use money_units::{Bps, Cents, Mils, Nav, half};

/// How a purchase is divided: the rate of its load, the offering price in cents, the mils bought, the cents that come to
/// the class and the cents of the charge.
#[derive(Clone, Copy, Debug, PartialEq, Eq)]
pub struct Split {
    pub rate: Bps,
    pub price: Cents,
    pub mils: Mils,
    pub proceeds: Cents,
    pub charge: Cents,
}

/// The offering price of a share at this NAV and rate of load.
pub fn price_of(nav: Nav, rate: Bps) -> Cents
    requires { rate ≤ 850 }
    ensures price { result ≡ offering_price nav rate }
    ensures least { 1 ≤ result }
{
    let cents = u128::from(nav.cents());
    let rest = 10_000 - u128::from(rate.0);
    let price = half(10_000 * cents, rest);
    Cents(price as u64)
}

/// The split of a purchase; `None` exactly where no mil results.
pub fn buy_split(gross: Cents, nav: Nav, rate: Bps) -> Option<Split>
    requires gross_within { (1 ≤ gross) × (gross ≤ 1000000000000) }
    requires rate_within { rate ≤ 850 }
    ensures split { result ≡ split_of gross nav rate }
    ensures whole { IfSome result (λ split. split.proceeds + split.charge ≡ gross) }
    ensures mils_least { IfSome result (λ split. 1 ≤ split.mils) }
    ensures mils_most { IfSome result (λ split. split.mils ≤ 1000000000000000) }
    ensures price_least { IfSome result (λ split. 1 ≤ split.price) }
{
    let price = price_of(nav, rate);
    let mils = bought(gross, price);
    if mils.0 == 0 {
        return None;
    }
    let proceeds = proceeds(gross, nav, rate, mils);
    Some(Split {
        rate,
        price,
        mils,
        proceeds,
        charge: Cents(gross.0 - proceeds.0),
    })
}

fn bought(gross: Cents, price: Cents) -> Mils
    requires positive { 1 ≤ price }
    requires gross_within { gross ≤ 1000000000000 }
    ensures mils { result ≡ mils_bought gross price }
    ensures most { result ≤ 1000000000000000 }
{
    let mils = half(1000 * u128::from(gross.0), u128::from(price.0));
    Mils(mils as u64)
}

fn proceeds(gross: Cents, nav: Nav, rate: Bps, mils: Mils) -> Cents
    ensures value { result ≡ proceeds_of gross nav rate mils }
    ensures within { result ≤ gross }
{
    if rate.0 == 0 {
        return gross;
    }
    let value = half(u128::from(mils.0) * u128::from(nav.cents()), 1000);
    Cents(u128::from(gross.0).min(value) as u64)
}
