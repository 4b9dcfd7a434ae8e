//! Laws of a purchase in plain words. Each function is empty: its clauses hold of the definitions.
ghost use Rattle.std.specs.Prelude.{◌≡◌, ◌+◌, ◌*◌, ◌≤◌, ◌<◌, ◌↔◌, None, Some, slice_get};
ghost use Rattle.class_terms.specs.Tables.{front_fault};
ghost use Rattle.offering_price.specs.Accumulation.{bracket};
ghost use Rattle.offering_price.specs.Purchase.{offering_price, mils_bought, split_of};

use crate::purchase::Split;
use class_terms::Bracket;
use money_units::{Bps, Cents, Nav};

/// A greater amount never has a greater rate, and no amount has a rate above that of the first row.
pub fn greater_amounts_have_no_greater_rate(
    rows: &[Bracket],
    first: Bracket,
    less: u128,
    more: u128,
)
    requires lawful { front_fault rows.now ≡ None }
    requires first { slice_get rows.now 0 ≡ Some first }
    requires order { less ≤ more }
    ensures rates { bracket rows.now more ≤ bracket rows.now less }
    ensures highest { bracket rows.now less ≤ first.rate }
{}

/// A greater rate never lowers the price, and never buys more shares.
pub fn greater_rates_buy_no_more(gross: Cents, nav: Nav, low: Bps, high: Bps)
    requires nav { 1 ≤ nav }
    requires order { low ≤ high }
    requires ceiling { high ≤ 850 }
    ensures price { offering_price nav low ≤ offering_price nav high }
    ensures mils { mils_bought gross (offering_price nav high)
        ≤ mils_bought gross (offering_price nav low) }
{}

/// Proceeds and charge make the gross; without a load there is no charge, and the price is the net asset value.
pub fn the_parts_make_the_gross(gross: Cents, nav: Nav, rate: Bps, split: Split)
    requires split { split_of gross nav rate ≡ Some split }
    ensures whole { split.proceeds + split.charge ≡ gross }
    ensures proceeds { split.proceeds ≤ gross }
    ensures mils { 1 ≤ split.mils }
    ensures no_load { rate ≡ 0 → split.charge ≡ 0 }
    ensures price { rate ≡ 0 → split.price ≡ nav }
{}

/// There is no split exactly where the gross buys less than half a mil.
pub fn small_purchases_buy_nothing(gross: Cents, nav: Nav, rate: Bps)
    requires nav { 1 ≤ nav }
    requires ceiling { rate ≤ 850 }
    ensures { (split_of gross nav rate ≡ None) ↔ (2 * (1000 * gross) < offering_price nav rate) }
{}

/// The charge is at most the gross at the highest rate of the table, and beyond it, for rounding, half a cent, half a mil at
/// the net asset value, and half a cent of price on the shares that the gross buys:
/// `charge <= gross * rate / 10000 + 1 / 2 + nav / 2000 + gross / (2 * price)`, multiplied out.
pub fn the_charge_is_within_the_highest_rate(
    rows: &[Bracket],
    first: Bracket,
    amount: u128,
    gross: Cents,
    nav: Nav,
    split: Split,
)
    requires lawful { front_fault rows.now ≡ None }
    requires first { slice_get rows.now 0 ≡ Some first }
    requires nav { 1 ≤ nav }
    requires split { split_of gross nav (bracket rows.now amount) ≡ Some split }
    ensures { 10000 * (split.price * split.charge)
        ≤ split.price * (gross * first.rate) + 5000 * split.price
        + 5 * (split.price * nav) + 5000 * gross }
{}
