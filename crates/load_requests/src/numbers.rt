//! Numbers of a load in the types of the trade.
ghost use Rattle.std.specs.Prelude.{◌≡◌, ◌≤◌};

use agent_events::{Amount, Identifier, Minimum, Quantity, Reference};
use money_units::{Cents, Mils, Nav};

/// The number of a class, calendar, fund, household or account.
pub(crate) fn identifier(number: u32) -> Identifier
    requires { 1 ≤ number }
    ensures { result ≡ number }
{
    match Identifier::new(number as u64) {
        Some(identifier) => identifier,
        None => unreachable!(),
    }
}

/// The number of an order or a correction.
pub(crate) fn reference(number: u32) -> Reference
    requires { 1 ≤ number }
    ensures { result ≡ number }
{
    match Reference::new(number as u64) {
        Some(reference) => reference,
        None => unreachable!(),
    }
}

/// The money of a purchase in cents.
pub(crate) fn amount(cents: u64) -> Amount
    requires least { 1 ≤ cents }
    requires most { cents ≤ 1000000 }
    ensures { result ≡ cents }
{
    match Amount::new(Cents(cents)) {
        Some(amount) => amount,
        None => unreachable!(),
    }
}

/// A quantity of shares in mils.
pub(crate) fn quantity(mils: u64) -> Quantity
    requires least { 1 ≤ mils }
    requires most { mils ≤ 1000000 }
    ensures { result ≡ mils }
{
    match Quantity::new(Mils(mils)) {
        Some(quantity) => quantity,
        None => unreachable!(),
    }
}

/// A minimum of one cent.
pub(crate) fn one_cent() -> Minimum
    ensures { result ≡ 1 }
{
    match Minimum::new(Cents(1)) {
        Some(minimum) => minimum,
        None => unreachable!(),
    }
}

/// A net asset value in cents.
pub(crate) fn nav(cents: u64) -> Nav
    requires least { 1 ≤ cents }
    requires most { cents ≤ 1000000 }
    ensures { result ≡ cents }
{
    match Nav::new(cents) {
        Some(nav) => nav,
        None => unreachable!(),
    }
}
