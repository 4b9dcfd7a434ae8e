//! Cents, mils, basis points and net asset values, each a type of its own.
ghost use Rattle.std.specs.Prelude.{◌≡◌, ◌≤◌, SomeIff};
ghost use Rattle.money_units.specs.declared.units.TheConstants.{MAX_NAV_CENTS};

use std::marker::Model;

/// The greatest net asset value per share, in cents.
pub const MAX_NAV_CENTS: u64 = 10_000_000;

/// An amount of money in whole cents, which contracts see as that number.
#[derive(Clone, Copy, Debug, PartialEq, Eq, PartialOrd, Ord, Hash)]
pub struct Cents(pub u64);

impl Model for Cents {
    ghost use Rattle.std.specs.Prelude.{ℕ};

    ghost Value = { ℕ };

    ghost view = { λ amount. amount.0 };

    ghost inverse = { λ n. record { 0 = n } };
}

/// A quantity of shares in whole mils, thousandths of a share, which contracts see as that number.
#[derive(Clone, Copy, Debug, PartialEq, Eq, PartialOrd, Ord, Hash)]
pub struct Mils(pub u64);

impl Model for Mils {
    ghost use Rattle.std.specs.Prelude.{ℕ};

    ghost Value = { ℕ };

    ghost view = { λ quantity. quantity.0 };

    ghost inverse = { λ n. record { 0 = n } };
}

/// A rate in basis points, hundredths of a percent, which contracts see as that number.
#[derive(Clone, Copy, Debug, PartialEq, Eq, PartialOrd, Ord, Hash)]
pub struct Bps(pub u16);

impl Model for Bps {
    ghost use Rattle.std.specs.Prelude.{ℕ};

    ghost Value = { ℕ };

    ghost view = { λ rate. rate.0 };

    ghost inverse = { λ n. record { 0 = n } };
}

/// The net asset value of one share in cents, from 1 to 10,000,000, which contracts see as that number.
#[derive(Clone, Copy, Debug, PartialEq, Eq, PartialOrd, Ord, Hash)]
pub struct Nav {
    cents: u64,
}

impl Model for Nav {
    ghost use Rattle.std.specs.Prelude.{ℕ, ◌≤◌};

    ghost Value = { ℕ };

    ghost view = { λ nav. nav.cents };

    ghost invariant = { λ nav. (1 ≤ nav.cents) × (nav.cents ≤ 10000000) };

    ghost inverse = { λ n. record { cents = n } };
}

impl Nav {
    /// A net asset value of so many cents; `None` exactly outside 1 to 10,000,000.
    pub fn new(cents: u64) -> Option<Nav>
        ensures { SomeIff result ((1 ≤ cents) × (cents ≤ MAX_NAV_CENTS)) cents }
    {
        if (1..=MAX_NAV_CENTS).contains(&cents) {
            Some(Nav { cents })
        } else {
            None
        }
    }

    /// The cents, which are in range.
    pub fn cents(&self) -> u64
        ensures value { result ≡ self.now }
        ensures least { 1 ≤ result }
        ensures most { result ≤ MAX_NAV_CENTS }
    {
        self.cents
    }
}
