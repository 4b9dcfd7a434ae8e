//! Numbers of the trade, each in its range.
ghost use Rattle.std.specs.Prelude.{◌≡◌, ◌≤◌, ◌<◌, SomeIff};

use money_units::{Cents, Mils};
use std::marker::Model;

/// The number of a calendar, class, fund, dealer, household or account: 1 to 4,294,967,295.
#[derive(Clone, Copy, Debug, PartialEq, Eq, PartialOrd, Ord, Hash)]
pub struct Identifier {
    number: u32,
}

impl Model for Identifier {
    ghost use Rattle.std.specs.Prelude.{ℕ, ◌≤◌};

    ghost Value = { ℕ };

    ghost view = { λ identifier. identifier.number };

    ghost invariant = { λ identifier. 1 ≤ identifier.number };

    ghost inverse = { λ n. record { number = n } };
}

impl Identifier {
    /// `None` exactly outside 1 to 4,294,967,295.
    pub fn new(number: u64) -> Option<Identifier>
        ensures { SomeIff result ((1 ≤ number) × (number ≤ 4294967295)) number }
    {
        if (1..=4_294_967_295).contains(&number) {
            Some(Identifier {
                number: number as u32,
            })
        } else {
            None
        }
    }

    /// The number, which is at least 1.
    pub fn number(&self) -> u32
        ensures value { result ≡ self.now }
        ensures least { 1 ≤ result }
    {
        self.number
    }
}

/// What an account calls one of its orders or cancels, or the number of a correction: 1 to 9,999,999,999,999,999,999.
#[derive(Clone, Copy, Debug, PartialEq, Eq, PartialOrd, Ord, Hash)]
pub struct Reference {
    number: u64,
}

impl Model for Reference {
    ghost use Rattle.std.specs.Prelude.{ℕ, ◌≤◌};

    ghost Value = { ℕ };

    ghost view = { λ reference. reference.number };

    ghost invariant = { λ reference. (1 ≤ reference.number)
        × (reference.number ≤ 9999999999999999999) };

    ghost inverse = { λ n. record { number = n } };
}

impl Reference {
    /// `None` exactly outside 1 to 9,999,999,999,999,999,999.
    pub fn new(number: u64) -> Option<Reference>
        ensures { SomeIff result ((1 ≤ number) × (number ≤ 9999999999999999999)) number }
    {
        if (1..=9_999_999_999_999_999_999).contains(&number) {
            Some(Reference { number })
        } else {
            None
        }
    }

    /// The number, which is in range.
    pub fn number(&self) -> u64
        ensures value { result ≡ self.now }
        ensures least { 1 ≤ result }
        ensures most { result ≤ 9999999999999999999 }
    {
        self.number
    }
}

/// The money of an order or a letter in cents: 1 to 10^12.
#[derive(Clone, Copy, Debug, PartialEq, Eq, PartialOrd, Ord, Hash)]
pub struct Amount {
    cents: u64,
}

impl Model for Amount {
    ghost use Rattle.std.specs.Prelude.{ℕ, ◌≤◌};

    ghost Value = { ℕ };

    ghost view = { λ amount. amount.cents };

    ghost invariant = { λ amount. (1 ≤ amount.cents) × (amount.cents ≤ 1000000000000) };

    ghost inverse = { λ n. record { cents = n } };
}

impl Amount {
    /// `None` exactly outside 1 to 10^12 cents.
    pub fn new(amount: Cents) -> Option<Amount>
        ensures { SomeIff result ((1 ≤ amount) × (amount ≤ 1000000000000)) amount }
    {
        if (1..=1_000_000_000_000).contains(&amount.0) {
            Some(Amount { cents: amount.0 })
        } else {
            None
        }
    }

    /// The cents, which are in range.
    pub fn cents(&self) -> u64
        ensures value { result ≡ self.now }
        ensures least { 1 ≤ result }
        ensures most { result ≤ 1000000000000 }
    {
        self.cents
    }
}

/// The least money of a purchase in cents: 0 to 10^12.
#[derive(Clone, Copy, Debug, PartialEq, Eq, PartialOrd, Ord, Hash)]
pub struct Minimum {
    cents: u64,
}

impl Model for Minimum {
    ghost use Rattle.std.specs.Prelude.{ℕ, ◌≤◌};

    ghost Value = { ℕ };

    ghost view = { λ minimum. minimum.cents };

    ghost invariant = { λ minimum. minimum.cents ≤ 1000000000000 };

    ghost inverse = { λ n. record { cents = n } };
}

impl Minimum {
    /// `None` exactly past 10^12 cents.
    pub fn new(minimum: Cents) -> Option<Minimum>
        ensures { SomeIff result (minimum ≤ 1000000000000) minimum }
    {
        if minimum.0 <= 1_000_000_000_000 {
            Some(Minimum { cents: minimum.0 })
        } else {
            None
        }
    }

    /// The cents, which are in range.
    pub fn cents(&self) -> u64
        ensures value { result ≡ self.now }
        ensures most { result ≤ 1000000000000 }
    {
        self.cents
    }
}

/// The mils that an order asks for: 1 to 10^12.
#[derive(Clone, Copy, Debug, PartialEq, Eq, PartialOrd, Ord, Hash)]
pub struct Quantity {
    mils: u64,
}

impl Model for Quantity {
    ghost use Rattle.std.specs.Prelude.{ℕ, ◌≤◌};

    ghost Value = { ℕ };

    ghost view = { λ quantity. quantity.mils };

    ghost invariant = { λ quantity. (1 ≤ quantity.mils) × (quantity.mils ≤ 1000000000000) };

    ghost inverse = { λ n. record { mils = n } };
}

impl Quantity {
    /// `None` exactly outside 1 to 10^12 mils.
    pub fn new(quantity: Mils) -> Option<Quantity>
        ensures { SomeIff result ((1 ≤ quantity) × (quantity ≤ 1000000000000)) quantity }
    {
        if (1..=1_000_000_000_000).contains(&quantity.0) {
            Some(Quantity { mils: quantity.0 })
        } else {
            None
        }
    }

    /// The mils, which are in range.
    pub fn mils(&self) -> u64
        ensures value { result ≡ self.now }
        ensures least { 1 ≤ result }
        ensures most { result ≤ 1000000000000 }
    {
        self.mils
    }
}

/// The rate of a dividend in millionths of a dollar per share: 1 to 10^9.
#[derive(Clone, Copy, Debug, PartialEq, Eq, PartialOrd, Ord, Hash)]
pub struct DividendRate {
    millionths: u64,
}

impl Model for DividendRate {
    ghost use Rattle.std.specs.Prelude.{ℕ, ◌≤◌};

    ghost Value = { ℕ };

    ghost view = { λ rate. rate.millionths };

    ghost invariant = { λ rate. (1 ≤ rate.millionths) × (rate.millionths ≤ 1000000000) };

    ghost inverse = { λ n. record { millionths = n } };
}

impl DividendRate {
    /// `None` exactly outside 1 to 10^9 millionths of a dollar.
    pub fn new(millionths: u64) -> Option<DividendRate>
        ensures { SomeIff result ((1 ≤ millionths) × (millionths ≤ 1000000000)) millionths }
    {
        if (1..=1_000_000_000).contains(&millionths) {
            Some(DividendRate { millionths })
        } else {
            None
        }
    }

    /// The millionths of a dollar, which are in range.
    pub fn millionths(&self) -> u64
        ensures value { result ≡ self.now }
        ensures least { 1 ≤ result }
        ensures most { result ≤ 1000000000 }
    {
        self.millionths
    }
}

/// The rate of a dividend as it is corrected, in millionths of a dollar per share: 0 for no dividend, to 10^9.
#[derive(Clone, Copy, Debug, PartialEq, Eq, PartialOrd, Ord, Hash)]
pub struct CorrectedRate {
    millionths: u64,
}

impl Model for CorrectedRate {
    ghost use Rattle.std.specs.Prelude.{ℕ, ◌≤◌};

    ghost Value = { ℕ };

    ghost view = { λ rate. rate.millionths };

    ghost invariant = { λ rate. rate.millionths ≤ 1000000000 };

    ghost inverse = { λ n. record { millionths = n } };
}

impl CorrectedRate {
    /// `None` exactly past 10^9 millionths of a dollar.
    pub fn new(millionths: u64) -> Option<CorrectedRate>
        ensures { SomeIff result (millionths ≤ 1000000000) millionths }
    {
        if millionths <= 1_000_000_000 {
            Some(CorrectedRate { millionths })
        } else {
            None
        }
    }

    /// The millionths of a dollar, which are in range.
    pub fn millionths(&self) -> u64
        ensures value { result ≡ self.now }
        ensures most { result ≤ 1000000000 }
    {
        self.millionths
    }
}

/// A time of day in minutes after midnight: 0 to 1439.
#[derive(Clone, Copy, Debug, PartialEq, Eq, PartialOrd, Ord, Hash)]
pub struct TimeOfDay {
    minutes: u16,
}

impl Model for TimeOfDay {
    ghost use Rattle.std.specs.Prelude.{ℕ, ◌<◌};

    ghost Value = { ℕ };

    ghost view = { λ time. time.minutes };

    ghost invariant = { λ time. time.minutes < 1440 };

    ghost inverse = { λ n. record { minutes = n } };
}

impl TimeOfDay {
    /// `None` exactly past 23:59.
    pub fn new(minutes: u16) -> Option<TimeOfDay>
        ensures { SomeIff result (minutes < 1440) minutes }
    {
        if minutes < 1_440 {
            Some(TimeOfDay { minutes })
        } else {
            None
        }
    }

    /// The minutes after midnight.
    pub fn minutes(&self) -> u16
        ensures value { result ≡ self.now }
        ensures most { result < 1440 }
    {
        self.minutes
    }
}

/// How many seconds after a pricing moment a dealer's lines for it may come: 0 to 86,400.
#[derive(Clone, Copy, Debug, PartialEq, Eq, PartialOrd, Ord, Hash)]
pub struct Window {
    seconds: u32,
}

impl Model for Window {
    ghost use Rattle.std.specs.Prelude.{ℕ, ◌≤◌};

    ghost Value = { ℕ };

    ghost view = { λ window. window.seconds };

    ghost invariant = { λ window. window.seconds ≤ 86400 };

    ghost inverse = { λ n. record { seconds = n } };
}

impl Window {
    /// `None` exactly past a day.
    pub fn new(seconds: u64) -> Option<Window>
        ensures { SomeIff result (seconds ≤ 86400) seconds }
    {
        if seconds <= 86_400 {
            Some(Window {
                seconds: seconds as u32,
            })
        } else {
            None
        }
    }

    /// The seconds, at most a day.
    pub fn seconds(&self) -> u32
        ensures value { result ≡ self.now }
        ensures most { result ≤ 86400 }
    {
        self.seconds
    }
}
