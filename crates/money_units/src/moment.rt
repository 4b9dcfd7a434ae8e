//! Moments, in seconds since 1970-01-01 00:00 UTC.
ghost use Rattle.std.specs.Prelude.{◌≡◌, ◌+◌, ◌-◌, ◌≤◌, min, SomeIff};
ghost use Rattle.money_units.specs.declared.moment.TheConstants.{MAX_MOMENT_SECONDS};

use std::marker::Model;

/// The last moment, the last second of 2199 in UTC.
pub const MAX_MOMENT_SECONDS: u64 = 7_258_118_399;

/// A moment in whole seconds since 1970-01-01 00:00 UTC, to the end of 2199, which contracts see as that number.
#[derive(Clone, Copy, Debug, PartialEq, Eq, PartialOrd, Ord, Hash)]
pub struct Moment {
    seconds: u64,
}

impl Model for Moment {
    ghost use Rattle.std.specs.Prelude.{ℕ, ◌≤◌};

    ghost Value = { ℕ };

    ghost view = { λ moment. moment.seconds };

    ghost invariant = { λ moment. moment.seconds ≤ 7258118399 };

    ghost inverse = { λ n. record { seconds = n } };
}

impl Moment {
    /// The first moment, 1970-01-01 00:00 UTC.
    pub fn start() -> Moment
        ensures { result ≡ 0 }
    {
        Moment { seconds: 0 }
    }

    /// The moment of so many seconds; `None` exactly past 7,258,118,399.
    pub fn new(seconds: u64) -> Option<Moment>
        ensures { SomeIff result (seconds ≤ 7258118399) seconds }
    {
        if seconds <= MAX_MOMENT_SECONDS {
            Some(Moment { seconds })
        } else {
            None
        }
    }

    /// The seconds, which are in range.
    pub fn seconds(&self) -> u64
        ensures value { result ≡ self.now }
        ensures most { result ≤ 7258118399 }
    {
        self.seconds
    }

    /// The moment so many seconds earlier, or the first one where there is none.
    pub fn earlier(self, seconds: u64) -> Moment
        ensures { result ≡ self - seconds }
    {
        Moment {
            seconds: self.seconds.saturating_sub(seconds),
        }
    }

    /// The moment so many seconds later, or the last one where there is none.
    pub fn later(self, seconds: u64) -> Moment
        ensures { result ≡ min (self + seconds) 7258118399 }
    {
        Moment {
            seconds: self.seconds.saturating_add(seconds).min(MAX_MOMENT_SECONDS),
        }
    }
}
