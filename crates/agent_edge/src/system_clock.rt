//! The system's clock. It tells no reading: what the system says is trusted.
ghost use Rattle.std.specs.Prelude.{◌≡◌, None, min, max};

use super::Clock;
use money_units::Moment;
use std::time::{self, SystemTime, UNIX_EPOCH};

/// The system's time in whole seconds, which never falls: where the system's clock went back or can't be read, the
/// last reading comes again, and past the end of 2199 the last moment.
#[derive(Drop)]
pub struct SystemClock<R> {
    system: R,
    last: Moment,
}

impl<R: time::Clock> SystemClock<R> {
    /// A clock over the system's.
    pub fn new(system: R) -> SystemClock<R>
        ensures { ⟦<SystemClock<R> as Clock>⟧.last result ≡ 0 }
    {
        SystemClock {
            system,
            last: Moment::start(),
        }
    }
}

impl<R: time::Clock> Clock for SystemClock<R> {
    ghost last = { λ clock. clock.last };

    ghost coming = { λ _. None };

    fn now(&mut self) -> Moment {
        self.last = later_of(self.last, seconds_since_1970(&self.system));
        self.last
    }
}

// What the system's clock shows, 0 where it shows nothing.
fn seconds_since_1970<R: time::Clock>(system: &R) -> u64 {
    match SystemTime::now(system) {
        Ok(time) => match time.duration_since(UNIX_EPOCH) {
            Ok(past) => past.as_secs(),
            Err(_) => 0,
        },
        Err(_) => 0,
    }
}

// The later one of a moment and the moment of these seconds, the last of all where these are beyond it.
fn later_of(last: Moment, seconds: u64) -> Moment
    ensures { result ≡ max last (min seconds 7258118399) }
{
    match Moment::new(seconds.min(7_258_118_399)) {
        Some(moment) if moment.seconds() > last.seconds() => moment,
        _ => last,
    }
}
