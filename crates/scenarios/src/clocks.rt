//! The clock of a case.
ghost use Rattle.std.specs.Prelude.{◌≡◌, ◌≤◌, None};

use agent_edge::Clock;
use money_units::{Moment, NoMemory};
use std::alloc::Global;

/// A clock of given readings, in turn, each of which counts where it is later than the one before; behind them the last one
/// again. It tells no readings, since nothing that a case shows rests on what it tells.
#[derive(Drop)]
pub struct CaseClock {
    readings: Vec<Moment>,
    place: usize,
    last: Moment,
}

impl CaseClock {
    /// A clock of these readings.
    pub(crate) fn new(alloc: Global, readings: &[Moment]) -> Result<CaseClock, NoMemory> {
        Ok(CaseClock {
            readings: readings.to_vec(alloc)?,
            place: 0,
            last: Moment::start(),
        })
    }
}

impl Clock for CaseClock {
    ghost last = { λ clock. clock.last };

    ghost coming = { λ _. None };

    fn now(&mut self) -> Moment {
        if let Some(reading) = self.readings.get(self.place) {
            self.place = self.place.saturating_add(1);
            if self.last.seconds() < reading.seconds() {
                self.last = *reading;
            }
        }
        self.last
    }
}
