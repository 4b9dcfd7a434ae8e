//! A clock in memory. It tells its readings.
ghost use Rattle.std.specs.Prelude.{◌≡◌, ◌≤◌, Some, IfOk};
ghost use Rattle.agent_edge.specs.Readings.{NeverFall, next_reading, after_reading};

use super::Clock;
use money_units::{Moment, NoMemory};
use std::alloc::Global;
use std::marker::Model;

/// A clock that gives the readings that it was made with, in turn, and the last one again where none is left. Before
/// the first one stands 0.
#[derive(Drop)]
pub struct MemoryClock {
    readings: Vec<Moment>,
    position: usize,
    last: Moment,
}

impl Model for MemoryClock {
    ghost use Rattle.std.specs.Prelude.{◌≤◌, drop, vec_len};
    ghost use Rattle.agent_edge.specs.Readings.{ClockState, NeverFall};

    ghost Value = { ClockState };

    ghost view = { λ s. record { last = s.last; coming = drop s.position s.readings.items } };

    ghost invariant = { λ s. (s.position ≤ vec_len s.readings)
        × NeverFall s.last (drop s.position s.readings.items) };
}

impl MemoryClock {
    /// A clock of these readings, which never fall.
    pub fn new(alloc: Global, readings: &[Moment]) -> Result<MemoryClock, NoMemory>
        requires { NeverFall 0 readings.now }
        ensures { IfOk result (λ clock. clock ≡ record { last = 0; coming = readings.now }) }
    {
        Ok(MemoryClock {
            readings: readings.to_vec(alloc)?,
            position: 0,
            last: Moment::start(),
        })
    }
}

impl Clock for MemoryClock {
    ghost last = { λ clock. clock.last };

    ghost coming = { λ clock. Some clock.coming };

    fn now(&mut self) -> Moment
        ensures value { result ≡ next_reading self.old.last self.old.coming }
        ensures after { self.new ≡ after_reading self.old }
        ensures never_falls { self.old.last ≤ result }
    {
        if let Some(reading) = self.readings.get(self.position) {
            self.last = *reading;
            self.position += 1;
        }
        self.last
    }
}
