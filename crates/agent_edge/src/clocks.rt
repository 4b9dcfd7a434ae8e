//! What tells the time.
ghost use Rattle.std.specs.Prelude.{◌≡◌, ℕ, ◌≤◌, List, Option, drop, option_map, IfSome};
ghost use Rattle.agent_edge.specs.Readings.{next_reading};

use money_units::Moment;

/// What tells the time, in moments that never fall.
pub trait Clock {
    /// The last reading, 0 before the first.
    ghost last: { Self → ℕ };

    /// The readings still to come, where they are told; behind them the last one comes again.
    ghost coming: { Self → Option (List ℕ) };

    /// The moment.
    fn now(&mut self) -> Moment
        ensures reading { IfSome (coming self.old) (λ readings. result
            ≡ next_reading (last self.old) readings) }
        ensures rest { coming self.new ≡ option_map (drop 1) (coming self.old) }
        ensures last { last self.new ≡ result }
        ensures never_falls { last self.old ≤ result };
}
