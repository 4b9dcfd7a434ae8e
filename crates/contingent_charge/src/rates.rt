//! The rate of a deferred charge by the years since the purchase.
ghost use Rattle.std.specs.Prelude.{◌≡◌, ◌≤◌, All};
ghost use Rattle.contingent_charge.specs.DeferredCharge as spec;

use fund_calendar::{Day, anniversaries};
use money_units::Bps;

/// The rate of the deferred charge, in basis points, of shares that were bought on one day and are sold on another: the row
/// of the schedule, counted from 0, for the number of anniversaries of the purchase that have come, and 0 past the schedule.
/// The anniversary of 29 February is 28 February in common years.
pub fn rate_on(bought: Day, sold: Day, schedule: &[Bps]) -> Bps
    ensures rate { result ≡ spec.rate_on bought sold schedule.now }
    ensures ceiling { All (λ rate. rate ≤ 850) schedule.now → result ≤ 850 }
{
    match schedule.get(usize::from(anniversaries(bought, sold))) {
        Some(rate) => *rate,
        None => Bps(0),
    }
}
