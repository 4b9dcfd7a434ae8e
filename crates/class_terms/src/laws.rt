//! Laws of the tables of loads in plain words. Each function is empty: its clauses hold of the definitions.
ghost use Rattle.std.specs.Prelude.{◌≡◌, ◌<◌, ◌≤◌, None, Some, length, slice_get};
ghost use Rattle.class_terms.specs.Tables.{front_fault, deferred_fault};

use crate::lists::Bracket;
use money_units::Bps;

/// In a lawful table of front-end loads the first row begins at nothing, and there are 1 to 16 rows.
pub fn tables_begin_at_nothing(rows: &[Bracket], first: Bracket)
    requires lawful { front_fault rows.now ≡ None }
    requires first { slice_get rows.now 0 ≡ Some first }
    ensures floor { first.floor ≡ 0 }
    ensures least { 1 ≤ length rows.now }
    ensures most { length rows.now ≤ 16 }
{}

/// In a lawful table of front-end loads a later row has a greater breakpoint and no greater rate, and no rate passes 850
/// basis points.
pub fn rates_fall_as_breakpoints_rise(
    rows: &[Bracket],
    earlier: usize,
    later: usize,
    low: Bracket,
    high: Bracket,
)
    requires lawful { front_fault rows.now ≡ None }
    requires order { earlier < later }
    requires low { slice_get rows.now earlier ≡ Some low }
    requires high { slice_get rows.now later ≡ Some high }
    ensures floors { low.floor < high.floor }
    ensures rates { high.rate ≤ low.rate }
    ensures ceiling { low.rate ≤ 850 }
{}

/// In a lawful schedule of deferred loads a later year has no greater rate, no rate passes 850 basis points, and there are
/// at most 10 years.
pub fn deferred_rates_fall(rates: &[Bps], earlier: usize, later: usize, first: Bps, second: Bps)
    requires lawful { deferred_fault rates.now ≡ None }
    requires order { earlier < later }
    requires first { slice_get rates.now earlier ≡ Some first }
    requires second { slice_get rates.now later ≡ Some second }
    ensures rates { second ≤ first }
    ensures ceiling { first ≤ 850 }
    ensures most { length rates.now ≤ 10 }
{}
