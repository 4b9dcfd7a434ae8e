//! What the lots of a list hold and cost together, and which of two lots comes first.
ghost use Rattle.std.specs.Prelude.{◌≡◌, ◌+◌, ◌≤◌, true, sum_by, map, All};
ghost use Rattle.share_lots.specs.Lots as spec;

use crate::Lot;

/// The loose mils of a lot.
pub(crate) fn loose_of(lot: &Lot) -> u64
    ensures { result ≡ lot.now.loose }
{
    lot.loose.0
}

/// The held mils of a lot.
pub(crate) fn held_of(lot: &Lot) -> u64
    ensures { result ≡ lot.now.held }
{
    lot.held.0
}

/// The cost of a lot.
pub(crate) fn cost_of(lot: &Lot) -> u64
    ensures { result ≡ lot.now.cost }
{
    lot.cost.0
}

/// The loose mils of lots.
pub(crate) fn loose_total(lots: &[Lot]) -> u64
    requires { sum_by (λ lot. lot.loose) lots.now ≤ spec.most_mils }
    ensures { result ≡ sum_by (λ lot. lot.loose) lots.now }
{
    lots.iter().map(|lot| lot.loose.0).sum()
}

/// The held mils of lots.
pub(crate) fn held_total(lots: &[Lot]) -> u64
    requires { sum_by (λ lot. lot.held) lots.now ≤ spec.most_mils }
    ensures { result ≡ sum_by (λ lot. lot.held) lots.now }
{
    lots.iter().map(|lot| lot.held.0).sum()
}

/// The mils of lots, loose and held together.
pub(crate) fn mils_total(lots: &[Lot]) -> u64
    requires { sum_by spec.mils lots.now ≤ spec.most_mils }
    ensures { result ≡ sum_by spec.mils lots.now }
{
    loose_total(lots) + held_total(lots)
}

/// The cost of lots.
pub(crate) fn cost_total(lots: &[Lot]) -> u64
    requires { sum_by (λ lot. lot.cost) lots.now ≤ spec.most_cost }
    ensures { result ≡ sum_by (λ lot. lot.cost) lots.now }
{
    lots.iter().map(|lot| lot.cost.0).sum()
}

/// The lot comes before the other by rank: the free lot first, and then by date and number.
pub(crate) fn ranks_before(lot: &Lot, other: &Lot) -> bool
    ensures { result ≡ spec.ranks_before lot.now other.now }
{
    !other.free && (lot.free || before_by_date(lot, other))
}

/// All lots come before this one by rank, as their last one does.
pub(crate) fn precede(lots: &[Lot], lot: &Lot) -> bool
    requires { spec.AreRanked lots.now }
    ensures { result ≡ true → All (λ other. spec.ranks_before other lot.now ≡ true) lots.now }
{
    match lots.last() {
        Some(last) => ranks_before(last, lot),
        None => true,
    }
}

/// The lot has the earlier date, or at equal dates the smaller number.
pub(crate) fn before_by_date(lot: &Lot, other: &Lot) -> bool
    ensures { result ≡ spec.before_by_date lot.now other.now }
{
    lot.day < other.day || (lot.day == other.day && lot.number < other.number)
}
