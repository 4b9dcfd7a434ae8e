//! The classes of a state's positions, each counted once.
ghost use Rattle.std.specs.Prelude.{◌≡◌, ◌+◌, ◌||◌, ℕ, IfOk, OnOk, if◌then◌else◌, nat_eq, nat_le};
ghost use Rattle.std.specs.HashSet.{contains};
ghost use Rattle.state_rows.specs.Rules as rule;

use agent_events::PositionRow;
use money_units::NoMemory;
use std::alloc::Global;
use std::collections::HashSet;

/// The register has so many classes at most.
const MOST_CLASSES: usize = 1_000;

/// Whether positions are of 1,000 classes at most. It takes no memory where there are no more positions than that.
pub(crate) fn are_few_classes(alloc: Global, rows: &[PositionRow]) -> Result<bool, NoMemory>
    ensures { IfOk result (λ few. few ≡ rule.are_few_classes rows.now) }
{
    if rows.len() <= MOST_CLASSES {
        return Ok(true);
    }
    are_few_met(alloc, rows)
}

// The same by the set of the classes that were met.
fn are_few_met(alloc: Global, rows: &[PositionRow]) -> Result<bool, NoMemory>
    ensures { IfOk result (λ few. few ≡ rule.are_few_classes rows.now) }
{
    let mut met = HashSet::new(alloc);
    let mut count = 0;
    for row in rows {
        count += meet(&mut met, row)?;
        if MOST_CLASSES < count {
            return Ok(false);
        }
    }
    Ok(true)
}

// Meets the class of a position, and counts it where it is new.
fn meet(met: &mut HashSet<u32>, row: &PositionRow) -> Result<usize, NoMemory>
    ensures count { IfOk result (λ count. count
        ≡ (if contains nat_eq met.old row.now.class then 0 else 1)) }
    ensures met { OnOk result ((class : ℕ) → contains nat_eq met.new class
        ≡ (nat_eq class row.now.class || contains nat_eq met.old class)) }
{
    if met.insert(row.class)? { Ok(1) } else { Ok(0) }
}
