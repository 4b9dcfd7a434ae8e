//! The limits of changes and of gains, for a caller that tests them.
ghost use Rattle.std.specs.Prelude.{◌≡◌, ◌≤◌, ◌↔◌, ◌&&◌, IsTrue, nat_le};
ghost use Rattle.std.specs.List.{list_all};
ghost use Rattle.gain_loss_book.specs.ClassGains.{are_numbered, is_numbered, most_mils, size_of_mils};
ghost use Rattle.gain_loss_book.specs.Posted.{most_cash, most_gains, size_of_cash, size_of_gains};

use agent_events::{CashChange, Changes, ClassGain, ClassGains, MilsChange, Party};

/// Changes of cash add up to at most so many cents in size.
const MOST_CASH: u128 = 20_000_000_000_000_000_000_000_000_000;

/// Changes of shares add up to at most so many mils in size.
const MOST_MILS: u128 = 60_000_000_000_000_000_000_000_000;

/// Gains add up to at most so many cents in size.
const MOST_GAINS: u128 = 1_000_000_000_000_000_000_000_000_000_000;

/// Whether the changes of cash add up to at most 2 * 10^28 cents in size.
pub fn cash_within(changes: &Changes) -> bool
    ensures { IsTrue result ↔ (size_of_cash changes.now.cash ≤ most_cash) }
{
    cash_adds_up(changes.cash.as_slice())
}

/// Whether the changes of shares add up to at most 6 * 10^25 mils in size.
pub fn shares_within(changes: &Changes) -> bool
    ensures { IsTrue result ↔ (size_of_mils changes.now.outstanding ≤ most_mils) }
{
    mils_add_up(changes.outstanding.as_slice())
}

/// Whether the gains add up to at most 10^30 cents in size.
pub fn gains_within(gains: &ClassGains) -> bool
    ensures { IsTrue result ↔ (size_of_gains gains.now ≤ most_gains) }
{
    gains_add_up(gains.as_slice())
}

/// Whether all classes that the changes name have numbers from 1 on.
pub fn classes_are_numbered(changes: &Changes) -> bool
    ensures { result ≡ are_numbered changes.now }
{
    parties_are_numbered(changes.cash.as_slice())
        && shares_are_numbered(changes.outstanding.as_slice())
}

fn parties_are_numbered(changes: &[CashChange]) -> bool
    ensures { result ≡ list_all (λ change. is_numbered change.party) changes.now }
{
    changes.iter().all(|change| is_numbered(&change.party))
}

fn shares_are_numbered(changes: &[MilsChange]) -> bool
    ensures { result ≡ list_all (λ change. nat_le 1 change.class) changes.now }
{
    changes.iter().all(|change| 1 <= change.class)
}

fn is_numbered(party: &Party) -> bool
    ensures { result ≡ is_numbered party.now }
{
    match party {
        Party::Class(class) => 1 <= *class,
        _ => true,
    }
}

fn cash_adds_up(changes: &[CashChange]) -> bool
    ensures { IsTrue result ↔ (size_of_cash changes.now ≤ most_cash) }
{
    let mut left = MOST_CASH;
    for change in changes {
        let size = change.cents.unsigned_abs();
        if left < size {
            return false;
        }
        left -= size;
    }
    true
}

fn mils_add_up(changes: &[MilsChange]) -> bool
    ensures { IsTrue result ↔ (size_of_mils changes.now ≤ most_mils) }
{
    let mut left = MOST_MILS;
    for change in changes {
        let size = change.mils.unsigned_abs();
        if left < size {
            return false;
        }
        left -= size;
    }
    true
}

fn gains_add_up(gains: &[ClassGain]) -> bool
    ensures { IsTrue result ↔ (size_of_gains gains.now ≤ most_gains) }
{
    let mut left = MOST_GAINS;
    for gain in gains {
        let size = gain.cents.unsigned_abs();
        if left < size {
            return false;
        }
        left -= size;
    }
    true
}
