//! The credit of an account: what its household owns towards the breakpoints of a purchase.
ghost use Rattle.std.specs.Prelude.{◌≡◌, ◌==◌, ◌≤◌, false};
ghost use Rattle.std.specs.Option.{option_map_or};
ghost use Rattle.register_machine.specs.journal.Kinds.{household_of};
ghost use Rattle.register_machine.specs.replay.Purchase.{credit_of, is_counted, worth_on};
ghost use Rattle.household_fold.specs.Credits.{position_credit};
ghost use Rattle.household_fold.specs.Facts.{FactsFit, book_of_facts, sheet_at_hand};
ghost use Rattle.household_fold.specs.Limits.{AreFew};

use crate::facts::Facts;
use household_positions::KeptPosition;
use offering_price::{Holding, credit_of_holding};

/// The credit of an account over the positions of its household as they stand, in cents. It costs a search of a price for
/// each position.
pub(crate) fn credit_of(facts: &Facts, positions: &[KeptPosition], account: u32) -> u128
    requires facts { FactsFit facts.now }
    requires few { AreFew positions.now }
    ensures value { result ≡ credit_of (book_of_facts facts.now)
        (sheet_at_hand facts.now) positions.now account }
    ensures most { result ≤ 640000000000000000000 }
{
    let household = facts.household(account);
    let mut credit = 0;
    for position in positions {
        credit += position_credit(facts, account, household, position);
    }
    credit
}

// What one position adds to the credit of an account of this household.
fn position_credit(
    facts: &Facts,
    account: u32,
    household: Option<u32>,
    position: &KeptPosition,
) -> u128
    requires facts { FactsFit facts.now }
    requires household { household ≡ household_of (book_of_facts facts.now).accounts account }
    ensures value { result ≡ position_credit (book_of_facts facts.now)
        (sheet_at_hand facts.now) household position.now }
    ensures most { result ≤ 10000000000000000 }
{
    if is_counted(facts, account, household, position) {
        credit_of_holding(worth_on(facts, position))
    } else {
        0
    }
}

fn is_counted(facts: &Facts, account: u32, household: Option<u32>, position: &KeptPosition) -> bool
    requires facts { FactsFit facts.now }
    requires household { household ≡ household_of (book_of_facts facts.now).accounts account }
    ensures { result ≡ is_counted (book_of_facts facts.now) household position.now }
{
    facts.counts(position.class) && is_owned(facts, account, household, position.account)
}

// Whether an account is of the household of this one, which takes no search where it is this one.
fn is_owned(facts: &Facts, own: u32, household: Option<u32>, account: u32) -> bool
    requires facts { FactsFit facts.now }
    requires household { household ≡ household_of (book_of_facts facts.now).accounts own }
    ensures { result ≡ option_map_or (λ owner. option_map_or (λ other. other == owner)
        (household_of (book_of_facts facts.now).accounts account) false) household false }
{
    if account == own {
        return household.is_some();
    }
    match household {
        Some(owner) => match facts.household(account) {
            Some(other) => other == owner,
            None => false,
        },
        None => false,
    }
}

// A position as its household's breakpoints see it.
fn worth_on(facts: &Facts, position: &KeptPosition) -> Holding
    requires { FactsFit facts.now }
    ensures value { result ≡ worth_on (book_of_facts facts.now)
        (sheet_at_hand facts.now) position.now }
    ensures mils { result.mils ≤ 1000000000000 }
    ensures cost { result.cost ≤ 1000000000000000 }
{
    Holding {
        mils: position.holding().mils(),
        cost: position.holding().cost(),
        nav: facts.last_price(position.class),
    }
}
