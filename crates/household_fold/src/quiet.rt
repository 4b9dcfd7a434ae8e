//! Whether the sheet at hand does nothing to a household.
ghost use Rattle.std.specs.Prelude.{◌≡◌, true};
ghost use Rattle.std.specs.List.{list_any};
ghost use Rattle.register_machine.specs.replay.Letter.{has_letter_over};
ghost use Rattle.household_fold.specs.Facts.{FactsFit, IsListed, sheet_at_hand};
ghost use Rattle.household_fold.specs.Households.{first_of, step_known};
ghost use Rattle.household_fold.specs.Quiet.{is_paid, is_payment, is_quiet_for, payment_of};

use crate::dividends::payment_on;
use crate::facts::Facts;
use agent_events::Order;
use dividend_reinvest::Payment;
use household_positions::{HouseholdRegister, KeptPosition};

/// Whether there is no order, no payment and no letter that ends; the step then changes nothing.
pub(crate) fn is_quiet(facts: &Facts, register: &HouseholdRegister, orders: &[Order]) -> bool
    requires { FactsFit facts.now }
    ensures quiet { result ≡ is_quiet_for facts.now orders.now register.now }
    ensures nothing { result ≡ true
        → step_known facts.now orders.now register.now ≡ first_of register.now }
{
    is_left_alone(facts, register.positions(), orders)
}

/// Whether there is no order, no payment and no letter that ends.
fn is_left_alone(facts: &Facts, positions: &[KeptPosition], orders: &[Order]) -> bool
    requires { FactsFit facts.now }
    ensures { result ≡ is_quiet_for facts.now orders.now positions.now }
{
    orders.is_empty() && (!any_paid(facts, positions) && !any_letter_over(facts, positions))
}

/// Whether the sheet pays on any position.
fn any_paid(facts: &Facts, positions: &[KeptPosition]) -> bool
    requires { FactsFit facts.now }
    ensures { result ≡ list_any (is_paid facts.now) positions.now }
{
    for position in positions {
        if is_paid(facts, position) {
            return true;
        }
    }
    false
}

/// Whether the letter of any position ends by the date of the sheet.
fn any_letter_over(facts: &Facts, positions: &[KeptPosition]) -> bool
    requires { FactsFit facts.now }
    ensures { result ≡ list_any (has_letter_over (sheet_at_hand facts.now)) positions.now }
{
    for position in positions {
        if has_letter_over(facts, position) {
            return true;
        }
    }
    false
}

/// Whether the sheet lists a position's class and pays on it.
fn is_paid(facts: &Facts, position: &KeptPosition) -> bool
    requires { FactsFit facts.now }
    ensures { result ≡ is_paid facts.now position.now }
{
    facts.lists(class_of(position)) && has_payment(facts, position)
}

/// The class of a position.
fn class_of(position: &KeptPosition) -> u32
    ensures { result ≡ position.now.class }
{
    position.class
}

/// Whether a sheet that lists a position's class pays on it.
fn has_payment(facts: &Facts, position: &KeptPosition) -> bool
    requires facts { FactsFit facts.now }
    requires listed { IsListed facts.now position.now.class }
    ensures { result ≡ is_payment (payment_of facts.now position.now.class position.now) }
{
    let class = class_of(position);
    match payment_on(position, facts.rate(class), facts.nav(class)) {
        Payment::Nothing => false,
        Payment::Cash(_) => true,
        Payment::Shares { cash: _, mils: _ } => true,
    }
}

/// Whether a position has a letter that ends by the date of the sheet, in a class that the sheet lists.
fn has_letter_over(facts: &Facts, position: &KeptPosition) -> bool
    requires { FactsFit facts.now }
    ensures { result ≡ has_letter_over (sheet_at_hand facts.now) position.now }
{
    position.has_letter_over(facts.published())
}
