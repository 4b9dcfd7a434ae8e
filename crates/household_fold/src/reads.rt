//! What is read of a register before a position is taken out: its open letter, and its room below the ceiling.
ghost use Rattle.std.specs.Prelude.{◌≡◌};
ghost use Rattle.register_machine.specs.replay.Positions.{has_room, position_of};

use household_positions::{HouseholdRegister, KeptPosition};
use letter_of_intent::Letter;
use money_units::{Cents, Mils};

/// The most mils of a position.
const MAX_POSITION_MILS: u128 = 1_000_000_000_000;

/// The most cents of cost of a position.
const MAX_POSITION_CENTS: u128 = 1_000_000_000_000_000;

/// The open letter of an account and class.
pub(crate) fn letter_of(register: &HouseholdRegister, account: u32, class: u32) -> Option<Letter>
    ensures { result ≡ (position_of register.now account class).letter }
{
    match register.find(account, class) {
        Some(position) => position.letter(),
        None => None,
    }
}

/// Whether the position of an account and class stays within its ceiling with so many mils and so much cost more.
pub(crate) fn has_room(
    register: &HouseholdRegister,
    account: u32,
    class: u32,
    mils: Mils,
    cost: Cents,
) -> bool
    ensures { result ≡ has_room (position_of register.now account class).holding mils cost }
{
    match register.find(account, class) {
        Some(position) => held_has_room(position, mils, cost),
        None => {
            u128::from(mils.0) <= MAX_POSITION_MILS && u128::from(cost.0) <= MAX_POSITION_CENTS
        }
    }
}

fn held_has_room(position: &KeptPosition, mils: Mils, cost: Cents) -> bool
    ensures { result ≡ has_room position.now.holding mils cost }
{
    u128::from(position.holding().mils().0) + u128::from(mils.0) <= MAX_POSITION_MILS
        && u128::from(position.holding().cost().0) + u128::from(cost.0) <= MAX_POSITION_CENTS
}
