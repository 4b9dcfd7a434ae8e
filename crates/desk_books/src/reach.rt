//! The households whose parts of the register a correction can change.
ghost use Rattle.std.specs.Prelude.{◌≡◌, IfOk, option_to_list};
ghost use Rattle.std.specs.List.Sorted.{IsStrictlyIncreasing};
ghost use Rattle.desk_books.specs.HouseholdsReopened.{AreReachedBy};
ghost use Rattle.register_machine.specs.journal.Kinds.{accounts_of, household_of};

use crate::naming::{households_naming, push_found};
use agent_events::{EventKind, Identifier};
use money_units::NoMemory;
use order_book::OrderBook;
use standing_orders::{ClassHouseholds, HouseholdOrders};
use std::alloc::Global;

/// The households that a correction of this kind reopens, each once and rising: that of the account whose order it enters, replaces
/// or voids, where the account is known; those whose standing orders name the class of a corrected price or rate, for which it looks
/// at the households that have named the class and goes back over the orders of each up to the last one that does. An event of any
/// other kind is no correction and reopens none.
pub fn households_reached(
    alloc: Global,
    book: &OrderBook,
    index: &HouseholdOrders,
    classes: &ClassHouseholds,
    kind: &EventKind,
) -> Result<Vec<u32>, NoMemory>
    ensures reached { IfOk result (λ households.
        AreReachedBy book.now.journal index.now.owners classes.now kind.now households.items) }
    ensures rising { IfOk result (λ households. IsStrictlyIncreasing households.items) }
{
    match kind {
        EventKind::Enter(form) => household_alone(alloc, book, form.order.account),
        EventKind::Replace(form) => household_alone(alloc, book, form.order.account),
        EventKind::Void(form) => household_alone(alloc, book, form.account),
        EventKind::FixPrice(form) => {
            households_naming(alloc, book, index, classes, form.class.number())
        }
        EventKind::FixRate(form) => {
            households_naming(alloc, book, index, classes, form.class.number())
        }
        _ => Ok(Vec::new(alloc)),
    }
}

fn household_alone(
    alloc: Global,
    book: &OrderBook,
    account: Identifier,
) -> Result<Vec<u32>, NoMemory>
    ensures alone { IfOk result (λ households. households.items
        ≡ option_to_list (household_of (accounts_of book.now.journal) account)) }
    ensures rising { IfOk result (λ households. IsStrictlyIncreasing households.items) }
{
    let mut households = Vec::new(alloc);
    push_found(&mut households, household_of(book, account))?;
    Ok(households)
}

fn household_of(book: &OrderBook, account: Identifier) -> Option<u32>
    ensures { result ≡ household_of (accounts_of book.now.journal) account }
{
    match book.account(account.number()) {
        Some(form) => Some(form.household.number()),
        None => None,
    }
}
