//! The households of orders listed under the classes that they name, before the orders are noted.
ghost use Rattle.std.specs.Prelude.{◌≡◌, ℕ, OnOk, true};
ghost use Rattle.desk_books.specs.NotedClasses.{IsOrderNoted, NotesOrder};
ghost use Rattle.register_machine.specs.journal.Kinds.{accounts_of};
ghost use Rattle.standing_orders.specs.ClassHouseholds.{is_listed};

use agent_events::{EventKind, Order};
use money_units::NoMemory;
use order_book::OrderBook;
use standing_orders::ClassHouseholds;
use std::alloc::Global;

/// Lists the household of an order's account, where the account is known, under the classes that the order names. What was listed
/// stays, after `NoMemory` too; an order that isn't noted after all leaves a household too many, which its reader passes over.
pub fn note_order(
    alloc: Global,
    classes: &mut ClassHouseholds,
    book: &OrderBook,
    order: &Order,
) -> Result<(), NoMemory>
    ensures noted { OnOk result
        (IsOrderNoted classes.new (accounts_of book.now.journal) order.now) }
    ensures kept { (class household : ℕ) → is_listed classes.old class household ≡ true
        → is_listed classes.new class household ≡ true }
{
    match book.account(order.account.number()) {
        Some(form) => {
            classes.note(alloc, form.household.number(), &order.body)?;
            Ok(())
        }
        None => Ok(()),
    }
}

// The same for the order that an event places, enters or brings as a replacement.
pub(crate) fn note_classes(
    alloc: Global,
    classes: &mut ClassHouseholds,
    book: &OrderBook,
    kind: &EventKind,
) -> Result<(), NoMemory>
    ensures noted { OnOk result
        (NotesOrder classes.new (accounts_of book.now.journal) kind.now) }
    ensures kept { (class household : ℕ) → is_listed classes.old class household ≡ true
        → is_listed classes.new class household ≡ true }
{
    match kind {
        EventKind::Order(placed) => note_order(alloc, classes, book, &placed.order),
        EventKind::Enter(form) => note_order(alloc, classes, book, &form.order),
        EventKind::Replace(form) => note_order(alloc, classes, book, &form.order),
        _ => Ok(()),
    }
}
