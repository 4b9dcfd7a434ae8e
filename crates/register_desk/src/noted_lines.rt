//! Makes room for the orders of lines, and notes them.
ghost use Rattle.std.specs.Prelude.{◌≡◌, ◌≤◌, ◌++◌, ◌-◌, ℕ, length, true, OnOk};
ghost use Rattle.dealer_lines.specs.Lines.{line_event, line_events};
ghost use Rattle.desk_books.specs.BooksOfJournals.{AreBooksOf, ShowTheSame};
ghost use Rattle.desk_books.specs.NotedClasses.{IsOrderNoted};
ghost use Rattle.register_desk.specs.ReadyLines.{AreLinesNoted, AreReadyToNote};
ghost use Rattle.register_machine.specs.journal.Journals.{with_event};
ghost use Rattle.register_machine.specs.journal.Kinds.{accounts_of};
ghost use Rattle.register_machine.specs.journal.Lawful.{IsLawful};
ghost use Rattle.standing_orders.specs.ClassHouseholds.{is_listed};

use agent_events::{Event, EventKind, Placed};
use desk_books::{DeskBooks, household_of, note_order};
use money_units::{Moment, NoMemory};
use order_book::OrderBook;
use standing_orders::ClassHouseholds;
use std::alloc::Global;

/// Makes room for the orders of lines, and lists their households under the classes that they name. The books show what they
/// showed before, after `NoMemory` too.
pub fn reserve_lines(
    alloc: Global,
    books: &mut DeskBooks,
    placed: &[Placed],
) -> Result<(), NoMemory>
    ensures same { ShowTheSame books.old books.new }
    ensures journal { books.new.book.journal ≡ books.old.book.journal }
    ensures room { OnOk result (length placed.now ≤ books.new.book.spare) }
    ensures order_room { OnOk result (length placed.now ≤ books.new.orders.spare) }
    ensures classes { OnOk result
        (AreLinesNoted books.new.classes (accounts_of books.new.book.journal) placed.now) }
{
    books.book.reserve(placed.len())?;
    books.orders.reserve(placed.len())?;
    note_classes(alloc, &mut books.classes, books.book.orders(), placed)?;
    Ok(())
}

// Lists the household of each order's account under the order's classes.
fn note_classes(
    alloc: Global,
    classes: &mut ClassHouseholds,
    book: &OrderBook,
    placed: &[Placed],
) -> Result<(), NoMemory>
    ensures noted { OnOk result
        (AreLinesNoted classes.new (accounts_of book.now.journal) placed.now) }
    ensures kept { (class household : ℕ) → is_listed classes.old class household ≡ true
        → is_listed classes.new class household ≡ true }
{
    for line in placed {
        note_order(alloc, classes, book, &line.order)?;
    }
    Ok(())
}

// Notes the order of a line, which follows the journal; it moves no price, no table and no cash.
fn note_line(books: &mut DeskBooks, moment: Moment, placed: &Placed)
    requires books { AreBooksOf books.old.book.journal books.old }
    requires follows { IsLawful (with_event books.old.book.journal (line_event moment placed.now)) }
    requires room { 1 ≤ books.old.book.spare }
    requires order_room { 1 ≤ books.old.orders.spare }
    requires classes { IsOrderNoted books.old.classes (accounts_of books.old.book.journal)
        placed.now.order }
    ensures noted { AreBooksOf
        (with_event books.old.book.journal (line_event moment placed.now)) books.new }
    ensures room { books.new.book.spare ≡ books.old.book.spare - 1 }
    ensures order_room { books.new.orders.spare ≡ books.old.orders.spare - 1 }
    ensures classes { books.new.classes ≡ books.old.classes }
    ensures accounts { accounts_of books.new.book.journal ≡ accounts_of books.old.book.journal }
{
    let household = household_of(books.book.orders(), placed.order.account.number());
    let place = books.book.len();
    let event = Event::new(moment, EventKind::Order(*placed));
    books.book.note(place, event);
    books.orders.begin(household);
}

/// Notes the orders of lines, one behind the other: the books are then those of the journal with all of them. It takes no memory.
pub fn note_lines(books: &mut DeskBooks, moment: Moment, placed: &[Placed])
    requires books { AreBooksOf books.old.book.journal books.old }
    requires ready { AreReadyToNote books.old moment placed.now }
    ensures { AreBooksOf (books.old.book.journal ++ line_events moment placed.now) books.new }
{
    for order in placed {
        note_line(books, moment, order);
    }
}
