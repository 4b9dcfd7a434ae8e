//! The reply to a look at the books: the shares and the cash of the classes, and the cash of all other parties.
ghost use Rattle.std.specs.Prelude.{◌≡◌, IfOk, filter_map, map, ℕ};
ghost use Rattle.agent_events.specs.declared.verdict.Caller.{Caller as AnyCaller};
ghost use Rattle.desk_books.specs.BooksOfJournals.{AreBooksOf};
ghost use Rattle.register_desk.specs.GatheredNumbers.{class_number, shares_in};
ghost use Rattle.register_laws.specs.Lawful.{book_behind, own_at};
ghost use Rattle.register_machine.specs.corrections.Gains.{class_numbers_of};
ghost use Rattle.register_machine.specs.queries.Books.{books_reply};
ghost use Rattle.register_machine.specs.replay.Replay.{replay};

use crate::dealers::dealer_numbers;
use agent_events::{Identifier, Reply};
use class_terms::Terms;
use desk_books::DeskBooks;
use holder_statements::ClassShares;
use money_units::NoMemory;
use order_book::OrderBook;
use std::alloc::Global;

/// The books as they are kept.
pub(crate) fn books_reply(alloc: Global, books: &DeskBooks) -> Result<Reply, NoMemory>
    requires books { AreBooksOf books.now.book.journal books.now }
    ensures { IfOk result (λ reply. (now : ℕ) (caller : AnyCaller)
        → reply ≡ books_reply (own_at books.now.book.journal now caller)) }
{
    let numbers = class_numbers(alloc, books)?;
    let classes = class_shares(alloc, books, &numbers)?;
    let dealers = dealer_numbers(alloc, books.book.orders())?;
    let reply = holder_statements::books_reply(alloc, &classes, &dealers, &books.cash)?;
    Ok(reply)
}

/// The numbers of all classes, by rising number.
pub(crate) fn class_numbers(alloc: Global, books: &DeskBooks) -> Result<Vec<Identifier>, NoMemory>
    requires books { AreBooksOf books.now.book.journal books.now }
    ensures { IfOk result (λ numbers. numbers.items ≡ class_numbers_of books.now.book.journal) }
{
    let numbers = numbers_in(alloc, books.book.orders(), books.tables.terms().as_slice())?;
    Ok(numbers)
}

// The numbers of the classes with these terms.
fn numbers_in(
    alloc: Global,
    orders: &OrderBook,
    terms: &[Terms],
) -> Result<Vec<Identifier>, NoMemory>
    ensures { IfOk result (λ numbers. numbers.items
        ≡ filter_map (class_number orders.now.journal) terms.now) }
{
    let mut numbers = Vec::new(alloc);
    for row in terms {
        if let Some(number) = number_of(orders, row) {
            numbers.push(number)?;
        }
    }
    Ok(numbers)
}

fn number_of(orders: &OrderBook, terms: &Terms) -> Option<Identifier>
    ensures { result ≡ class_number orders.now.journal terms.now }
{
    match orders.class(terms.class()) {
        Some(form) => Some(form.class),
        None => None,
    }
}

// The outstanding shares of these classes.
fn class_shares(
    alloc: Global,
    books: &DeskBooks,
    numbers: &[Identifier],
) -> Result<Vec<ClassShares>, NoMemory>
    requires books { AreBooksOf books.now.book.journal books.now }
    ensures { IfOk result (λ rows. rows.items
        ≡ map (shares_in (replay (book_behind books.now.book.journal)).register) numbers.now) }
{
    let mut rows = Vec::new(alloc);
    for number in numbers {
        rows.push(shares_of(books, *number))?;
    }
    Ok(rows)
}

fn shares_of(books: &DeskBooks, class: Identifier) -> ClassShares
    requires books { AreBooksOf books.now.book.journal books.now }
    ensures { result ≡ shares_in (replay (book_behind books.now.book.journal)).register class }
{
    ClassShares {
        class,
        mils: books.ledger.outstanding(class.number()).unsigned_abs(),
    }
}
