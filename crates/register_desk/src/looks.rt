//! Replies to looks.
ghost use Rattle.std.specs.Prelude.{◌≡◌, Contains, IfOk, Some, ℕ};
ghost use Rattle.agent_events.specs.declared.verdict.Caller.{Caller as AnyCaller};
ghost use Rattle.desk_books.specs.BooksOfJournals.{AreBooksOf};
ghost use Rattle.register_desk.specs.NamedAccounts.{HasAccount, NamesAnAccount};
ghost use Rattle.register_desk.specs.Replies.{IsLook};
ghost use Rattle.register_laws.specs.Lawful.{book_behind, own_at};
ghost use Rattle.register_machine.specs.pricing.CorrectedOrders.{order_named, orders_of};
ghost use Rattle.register_machine.specs.queries.Show.{show_reply};
ghost use Rattle.register_machine.specs.queries.Trace.{trace_of_row, trace_reply};
ghost use Rattle.register_machine.specs.run.Answers.{query_reply};

use crate::balances::{books_reply, class_numbers};
use crate::households::{household_of, state_of, trades_of};
use crate::statements::statement_reply;
use agent_events::{Identifier, OrderRow, OrderState, Refusal, Reply, Request, TraceForm};
use desk_books::DeskBooks;
use money_units::NoMemory;
use std::alloc::Global;

/// The reply to a look that breaks no rule, from one household's state and trades, or from the books that are kept.
pub fn look_reply(alloc: Global, books: &DeskBooks, request: &Request) -> Result<Reply, NoMemory>
    requires books { AreBooksOf books.now.book.journal books.now }
    requires look { (now : ℕ) × (caller : AnyCaller)
        × IsLook books.now.book.journal now caller request.now }
    ensures { IfOk result (λ reply. (now : ℕ) (caller : AnyCaller)
        → reply ≡ query_reply (own_at books.now.book.journal now caller) request.now) }
{
    reply_by_verb(alloc, books, request)
}

// The reply to a look at an account that stands, or at the books.
fn reply_by_verb(alloc: Global, books: &DeskBooks, request: &Request) -> Result<Reply, NoMemory>
    requires books { AreBooksOf books.now.book.journal books.now }
    requires there { NamesAnAccount books.now.book.journal request.now }
    ensures { IfOk result (λ reply. (now : ℕ) (caller : AnyCaller)
        → reply ≡ query_reply (own_at books.now.book.journal now caller) request.now) }
{
    match request {
        Request::Show(account) => show_reply(alloc, books, *account),
        Request::Trace(form) => Ok(trace_reply(books, form)),
        Request::Statement(form) => statement_reply(alloc, books, form),
        Request::Books => books_reply(alloc, books),
        _ => unreachable!(),
    }
}

// What an account holds, which stands.
fn show_reply(alloc: Global, books: &DeskBooks, account: Identifier) -> Result<Reply, NoMemory>
    requires books { AreBooksOf books.now.book.journal books.now }
    requires there { HasAccount books.now.book.journal account }
    ensures { IfOk result (λ reply. (now : ℕ) (caller : AnyCaller)
        → reply ≡ show_reply (own_at books.now.book.journal now caller) account) }
{
    let household = household_of(books, account.number());
    let classes = class_numbers(alloc, books)?;
    let state = state_of(books, household);
    let reply = holder_statements::show_reply(alloc, state, &classes, account)?;
    Ok(reply)
}

// What became of an order of an account that stands.
fn trace_reply(books: &DeskBooks, form: &TraceForm) -> Reply
    requires books { AreBooksOf books.now.book.journal books.now }
    requires there { HasAccount books.now.book.journal form.now.account }
    ensures { (now : ℕ) (caller : AnyCaller)
        → result ≡ trace_reply (own_at books.now.book.journal now caller) form.now }
{
    match books
        .book
        .order(form.account.number(), form.ref_no.number())
    {
        Some(row) => trace_of_row(books, form, row),
        None => Reply::Refused(Refusal::NoSuch(2)),
    }
}

// What became of the order that is named, by its household's trades.
fn trace_of_row(books: &DeskBooks, form: &TraceForm, row: &OrderRow) -> Reply
    requires books { AreBooksOf books.now.book.journal books.now }
    requires there { HasAccount books.now.book.journal form.now.account }
    requires named { order_named (orders_of books.now.book.journal) form.now.account form.now.ref_no
        ≡ Some row.now }
    ensures { (now : ℕ) (caller : AnyCaller)
        → result ≡ trace_reply (own_at books.now.book.journal now caller) form.now }
{
    let _least = form.ref_no.number();
    let household = household_of(books, form.account.number());
    let trades = trades_of(books, household);
    holder_statements::trace_reply(&books.prices, trades, row)
}

/// The state of an order of the register, as its trace shows it, by its household's trades: two looks, or a search among them.
pub fn order_state(books: &DeskBooks, row: &OrderRow) -> OrderState
    requires books { AreBooksOf books.now.book.journal books.now }
    requires there { Contains (orders_of books.now.book.journal) row.now }
    ensures { result ≡ (trace_of_row (book_behind books.now.book.journal) row.now).state }
{
    let _least = row.order.ref_no.number();
    let household = household_of(books, row.order.account.number());
    holder_statements::order_state(&books.prices, trades_of(books, household), row)
}
