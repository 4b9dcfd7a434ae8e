//! The reply to a look at the statement of an account.
ghost use Rattle.std.specs.Prelude.{◌≡◌, IfOk, ℕ};
ghost use Rattle.agent_events.specs.declared.verdict.Caller.{Caller as AnyCaller};
ghost use Rattle.desk_books.specs.BooksOfJournals.{AreBooksOf};
ghost use Rattle.holder_statements.specs.HouseholdLooks.{part_in};
ghost use Rattle.register_desk.specs.NamedAccounts.{HasAccount, IsOfHousehold};
ghost use Rattle.register_laws.specs.Lawful.{book_behind, own_at};
ghost use Rattle.register_machine.specs.queries.Statement.{account_name, statement_reply, statement_text};
ghost use Rattle.register_machine.specs.replay.Replay.{replay};

use crate::households::{household_of, name_of, state_of, trades_of};
use agent_events::{Reply, StatementForm};
use desk_books::DeskBooks;
use holder_statements::statement;
use household_fold::HouseholdState;
use money_units::{Bytes, NoMemory};
use std::alloc::Global;

/// The statement of an account, which stands, by its household's state and trades.
pub(crate) fn statement_reply(
    alloc: Global,
    books: &DeskBooks,
    form: &StatementForm,
) -> Result<Reply, NoMemory>
    requires books { AreBooksOf books.now.book.journal books.now }
    requires there { HasAccount books.now.book.journal form.now.account }
    ensures { IfOk result (λ reply. (now : ℕ) (caller : AnyCaller)
        → reply ≡ statement_reply (own_at books.now.book.journal now caller) form.now) }
{
    let household = household_of(books, form.account.number());
    let text = text_by_household(alloc, books, household, form)?;
    Ok(Reply::Statement {
        account: form.account,
        text,
    })
}

// The text, by what is kept of the household; where nothing is kept its state is fresh.
fn text_by_household(
    alloc: Global,
    books: &DeskBooks,
    household: u32,
    form: &StatementForm,
) -> Result<Bytes, NoMemory>
    requires books { AreBooksOf books.now.book.journal books.now }
    requires of { IsOfHousehold books.now.book.journal household form.now.account }
    ensures { IfOk result (λ text. text
        ≡ statement_text (book_behind books.now.book.journal) form.now
        (account_name (book_behind books.now.book.journal) form.now.account)
        (replay (book_behind books.now.book.journal))) }
{
    match state_of(books, household) {
        Some(state) => text_by_state(alloc, books, household, state, form),
        None => {
            let fresh = HouseholdState::fresh(alloc, household);
            text_by_state(alloc, books, household, &fresh, form)
        }
    }
}

fn text_by_state(
    alloc: Global,
    books: &DeskBooks,
    household: u32,
    state: &HouseholdState,
    form: &StatementForm,
) -> Result<Bytes, NoMemory>
    requires books { AreBooksOf books.now.book.journal books.now }
    requires of { IsOfHousehold books.now.book.journal household form.now.account }
    requires state { state.now.register
        ≡ (part_in (book_behind books.now.book.journal) household).register }
    ensures { IfOk result (λ text. text
        ≡ statement_text (book_behind books.now.book.journal) form.now
        (account_name (book_behind books.now.book.journal) form.now.account)
        (replay (book_behind books.now.book.journal))) }
{
    let trades = trades_of(books, household);
    let name = name_of(books, form.account.number());
    let terms = books.tables.terms();
    let text = statement(alloc, state, trades, &books.prices, terms, form, name)?;
    Ok(text)
}
