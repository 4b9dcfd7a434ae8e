//! What is kept of the household of an account.
ghost use Rattle.std.specs.Prelude.{◌≡◌};
ghost use Rattle.std.specs.Option.{option_copied, option_map_or};
ghost use Rattle.checkpoint_replay.specs.Parts.{state_in};
ghost use Rattle.desk_books.specs.BooksOfJournals.{AreBooksOf};
ghost use Rattle.holder_statements.specs.AccountPositions.{register_in};
ghost use Rattle.holder_statements.specs.HouseholdLooks.{part_in};
ghost use Rattle.register_desk.specs.NamedAccounts.{HasAccount, IsOfHousehold};
ghost use Rattle.register_laws.specs.Lawful.{book_behind};
ghost use Rattle.register_machine.specs.queries.Statement.{account_name};

use agent_events::{AccountRow, Trade};
use desk_books::DeskBooks;
use household_fold::HouseholdState;

/// The household of an account, which stands.
pub(crate) fn household_of(books: &DeskBooks, account: u32) -> u32
    requires books { AreBooksOf books.now.book.journal books.now }
    requires there { HasAccount books.now.book.journal account }
    ensures { IsOfHousehold books.now.book.journal result account }
{
    household_in(books.tables.account(account))
}

fn household_in(row: Option<AccountRow>) -> u32
    ensures { result ≡ option_map_or (λ row. row.household) row 0 }
{
    match row {
        Some(row) => row.household,
        None => 0,
    }
}

/// The state of a household as the whole replay leaves it; `None` where nothing is kept of it.
pub(crate) fn state_of(books: &DeskBooks, household: u32) -> Option<&HouseholdState>
    requires books { AreBooksOf books.now.book.journal books.now }
    ensures state { option_copied result ≡ state_in books.now.ledger.parts household }
    ensures register { register_in (option_copied result)
        ≡ (part_in (book_behind books.now.book.journal) household).register }
{
    books.ledger.state(household)
}

/// The trades of a household in the whole replay.
pub(crate) fn trades_of(books: &DeskBooks, household: u32) -> &[Trade]
    requires books { AreBooksOf books.now.book.journal books.now }
    ensures { result.now ≡ (part_in (book_behind books.now.book.journal) household).trades }
{
    books.ledger.trades(household)
}

/// The name of the account's form, empty where there is no such account.
pub(crate) fn name_of(books: &DeskBooks, account: u32) -> &[u8]
    ensures { result.now ≡ account_name (book_behind books.now.book.journal) account }
{
    match books.book.orders().account(account) {
        Some(form) => form.name.as_slice(),
        None => &[],
    }
}
