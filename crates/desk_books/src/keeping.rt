//! The states of the households that a sheet moves are kept as they stand before it, now and then.
ghost use Rattle.std.specs.Prelude.{◌≡◌, length};
ghost use Rattle.desk_books.specs.BooksOfJournals.{AreBooksOf, ShowTheSame};
ghost use Rattle.ledger_laws.specs.KeptOfBooks.{AreKeptOf};
ghost use Rattle.ledger_laws.specs.Ledgers.{IsLedgerOf};
ghost use Rattle.register_machine.specs.pricing.CorrectedBook.{Book};
ghost use Rattle.standing_orders.specs.SettledOrders.{AllAreSettled, first_waiting};

use crate::books::DeskBooks;
use crate::index::sheets_published;
use checkpoint_replay::{HouseholdMove, KeptState, KeptStates, Ledger};
use money_units::NoMemory;
use standing_orders::HouseholdOrders;
use std::alloc::Global;

/// Keeps what each of the households that are moved came to behind the last sheet, where the last state of it that is kept is old
/// or missing: one allocation for such a household, whose positions are shared with the ledger. The books show what they showed before,
/// after `NoMemory` too.
pub(crate) fn keep_moved(
    alloc: Global,
    books: &mut DeskBooks,
    moves: &[HouseholdMove],
) -> Result<(), NoMemory>
    requires { AreBooksOf books.old.book.journal books.old }
    ensures same { ShowTheSame books.old books.new }
    ensures journal { books.new.book ≡ books.old.book }
    ensures ledger { books.new.ledger ≡ books.old.ledger }
{
    let sheet = sheets_published(&books.prices)?;
    let orders = first_waiting(&books.orders);
    keep_states(alloc, &mut books.kept, &books.ledger, sheet, orders, moves)
}

// The place of the first order that waits, or how many orders there are.
fn first_waiting(orders: &HouseholdOrders) -> usize
    ensures { result ≡ first_waiting orders.now.waiting (length orders.now.owners) }
{
    match orders.waiting().first() {
        Some(place) => *place,
        None => orders.owners().len(),
    }
}

// Keeps states of these households behind the last sheet, where they are due.
fn keep_states(
    alloc: Global,
    kept: &mut KeptStates,
    ledger: &Ledger,
    sheet: u32,
    orders: usize,
    moves: &[HouseholdMove],
) -> Result<(), NoMemory>
    ensures { (book : Book) → IsLedgerOf book ledger.now.parts → sheet ≡ length book.table.sheets
        → AllAreSettled book orders sheet → AreKeptOf book kept.old → AreKeptOf book kept.new }
{
    for change in moves {
        keep_state(alloc, kept, ledger, sheet, orders, change.household)?;
    }
    Ok(())
}

fn keep_state(
    alloc: Global,
    kept: &mut KeptStates,
    ledger: &Ledger,
    sheet: u32,
    orders: usize,
    household: u32,
) -> Result<(), NoMemory>
    ensures { (book : Book) → IsLedgerOf book ledger.now.parts → sheet ≡ length book.table.sheets
        → AllAreSettled book orders sheet → AreKeptOf book kept.old → AreKeptOf book kept.new }
{
    if !kept.is_due(household, sheet) {
        return Ok(());
    }
    match ledger.state(household) {
        Some(state) => {
            let state = state.copied(alloc)?;
            let trades = ledger.trades(household).len();
            kept.keep(
                household,
                KeptState {
                    sheet,
                    state,
                    trades,
                    orders,
                },
            )
        }
        None => Ok(()),
    }
}
