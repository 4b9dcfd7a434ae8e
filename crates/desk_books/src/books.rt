//! What the desk keeps of a journal.
ghost use Rattle.std.specs.Prelude.{[], IfOk};
ghost use Rattle.desk_books.specs.BooksOfJournals.{AreBooksOf};

use checkpoint_replay::{KeptStates, Ledger};
use forward_price::PriceBook;
use gain_loss_book::CashBook;
use money_units::NoMemory;
use order_intake::Book;
use reference_tables::JournalTables;
use standing_orders::{ClassHouseholds, HouseholdOrders};
use std::alloc::Global;

/// The book of orders, the tables by number, the prices, the index of orders, the households that have named each class, the
/// ledger, the cash book and the kept states of one journal.
#[derive(Drop)]
pub struct DeskBooks {
    pub book: Book,
    pub tables: JournalTables,
    pub prices: PriceBook,
    pub orders: HouseholdOrders,
    pub classes: ClassHouseholds,
    pub ledger: Ledger,
    pub cash: CashBook,
    pub kept: KeptStates,
}

impl DeskBooks {
    /// The books of no event.
    pub fn new(alloc: Global) -> Result<DeskBooks, NoMemory>
        ensures { IfOk result (AreBooksOf []) }
    {
        let prices = PriceBook::new(alloc)?;
        Ok(DeskBooks {
            book: Book::new(alloc),
            tables: JournalTables::new(alloc),
            prices,
            orders: HouseholdOrders::new(alloc),
            classes: ClassHouseholds::new(alloc),
            ledger: Ledger::new(alloc),
            cash: CashBook::new(alloc),
            kept: KeptStates::new(alloc),
        })
    }
}
