//! The turn of a trade of an order: the sheet that executes it, and the order's place among those of the sheet.
ghost use Rattle.std.specs.Prelude.{◌≡◌, option_to_list};
ghost use Rattle.std.specs.Option.{option_copied};
ghost use Rattle.desk_books.specs.Turns.{comes_before, goes_before, turn_at, turn_in};
ghost use Rattle.order_book.specs.Trials.{TrialFits, row_begun, row_on_trial, with_trial};
ghost use Rattle.register_machine.specs.pricing.CorrectedOrders.{order_named, orders_of};

use agent_events::{Event, OrderRow, Trade};
use money_units::Moment;
use order_book::{OrderBook, row_begun, row_on_trial};

/// When an order is executed among others: the number of its sheet, and on a sheet its receipt and then the place of its first
/// event in the journal.
#[derive(Clone, Copy, Debug, PartialEq, Eq)]
pub struct Turn {
    pub sheet: u32,
    pub receipt: Moment,
    pub place: u64,
}

impl Turn {
    /// Whether the order of this turn is executed before that of another.
    pub fn comes_before(&self, other: &Turn) -> bool
        ensures { result ≡ comes_before self.now other.now }
    {
        self.sheet < other.sheet || self.sheet == other.sheet && goes_before(self, other)
    }
}

fn goes_before(turn: &Turn, other: &Turn) -> bool
    ensures { result ≡ goes_before turn.now other.now }
{
    turn.receipt < other.receipt || turn.receipt == other.receipt && turn.place < other.place
}

/// The turn of a trade, by its order as an event on trial leaves it; `None` exactly where no order has its name.
pub fn turn_of(book: &OrderBook, trial: Option<&Event>, trade: &Trade) -> Option<Turn>
    requires { TrialFits book.now.journal (option_copied trial) }
    ensures { result ≡ turn_in
        (orders_of (with_trial book.now.journal (option_copied trial.entry))) trade.now }
{
    match row_named(book, trial, trade.account, trade.ref_no) {
        Some(row) => Some(turn_at(trade, &row)),
        None => None,
    }
}

fn turn_at(trade: &Trade, row: &OrderRow) -> Turn
    ensures { result ≡ turn_at trade.now row.now }
{
    Turn {
        sheet: trade.sheet,
        receipt: row.receipt,
        place: row.place,
    }
}

// The order of this name as an event on trial leaves it.
fn row_named(book: &OrderBook, trial: Option<&Event>, account: u32, ref_no: u64) -> Option<OrderRow>
    requires { TrialFits book.now.journal (option_copied trial) }
    ensures { result ≡ order_named
        (orders_of (with_trial book.now.journal (option_copied trial.entry))) account ref_no }
{
    match book.order(account, ref_no) {
        Some(row) => Some(row_on_trial(trial, row)),
        None => row_where(account, ref_no, row_begun(trial, book.len())),
    }
}

// A row where it has this name.
fn row_where(account: u32, ref_no: u64, row: Option<OrderRow>) -> Option<OrderRow>
    ensures { result ≡ order_named (option_to_list row) account ref_no }
{
    match row {
        Some(row) => {
            if row.order.account.number() == account && row.order.ref_no.number() == ref_no {
                Some(row)
            } else {
                None
            }
        }
        None => None,
    }
}
