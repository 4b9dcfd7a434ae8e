//! What an event does to the index of orders: looked up before, and applied without memory.
ghost use Rattle.std.specs.Prelude.{◌≡◌, ◌≤◌, IfOk, Some, is_some, length, position, true};
ghost use Rattle.desk_books.specs.OrderChanges.{ChangesOrders, IsWithin, NamesItsOrder, last_number, owners_after, waiting_after};
ghost use Rattle.register_machine.specs.journal.Kinds.{accounts_of, household_of};
ghost use Rattle.register_machine.specs.pricing.CorrectedOrders.{is_named, order_named, orders_of};

use crate::change::OrderChange;
use agent_events::EventKind;
use forward_price::PriceBook;
use money_units::NoMemory;
use order_book::OrderBook;
use standing_orders::HouseholdOrders;

/// What an event of this kind does to the index of orders, by a few look-ups: the household of an order that is placed or
/// entered, and the place of one that is replaced, which stand in the book.
pub(crate) fn order_change(book: &OrderBook, kind: &EventKind) -> OrderChange
    requires { NamesItsOrder book.now.journal kind.now }
    ensures { ChangesOrders book.now.journal kind.now result }
{
    match kind {
        EventKind::Order(placed) => {
            OrderChange::Begins(household_of(book, placed.order.account.number()))
        }
        EventKind::Enter(form) => {
            OrderChange::Enters(household_of(book, form.order.account.number()))
        }
        EventKind::Replace(form) => OrderChange::Replaces(place_of(
            book,
            form.order.account.number(),
            form.order.ref_no.number(),
        )),
        EventKind::Sheet(_) => OrderChange::Priced,
        _ => OrderChange::Nothing,
    }
}

/// The household of an account that stands.
pub fn household_of(book: &OrderBook, account: u32) -> u32
    requires { is_some (household_of (accounts_of book.now.journal) account) ≡ true }
    ensures { household_of (accounts_of book.now.journal) account ≡ Some result }
{
    match book.account(account) {
        Some(form) => form.household.number(),
        None => unreachable!(),
    }
}

// The place among all orders of one that stands there.
fn place_of(book: &OrderBook, account: u32, ref_no: u64) -> usize
    requires { is_some (order_named (orders_of book.now.journal) account ref_no) ≡ true }
    ensures { position (λ row. is_named account ref_no row.order) (orders_of book.now.journal)
        ≡ Some result }
{
    match book.order_place(account, ref_no) {
        Some(place) => place,
        None => unreachable!(),
    }
}

// The number of the last sheet, 0 without one.
fn last_number(prices: &PriceBook) -> u32
    ensures { result ≡ last_number prices.now.table.sheets }
{
    match prices.sheets().last() {
        Some(sheet) => sheet.number,
        None => 0,
    }
}

/// How many sheets are published, the number of the last one; more than a u32 counts have no memory.
pub fn sheets_published(prices: &PriceBook) -> Result<u32, NoMemory>
    ensures { IfOk result (λ number. number ≡ length prices.now.table.sheets) }
{
    match u32::try_from(prices.sheets().len()) {
        Ok(number) => Ok(number),
        Err(_) => Err(NoMemory),
    }
}

/// Does to the index of orders what an event does, behind which the book and the prices are. It takes no memory: an order that is
/// begun has its room.
pub(crate) fn apply_orders(
    orders: &mut HouseholdOrders,
    book: &OrderBook,
    prices: &PriceBook,
    change: OrderChange,
)
    requires room { 1 ≤ orders.old.spare }
    requires within { IsWithin change (length orders.old.owners) }
    ensures owners { orders.new.owners ≡ owners_after change orders.old.owners }
    ensures waiting { orders.new.waiting
        ≡ waiting_after change prices.now.table.sheets (orders_of book.now.journal)
        orders.old.owners orders.old.waiting }
{
    match change {
        OrderChange::Nothing => {}
        OrderChange::Begins(household) => orders.begin(household),
        OrderChange::Enters(household) => {
            let place = orders.owners().len();
            orders.begin(household);
            orders.settle(book, prices, place);
        }
        OrderChange::Replaces(place) => {
            orders.wait_again(place);
            orders.settle(book, prices, place);
        }
        OrderChange::Priced => orders.leave_taken(book, prices, last_number(prices)),
    }
}
