//! The orders of a household, by the sheets that price them, with an event on trial behind the journal.
ghost use Rattle.std.specs.Prelude.{◌≡◌, IfOk, length};
ghost use Rattle.std.specs.List.{filter_map};
ghost use Rattle.std.specs.List.Sorted.{IsNonDecreasingBy};
ghost use Rattle.std.specs.Option.{option_copied};
ghost use Rattle.order_book.specs.Trials.{row_begun, TrialFits};
ghost use Rattle.register_laws.specs.Households.{is_of_household};
ghost use Rattle.register_machine.specs.journal.Kinds.{accounts_of};
ghost use Rattle.register_machine.specs.pricing.CorrectedOrders.{orders_of};
ghost use Rattle.standing_orders.specs.Entries.{numbered_at, numbered_begun, numbered_on};
ghost use Rattle.standing_orders.specs.Places.{not_before, places_where, unless_before};
ghost use Rattle.standing_orders.specs.Priced.{AreOwnOnTrial};
ghost use Rattle.standing_orders.specs.Rows.{is_owner};

use crate::entries::{NumberedRow, orders_of, put_by_number, put_in_turn};
use crate::household_orders::HouseholdOrders;
use crate::row_sheet::sheet_number;
use crate::sheet_orders::{entry_where, push_found};
use agent_events::{Event, OrderRow};
use checkpoint_replay::NumberedOrders;
use forward_price::PriceBook;
use money_units::NoMemory;
use order_book::{OrderBook, row_begun, row_on_trial};
use std::alloc::Global;

/// The orders of a household that sheets price, from this place in the book on, under the numbers of their sheets, which rise;
/// each sheet's by receipt, and at equal receipts by place in the journal. With an event on trial they are as they will be once
/// it is noted. They are all that are executed behind a sheet where those at earlier places are settled up to it. It looks at
/// the household's orders from that place on alone.
pub fn orders_of_household(
    alloc: Global,
    book: &OrderBook,
    prices: &PriceBook,
    index: &HouseholdOrders,
    household: u32,
    first: usize,
    trial: Option<&Event>,
) -> Result<NumberedOrders, NoMemory>
    requires { TrialFits book.now.journal (option_copied trial) }
    ensures own { IfOk result (AreOwnOnTrial book.now.journal (option_copied trial.entry)
        prices.now.table.sheets index.now.owners household first) }
    ensures by_sheet { IfOk result (λ orders. IsNonDecreasingBy (λ order. order.number) orders) }
{
    let mut entries = entries_of(alloc, book, prices, index, household, first, trial)?;
    push_found(&mut entries, entry_begun(book, prices, household, trial))?;
    put_in_turn(&mut entries)?;
    put_by_number(&mut entries)?;
    let orders = orders_of(alloc, entries.as_slice())?;
    Ok(orders)
}

fn entries_of(
    alloc: Global,
    book: &OrderBook,
    prices: &PriceBook,
    index: &HouseholdOrders,
    household: u32,
    first: usize,
    trial: Option<&Event>,
) -> Result<Vec<NumberedRow>, NoMemory>
    ensures { IfOk result (λ entries. entries.items
        ≡ filter_map (numbered_at prices.now.table.sheets (option_copied trial.entry)
        (orders_of book.now.journal))
        (not_before first (places_where (is_owner household) index.now.owners))) }
{
    let places = own_places(alloc, index, household, first)?;
    let mut entries = Vec::new(alloc);
    for place in places.as_slice() {
        push_found(&mut entries, entry_at(book, prices, trial, *place))?;
    }
    Ok(entries)
}

// The places of the household's orders from this one on, rising.
fn own_places(
    alloc: Global,
    index: &HouseholdOrders,
    household: u32,
    first: usize,
) -> Result<Vec<usize>, NoMemory>
    ensures { IfOk result (λ places. places.items
        ≡ not_before first (places_where (is_owner household) index.now.owners)) }
{
    let mut places = Vec::new(alloc);
    let mut at = unless_before(first, index.last_order(household));
    'orders: while let Some(place) = at {
        places.push(place)?;
        at = unless_before(first, index.earlier_order(place));
    }
    places.reverse();
    Ok(places)
}

// The place, unless it is before the first one.
fn unless_before(first: usize, found: Option<usize>) -> Option<usize>
    ensures { result ≡ unless_before first found }
{
    match found {
        Some(place) if first <= place => Some(place),
        _ => None,
    }
}

fn entry_at(
    book: &OrderBook,
    prices: &PriceBook,
    trial: Option<&Event>,
    place: usize,
) -> Option<NumberedRow>
    ensures { result ≡ numbered_at prices.now.table.sheets (option_copied trial.entry)
        (orders_of book.now.journal) place }
{
    match book.orders().get(place) {
        Some(row) => numbered_on(prices, &row_on_trial(trial, row)),
        None => None,
    }
}

fn entry_begun(
    book: &OrderBook,
    prices: &PriceBook,
    household: u32,
    trial: Option<&Event>,
) -> Option<NumberedRow>
    ensures { result ≡ numbered_begun prices.now.table.sheets (accounts_of book.now.journal)
        household (row_begun (length book.now.journal) (option_copied trial.entry)) }
{
    match row_begun(trial, book.len()) {
        Some(row) if is_own(book, household, &row) => numbered_on(prices, &row),
        _ => None,
    }
}

fn is_own(book: &OrderBook, household: u32, row: &OrderRow) -> bool
    ensures { result
        ≡ is_of_household (accounts_of book.now.journal) household row.now.order.account }
{
    match book.account(row.order.account.number()) {
        Some(form) => form.household.number() == household,
        None => false,
    }
}

fn numbered_on(prices: &PriceBook, row: &OrderRow) -> Option<NumberedRow>
    ensures { result ≡ numbered_on prices.now.table.sheets row.now }
{
    match sheet_number(prices, row) {
        Some(number) => entry_where(!row.struck, number, row),
        None => None,
    }
}
