//! The orders that a sheet prices, by household.
ghost use Rattle.std.specs.Prelude.{◌≡◌, ◌++◌, length, option_and_then, option_to_list, IfOk, OnOk};
ghost use Rattle.std.specs.List.{filter_map};
ghost use Rattle.std.specs.List.Sorted.{IsNonDecreasingBy};
ghost use Rattle.std.specs.Option.{option_copied};
ghost use Rattle.register_machine.specs.journal.Choices.{when};
ghost use Rattle.register_machine.specs.pricing.CorrectedOrders.{orders_of};
ghost use Rattle.standing_orders.specs.Entries.{owned_at};
ghost use Rattle.standing_orders.specs.Places.{RisesWithin};
ghost use Rattle.standing_orders.specs.Priced.{ArePricedOn};
ghost use Rattle.standing_orders.specs.Rows.{is_taken};

use crate::entries::{NumberedRow, orders_of, put_by_number, put_in_turn};
use crate::household_orders::HouseholdOrders;
use crate::row_sheet::is_taken;
use agent_events::OrderRow;
use checkpoint_replay::NumberedOrders;
use forward_price::PriceBook;
use money_units::NoMemory;
use order_book::OrderBook;
use std::alloc::Global;

/// The orders that the sheet of this number prices, under the numbers of their households, which rise; each household's by
/// receipt, and at equal receipts by place in the journal. It looks at those that wait alone, and at no other sheet.
pub fn orders_priced(
    alloc: Global,
    book: &OrderBook,
    prices: &PriceBook,
    index: &HouseholdOrders,
    sheet: u32,
) -> Result<NumberedOrders, NoMemory>
    ensures priced { IfOk result (ArePricedOn sheet (orders_of book.now.journal)
        prices.now.table.sheets index.now.owners index.now.waiting) }
    ensures by_household { IfOk result
        (λ orders. IsNonDecreasingBy (λ order. order.number) orders) }
{
    let mut entries = entries_priced(alloc, book, prices, index, sheet)?;
    put_in_turn(&mut entries)?;
    put_by_number(&mut entries)?;
    let orders = orders_of(alloc, entries.as_slice())?;
    Ok(orders)
}

fn entries_priced(
    alloc: Global,
    book: &OrderBook,
    prices: &PriceBook,
    index: &HouseholdOrders,
    sheet: u32,
) -> Result<Vec<NumberedRow>, NoMemory>
    ensures gathered { IfOk result (λ entries. entries.items
        ≡ filter_map (owned_at (is_taken sheet prices.now.table.sheets) (orders_of book.now.journal)
        index.now.owners) index.now.waiting) }
    ensures rises { OnOk result (RisesWithin 0 (length index.now.owners) index.now.waiting) }
{
    let mut entries = Vec::new(alloc);
    for place in index.waiting() {
        push_found(
            &mut entries,
            entry_priced(book, prices, index, sheet, *place),
        )?;
    }
    Ok(entries)
}

pub(crate) fn push_found(
    entries: &mut Vec<NumberedRow>,
    found: Option<NumberedRow>,
) -> Result<(), NoMemory>
    ensures { OnOk result (entries.new.items ≡ entries.old.items ++ option_to_list found) }
{
    match found {
        Some(entry) => {
            entries.extend_from_slice(&[entry])?;
            Ok(())
        }
        None => Ok(()),
    }
}

fn entry_priced(
    book: &OrderBook,
    prices: &PriceBook,
    index: &HouseholdOrders,
    sheet: u32,
    place: usize,
) -> Option<NumberedRow>
    ensures { result ≡ owned_at (is_taken sheet prices.now.table.sheets)
        (orders_of book.now.journal) index.now.owners place }
{
    match book.orders().get(place) {
        Some(row) => entry_owned(index.owners().get(place), is_taken(prices, sheet, row), row),
        None => None,
    }
}

fn entry_owned(owner: Option<&u32>, passes: bool, row: &OrderRow) -> Option<NumberedRow>
    ensures { result
        ≡ option_and_then (λ owner. when passes (record { number = owner; row = row.now }))
        (option_copied owner.entry) }
{
    match owner {
        Some(owner) => entry_where(passes, *owner, row),
        None => None,
    }
}

pub(crate) fn entry_where(passes: bool, number: u32, row: &OrderRow) -> Option<NumberedRow>
    ensures { result ≡ when passes (record { number = number; row = row.now }) }
{
    if passes {
        Some(NumberedRow { number, row: *row })
    } else {
        None
    }
}
