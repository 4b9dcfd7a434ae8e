//! The places of the orders that wait, rising.
ghost use Rattle.std.specs.Prelude.{◌≡◌, ◌≤◌, ◌<◌, filter, vec_capacity};
ghost use Rattle.register_machine.specs.pricing.CorrectedOrders.{orders_of};
ghost use Rattle.standing_orders.specs.Places.{passes_at, with_place, with_settled, without_place, RisesWithin};
ghost use Rattle.standing_orders.specs.Rows.{stays, waits};

use crate::row_sheet::{row_stays, row_waits};
use forward_price::PriceBook;
use order_book::OrderBook;

/// Puts a place among the others, unless it is there: no memory, since the places rise below the number for which there is
/// room.
pub(crate) fn put_among(places: &mut Vec<usize>, place: usize)
    requires rises { RisesWithin 0 (vec_capacity places.old) places.old.items }
    requires within { place < vec_capacity places.old }
    ensures items { places.new.items ≡ with_place place places.old.items }
    ensures capacity { vec_capacity places.old ≤ vec_capacity places.new }
{
    let found: Result<_, _> = places.as_slice().binary_search(&place);
    match found {
        Ok(_) => {}
        Err(at) => {
            let put: Result<_, _> = places.insert(at, place);
            put.unwrap();
        }
    }
}

/// Keeps a place only where its order still stands and no sheet prices it, and every other place: it looks at this order alone.
pub(crate) fn settle_among(
    places: &mut Vec<usize>,
    book: &OrderBook,
    prices: &PriceBook,
    place: usize,
)
    requires { RisesWithin 0 (vec_capacity places.old) places.old.items }
    ensures items { places.new.items
        ≡ with_settled (waits prices.now.table.sheets) (orders_of book.now.journal) place
        places.old.items }
    ensures capacity { vec_capacity places.new ≡ vec_capacity places.old }
{
    if !waits_at(book, prices, place) {
        take_out(places, place);
    }
}

// Takes a place out from among the others, where it is there: no memory.
fn take_out(places: &mut Vec<usize>, place: usize)
    requires { RisesWithin 0 (vec_capacity places.old) places.old.items }
    ensures items { places.new.items ≡ without_place place places.old.items }
    ensures capacity { vec_capacity places.new ≡ vec_capacity places.old }
{
    let found: Result<_, _> = places.as_slice().binary_search(&place);
    match found {
        Ok(at) => {
            places.remove(at);
        }
        Err(_) => {}
    }
}

/// Keeps the places of the orders that still stand and that one sheet couldn't price, where they are.
pub(crate) fn keep_staying(
    places: &mut Vec<usize>,
    book: &OrderBook,
    prices: &PriceBook,
    sheet: u32,
)
    ensures items { places.new.items
        ≡ filter (passes_at (stays sheet prices.now.table.sheets) (orders_of book.now.journal))
        places.old.items }
    ensures capacity { vec_capacity places.new ≡ vec_capacity places.old }
{
    places.retain(|place| stays_at(book, prices, sheet, *place));
}

fn stays_at(book: &OrderBook, prices: &PriceBook, sheet: u32, place: usize) -> bool
    ensures { result ≡ passes_at (stays sheet prices.now.table.sheets)
        (orders_of book.now.journal) place }
{
    match book.orders().get(place) {
        Some(row) => row_stays(prices, sheet, row),
        None => false,
    }
}

fn waits_at(book: &OrderBook, prices: &PriceBook, place: usize) -> bool
    ensures { result
        ≡ passes_at (waits prices.now.table.sheets) (orders_of book.now.journal) place }
{
    match book.orders().get(place) {
        Some(row) => row_waits(prices, row),
        None => false,
    }
}
