//! Which sheet prices an order.
ghost use Rattle.std.specs.Prelude.{◌≡◌, false};
ghost use Rattle.std.specs.Option.{option_copied, option_map_or};
ghost use Rattle.forward_price.specs.Sheets.{lists_all, lists_class};
ghost use Rattle.register_machine.specs.pricing.OrderClasses.{class_of, classes_in, target_of};
ghost use Rattle.standing_orders.specs.Rows.{could_price, is_taken, sheet_number, stays, waits};

use agent_events::{Body, OrderRow};
use forward_price::{PriceBook, Sheet};
use money_units::Nav;
use register_machine::{class_of, target_of};

/// The number of the sheet that prices an order; `None` exactly while it is pending.
pub(crate) fn sheet_number(prices: &PriceBook, row: &OrderRow) -> Option<u32>
    ensures { result ≡ sheet_number prices.now.table.sheets row.now }
{
    let class = class_number(&row.order.body);
    match target_number(&row.order.body) {
        Some(to) => prices.first_after(row.receipt, &[class, to]),
        None => prices.first_after(row.receipt, &[class]),
    }
}

/// Whether an order stands and no sheet prices it.
pub(crate) fn row_waits(prices: &PriceBook, row: &OrderRow) -> bool
    ensures { result ≡ waits prices.now.table.sheets row.now }
{
    !row.struck && sheet_number(prices, row).is_none()
}

/// The number of an order's class.
pub(crate) fn class_number(body: &Body) -> u32
    ensures { result ≡ class_of body.now }
{
    class_of(body).number()
}

/// The number of the class that an exchange goes to.
pub(crate) fn target_number(body: &Body) -> Option<u32>
    ensures { result ≡ target_of body.now }
{
    match target_of(body) {
        Some(to) => Some(to.number()),
        None => None,
    }
}

/// Whether an order stands that the sheet of this number could price: it looks at no other sheet.
pub(crate) fn is_taken(prices: &PriceBook, sheet: u32, row: &OrderRow) -> bool
    ensures { result ≡ is_taken sheet prices.now.table.sheets row.now }
{
    !row.struck && is_within(prices.sheet(sheet), row)
}

/// Whether an order stands that the sheet of this number couldn't price.
pub(crate) fn row_stays(prices: &PriceBook, sheet: u32, row: &OrderRow) -> bool
    ensures { result ≡ stays sheet prices.now.table.sheets row.now }
{
    !row.struck && !is_within(prices.sheet(sheet), row)
}

fn is_within(sheet: Option<&Sheet>, row: &OrderRow) -> bool
    ensures { result ≡ option_map_or (λ sheet. could_price sheet row.now)
        (option_copied sheet.entry) false }
{
    match sheet {
        Some(sheet) => could_price(sheet, row),
        None => false,
    }
}

fn could_price(sheet: &Sheet, row: &OrderRow) -> bool
    ensures { result ≡ could_price sheet.now row.now }
{
    row.receipt < sheet.moment && lists_classes(sheet, &row.order.body)
}

fn lists_classes(sheet: &Sheet, body: &Body) -> bool
    ensures { result ≡ lists_all sheet.now.prices (classes_in body.now) }
{
    let prices = sheet.prices.as_slice();
    match target_number(body) {
        Some(to) => lists_class(prices, class_number(body)) && lists_class(prices, to),
        None => lists_class(prices, class_number(body)),
    }
}

fn lists_class(prices: &[(u32, Nav)], class: u32) -> bool
    ensures { result ≡ lists_class prices.now class }
{
    prices.iter().any(|price| price.0 == class)
}
