//! Changes of a sheet and of a calendar in their place.
ghost use Rattle.std.specs.Prelude.{◌≡◌, map};
ghost use Rattle.forward_price.specs.PriceTables.{sheets_with_nav, corrected_sheet, closed_in, is_priced, is_priced_day};

use crate::price_sheet::Sheet;
use crate::sheet;
use fund_calendar::{Calendar, Day};
use money_units::Nav;
use std::alloc::Global;

fn correct_sheet(alloc: Global, sheet: &mut Sheet, class: u32, number: u32, nav: Nav)
    ensures { sheet.new ≡ corrected_sheet class number nav sheet.old }
{
    if sheet.number == number {
        sheet::correct(alloc, &mut sheet.prices, class, nav);
    }
}

/// Gives a class another net asset value on the sheet of one number.
pub fn correct_sheets(alloc: Global, sheets: &mut [Sheet], class: u32, number: u32, nav: Nav)
    ensures { sheets.new ≡ sheets_with_nav class number nav sheets.old }
{
    for sheet in sheets.iter_mut() {
        correct_sheet(alloc, sheet, class, number, nav);
    }
}

fn close_in(calendar: &mut Calendar, number: u32, day: Day) -> bool
    ensures closed { calendar.new ≡ closed_in number day calendar.old }
    ensures answer { result ≡ is_priced_day number day calendar.old }
{
    calendar.number() == number && calendar.close_day(day)
}

/// Takes a pricing day of a calendar away, and answers whether it was one.
pub fn close_day(calendars: &mut [Calendar], number: u32, day: Day) -> bool
    ensures closed { calendars.new ≡ map (closed_in number day) calendars.old }
    ensures answer { result ≡ is_priced calendars.old number day }
{
    let mut closed = false;
    for calendar in calendars.iter_mut() {
        if close_in(calendar, number, day) {
            closed = true;
        }
    }
    closed
}
