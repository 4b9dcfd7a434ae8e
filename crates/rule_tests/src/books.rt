//! Fixtures of the tests: calendars in New York, and price books with classes and sheets.
use crate::fixtures::{day, moment, nav};
use forward_price::PriceBook;
use fund_calendar::Calendar;
use std::alloc::Global;
use std::test::Fail;

/// 2024-07-01 08:00 in New York.
pub const OPENED: u64 = 1719835200;

/// 16:00 in New York on 2024-07-01, 2024-07-02 and 2024-07-03.
pub const FIRST: u64 = 1719864000;

pub const SECOND: u64 = 1719950400;

pub const THIRD: u64 = 1720036800;

/// New York at 16:00 in 2024.
pub(crate) fn new_york(alloc: Global, number: u32) -> Result<Calendar, Fail> {
    let holidays = [day("2024-07-04")?];
    let first = day("2024-01-01")?;
    let last = day("2024-12-31")?;
    let zone = "EST5EDT,M3.2.0,M11.1.0";
    Ok(Calendar::new(alloc, number, zone, 960, first, last, &holidays)?)
}

/// Adds a calendar that is new.
pub(crate) fn enter_calendar(book: &mut PriceBook, calendar: Calendar) -> Result<(), Fail> {
    book.reserve(1)?;
    if book.calendar(calendar.number()).is_some() {
        return Err("the calendar is known".into());
    }
    book.add_calendar(calendar);
    Ok(())
}

/// Opens a class that is new, of a calendar that is known.
pub(crate) fn open_class(
    book: &mut PriceBook,
    class: u32,
    calendar: u32,
    opened: u64,
) -> Result<(), Fail> {
    book.reserve(1)?;
    if book.opening(class).is_some() || book.calendar(calendar).is_none() {
        return Err("the class is known, or its calendar isn't".into());
    }
    book.add_class(class, calendar, moment(opened)?);
    Ok(())
}

/// Publishes the expected sheet, of one class.
pub(crate) fn publish_one(
    book: &mut PriceBook,
    calendar: u32,
    seconds: u64,
    class: u32,
    cents: u64,
) -> Result<u32, Fail> {
    let prices = [(class, nav(cents)?)];
    let moment = moment(seconds)?;
    book.reserve(1)?;
    book.test(calendar, moment, &prices, moment)?;
    if book.sheets().len() >= 4_294_967_295 {
        return Err("too many sheets".into());
    }
    Ok(book.publish(calendar, moment, &prices))
}

// A book of one calendar in New York and one class.
fn one_class(alloc: Global) -> Result<PriceBook, Fail> {
    let mut book = PriceBook::new(alloc)?;
    enter_calendar(&mut book, new_york(alloc, 1)?)?;
    open_class(&mut book, 14, 1, OPENED)?;
    Ok(book)
}

/// A book with sheets of 10.00 and 11.00 on two days.
pub(crate) fn two_sheets(alloc: Global) -> Result<PriceBook, Fail> {
    let mut book = one_class(alloc)?;
    publish_one(&mut book, 1, FIRST, 14, 1000)?;
    publish_one(&mut book, 1, SECOND, 14, 1100)?;
    Ok(book)
}
