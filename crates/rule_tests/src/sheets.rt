//! Sheets of prices: those of two calendars out of order, many, and one that is withdrawn.
use crate::books::{
    FIRST, OPENED, SECOND, THIRD, enter_calendar, new_york, open_class, publish_one, two_sheets,
};
use crate::fixtures::{day, moment};
use forward_price::PriceBook;
use fund_calendar::Calendar;
use money_units::Moment;
use std::alloc::Global;
use std::process::Abort;
use std::test::Fail;

// Two sheets of a calendar that comes late.
fn publish_late(rt: &impl Abort, book: &mut PriceBook, late: Calendar) -> Result<(), Fail> {
    enter_calendar(book, late)?;
    open_class(book, 24, 2, OPENED)?;
    assert_eq!(rt; publish_one(book, 2, FIRST, 24, 500)?, 3);
    assert_eq!(rt; publish_one(book, 2, SECOND, 24, 600)?, 4);
    Ok(())
}

// The cents of a class on the last sheet before a moment.
fn cents_before(book: &PriceBook, class: u32, seconds: u64) -> Option<u64> {
    let nav = book.last_before(None, class, Moment::new(seconds)?)?;
    Some(nav.cents())
}

// Which sheets are found of two calendars, and which prices.
fn expect_out_of_order(rt: &impl Abort, book: &PriceBook) -> Result<(), Fail> {
    for (receipt, class, number) in [
        (FIRST - 1, 14, Some(1)),
        (FIRST, 14, Some(2)),
        (SECOND, 14, None),
        (FIRST - 1, 24, Some(3)),
        (FIRST, 24, Some(4)),
    ] {
        assert_eq!(rt;
            book.first_after(moment(receipt)?, &[class]),
            number,
            "{class} after {receipt}"
        );
    }
    for (class, seconds, cents) in [
        (14, SECOND, Some(1000)),
        (14, THIRD, Some(1100)),
        (24, FIRST, None),
        (24, THIRD, Some(600)),
    ] {
        let found = cents_before(book, class, seconds);
        assert_eq!(rt; found, cents, "{class} before {seconds}");
    }
    Ok(())
}

// A calendar that comes late has moments before those of the sheets that are published.
#[test]
fn sheets_out_of_order_are_looked_up(rt: HostRuntime) -> Result<(), Fail> {
    let mut book = two_sheets(rt.alloc())?;
    let late = new_york(rt.alloc(), 2)?;
    publish_late(&rt, &mut book, late)?;
    expect_out_of_order(&rt, &book)
}

// What is left of two sheets where each is withdrawn.
fn expect_withdrawn(rt: &impl Abort, book: &mut PriceBook) -> Result<(), Fail> {
    assert!(rt; book.withdraw());
    assert_eq!(rt; book.expected(), Some((moment(SECOND)?, 1)));
    assert_eq!(rt; (book.withdraw(), book.withdraw()), (true, false));
    assert_eq!(rt; book.first_after(Moment::start(), &[14]), None);
    Ok(())
}

#[test]
fn the_last_sheet_is_withdrawn(rt: HostRuntime) -> Result<(), Fail> {
    let mut book = two_sheets(rt.alloc())?;
    expect_withdrawn(&rt, &mut book)
}

// Two calendars that price every weekday from 1970 at midnight, with a class each.
fn book_of_weekdays(alloc: Global) -> Result<PriceBook, Fail> {
    let mut book = PriceBook::new(alloc)?;
    let first = day("1970-01-01")?;
    let last = day("1980-01-07")?;
    for number in 1..3_u32 {
        let calendar = Calendar::new(alloc, number, "UTC0", 0, first, last, &[])?;
        enter_calendar(&mut book, calendar)?;
        open_class(&mut book, 10 + number, number, 0)?;
    }
    Ok(book)
}

fn publish_all(book: &mut PriceBook) -> Result<(), Fail> {
    for _ in 0..3660 {
        let (moment, calendar) = book.expected().ok_or("none is expected")?;
        let class = if calendar == 1 { 11 } else { 12 };
        publish_one(book, calendar, moment.seconds(), class, 1000)?;
    }
    Ok(())
}

// What is found of 3,660 sheets.
fn expect_many(rt: &impl Abort, book: &PriceBook) -> Result<(), Fail> {
    // The classes open at the first moment of all, so that the first sheet is that of Friday, 1970-01-02. 1,830 weekdays
    // from there end with Thursday, 1977-01-06, 2,561 days later.
    let thursday = moment(221_356_800)?;
    let found = [
        book.sheet_at(1, thursday),
        book.sheet_at(2, thursday),
        book.first_after(thursday.earlier(1), &[12]),
        book.first_after(thursday, &[12]),
        book.first_after(Moment::start(), &[11]),
    ];
    assert_eq!(rt; found, [Some(3659), Some(3660), Some(3660), None, Some(1)]);
    assert_eq!(rt; book.expected(), Some((thursday.later(86_400), 1)));
    assert_eq!(rt; cents_before(book, 12, 221_356_800), Some(1000));
    Ok(())
}

#[test]
fn many_sheets_are_published_and_looked_up(rt: HostRuntime) -> Result<(), Fail> {
    let mut book = book_of_weekdays(rt.alloc())?;
    publish_all(&mut book)?;
    expect_many(&rt, &book)
}
