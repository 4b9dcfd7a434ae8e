//! Calendars: the moment of a pricing day, the parts of a date, and texts that are no dates.
use crate::fixtures::day;
use fund_calendar::{Calendar, Day, read_day};
use money_units::Moment;
use std::alloc::Global;
use std::process::Abort;
use std::test::Fail;

// New York at 16:00, from 2024 to 2026, with three holidays.
fn new_york(alloc: Global) -> Result<Calendar, Fail> {
    let holidays = [day("2024-07-04")?, day("2024-11-28")?, day("2024-12-25")?];
    let first = day("2024-01-01")?;
    let last = day("2026-12-31")?;
    let zone = "EST5EDT,M3.2.0,M11.1.0";
    Ok(Calendar::new(alloc, 1, zone, 960, first, last, &holidays)?)
}

// The day that is priced at a moment of so many seconds.
fn date_at(calendar: &Calendar, seconds: u64) -> Option<Day> {
    calendar.date_of(Moment::new(seconds)?)
}

fn expect_moments(rt: &impl Abort, calendar: &Calendar) -> Result<(), Fail> {
    let friday = day("2024-07-05")?;
    let holiday = day("2024-07-04")?;
    let moments = (calendar.moment_of(friday), calendar.moment_of(holiday));
    assert_eq!(rt; moments, (Moment::new(1720209600), None));
    let dates = (date_at(calendar, 1720209600), date_at(calendar, 1720209601));
    assert_eq!(rt; dates, (Some(friday), None));
    Ok(())
}

#[test]
fn a_pricing_day_has_one_moment(rt: HostRuntime) -> Result<(), Fail> {
    let calendar = new_york(rt.alloc())?;
    expect_moments(&rt, &calendar)
}

// A date; its number, its year, its month and its day of the month.
const DATES: [(&str, i32, u16, u8, u8); 5] = [
    ("1970-01-01", 0, 1970, 1, 1),
    ("2024-02-29", 19782, 2024, 2, 29),
    ("2024-12-30", 20087, 2024, 12, 30),
    ("2100-03-01", 47541, 2100, 3, 1),
    ("2199-12-31", 84005, 2199, 12, 31),
];

// The first date with another number or with other parts.
fn first_other_date() -> Result<Option<&'static str>, Fail> {
    for (text, number, year, month, of_month) in DATES {
        let date = day(text)?;
        let parts = (date.number(), date.year(), date.month(), date.day());
        if parts != (number, year, month, of_month) || Day::from_number(number) != Some(date) {
            return Ok(Some(text));
        }
    }
    Ok(None)
}

#[test]
fn dates_have_numbers_and_parts(rt: HostRuntime) -> Result<(), Fail> {
    assert_eq!(rt; first_other_date()?, None);
    Ok(())
}

const NO_DATES: [&str; 6] = [
    "",
    "2023-02-29",
    "1969-12-31",
    "2200-01-01",
    "2024-7-01",
    "2024-07-01 ",
];

// The first of these texts that is a date.
fn first_date() -> Option<&'static str> {
    for text in NO_DATES {
        if read_day(text.as_bytes()).is_some() {
            return Some(text);
        }
    }
    None
}

#[test]
fn other_texts_are_no_dates(rt: HostRuntime) {
    let outside = (Day::from_number(84006), Day::from_number(-1));
    assert_eq!(rt; outside, (None, None));
    assert_eq!(rt; first_date(), None);
}
