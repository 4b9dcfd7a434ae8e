//! Reading the text of a date.
ghost use Rattle.std.specs.Prelude.{◌≡◌, ◌+◌, ◌*◌, ◌<◌, length, IfSome};
ghost use Rattle.fund_calendar.specs.Dates.{day_of_date};
ghost use Rattle.fund_calendar.specs.DayText as texts;

use crate::Day;
use jiff_core::civil::Date;

/// Reads a date of the form `YYYY-MM-DD` from 1970-01-01 to 2199-12-31, and answers `None` exactly where the text
/// is no such date.
pub fn read_day(text: &[u8]) -> Option<Day>
    ensures { result ≡ texts.read_day text.now }
{
    if text.len() != 10 || text[4] != b'-' || text[7] != b'-' {
        return None;
    }
    read_parts(text)
}

/// Reads the digits of a text of ten bytes.
fn read_parts(text: &[u8]) -> Option<Day>
    requires { length text.now ≡ 10 }
    ensures { result ≡ texts.read_parts text.now }
{
    let century = two_digits(text, 0)?;
    let year = two_digits(text, 2)?;
    let month = two_digits(text, 5)?;
    let day = two_digits(text, 8)?;
    day_of_parts(100 * century as u16 + year as u16, month, day)
}

/// The digits at a place and the next one, read as a number.
pub(crate) fn two_digits(text: &[u8], at: usize) -> Option<u8>
    requires { at + 1 < length text.now }
    ensures value { result ≡ texts.two_digits text.now at }
    ensures small { IfSome result (λ n. n < 100) }
{
    let tens = text[at];
    let ones = text[at + 1];
    if tens.is_ascii_digit() && ones.is_ascii_digit() {
        Some(10 * (tens - b'0') + (ones - b'0'))
    } else {
        None
    }
}

/// The day with these parts, where the calendar has it and it lies from 1970 to 2199.
fn day_of_parts(year: u16, month: u8, day: u8) -> Option<Day>
    requires year { year < 10000 }
    requires month { month < 100 }
    requires day { day < 100 }
    ensures { result ≡ day_of_date (record { year = year; month = month; day = day }) }
{
    if year < 1970 {
        return None;
    }
    match Date::new(year as i16, month as i8, day as i8) {
        Ok(date) => Day::of_date(date),
        Err(_) => None,
    }
}
