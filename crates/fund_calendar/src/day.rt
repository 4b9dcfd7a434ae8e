//! Dates from 1970 to 2199.
ghost use Rattle.std.specs.Prelude.{◌≡◌, ◌↔◌, ◌+◌, ◌-◌, ◌<◌, ◌≤◌, pos, ◌≤ℤ◌, ◌<ℤ◌, ◌⊎◌, IsTrue, IfSome, IsNone, unsigned_abs};
ghost use Rattle.jiff_core.specs.Date.{epoch_day};

use jiff_core::civil::Date;
use std::marker::Model;

/// The days from 1970-01-01 to 2199-12-31, less one.
const LAST_NUMBER: u32 = 84005;

/// A date from 1970-01-01 to 2199-12-31. Contracts see it as its day number, the days since 1970-01-01.
#[derive(Clone, Copy, Debug, PartialEq, Eq, PartialOrd, Ord, Hash)]
pub struct Day {
    number: u32,
}

impl Model for Day {
    ghost use Rattle.std.specs.Prelude.{ℕ, ◌≤◌};
    ghost use Rattle.fund_calendar.specs.Dates.{last_day};

    ghost Value = { ℕ };

    ghost view = { λ d. d.number };

    ghost invariant = { λ d. d.number ≤ last_day };

    ghost inverse = { λ n. record { number = n } };
}

impl Day {
    ghost use Rattle.fund_calendar.specs.Dates.{date_of, day_of_date, weekday_of, last_day};
    ghost use Rattle.fund_calendar.specs.JiffDates.{year_month_day};

    /// The days since 1970-01-01.
    pub fn number(&self) -> i32
        ensures value { result ≡ pos self.now }
        ensures bound { self.now ≤ last_day }
    {
        self.number as i32
    }

    /// The date with this day number, or `None` outside 1970-01-01 to 2199-12-31.
    pub fn from_number(number: i32) -> Option<Day>
        ensures found { IfSome result (λ day. pos day ≡ number) }
        ensures within { IfSome result (λ day. day ≤ last_day) }
        ensures none { IsNone result → (number <ℤ pos 0) ⊎ (pos last_day <ℤ number) }
    {
        if number < 0 || number > LAST_NUMBER as i32 {
            return None;
        }
        Some(Day {
            number: number as u32,
        })
    }

    /// The days from an earlier day to this one.
    pub(crate) fn days_after(self, earlier: Day) -> u32
        requires { earlier ≤ self }
        ensures value { result ≡ self - earlier }
        ensures within { self ≤ last_day }
    {
        self.number - earlier.number
    }

    /// The day so many days later.
    pub(crate) fn plus(self, days: u32) -> Day
        requires { self + days ≤ last_day }
        ensures { result ≡ self + days }
    {
        Day {
            number: self.number + days,
        }
    }

    /// The date in jiff's form.
    pub(crate) fn to_date(self) -> Date
        ensures number { epoch_day result ≡ pos self }
        ensures parts { year_month_day result ≡ date_of self }
        ensures year { result.year ≡ pos (date_of self).year }
        ensures within { self ≤ last_day }
    {
        let Ok(date) = Date::from_unix_epoch_day(self.number as i64) else {
            unreachable!()
        };
        date
    }

    /// The day of a date of jiff's, or `None` past 2199-12-31.
    pub(crate) fn of_date(date: Date) -> Option<Day>
        requires { pos 1970 ≤ℤ date.year }
        ensures { result ≡ day_of_date (year_month_day date) }
    {
        if date.year > 2199 {
            return None;
        }
        Some(Day {
            number: date.to_unix_epoch_day() as u32,
        })
    }

    /// The year, from 1970 to 2199.
    pub fn year(&self) -> u16
        ensures value { result ≡ (date_of self.now).year }
        ensures low { 1970 ≤ result }
        ensures high { result ≤ 2199 }
        ensures within { self.now ≤ last_day }
    {
        self.to_date().year as u16
    }

    /// The month of the year, from 1 to 12.
    pub fn month(&self) -> u8
        ensures value { result ≡ (date_of self.now).month }
        ensures low { 1 ≤ result }
        ensures high { result ≤ 12 }
    {
        self.to_date().month
    }

    /// The day of the month, from 1 to 31.
    pub fn day(&self) -> u8
        ensures value { result ≡ (date_of self.now).day }
        ensures low { 1 ≤ result }
        ensures high { result ≤ 31 }
    {
        self.to_date().day
    }

    /// Monday to Friday.
    pub(crate) fn is_weekday(self) -> bool
        ensures { IsTrue result ↔ (weekday_of self < 5) }
    {
        self.to_date().weekday().index() < 5
    }
}
