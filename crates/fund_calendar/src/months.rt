//! Months and anniversaries.
ghost use Rattle.std.specs.Prelude.{◌≡◌, ◌<◌, ◌↔◌, IsNone};
ghost use Rattle.fund_calendar.specs.Dates as dates;

use crate::Day;
use jiff_span::date;

/// The day that many months later: the same day of the month, or the month's last day where it has no such day.
/// It is `None` exactly past 2199-12-31.
pub fn add_months(day: Day, months: u16) -> Option<Day>
    ensures value { result ≡ dates.add_months day months }
    ensures past { IsNone result ↔ (2199 < (dates.months_later (dates.date_of day) months).year) }
{
    let Ok(later) = date::add_months(day.to_date(), months as i32) else {
        unreachable!()
    };
    Day::of_date(later)
}

/// How many anniversaries of a purchase have come on a day, and 0 before the purchase. The anniversary of
/// 29 February is 28 February in common years.
pub fn anniversaries(bought: Day, on: Day) -> u16
    ensures { result ≡ dates.anniversaries bought on }
{
    if on < bought {
        return 0;
    }
    let years = on.year() - bought.year();
    if has_anniversary(bought, years, on) {
        years
    } else {
        years - 1
    }
}

/// The day of that many years after the purchase has come.
fn has_anniversary(bought: Day, years: u16, on: Day) -> bool
    requires { years < 230 }
    ensures { result ≡ dates.has_anniversary bought years on }
{
    match add_months(bought, 12 * years) {
        Some(day) => day <= on,
        None => false,
    }
}
