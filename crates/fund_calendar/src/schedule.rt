//! The pricing days of a calendar, gathered date by date, each with its moment.
ghost use Rattle.std.specs.Prelude.{◌≡◌, ◌+◌, ◌-◌, ◌≤◌, ◌<◌, false, AllPairs, length, IfOk, IfErr, IfSome, Ok, Err};
ghost use Rattle.fund_calendar.specs.PricingDays as spec;
ghost use Rattle.fund_calendar.specs.Refusals.{RefusedAs};
ghost use Rattle.fund_calendar.specs.ZoneRules.{IsZoneRule};

use crate::Day;
use crate::calendar::CalendarFault;
use crate::instant::instant;
use crate::pricing_day::PricingDay;
use crate::zone::ZoneRule;
use money_units::Moment;
use std::alloc::{AllocError, Global};

/// The most days from a calendar's first date to its last.
const LONGEST_SPAN: u32 = 3660;

/// The last date is before the first, or the calendar is too long.
pub(crate) fn is_bad_span(first: Day, last: Day) -> bool
    ensures { result ≡ spec.is_bad_span first last }
{
    last < first || last.days_after(first) >= LONGEST_SPAN
}

/// The pricing days from `first` to `last` with their moments.
pub(crate) fn listed_between(
    alloc: Global,
    rule: &ZoneRule,
    minute: u16,
    first: Day,
    last: Day,
    holidays: &[Day],
) -> Result<Vec<PricingDay>, CalendarFault>
    requires rule { IsZoneRule rule.now }
    requires minute { minute < 1440 }
    requires span { spec.is_bad_span first last ≡ false }
    ensures listed { IfOk result (λ days. Ok days.items ≡ spec.days_on
        (spec.instant_on rule.now minute) (spec.pricing_dates holidays.now first last)) }
    ensures listing { IfOk result (λ days. spec.IsListing days.items) }
    ensures refused { IfErr result (λ e. RefusedAs e (spec.days_on
        (spec.instant_on rule.now minute) (spec.pricing_dates holidays.now first last))) }
{
    let dates = pricing_dates(alloc, first, last, holidays)?;
    listed_days(alloc, rule, minute, &dates)
}

/// The dates from `first` to `last` that are priced.
pub(crate) fn pricing_dates(
    alloc: Global,
    first: Day,
    last: Day,
    holidays: &[Day],
) -> Result<Vec<Day>, AllocError>
    requires { first ≤ last }
    ensures dates { IfOk result (λ dates.
        dates.items ≡ spec.pricing_dates holidays.now first last) }
    ensures rise { IfOk result (λ dates. AllPairs (λ a b. a < b) dates.items) }
    ensures few { IfOk result (λ dates. length dates.items ≤ last + 1 - first) }
{
    let mut dates = Vec::new(alloc);
    for later in 0..last.days_after(first) + 1 {
        let day = first.plus(later);
        if is_priced(day, holidays) {
            dates.push(day)?;
        }
    }
    Ok(dates)
}

/// Monday to Friday, and no holiday.
fn is_priced(day: Day, holidays: &[Day]) -> bool
    ensures { result ≡ spec.is_priced holidays.now day }
{
    day.is_weekday() && !holidays.contains(&day)
}

/// The dates with their moments, where these rise.
pub(crate) fn listed_days(
    alloc: Global,
    rule: &ZoneRule,
    minute: u16,
    dates: &[Day],
) -> Result<Vec<PricingDay>, CalendarFault>
    requires rule { IsZoneRule rule.now }
    requires minute { minute < 1440 }
    requires few { length dates.now < 4_000_000_000 }
    requires rise { AllPairs (λ a b. a < b) dates.now }
    ensures listed { IfOk result (λ days.
        Ok days.items ≡ spec.days_on (spec.instant_on rule.now minute) dates.now) }
    ensures listing { IfOk result (λ days. spec.IsListing days.items) }
    ensures refused { IfErr result (λ e.
        RefusedAs e (spec.days_on (spec.instant_on rule.now minute) dates.now)) }
{
    let mut listed = Vec::new(alloc);
    let mut least = 0;
    for day in dates {
        match rising(instant(rule, *day, minute), least) {
            Some(moment) => {
                listed.push(PricingDay { day: *day, moment })?;
                least = moment.seconds() + 1;
            }
            None => return Err(CalendarFault::NotRising(listed.len() as u32)),
        }
    }
    Ok(listed)
}

/// The instant, where it is a moment and not before the least one that may come.
fn rising(instant: Option<u64>, least: u64) -> Option<Moment>
    ensures { result ≡ spec.rising least instant }
{
    let seconds = instant?;
    if least <= seconds {
        Moment::new(seconds)
    } else {
        None
    }
}
