//! The instant of a local time of day.
ghost use Rattle.std.specs.Prelude.{◌≡◌, ◌+◌, ◌*◌, ◌≤◌, ◌<◌, unsigned_abs};
ghost use Rattle.fund_calendar.specs.ZoneRules.{IsChange, IsDaylight, IsZoneRule};
ghost use Rattle.fund_calendar.specs.ZoneRules as rules;

use crate::Day;
use crate::zone::{Change, Daylight, ZoneRule};
use jiff_core::civil::{Date, Weekday};

/// Minutes of a day.
const DAY_MINUTES: u32 = 1440;

/// The instant of a local time of day, in seconds since 1970-01-01 00:00 UTC, or `None` before that.
pub(crate) fn instant(rule: &ZoneRule, day: Day, minute: u16) -> Option<u64>
    requires rule { IsZoneRule rule.now }
    requires minute { minute < 1440 }
    ensures { result ≡ rules.instant rule.now (1440 * day + minute) }
{
    let later = local_minute(day, minute) + rule.offset.behind as u32;
    let earlier = rule.offset.ahead as u32 + daylight_minutes(rule, day, minute);
    if earlier <= later {
        Some(60 * (later - earlier) as u64)
    } else {
        None
    }
}

/// The minutes by which daylight time is ahead of standard time, where it counts.
fn daylight_minutes(rule: &ZoneRule, day: Day, minute: u16) -> u32
    requires rule { IsZoneRule rule.now }
    requires minute { minute < 1440 }
    ensures value { result ≡ rules.daylight_minutes rule.now (1440 * day + minute) }
    ensures bound { result ≤ 60 }
{
    match &rule.daylight {
        Some(daylight) => {
            if is_daylight(daylight, day, minute) {
                60
            } else {
                0
            }
        }
        None => 0,
    }
}

/// The local minute of a time of day.
fn local_minute(day: Day, minute: u16) -> u32
    requires { minute < 1440 }
    ensures value { result ≡ 1440 * day + minute }
    ensures bound { result < 121_000_000 }
{
    DAY_MINUTES * day.number() as u32 + minute as u32
}

/// Daylight time counts at a local time of day.
fn is_daylight(daylight: &Daylight, day: Day, minute: u16) -> bool
    requires daylight { IsDaylight daylight.now }
    requires minute { minute < 1440 }
    ensures { result ≡ rules.is_daylight daylight.now (1440 * day + minute) }
{
    let local = local_minute(day, minute);
    let year = day.year();
    let begins = change_minute(year, &daylight.begins);
    let ends = change_minute(year, &daylight.ends);
    is_between(begins, ends, local)
}

/// Daylight time counts at a local minute, between the minutes of the year's two changes.
fn is_between(begins: u32, ends: u32, local: u32) -> bool
    requires { begins < 121_000_000 }
    ensures { result ≡ rules.is_between begins ends local }
{
    if begins < ends {
        begins + 60 <= local && local < ends
    } else {
        begins + 60 <= local || local < ends
    }
}

/// The local minute of a change in a year, by the clock just before it.
fn change_minute(year: u16, change: &Change) -> u32
    requires low { 1970 ≤ year }
    requires high { year ≤ 2199 }
    requires change { IsChange change.now }
    ensures value { result ≡ rules.change_minute year change.now }
    ensures bound { result < 121_000_000 }
{
    let day = weekday_in_month(year, change.month, change.week, change.weekday);
    DAY_MINUTES * day + 60 * change.hour as u32
}

/// The day number of the `week`-th such weekday of a month, or of the last one where the week is 5.
fn weekday_in_month(year: u16, month: u8, week: u8, weekday: u8) -> u32
    requires year_low { 1970 ≤ year }
    requires year_high { year ≤ 2199 }
    requires month_low { 1 ≤ month }
    requires month_high { month ≤ 12 }
    requires week_low { 1 ≤ week }
    requires week_high { week ≤ 5 }
    requires weekday_high { weekday ≤ 6 }
    ensures value { result ≡ rules.weekday_in_month year month week weekday }
    ensures bound { result ≤ 84005 }
{
    let Ok(first) = Date::new(year as i16, month as i8, 1) else {
        unreachable!()
    };
    let found = first.nth_weekday_of_month(jiff_week(week), Weekday::from_index((weekday + 6) % 7));
    let Ok(date) = found else { unreachable!() };
    date.to_unix_epoch_day() as u32
}

/// The number by which jiff names a week of a month: -1 is the last one.
fn jiff_week(week: u8) -> i8
    requires low { 1 ≤ week }
    requires high { week ≤ 5 }
    ensures value { result ≡ rules.jiff_week week }
    ensures within { (1 ≤ unsigned_abs result) × (unsigned_abs result ≤ 4) }
{
    if week == 5 { -1 } else { week as i8 }
}
