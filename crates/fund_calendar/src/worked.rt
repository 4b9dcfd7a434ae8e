//! Worked examples of the dates, the zone rules and the pricing days, as laws: the checker computes each.
ghost use Rattle.std.specs.Prelude.{◌≡◌, ◌+◌, ◌*◌, [], ◌∷◌, Some, None, Ok, Err, true, false, codes};
ghost use Rattle.std.specs.Option.{option_and_then};
ghost use Rattle.fund_calendar.specs.Dates.{add_months, anniversaries, date_of, weekday_of};
ghost use Rattle.fund_calendar.specs.DayText.{read_day};
ghost use Rattle.fund_calendar.specs.PricingDays.{CalendarRefusal, new_calendar, next_after};
ghost use Rattle.fund_calendar.specs.WorkedCalendars.{new_york, over_the_change, over_the_holiday, greenwich, july};
ghost use Rattle.fund_calendar.specs.ZoneRules.{instant};
ghost use Rattle.fund_calendar.specs.ZoneText.{read_zone};

/// The texts of dates: 2024-02-29 is day 19782 from 1970-01-01.
pub fn date_examples()
    ensures first { read_day (codes "1970-01-01") ≡ Some 0 }
    ensures leap_day { read_day (codes "2024-02-29") ≡ Some 19782 }
    ensures last { read_day (codes "2199-12-31") ≡ Some 84005 }
    ensures no_leap_year { read_day (codes "2023-02-29") ≡ None }
    ensures too_early { read_day (codes "1969-12-31") ≡ None }
    ensures too_late { read_day (codes "2200-01-01") ≡ None }
    ensures short_month { read_day (codes "2024-7-01") ≡ None }
    ensures slashes { read_day (codes "2024/07/01") ≡ None }
    ensures parts { date_of 19782 ≡ record { year = 2024; month = 2; day = 29 } }
    ensures thursday { weekday_of 0 ≡ 3 }
{}

/// 2024-07-01 and 13 months is 2025-08-01. A month later than 2024-01-31 is 2024-02-29, and a month later than
/// 2199-12-01 is no day.
pub fn month_examples()
    ensures letter { add_months 19905 13 ≡ Some 20301 }
    ensures short_month { add_months 19753 1 ≡ Some 19782 }
    ensures past { add_months 83975 1 ≡ None }
{}

/// What was bought on 2024-02-29 has no anniversary on 2025-02-27, one on 2025-02-28, three on 2028-02-28 and four on
/// 2028-02-29; before the purchase there is none.
pub fn anniversary_examples()
    ensures day_before { anniversaries 19782 20146 ≡ 0 }
    ensures first { anniversaries 19782 20147 ≡ 1 }
    ensures third { anniversaries 19782 21242 ≡ 3 }
    ensures fourth { anniversaries 19782 21243 ≡ 4 }
    ensures before { anniversaries 20147 19782 ≡ 0 }
{}

/// What is a zone rule, and what is none though POSIX or a zone database may have it.
pub fn zone_examples()
    ensures ahead { read_zone (codes "<+0330>-3:30")
        ≡ Some (record { offset = record { behind = 0; ahead = 210 }; daylight = None }) }
    ensures behind { read_zone (codes "EST+05")
        ≡ Some (record { offset = record { behind = 300; ahead = 0 }; daylight = None }) }
    ensures name { read_zone (codes "Etc/UTC") ≡ None }
    ensures no_changes { read_zone (codes "EST5EDT") ≡ None }
    ensures days_of_year { read_zone (codes "EST5EDT,J60,J300") ≡ None }
    ensures daylight_offset { read_zone (codes "EST5EDT4,M3.2.0,M11.1.0") ≡ None }
    ensures sixth_week { read_zone (codes "EST5EDT,M3.6.0,M11.1.0") ≡ None }
    ensures far { read_zone (codes "XXX15") ≡ None }
    ensures short_name { read_zone (codes "ES5") ≡ None }
    ensures empty { read_zone [] ≡ None }
{}

/// With changes on Mondays, 02:30 on 2024-03-11 is skipped and read as standard time, 07:30 UTC; 01:30 on 2024-11-04
/// comes twice and is its first, 05:30 UTC.
pub fn change_examples()
    ensures skipped { option_and_then (λ rule. instant rule (1440 * 19793 + 150))
        (read_zone (codes "EST5EDT,M3.2.1,M11.1.1")) ≡ Some 1710142200 }
    ensures twice { option_and_then (λ rule. instant rule (1440 * 20031 + 90))
        (read_zone (codes "EST5EDT,M3.2.1,M11.1.1")) ≡ Some 1730698200 }
    ensures southern { option_and_then (λ rule. instant rule (1440 * 20088 + 960))
        (read_zone (codes "AEST-10AEDT,M10.1.0,M4.1.0/3")) ≡ Some 1735621200 }
    ensures new_year { option_and_then (λ rule. instant rule (1440 * 20090 + 960))
        (read_zone (codes "AEST-10AEDT,M10.1.0,M4.1.0/3")) ≡ Some 1735794000 }
{}

/// In New York 16:00 on Friday 2024-11-01 and on Monday 2024-11-04 are 73 hours apart, and 4 July is passed over. A
/// calendar of a Saturday has no days. Terms are refused where the zone is no rule, the last date is before the first,
/// there are 3,661 days, or the first moment lies before 1970.
pub fn calendar_examples()
    ensures daylight { new_calendar new_york ≡ Ok over_the_change }
    ensures holiday { new_calendar
        (record new_york { first = 19907; last = 19909; holidays = 19908 ∷ [] })
        ≡ Ok over_the_holiday }
    ensures saturday { new_calendar (record greenwich { minute = 0; first = 20029; last = 20029 })
        ≡ Ok (record { number = 1; days = [] }) }
    ensures no_zone { new_calendar
        (record new_york { zone = codes "EST5EDT"; first = 20031; last = 20028 })
        ≡ Err CalendarRefusal.BadZone }
    ensures backward { new_calendar (record greenwich { first = 20031; last = 20028 })
        ≡ Err CalendarRefusal.BadSpan }
    ensures too_long { new_calendar (record greenwich { first = 18262; last = 21922 })
        ≡ Err CalendarRefusal.BadSpan }
    ensures before_1970 { new_calendar
        (record greenwich { zone = codes "XXX-1"; minute = 0; first = 0; last = 1 })
        ≡ Err (CalendarRefusal.NotRising 0) }
{}

/// A purchase is due at the first pricing moment after it: at 1719863999 it is due a second later, at that moment the
/// day after, and at the last moment that is listed never.
pub fn due_examples()
    ensures before { next_after july 1719863999 ≡ Some 1719864000 }
    ensures at { next_after july 1719864000 ≡ Some 1719950400 }
    ensures past { next_after july 1719950400 ≡ None }
{}
