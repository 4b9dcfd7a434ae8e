//! The calendar of a fund: its pricing days with their moments, closures, and what is due after a moment.
ghost use Rattle.std.specs.Prelude.{◌≡◌, ◌<◌, IfOk, IfErr, IfSome, IfNone, Ok, Err};
ghost use Rattle.std.specs.Bool.{OnFalse};
ghost use Rattle.fund_calendar.specs.declared.calendar.CalendarFault.TheVariants.{NoMemory};

use crate::Day;
use crate::look_up::{entry_at, entry_of_moment, next_moment, place_of_day};
use crate::pricing_day::PricingDay;
use crate::schedule::{is_bad_span, listed_between};
use crate::zone_text::read_zone;
use money_units::Moment;
use std::alloc::{AllocError, AllocFailed, Global};
use std::error::Error;
use std::fmt;
use std::marker::Model;

/// Why a calendar can't be made.
#[derive(Clone, Copy, Debug, PartialEq, Eq)]
pub enum CalendarFault {
    /// The text is no zone rule.
    BadZone,
    /// The last date is before the first, or there are more than 3,660 days.
    BadSpan,
    /// The place, from 0, of the first pricing day whose moment isn't greater than the one before it, or lies outside
    /// 1970-01-01 00:00:00 to 2199-12-31 23:59:59 UTC.
    NotRising(u32),
    /// There is no memory.
    NoMemory,
}

impl fmt::Display for CalendarFault {
    fn fmt<W: fmt::Write>(&self, f: &mut fmt::Formatter<W>) -> fmt::Result {
        match self {
            CalendarFault::BadZone => write!(f, "the text is no zone rule"),
            CalendarFault::BadSpan => write!(f, "the dates are out of order or too far apart"),
            CalendarFault::NotRising(place) => {
                write!(f, "the moment of pricing day {place} doesn't rise")
            }
            CalendarFault::NoMemory => write!(f, "out of memory"),
        }
    }
}

impl Error for CalendarFault {}

impl From<AllocError> for CalendarFault {
    ghost from_gives = { λ _ e. e ≡ NoMemory };

    fn from(_error: AllocError) -> CalendarFault {
        CalendarFault::NoMemory
    }
}

impl<T: Drop> From<AllocFailed<T>> for CalendarFault {
    ghost from_gives = { λ _ e. e ≡ NoMemory };

    fn from(_error: AllocFailed<T>) -> CalendarFault {
        CalendarFault::NoMemory
    }
}

/// The pricing days of a fund, each with the moment at which it is priced.
#[derive(Drop)]
pub struct Calendar {
    number: u32,
    listed: Vec<PricingDay>,
}

impl Model for Calendar {
    ghost use Rattle.fund_calendar.specs.PricingDays.{Listing, IsListing};

    ghost Value = { Listing };

    ghost view = { λ c. record { number = c.number; days = c.listed.items } };

    ghost invariant = { λ c. IsListing c.listed.items };
}

impl Calendar {
    ghost use Rattle.fund_calendar.specs.PricingDays as spec;
    ghost use Rattle.fund_calendar.specs.Refusals.{RefusedAs};

    /// A calendar whose days are priced `minute` minutes after midnight in a zone: Monday to Friday from `first` to
    /// `last`, without the holidays. The faults are tried in the order of their list.
    pub fn new(
        alloc: Global,
        number: u32,
        zone: &str,
        minute: u16,
        first: Day,
        last: Day,
        holidays: &[Day],
    ) -> Result<Calendar, CalendarFault>
        requires { minute < 1440 }
        ensures made { IfOk result (λ c. Ok c ≡ spec.new_calendar (record {
          number = number;
          zone = zone.now;
          minute = minute;
          first = first;
          last = last;
          holidays = holidays.now;
        })) }
        ensures refused { IfErr result (λ e. RefusedAs e (spec.new_calendar (record {
          number = number;
          zone = zone.now;
          minute = minute;
          first = first;
          last = last;
          holidays = holidays.now;
        }))) }
    {
        let Some(rule) = read_zone(zone.as_bytes()) else {
            return Err(CalendarFault::BadZone);
        };
        if is_bad_span(first, last) {
            return Err(CalendarFault::BadSpan);
        }
        match listed_between(alloc, &rule, minute, first, last, holidays) {
            Ok(listed) => Ok(Calendar { number, listed }),
            Err(fault) => Err(fault),
        }
    }

    /// The number of the calendar.
    pub fn number(&self) -> u32
        ensures { result ≡ self.now.number }
    {
        self.number
    }

    /// Takes a pricing day away, and answers whether it was one.
    pub fn close_day(&mut self, day: Day) -> bool
        ensures answer { result ≡ spec.lists_day self.old day }
        ensures closed { self.new ≡ spec.without_day self.old day }
        ensures unchanged { OnFalse result (self.new ≡ self.old) }
    {
        match place_of_day(&self.listed, day) {
            Some(place) => {
                self.listed.remove(place);
                true
            }
            None => false,
        }
    }

    /// The least moment above, or `None` exactly without one.
    pub fn next_after(&self, moment: Moment) -> Option<Moment>
        ensures first { result ≡ spec.next_after self.now moment }
        ensures least { IfSome result (spec.IsLeastAbove self.now.days moment) }
        ensures none { IfNone result (spec.HasNoneAbove self.now.days moment) }
    {
        next_moment(&self.listed, moment)
    }

    /// The day that is priced at a moment, or `None` exactly where the moment isn't listed.
    pub fn date_of(&self, moment: Moment) -> Option<Day>
        ensures { result ≡ spec.date_at self.now moment }
    {
        let found = entry_of_moment(&self.listed, moment)?;
        Some(found.day)
    }

    /// The moment of a day, or `None` exactly where the day isn't listed.
    pub fn moment_of(&self, day: Day) -> Option<Moment>
        ensures { result ≡ spec.moment_on self.now day }
    {
        let place = place_of_day(&self.listed, day)?;
        let found = entry_at(&self.listed, place)?;
        Some(found.moment)
    }
}
