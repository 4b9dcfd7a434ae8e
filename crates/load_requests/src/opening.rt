//! The requests of the opening.
ghost use Rattle.std.specs.Prelude.{◌≡◌, ◌≤◌, ◌+◌, ◌/◌, IfOk};
ghost use Rattle.agent_events.specs.Calendars.{calendar_checked};
ghost use Rattle.money_units.specs.Texts.{last_digit};
ghost use Rattle.fund_calendar.specs.declared.calendar.CalendarFault.TheVariants as fault_of;
ghost use Rattle.fund_calendar.specs.Refusals.{RefusedAs};
ghost use Rattle.load_requests.specs.Opening as spec;
ghost use Rattle.load_requests.specs.Requests as spec_requests;

use crate::load::Sent;
use crate::numbers::{identifier, one_cent};
use agent_events::{
    AccountForm, CalendarForm, ClassForm, FrontBrackets, Holidays, HouseholdForm, HouseholdKey,
    Name, Request, TimeOfDay, ZoneText,
};
use class_terms::{Bracket, Brackets, Schedule};
use fund_calendar::{Calendar, CalendarFault, Day};
use money_units::{Bps, Bytes, Cents, List, Moment, NoMemory};
use std::alloc::Global;

/// The zone rule of New York.
const ZONE: &str = "EST5EDT,M3.2.0,M11.1.0";

/// 16:00 in minutes after midnight.
const CLOSE: u16 = 960;

/// The moment of the opening, 2024-01-02 08:00 in New York.
pub(crate) fn opening_moment() -> Moment
    ensures { result ≡ spec.opening_moment }
{
    Moment::start().later(1_704_200_400)
}

/// 2024-01-01.
fn first_day() -> Day
    ensures { result ≡ 19723 }
{
    match Day::from_number(19_723) {
        Some(day) => day,
        None => unreachable!(),
    }
}

/// 2033-12-31.
fn last_day() -> Day
    ensures { result ≡ 23375 }
{
    match Day::from_number(23_375) {
        Some(day) => day,
        None => unreachable!(),
    }
}

/// The pricing days.
pub(crate) fn listing(alloc: Global) -> Result<Calendar, NoMemory>
    ensures { IfOk result (λ calendar. calendar ≡ spec.load_listing) }
{
    match Calendar::new(alloc, 1, ZONE, CLOSE, first_day(), last_day(), &[]) {
        Ok(calendar) => Ok(calendar),
        Err(fault) => Err(want_of_memory(fault)),
    }
}

// The terms are lawful, so that nothing but memory can be wanting.
#[tactic(auto, using(crate::proofs::CalendarFacts::never_refused))]
fn want_of_memory(fault: CalendarFault) -> NoMemory
    requires { RefusedAs fault (calendar_checked spec.load_calendar) }
    ensures { fault ≡ fault_of.NoMemory }
{
    match fault {
        CalendarFault::NoMemory => NoMemory,
        CalendarFault::BadZone => unreachable!(),
        CalendarFault::BadSpan => unreachable!(),
        CalendarFault::NotRising(_) => unreachable!(),
    }
}

fn zone_text(alloc: Global) -> Result<ZoneText, NoMemory>
    ensures { IfOk result (λ zone. zone ≡ spec.load_calendar.zone) }
{
    match ZoneText::new(Bytes::from_slice(alloc, ZONE.as_bytes())?) {
        Some(zone) => Ok(zone),
        None => unreachable!(),
    }
}

fn close() -> TimeOfDay
    ensures { result ≡ 960 }
{
    match TimeOfDay::new(CLOSE) {
        Some(time) => time,
        None => unreachable!(),
    }
}

fn no_holidays(alloc: Global) -> Holidays
    ensures { result ≡ spec.load_calendar.holidays }
{
    match Holidays::new(List::new(alloc)) {
        Some(holidays) => holidays,
        None => unreachable!(),
    }
}

/// The calendar of the load.
pub(crate) fn calendar_form(alloc: Global) -> Result<CalendarForm, NoMemory>
    ensures { IfOk result (λ form. form ≡ spec.load_calendar) }
{
    Ok(CalendarForm {
        calendar: identifier(1),
        zone: zone_text(alloc)?,
        minute: close(),
        first: first_day(),
        last: last_day(),
        holidays: no_holidays(alloc),
    })
}

/// A row of a table of front-end loads.
fn row(floor: u64, rate: u16) -> Bracket
    ensures floor { result.floor ≡ floor }
    ensures rate { result.rate ≡ rate }
{
    Bracket {
        floor: Cents(floor),
        rate: Bps(rate),
    }
}

fn falling_rows(alloc: Global) -> Result<Brackets, NoMemory>
    ensures { IfOk result (λ rows. rows ≡ spec.front_class.front) }
{
    let rows = [
        row(0, 575),
        row(2_500_000, 500),
        row(5_000_000, 450),
        row(10_000_000, 350),
        row(25_000_000, 250),
        row(50_000_000, 200),
        row(100_000_000, 0),
    ];
    List::from_slice(alloc, &rows)
}

fn no_load_rows(alloc: Global) -> Result<Brackets, NoMemory>
    ensures { IfOk result (λ rows. rows ≡ spec.deferred_class.front) }
{
    let rows = [row(0, 0)];
    List::from_slice(alloc, &rows)
}

fn falling_front(alloc: Global) -> Result<FrontBrackets, NoMemory>
    ensures { IfOk result (λ front. front ≡ spec.front_class.front) }
{
    match FrontBrackets::new(falling_rows(alloc)?) {
        Some(front) => Ok(front),
        None => unreachable!(),
    }
}

fn no_front(alloc: Global) -> Result<FrontBrackets, NoMemory>
    ensures { IfOk result (λ front. front ≡ spec.deferred_class.front) }
{
    match FrontBrackets::new(no_load_rows(alloc)?) {
        Some(front) => Ok(front),
        None => unreachable!(),
    }
}

fn falling_schedule(alloc: Global) -> Result<Schedule, NoMemory>
    ensures { IfOk result (λ rates. rates ≡ spec.deferred_class.deferred) }
{
    let rates = [Bps(500), Bps(400), Bps(300), Bps(200), Bps(100)];
    List::from_slice(alloc, &rates)
}

fn front_name(alloc: Global) -> Result<Name, NoMemory>
    ensures { IfOk result (λ name. name ≡ spec.front_class.name) }
{
    match Name::new(List::from_slice(alloc, b"GROWTH-A")?) {
        Some(name) => Ok(name),
        None => unreachable!(),
    }
}

fn deferred_name(alloc: Global) -> Result<Name, NoMemory>
    ensures { IfOk result (λ name. name ≡ spec.deferred_class.name) }
{
    match Name::new(List::from_slice(alloc, b"GROWTH-B")?) {
        Some(name) => Ok(name),
        None => unreachable!(),
    }
}

fn holder_name(alloc: Global) -> Result<Name, NoMemory>
    ensures { IfOk result (λ name. name ≡ (spec.account_form 1).name) }
{
    match Name::new(List::from_slice(alloc, b"HOLDER")?) {
        Some(name) => Ok(name),
        None => unreachable!(),
    }
}

/// The class with a front-end load, each minimum one cent.
pub(crate) fn front_class(alloc: Global) -> Result<ClassForm, NoMemory>
    ensures { IfOk result (λ form. form ≡ spec.front_class) }
{
    Ok(ClassForm {
        class: identifier(11),
        calendar: identifier(1),
        fund: identifier(1),
        name: front_name(alloc)?,
        family: 0,
        counts: true,
        first_min: one_cent(),
        later_min: one_cent(),
        front: falling_front(alloc)?,
        deferred: List::new(alloc),
    })
}

/// The class with deferred loads, each minimum one cent.
pub(crate) fn deferred_class(alloc: Global) -> Result<ClassForm, NoMemory>
    ensures { IfOk result (λ form. form ≡ spec.deferred_class) }
{
    Ok(ClassForm {
        class: identifier(12),
        calendar: identifier(1),
        fund: identifier(1),
        name: deferred_name(alloc)?,
        family: 7,
        counts: true,
        first_min: one_cent(),
        later_min: one_cent(),
        front: no_front(alloc)?,
        deferred: falling_schedule(alloc)?,
    })
}

/// The last decimal digit of a number, as a byte.
fn last_digit(number: u32) -> u8
    ensures { result ≡ last_digit number }
{
    48 + (number % 10) as u8
}

/// `h-` and the number in eight digits.
fn key_text(household: u32) -> [u8; 10]
    ensures { result ≡ spec.key_of household }
{
    [
        b'h',
        b'-',
        last_digit(household / 10_000_000),
        last_digit(household / 1_000_000),
        last_digit(household / 100_000),
        last_digit(household / 10_000),
        last_digit(household / 1_000),
        last_digit(household / 100),
        last_digit(household / 10),
        last_digit(household),
    ]
}

fn household_key(alloc: Global, household: u32) -> Result<HouseholdKey, NoMemory>
    ensures { IfOk result (λ key. key ≡ spec.key_of household) }
{
    let text = key_text(household);
    match HouseholdKey::new(Bytes::from_slice(alloc, &text)?) {
        Some(key) => Ok(key),
        None => unreachable!(),
    }
}

/// A household with its key.
pub(crate) fn household_form(alloc: Global, household: u32) -> Result<HouseholdForm, NoMemory>
    requires { 1 ≤ household }
    ensures { IfOk result (λ form. form ≡ spec.household_form household) }
{
    Ok(HouseholdForm {
        household: identifier(household),
        key: household_key(alloc, household)?,
    })
}

/// The account of a household.
pub(crate) fn account_form(alloc: Global, household: u32) -> Result<AccountForm, NoMemory>
    requires { 1 ≤ household }
    ensures { IfOk result (λ form. form ≡ spec.account_form household) }
{
    Ok(AccountForm {
        account: identifier(household),
        household: identifier(household),
        dealer: 0,
        name: holder_name(alloc)?,
    })
}

/// A request of the opening.
pub(crate) fn sent_at_opening(request: Request) -> Sent
    ensures { result ≡ spec_requests.sent_at spec.opening_moment request }
{
    Sent {
        moment: opening_moment(),
        request,
    }
}
