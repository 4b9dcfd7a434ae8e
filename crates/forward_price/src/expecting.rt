//! Whose turn it is: due moments, the expected sheet, and what a sheet must list.
ghost use Rattle.std.specs.Prelude.{◌≡◌, ℕ, ◌<◌, true, All, IfSome, nat_lt, ◌&&◌, ◌==◌, find, option_and_then, fold};
ghost use Rattle.std.specs.Option.{option_copied};
ghost use Rattle.std.specs.List.{list_any};
ghost use Rattle.fund_calendar.specs.PricingDays.{date_at};
ghost use Rattle.forward_price.specs.Choices.{IsChoice, found_or_better, best_so_far, better_of};
ghost use Rattle.forward_price.specs.PriceTables.{calendar_numbered, is_sheet_at, date_priced};
ghost use Rattle.forward_price.specs.Turns.{asks_for, opened_by, is_due, calendar_in, due_on, due_in, is_offered_at, is_awaited, is_sooner, pairs_of, pricing_pairs, NoneAwaitedTo, expected_in, must_list, is_wrong, class_numbers, price_numbers, wrong_class, is_pair, list_fault, fault_of};

use crate::lookups::lists_class;
use crate::next_price::is_sheet_at;
use crate::price_sheet::{Opening, PublishFault, Sheet};
use fund_calendar::{Calendar, Day};
use money_units::{Moment, Nav};

fn asks_for(asked: &[u32], class: &Opening) -> bool
    ensures { result ≡ asks_for asked.now class.now }
{
    asked.iter().any(|number| *number == class.class)
}

// The later of a moment and the opening of a class, where it is asked for.
fn later_opening(asked: &[u32], class: &Opening, latest: Moment) -> Moment
    ensures { (m : ℕ) → nat_lt result m ≡ (nat_lt latest m && opened_by asked.now m class.now) }
{
    if asks_for(asked, class) && latest < class.opened {
        class.opened
    } else {
        latest
    }
}

// The last of the receipt and the openings of the classes asked for.
fn last_opening(classes: &[Opening], asked: &[u32], receipt: Moment) -> Moment
    ensures { (m : ℕ) → nat_lt result m ≡ is_due classes.now asked.now receipt m }
{
    let mut latest = receipt;
    for class in classes {
        latest = later_opening(asked, class, latest);
    }
    latest
}

/// The calendar of this number.
pub fn calendar_numbered(calendars: &[Calendar], number: u32) -> Option<&Calendar>
    ensures { option_copied result ≡ calendar_numbered calendars.now number }
{
    calendars
        .iter()
        .find(|calendar| calendar.number() == number)
}

fn class_asked<'a>(classes: &'a [Opening], asked: &[u32]) -> Option<&'a Opening>
    ensures { option_copied result ≡ find (asks_for asked.now) classes.now }
{
    classes.iter().find(|class| asks_for(asked, class))
}

fn calendar_asked<'a>(
    calendars: &'a [Calendar],
    classes: &[Opening],
    asked: &[u32],
) -> Option<&'a Calendar>
    ensures { option_copied result ≡ calendar_in calendars.now classes.now asked.now }
{
    let class = class_asked(classes, asked)?;
    calendar_numbered(calendars, class.calendar)
}

// The first pricing moment of a calendar that is due.
fn due_on(
    calendar: &Calendar,
    classes: &[Opening],
    asked: &[u32],
    receipt: Moment,
) -> Option<Moment>
    ensures { result ≡ due_on classes.now asked.now receipt calendar.now }
{
    let after = last_opening(classes, asked, receipt);
    calendar.next_after(after)
}

/// The due moment of an order.
pub fn due(
    calendars: &[Calendar],
    classes: &[Opening],
    asked: &[u32],
    receipt: Moment,
) -> Option<Moment>
    ensures { result ≡ due_in calendars.now classes.now asked.now receipt }
{
    let calendar = calendar_asked(calendars, classes, asked)?;
    due_on(calendar, classes, asked, receipt)
}

fn is_offered_at(calendar: u32, moment: Moment, class: &Opening) -> bool
    ensures { result ≡ is_offered_at calendar moment class.now }
{
    class.calendar == calendar && class.opened < moment
}

fn is_offered(classes: &[Opening], calendar: u32, moment: Moment) -> bool
    ensures { result ≡ list_any (is_offered_at calendar moment) classes.now }
{
    classes
        .iter()
        .any(|class| is_offered_at(calendar, moment, class))
}

fn is_published(sheets: &[Sheet], calendar: u32, moment: Moment) -> bool
    ensures { result ≡ list_any (is_sheet_at calendar moment) sheets.now }
{
    sheets
        .iter()
        .any(|sheet| is_sheet_at(calendar, moment, sheet))
}

fn is_awaited(classes: &[Opening], sheets: &[Sheet], moment: Moment, calendar: u32) -> bool
    ensures { result ≡ is_awaited classes.now sheets.now (moment, calendar) }
{
    is_offered(classes, calendar, moment) && !is_published(sheets, calendar, moment)
}

// The first awaited moment of a calendar, after a moment up to which none is awaited.
fn first_awaited(
    calendar: &Calendar,
    classes: &[Opening],
    sheets: &[Sheet],
    passed: Moment,
) -> Option<(Moment, u32)>
    requires { All (λ pair. is_awaited classes.now sheets.now pair ≡ true
        → passed < pair.0) (pairs_of calendar.now) }
    ensures { IsChoice (is_awaited classes.now sheets.now) is_sooner
        (pairs_of calendar.now) result }
{
    let number = calendar.number();
    let mut at = passed;
    while let Some(moment) = calendar.next_after(at) {
        if is_awaited(classes, sheets, moment, number) {
            return Some((moment, number));
        }
        at = moment;
    }
    None
}

fn is_sooner(pair: &(Moment, u32), other: &(Moment, u32)) -> bool
    ensures { result ≡ is_sooner pair.now other.now }
{
    pair.0 < other.0 || (pair.0 == other.0 && pair.1 < other.1)
}

// The sooner of the pair found so far and one more.
fn sooner(found: Option<(Moment, u32)>, pair: (Moment, u32)) -> Option<(Moment, u32)>
    ensures { result ≡ found_or_better is_sooner found pair }
{
    match found {
        None => Some(pair),
        Some(found) => {
            if is_sooner(&pair, &found) {
                Some(pair)
            } else {
                Some(found)
            }
        }
    }
}

fn sooner_of(found: Option<(Moment, u32)>, other: Option<(Moment, u32)>) -> Option<(Moment, u32)>
    ensures { result ≡ better_of is_sooner found other }
{
    match other {
        None => found,
        Some(pair) => sooner(found, pair),
    }
}

/// The moment and the calendar of the expected sheet, after a moment up to which none is awaited.
pub fn expected(
    calendars: &[Calendar],
    classes: &[Opening],
    sheets: &[Sheet],
    passed: Moment,
) -> Option<(Moment, u32)>
    requires { NoneAwaitedTo calendars.now classes.now sheets.now passed }
    ensures { result ≡ expected_in calendars.now classes.now sheets.now }
{
    let mut found = None;
    for calendar in calendars {
        found = sooner_of(found, first_awaited(calendar, classes, sheets, passed));
    }
    found
}

fn is_named(class: &Opening, number: u32, calendar: u32, moment: Moment) -> bool
    ensures { result ≡ (class.now.class == number && is_offered_at calendar moment class.now) }
{
    class.class == number && is_offered_at(calendar, moment, class)
}

fn must_list(classes: &[Opening], calendar: u32, moment: Moment, number: u32) -> bool
    ensures { result ≡ must_list classes.now calendar moment number }
{
    classes
        .iter()
        .any(|class| is_named(class, number, calendar, moment))
}

fn is_wrong(
    classes: &[Opening],
    calendar: u32,
    moment: Moment,
    prices: &[(u32, Nav)],
    number: u32,
) -> bool
    ensures { result ≡ is_wrong classes.now calendar moment prices.now number }
{
    let must = must_list(classes, calendar, moment, number);
    if lists_class(prices, number) {
        !must
    } else {
        must
    }
}

// The lesser of the number found so far and one more.
fn lesser(found: Option<u32>, number: u32) -> Option<u32>
    ensures { result ≡ found_or_better nat_lt found number }
{
    match found {
        None => Some(number),
        Some(found) => {
            if number < found {
                Some(number)
            } else {
                Some(found)
            }
        }
    }
}

fn least_missing(
    classes: &[Opening],
    calendar: u32,
    moment: Moment,
    prices: &[(u32, Nav)],
) -> Option<u32>
    ensures { result ≡ fold
        (best_so_far (is_wrong classes.now calendar moment prices.now) nat_lt) None
        (class_numbers classes.now) }
{
    let mut found = None;
    for class in classes {
        if is_wrong(classes, calendar, moment, prices, class.class) {
            found = lesser(found, class.class);
        }
    }
    found
}

/// The least class that is missing or too many on a list.
pub fn wrong_class(
    classes: &[Opening],
    calendar: u32,
    moment: Moment,
    prices: &[(u32, Nav)],
) -> Option<u32>
    ensures { result ≡ wrong_class classes.now calendar moment prices.now }
{
    let mut found = least_missing(classes, calendar, moment, prices);
    for price in prices {
        if is_wrong(classes, calendar, moment, prices, price.0) {
            found = lesser(found, price.0);
        }
    }
    found
}

fn is_pair(calendar: u32, moment: Moment, pair: &(Moment, u32)) -> bool
    ensures { result ≡ is_pair calendar moment pair.now }
{
    pair.0 == moment && pair.1 == calendar
}

fn list_fault(wrong: Option<u32>, moment: Moment, now: Moment) -> Option<PublishFault>
    ensures { result ≡ list_fault wrong moment now }
{
    match wrong {
        Some(class) => Some(PublishFault::SheetIncomplete(class)),
        None => {
            if now < moment {
                Some(PublishFault::TooSoon(moment))
            } else {
                None
            }
        }
    }
}

/// Why a sheet can't be published, given the expected one and the least class that is missing or too many.
pub fn fault_of(
    expected: Option<(Moment, u32)>,
    wrong: Option<u32>,
    calendar: u32,
    moment: Moment,
    now: Moment,
) -> Option<PublishFault>
    ensures { result ≡ fault_of expected wrong calendar moment now }
{
    match expected {
        None => Some(PublishFault::SheetOutOfTurn(Moment::start(), 0)),
        Some(pair) => {
            if is_pair(calendar, moment, &pair) {
                list_fault(wrong, moment, now)
            } else {
                Some(PublishFault::SheetOutOfTurn(pair.0, pair.1))
            }
        }
    }
}

fn date_at(calendars: &[Calendar], number: u32, moment: Moment) -> Option<Day>
    ensures { result ≡ option_and_then (λ c. date_at c moment)
        (calendar_numbered calendars.now number) }
{
    let calendar = calendar_numbered(calendars, number)?;
    calendar.date_of(moment)
}

/// The date that a calendar prices at a moment, and 1970-01-01 where it prices none then.
pub fn date_priced(calendars: &[Calendar], number: u32, moment: Moment) -> Day
    ensures { result ≡ date_priced calendars.now number moment }
{
    match date_at(calendars, number, moment) {
        Some(day) => day,
        None => first_day(),
    }
}

fn first_day() -> Day
    ensures { result ≡ 0 }
{
    Day::from_number(0).unwrap()
}
