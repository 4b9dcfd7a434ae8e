//! Lists that rise: prices by class, holidays by date, brackets by floor.
ghost use Rattle.std.specs.Prelude.{◌≡◌, true, ◌&&◌};
ghost use Rattle.agent_events.specs.Fields.{is_floor, are_floors, if_floors, is_rising, if_rising, are_rising, are_holidays, if_holidays};

use class_terms::{Bracket, Brackets};
use fund_calendar::Day;
use money_units::{List, Nav};
use std::marker::Model;

/// The most holidays of a calendar.
const MAX_HOLIDAYS: usize = 3_660;

/// The most cents that a floor can have in its form, 13 digits of dollars.
const MAX_FLOOR_CENTS: u64 = 999_999_999_999_999;

/// The list of a sheet as it is gathered: a class and its net asset value, item by item.
pub type SheetPrices = List<(u32, Nav)>;

/// The list of a sheet in its form: classes from 1 on that rise strictly, each with its net asset value.
#[derive(Debug, Drop)]
pub struct RisingPrices {
    prices: SheetPrices,
}

impl Model for RisingPrices {
    ghost use Rattle.std.specs.Prelude.{◌≡◌, ℕ, List, true};
    ghost use Rattle.agent_events.specs.Fields.{is_rising};

    ghost Value = { List (ℕ × ℕ) };

    ghost view = { λ list. list.prices };

    ghost invariant = { λ list. is_rising list.prices ≡ true };
}

impl RisingPrices {
    /// `None` exactly where a class number isn't greater than the one before, or the first isn't at least 1.
    pub fn new(given: SheetPrices) -> Option<RisingPrices>
        ensures { result ≡ if_rising given }
    {
        if is_rising(given.as_slice()) {
            Some(RisingPrices { prices: given })
        } else {
            None
        }
    }

    /// The items in order, which rise.
    pub fn as_slice(&self) -> &[(u32, Nav)]
        ensures value { result.now ≡ self.now }
        ensures form { is_rising result.now ≡ true }
    {
        self.prices.as_slice()
    }
}

// Whether each class number is greater than the one before, and the first than 0.
fn is_rising(prices: &[(u32, Nav)]) -> bool
    ensures { result ≡ is_rising prices.now }
{
    let mut low = 0;
    for price in prices {
        if price.0 <= low {
            return false;
        }
        low = price.0;
    }
    true
}

/// Dates as they are gathered.
pub type Days = List<Day>;

/// The holidays of a calendar: at most 3,660 dates that rise strictly.
#[derive(Debug, Drop)]
pub struct Holidays {
    days: Days,
}

impl Model for Holidays {
    ghost use Rattle.std.specs.Prelude.{◌≡◌, ℕ, List, true};
    ghost use Rattle.agent_events.specs.Fields.{are_holidays};

    ghost Value = { List ℕ };

    ghost view = { λ list. list.days };

    ghost invariant = { λ list. are_holidays list.days ≡ true };
}

impl Holidays {
    /// `None` exactly where there are more than 3,660 dates, or a date isn't later than the one before.
    pub fn new(given: Days) -> Option<Holidays>
        ensures { result ≡ if_holidays given }
    {
        if are_holidays(given.as_slice()) {
            Some(Holidays { days: given })
        } else {
            None
        }
    }

    /// The dates in order, which rise.
    pub fn as_slice(&self) -> &[Day]
        ensures value { result.now ≡ self.now }
        ensures form { are_holidays result.now ≡ true }
    {
        self.days.as_slice()
    }
}

fn are_holidays(days: &[Day]) -> bool
    ensures { result ≡ are_holidays days.now }
{
    days.len() <= MAX_HOLIDAYS && are_rising(days)
}

// Whether each date is later than the one before.
fn are_rising(days: &[Day]) -> bool
    ensures { result ≡ are_rising days.now }
{
    for i in 1..days.len() {
        if days[i].number() <= days[i - 1].number() {
            return false;
        }
    }
    true
}

/// A table of front-end loads in its form, before any rule of the trade is asked: each floor has at most 13 digits of dollars.
#[derive(Debug, Drop)]
pub struct FrontBrackets {
    rows: Brackets,
}

impl Model for FrontBrackets {
    ghost use Rattle.std.specs.Prelude.{◌≡◌, ℕ, List, true};
    ghost use Rattle.agent_events.specs.Fields.{are_floors};
    ghost use Rattle.class_terms.specs.declared.lists.Bracket.{Bracket};

    ghost Value = { List Bracket };

    ghost view = { λ list. list.rows };

    ghost invariant = { λ list. are_floors list.rows ≡ true };
}

impl FrontBrackets {
    /// `None` exactly where a floor has more than 999,999,999,999,999 cents.
    pub fn new(given: Brackets) -> Option<FrontBrackets>
        ensures { result ≡ if_floors given }
    {
        if are_floors(given.as_slice()) {
            Some(FrontBrackets { rows: given })
        } else {
            None
        }
    }

    /// The rows in order.
    pub fn as_slice(&self) -> &[Bracket]
        ensures value { result.now ≡ self.now }
        ensures form { are_floors result.now ≡ true }
    {
        self.rows.as_slice()
    }
}

fn are_floors(rows: &[Bracket]) -> bool
    ensures { result ≡ are_floors rows.now }
{
    rows.iter().all(|row| is_floor(row))
}

fn is_floor(row: &Bracket) -> bool
    ensures { result ≡ is_floor row.now }
{
    row.floor.0 <= MAX_FLOOR_CENTS
}
