//! Requests by their verbs.
use crate::fields::{
    CorrectedRate, DividendRate, Identifier, Minimum, Reference, TimeOfDay, Window,
};
use crate::lists::{FrontBrackets, Holidays, RisingPrices};
use crate::order::{Bearer, Order};
use crate::texts::{DealerKey, HouseholdKey, Name, ZoneText};
use class_terms::Schedule;
use fund_calendar::Day;
use money_units::{Moment, Nav};

/// A calendar by its zone rule, its time of day, its dates from first to last and its holidays.
#[derive(Debug, Drop)]
pub struct CalendarForm {
    pub calendar: Identifier,
    pub zone: ZoneText,
    pub minute: TimeOfDay,
    pub first: Day,
    pub last: Day,
    pub holidays: Holidays,
}

/// A pricing day that is closed.
#[derive(Clone, Copy, Debug, PartialEq, Eq)]
pub struct CloseForm {
    pub calendar: Identifier,
    pub day: Day,
}

/// A class to open, with its terms as they were sent.
#[derive(Debug, Drop)]
pub struct ClassForm {
    pub class: Identifier,
    pub calendar: Identifier,
    pub fund: Identifier,
    pub name: Name,
    /// The family of exchange, 0 for none.
    pub family: u32,
    /// Whether its shares count towards the breakpoints of a household.
    pub counts: bool,
    pub first_min: Minimum,
    pub later_min: Minimum,
    pub front: FrontBrackets,
    pub deferred: Schedule,
}

/// A dealer, its key, and how long after a pricing moment its lines for that moment may come.
#[derive(Debug, Drop)]
pub struct DealerForm {
    pub dealer: Identifier,
    pub key: DealerKey,
    pub window: Window,
}

/// A household and its key.
#[derive(Debug, Drop)]
pub struct HouseholdForm {
    pub household: Identifier,
    pub key: HouseholdKey,
}

/// An account of a household.
#[derive(Debug, Drop)]
pub struct AccountForm {
    pub account: Identifier,
    pub household: Identifier,
    /// The dealer, 0 for none.
    pub dealer: u32,
    pub name: Name,
}

/// The net asset values of a calendar's classes at one pricing moment.
#[derive(Debug, Drop)]
pub struct SheetForm {
    pub calendar: Identifier,
    pub moment: Moment,
    pub prices: RisingPrices,
}

/// A dividend of a class at a pricing moment.
#[derive(Clone, Copy, Debug, PartialEq, Eq)]
pub struct DividendForm {
    pub class: Identifier,
    pub moment: Moment,
    pub rate: DividendRate,
}

/// Another net asset value of a class on a published sheet.
#[derive(Clone, Copy, Debug, PartialEq, Eq)]
pub struct FixPriceForm {
    pub fix: Reference,
    pub bearer: Bearer,
    pub class: Identifier,
    pub moment: Moment,
    pub nav: Nav,
}

/// Another dividend rate of a class on a published sheet, 0 for none.
#[derive(Clone, Copy, Debug, PartialEq, Eq)]
pub struct FixRateForm {
    pub fix: Reference,
    pub bearer: Bearer,
    pub class: Identifier,
    pub moment: Moment,
    pub rate: CorrectedRate,
}

/// An order with a past receipt: one that is added, or the new content of one that stands.
#[derive(Clone, Copy, Debug, PartialEq, Eq)]
pub struct EntryForm {
    pub fix: Reference,
    pub bearer: Bearer,
    pub receipt: Moment,
    pub order: Order,
}

/// An order that is struck.
#[derive(Clone, Copy, Debug, PartialEq, Eq)]
pub struct VoidForm {
    pub fix: Reference,
    pub bearer: Bearer,
    pub account: Identifier,
    pub ref_no: Reference,
}

/// The cancel of an order that isn't due yet, with a reference of its own.
#[derive(Clone, Copy, Debug, PartialEq, Eq)]
pub struct CancelForm {
    pub account: Identifier,
    pub ref_no: Reference,
    /// The reference of the order.
    pub target: Reference,
}

/// The outcome of an order is asked for.
#[derive(Clone, Copy, Debug, PartialEq, Eq)]
pub struct TraceForm {
    pub account: Identifier,
    pub ref_no: Reference,
}

/// The statement of an account over the days from first to last is asked for.
#[derive(Clone, Copy, Debug, PartialEq, Eq)]
pub struct StatementForm {
    pub account: Identifier,
    pub first: Day,
    pub last: Day,
}

/// A dealer's line: an order, and when the dealer received it.
#[derive(Clone, Copy, Debug, PartialEq, Eq)]
pub struct LineForm {
    pub receipt: Moment,
    pub order: Order,
}

/// What is asked of the register.
#[derive(Debug, Drop)]
pub enum Request {
    Calendar(CalendarForm),
    Close(CloseForm),
    Class(ClassForm),
    Dealer(DealerForm),
    Household(HouseholdForm),
    Account(AccountForm),
    Sheet(SheetForm),
    Dividend(DividendForm),
    FixPrice(FixPriceForm),
    FixRate(FixRateForm),
    Enter(EntryForm),
    Replace(EntryForm),
    Void(VoidForm),
    Order(Order),
    Cancel(CancelForm),
    /// The positions of an account.
    Show(Identifier),
    Trace(TraceForm),
    Statement(StatementForm),
    /// What is outstanding of each class, and the cash of all parties.
    Books,
    Line(LineForm),
}
