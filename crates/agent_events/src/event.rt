//! Events of the journal.
ghost use Rattle.std.specs.Prelude.{◌≡◌, true};
ghost use Rattle.agent_events.specs.Events.{fits_row};

use crate::order::Order;
use crate::request::{
    AccountForm, CalendarForm, CancelForm, ClassForm, CloseForm, DealerForm, DividendForm,
    EntryForm, FixPriceForm, FixRateForm, HouseholdForm, SheetForm, VoidForm,
};
use money_units::Moment;
use std::marker::Model;

/// Where the receipt of an order comes from.
#[derive(Clone, Copy, Debug, PartialEq, Eq)]
pub enum Source {
    /// An order of the operator or of a household: received at the moment of its request.
    Direct,
    /// A dealer's line, which says when the dealer received it.
    Dealer,
}

/// An order as it was accepted, with the pricing moment at which it was then due.
#[derive(Clone, Copy, Debug, PartialEq, Eq)]
pub struct Placed {
    pub order: Order,
    pub source: Source,
    pub receipt: Moment,
    pub due: Moment,
}

/// What a request brought to the journal, with the fields of the request.
#[derive(Debug, Drop)]
pub enum EventKind {
    Calendar(CalendarForm),
    Close(CloseForm),
    Class(ClassForm),
    Dealer(DealerForm),
    Household(HouseholdForm),
    Account(AccountForm),
    Order(Placed),
    Cancel(CancelForm),
    Sheet(SheetForm),
    Dividend(DividendForm),
    FixPrice(FixPriceForm),
    FixRate(FixRateForm),
    Enter(EntryForm),
    Replace(EntryForm),
    Void(VoidForm),
}

/// An entry of the journal: what happened, and when. Each of its lists has at most 65,535 items, as its stored row counts
/// them in two bytes.
#[derive(Debug, Drop)]
pub struct Event {
    moment: Moment,
    kind: EventKind,
}

impl Model for Event {
    ghost use Rattle.std.specs.Prelude.{◌≡◌, true};
    ghost use Rattle.agent_events.specs.Events.{Event, fits_row};

    ghost Value = { Event };

    ghost view = { λ event. record { moment = event.moment; kind = event.kind } };

    ghost invariant = { λ event. fits_row event.kind ≡ true };
}

impl Event {
    /// What happened at this moment.
    pub fn new(moment: Moment, kind: EventKind) -> Event
        requires { fits_row kind ≡ true }
        ensures { result ≡ record { moment = moment; kind = kind } }
    {
        Event { moment, kind }
    }

    /// When it happened.
    pub fn moment(&self) -> Moment
        ensures { result ≡ self.now.moment }
    {
        self.moment
    }

    /// What happened.
    pub fn kind(&self) -> &EventKind
        ensures kind { result.now ≡ self.now.kind }
        ensures fits { fits_row result.now ≡ true }
    {
        &self.kind
    }
}
