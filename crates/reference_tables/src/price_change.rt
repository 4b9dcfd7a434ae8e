//! What an event needs before it changes the price book: the days of a calendar, and room.
ghost use Rattle.std.specs.Prelude.{◌≡◌, ◌≤◌, Ok, Some, IfOk, OnOk, length};
ghost use Rattle.agent_events.specs.Calendars.{calendar_checked};
ghost use Rattle.fund_calendar.specs.PricingDays.{Listing};
ghost use Rattle.reference_tables.specs.PriceChanges.{HasGoodCalendar, HasRoomFor, listing_brought};
ghost use Rattle.register_machine.specs.pricing.PublishedTable.{listing_of};

use agent_events::{CalendarForm, EventKind, SheetForm};
use forward_price::PriceBook;
use fund_calendar::{Calendar, CalendarFault};
use money_units::NoMemory;
use std::alloc::Global;
use std::marker::Model;

/// What an event brings to the price book that took memory: the listed days of a calendar, or nothing.
#[derive(Drop)]
pub struct PriceChange {
    calendar: Option<Calendar>,
}

impl Model for PriceChange {
    ghost use Rattle.std.specs.Prelude.{Option};
    ghost use Rattle.fund_calendar.specs.PricingDays.{Listing};

    ghost Value = { Option Listing };

    ghost view = { λ change. change.calendar };
}

impl PriceChange {
    /// The calendar, with its listed days.
    pub(crate) fn into_calendar(self) -> Option<Calendar>
        ensures { result ≡ self }
    {
        self.calendar
    }
}

/// Makes what an event of this kind needs, and room for it in the price book, whose table stays as it is. The calendar of the
/// event is one that can be listed.
pub fn prepare(
    alloc: Global,
    prices: &mut PriceBook,
    kind: &EventKind,
) -> Result<PriceChange, NoMemory>
    requires { HasGoodCalendar kind.now }
    ensures change { IfOk result (λ change. change ≡ listing_brought kind.now) }
    ensures room { OnOk result (HasRoomFor prices.new kind.now) }
    ensures table { prices.new.table ≡ prices.old.table }
    ensures spare { prices.old.spare ≤ prices.new.spare }
    ensures list { prices.old.list ≤ prices.new.list }
{
    let calendar = calendar_brought(alloc, kind)?;
    make_room(prices, kind)?;
    Ok(PriceChange { calendar })
}

fn calendar_brought(alloc: Global, kind: &EventKind) -> Result<Option<Calendar>, NoMemory>
    requires { HasGoodCalendar kind.now }
    ensures { IfOk result (λ calendar. calendar ≡ listing_brought kind.now) }
{
    match kind {
        EventKind::Calendar(form) => Ok(Some(listed(alloc, form)?)),
        _ => Ok(None),
    }
}

// The calendar of a form that can be listed.
fn listed(alloc: Global, form: &CalendarForm) -> Result<Calendar, NoMemory>
    requires { calendar_checked form.now ≡ Ok (listing_of form.now) }
    ensures { IfOk result (λ calendar. calendar ≡ listing_of form.now) }
{
    match form.listed(alloc) {
        Ok(calendar) => Ok(calendar),
        Err(CalendarFault::NoMemory) => Err(NoMemory),
        Err(CalendarFault::BadZone) => unreachable!(),
        Err(CalendarFault::BadSpan) => unreachable!(),
        Err(CalendarFault::NotRising(_)) => unreachable!(),
    }
}

/// How many prices a sheet has; a list that a u32 doesn't count has no memory.
pub fn prices_in(form: &SheetForm) -> Result<u32, NoMemory>
    ensures { IfOk result (λ count. count ≡ length form.now.prices) }
{
    match u32::try_from(form.prices.as_slice().len()) {
        Ok(count) => Ok(count),
        Err(_) => Err(NoMemory),
    }
}

fn make_room(prices: &mut PriceBook, kind: &EventKind) -> Result<(), NoMemory>
    ensures room { OnOk result (HasRoomFor prices.new kind.now) }
    ensures table { prices.new.table ≡ prices.old.table }
    ensures spare { prices.old.spare ≤ prices.new.spare }
    ensures list { prices.old.list ≤ prices.new.list }
{
    match kind {
        EventKind::Calendar(_) => prices.reserve(1),
        EventKind::Class(_) => prices.reserve(1),
        EventKind::Sheet(form) => {
            let count = prices_in(form)?;
            prices.reserve(count)
        }
        _ => Ok(()),
    }
}
