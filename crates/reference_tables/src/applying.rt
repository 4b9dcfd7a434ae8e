//! An event changes the price book, without memory.
ghost use Rattle.std.specs.Prelude.{◌≡◌, ◌≤◌, None, Some, length};
ghost use Rattle.agent_events.specs.declared.event.EventKind.{EventKind};
ghost use Rattle.fund_calendar.specs.PricingDays.{Listing};
ghost use Rattle.forward_price.specs.PriceTables.{calendar_numbered, with_calendar, with_class, with_published};
ghost use Rattle.reference_tables.specs.PriceChanges.{CanChange, HasRoomFor, IsNextSheet, IsOfOneSheet, listing_brought};
ghost use Rattle.register_laws.specs.OneEventMore.{corrected_table_by, with_price_fixed};
ghost use Rattle.register_machine.specs.pricing.PublishedTable.{listing_of};

use crate::patches::patch_of;
use crate::price_change::PriceChange;
use agent_events::{CalendarForm, ClassForm, EventKind, FixPriceForm, SheetForm};
use forward_price::PriceBook;
use money_units::Moment;

/// Changes the price book as an event of this kind at this moment does: a calendar and a class come behind the others, a closure
/// takes a day away, a sheet is published, and a corrected price stands on its sheet. It takes no memory: the change was prepared
/// for this kind, and the room that was made is there.
pub fn apply(prices: &mut PriceBook, moment: Moment, kind: &EventKind, change: PriceChange)
    requires prepared { change ≡ listing_brought kind.now }
    requires room { HasRoomFor prices.old kind.now }
    requires fits { CanChange prices.old.table kind.now }
    ensures { prices.new.table ≡ corrected_table_by prices.old.table moment kind.now }
{
    match kind {
        EventKind::Calendar(_) => add_calendar(prices, change),
        EventKind::Close(form) => {
            let _closed = prices.close_day(form.calendar.number(), form.day);
        }
        EventKind::Class(form) => add_class(prices, moment, form),
        EventKind::Sheet(form) => publish(prices, form),
        EventKind::FixPrice(form) => fix_price(prices, form),
        _ => {}
    }
}

fn add_calendar(prices: &mut PriceBook, change: PriceChange)
    requires some { (listing : Listing) × (change ≡ Some listing)
        × (calendar_numbered prices.old.table.calendars listing.number ≡ None) }
    requires room { 1 ≤ prices.old.spare }
    ensures { (listing : Listing) → change ≡ Some listing
        → prices.new.table ≡ with_calendar prices.old.table listing }
{
    match change.into_calendar() {
        Some(calendar) => prices.add_calendar(calendar),
        None => unreachable!(),
    }
}

fn add_class(prices: &mut PriceBook, moment: Moment, form: &ClassForm)
    requires fits { CanChange prices.old.table (EventKind.Class form.now) }
    requires room { 1 ≤ prices.old.spare }
    ensures { prices.new.table
        ≡ with_class prices.old.table form.now.class form.now.calendar moment }
{
    prices.add_class(form.class.number(), form.calendar.number(), moment);
}

fn publish(prices: &mut PriceBook, form: &SheetForm)
    requires fits { IsNextSheet prices.old.table form.now }
    requires room { length form.now.prices ≤ prices.old.list }
    ensures { prices.new.table
        ≡ with_published prices.old.table form.now.calendar form.now.moment form.now.prices }
{
    let _number = prices.publish(form.calendar.number(), form.moment, form.prices.as_slice());
}

fn fix_price(prices: &mut PriceBook, form: &FixPriceForm)
    requires { IsOfOneSheet prices.old.table form.now }
    ensures { prices.new.table ≡ with_price_fixed form.now prices.old.table }
{
    match patch_of(prices, form) {
        Some(patch) => {
            let _corrected = prices.correct(patch.class, patch.sheet, patch.nav);
        }
        None => unreachable!(),
    }
}
