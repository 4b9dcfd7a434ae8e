//! The readers of the kinds of events, each by the reader of each of its fields.
ghost use Rattle.std.specs.Prelude.{◌≡◌, true, IfOk};
ghost use Rattle.agent_events.specs.Events.{fits_count, fits_row};
ghost use Rattle.event_rows.specs.FieldReading.{Reads};
ghost use Rattle.event_rows.specs.Reading as field;

use crate::fault::RowFault;
use crate::list_readers::{read_deferred, read_front, read_holidays, read_sheet_prices};
use crate::reader::RowReader;
use agent_events::{
    AccountForm, Body, CalendarForm, CancelForm, ClassForm, CloseForm, DealerForm, DividendForm,
    EntryForm, EventKind, FixPriceForm, FixRateForm, HouseholdForm, Order, Placed, SheetForm,
    Source, VoidForm,
};
use std::alloc::Global;

/// What an order does, by its tag.
#[tactic(auto, unfolding(crate::specs::Reading::body_at))]
fn read_body(row: &mut RowReader) -> Result<Body, RowFault>
    ensures { Reads result row.new (field.body_at row.old) }
{
    Ok(match row.byte()? {
        1 => Body::Buy {
            class: row.identifier()?,
            gross: row.amount()?,
        },
        2 => Body::Sell {
            class: row.identifier()?,
            mils: row.quantity()?,
        },
        3 => Body::SellCash {
            class: row.identifier()?,
            amount: row.amount()?,
        },
        4 => Body::SellAll {
            class: row.identifier()?,
        },
        5 => Body::Exchange {
            class: row.identifier()?,
            to: row.identifier()?,
            mils: row.quantity()?,
        },
        6 => Body::ExchangeAll {
            class: row.identifier()?,
            to: row.identifier()?,
        },
        7 => Body::Letter {
            class: row.identifier()?,
            amount: row.amount()?,
        },
        8 => Body::Elect {
            class: row.identifier()?,
            in_cash: row.flag()?,
        },
        _ => return Err(RowFault::Wrong),
    })
}

/// Where the receipt of an order comes from.
#[tactic(auto, unfolding(crate::specs::Reading::source_at))]
fn read_source(row: &mut RowReader) -> Result<Source, RowFault>
    ensures { Reads result row.new (field.source_at row.old) }
{
    if row.flag()? {
        Ok(Source::Dealer)
    } else {
        Ok(Source::Direct)
    }
}

#[tactic(auto, unfolding(crate::specs::Reading::calendar_at))]
fn read_calendar(alloc: Global, row: &mut RowReader) -> Result<CalendarForm, RowFault>
    ensures read { Reads result row.new (field.calendar_at row.old) }
    ensures fits { IfOk result (λ form. fits_count form.holidays ≡ true) }
{
    Ok(CalendarForm {
        calendar: row.identifier()?,
        zone: row.zone(alloc)?,
        minute: row.time_of_day()?,
        first: row.day()?,
        last: row.day()?,
        holidays: read_holidays(alloc, row)?,
    })
}

#[tactic(auto, unfolding(crate::specs::Reading::close_at))]
fn read_close(row: &mut RowReader) -> Result<CloseForm, RowFault>
    ensures { Reads result row.new (field.close_at row.old) }
{
    Ok(CloseForm {
        calendar: row.identifier()?,
        day: row.day()?,
    })
}

#[tactic(auto, unfolding(crate::specs::Reading::class_at))]
fn read_class(alloc: Global, row: &mut RowReader) -> Result<ClassForm, RowFault>
    ensures read { Reads result row.new (field.class_at row.old) }
    ensures front { IfOk result (λ form. fits_count form.front ≡ true) }
    ensures deferred { IfOk result (λ form. fits_count form.deferred ≡ true) }
{
    Ok(ClassForm {
        class: row.identifier()?,
        calendar: row.identifier()?,
        fund: row.identifier()?,
        name: row.name(alloc)?,
        family: row.identifier_or_none()?,
        counts: row.flag()?,
        first_min: row.minimum()?,
        later_min: row.minimum()?,
        front: read_front(alloc, row)?,
        deferred: read_deferred(alloc, row)?,
    })
}

#[tactic(auto, unfolding(crate::specs::Reading::dealer_at))]
fn read_dealer(alloc: Global, row: &mut RowReader) -> Result<DealerForm, RowFault>
    ensures { Reads result row.new (field.dealer_at row.old) }
{
    Ok(DealerForm {
        dealer: row.identifier()?,
        key: row.dealer_key(alloc)?,
        window: row.window()?,
    })
}

#[tactic(auto, unfolding(crate::specs::Reading::household_at))]
fn read_household(alloc: Global, row: &mut RowReader) -> Result<HouseholdForm, RowFault>
    ensures { Reads result row.new (field.household_at row.old) }
{
    Ok(HouseholdForm {
        household: row.identifier()?,
        key: row.household_key(alloc)?,
    })
}

#[tactic(auto, unfolding(crate::specs::Reading::account_at))]
fn read_account(alloc: Global, row: &mut RowReader) -> Result<AccountForm, RowFault>
    ensures { Reads result row.new (field.account_at row.old) }
{
    Ok(AccountForm {
        account: row.identifier()?,
        household: row.identifier()?,
        dealer: row.identifier_or_none()?,
        name: row.name(alloc)?,
    })
}

#[tactic(auto, unfolding(crate::specs::Reading::placed_at))]
fn read_placed(row: &mut RowReader) -> Result<Placed, RowFault>
    ensures { Reads result row.new (field.placed_at row.old) }
{
    let account = row.identifier()?;
    let ref_no = row.reference()?;
    let source = read_source(row)?;
    let receipt = row.moment()?;
    let due = row.moment()?;
    let body = read_body(row)?;
    Ok(Placed {
        order: Order {
            account,
            ref_no,
            body,
        },
        source,
        receipt,
        due,
    })
}

#[tactic(auto, unfolding(crate::specs::Reading::cancel_at))]
fn read_cancel(row: &mut RowReader) -> Result<CancelForm, RowFault>
    ensures { Reads result row.new (field.cancel_at row.old) }
{
    Ok(CancelForm {
        account: row.identifier()?,
        ref_no: row.reference()?,
        target: row.reference()?,
    })
}

#[tactic(auto, unfolding(crate::specs::Reading::sheet_at))]
fn read_sheet(alloc: Global, row: &mut RowReader) -> Result<SheetForm, RowFault>
    ensures read { Reads result row.new (field.sheet_at row.old) }
    ensures fits { IfOk result (λ form. fits_count form.prices ≡ true) }
{
    Ok(SheetForm {
        calendar: row.identifier()?,
        moment: row.moment()?,
        prices: read_sheet_prices(alloc, row)?,
    })
}

#[tactic(auto, unfolding(crate::specs::Reading::dividend_at))]
fn read_dividend(row: &mut RowReader) -> Result<DividendForm, RowFault>
    ensures { Reads result row.new (field.dividend_at row.old) }
{
    Ok(DividendForm {
        class: row.identifier()?,
        moment: row.moment()?,
        rate: row.dividend_rate()?,
    })
}

#[tactic(auto, unfolding(crate::specs::Reading::fix_price_at))]
fn read_fix_price(row: &mut RowReader) -> Result<FixPriceForm, RowFault>
    ensures { Reads result row.new (field.fix_price_at row.old) }
{
    Ok(FixPriceForm {
        fix: row.reference()?,
        bearer: row.bearer()?,
        class: row.identifier()?,
        moment: row.moment()?,
        nav: row.nav()?,
    })
}

#[tactic(auto, unfolding(crate::specs::Reading::fix_rate_at))]
fn read_fix_rate(row: &mut RowReader) -> Result<FixRateForm, RowFault>
    ensures { Reads result row.new (field.fix_rate_at row.old) }
{
    Ok(FixRateForm {
        fix: row.reference()?,
        bearer: row.bearer()?,
        class: row.identifier()?,
        moment: row.moment()?,
        rate: row.corrected_rate()?,
    })
}

#[tactic(auto, unfolding(crate::specs::Reading::entry_at))]
fn read_entry(row: &mut RowReader) -> Result<EntryForm, RowFault>
    ensures { Reads result row.new (field.entry_at row.old) }
{
    let fix = row.reference()?;
    let bearer = row.bearer()?;
    let account = row.identifier()?;
    let ref_no = row.reference()?;
    let receipt = row.moment()?;
    let body = read_body(row)?;
    Ok(EntryForm {
        fix,
        bearer,
        receipt,
        order: Order {
            account,
            ref_no,
            body,
        },
    })
}

#[tactic(auto, unfolding(crate::specs::Reading::void_at))]
fn read_void(row: &mut RowReader) -> Result<VoidForm, RowFault>
    ensures { Reads result row.new (field.void_at row.old) }
{
    Ok(VoidForm {
        fix: row.reference()?,
        bearer: row.bearer()?,
        account: row.identifier()?,
        ref_no: row.reference()?,
    })
}

/// The fields of the kind with this number.
#[tactic(auto, unfolding(crate::specs::Reading::fields_at))]
pub(crate) fn read_fields(
    alloc: Global,
    number: u8,
    row: &mut RowReader,
) -> Result<EventKind, RowFault>
    ensures read { Reads result row.new (field.fields_at number row.old) }
    ensures fits { IfOk result (λ kind. fits_row kind ≡ true) }
{
    Ok(match number {
        1 => EventKind::Calendar(read_calendar(alloc, row)?),
        2 => EventKind::Close(read_close(row)?),
        3 => EventKind::Class(read_class(alloc, row)?),
        4 => EventKind::Dealer(read_dealer(alloc, row)?),
        5 => EventKind::Household(read_household(alloc, row)?),
        6 => EventKind::Account(read_account(alloc, row)?),
        7 => EventKind::Order(read_placed(row)?),
        8 => EventKind::Cancel(read_cancel(row)?),
        9 => EventKind::Sheet(read_sheet(alloc, row)?),
        10 => EventKind::Dividend(read_dividend(row)?),
        11 => EventKind::FixPrice(read_fix_price(row)?),
        12 => EventKind::FixRate(read_fix_rate(row)?),
        13 => EventKind::Enter(read_entry(row)?),
        14 => EventKind::Replace(read_entry(row)?),
        15 => EventKind::Void(read_void(row)?),
        _ => return Err(RowFault::Wrong),
    })
}
