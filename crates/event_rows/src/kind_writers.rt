//! The writers of the kinds of events, each by the writer of each of its fields.
ghost use Rattle.std.specs.Prelude.{◌≡◌, ◌++◌, true, OnOk};
ghost use Rattle.agent_events.specs.Events.{fits_count, fits_row};
ghost use Rattle.event_rows.specs.Spelling.{flag};
ghost use Rattle.event_rows.specs.InForm as range;
ghost use Rattle.event_rows.specs.Rows as spelled;

use crate::list_writers::{put_day, put_deferred, put_front, put_holidays, put_prices};
use crate::writer::RowWriter;
use agent_events::{
    AccountForm, Body, CalendarForm, CancelForm, ClassForm, CloseForm, DealerForm, DividendForm,
    EntryForm, EventKind, FixPriceForm, FixRateForm, HouseholdForm, Placed, SheetForm, Source,
    VoidForm,
};
use money_units::NoMemory;

/// What an order does: a tag and its fields.
#[tactic(auto, unfolding(crate::specs::Rows::body))]
fn put_body(row: &mut RowWriter, body: &Body) -> Result<(), NoMemory>
    ensures written { OnOk result (row.new ≡ row.old ++ spelled.body body.now) }
    ensures in_form { OnOk result (range.IsBody body.now) }
{
    match body {
        Body::Buy { class, gross } => {
            row.byte(1)?;
            row.u32(class.number())?;
            row.u64(gross.cents())?;
        }
        Body::Sell { class, mils } => {
            row.byte(2)?;
            row.u32(class.number())?;
            row.u64(mils.mils())?;
        }
        Body::SellCash { class, amount } => {
            row.byte(3)?;
            row.u32(class.number())?;
            row.u64(amount.cents())?;
        }
        Body::SellAll { class } => {
            row.byte(4)?;
            row.u32(class.number())?;
        }
        Body::Exchange { class, to, mils } => {
            row.byte(5)?;
            row.u32(class.number())?;
            row.u32(to.number())?;
            row.u64(mils.mils())?;
        }
        Body::ExchangeAll { class, to } => {
            row.byte(6)?;
            row.u32(class.number())?;
            row.u32(to.number())?;
        }
        Body::Letter { class, amount } => {
            row.byte(7)?;
            row.u32(class.number())?;
            row.u64(amount.cents())?;
        }
        Body::Elect { class, in_cash } => {
            row.byte(8)?;
            row.u32(class.number())?;
            row.flag(*in_cash)?;
        }
    }
    Ok(())
}

/// Where the receipt of an order comes from.
fn put_source(row: &mut RowWriter, source: Source) -> Result<(), NoMemory>
    ensures { OnOk result (row.new ≡ row.old ++ flag (spelled.is_dealers source)) }
{
    match source {
        Source::Direct => row.flag(false)?,
        Source::Dealer => row.flag(true)?,
    }
    Ok(())
}

#[tactic(auto, unfolding(crate::specs::Rows::calendar))]
fn put_calendar(row: &mut RowWriter, form: &CalendarForm) -> Result<(), NoMemory>
    requires { fits_count form.now.holidays ≡ true }
    ensures written { OnOk result (row.new ≡ row.old ++ spelled.calendar form.now) }
    ensures in_form { OnOk result (range.IsCalendar form.now) }
{
    row.u32(form.calendar.number())?;
    row.text(form.zone.as_slice())?;
    row.u16(form.minute.minutes())?;
    put_day(row, form.first)?;
    put_day(row, form.last)?;
    put_holidays(row, form.holidays.as_slice())?;
    Ok(())
}

#[tactic(auto, unfolding(crate::specs::Rows::close))]
fn put_close(row: &mut RowWriter, form: &CloseForm) -> Result<(), NoMemory>
    ensures written { OnOk result (row.new ≡ row.old ++ spelled.close form.now) }
    ensures in_form { OnOk result (range.IsClose form.now) }
{
    row.u32(form.calendar.number())?;
    put_day(row, form.day)?;
    Ok(())
}

// Whether a class counts, its minimums and its loads.
#[tactic(auto, unfolding(crate::specs::Rows::class_loads))]
fn put_class_loads(row: &mut RowWriter, form: &ClassForm) -> Result<(), NoMemory>
    requires front { fits_count form.now.front ≡ true }
    requires deferred { fits_count form.now.deferred ≡ true }
    ensures written { OnOk result (row.new ≡ row.old ++ spelled.class_loads form.now) }
    ensures in_form { OnOk result (range.has_front_rows form.now.front ≡ true
        → range.has_deferred_rates form.now.deferred ≡ true → range.AreLoads form.now) }
{
    row.flag(form.counts)?;
    row.u64(form.first_min.cents())?;
    row.u64(form.later_min.cents())?;
    put_front(row, form.front.as_slice())?;
    put_deferred(row, form.deferred.as_slice())?;
    Ok(())
}

#[tactic(auto, unfolding(crate::specs::Rows::class))]
fn put_class(row: &mut RowWriter, form: &ClassForm) -> Result<(), NoMemory>
    requires front { fits_count form.now.front ≡ true }
    requires deferred { fits_count form.now.deferred ≡ true }
    ensures written { OnOk result (row.new ≡ row.old ++ spelled.class form.now) }
    ensures in_form { OnOk result (range.has_front_rows form.now.front ≡ true
        → range.has_deferred_rates form.now.deferred ≡ true → range.IsClass form.now) }
{
    row.u32(form.class.number())?;
    row.u32(form.calendar.number())?;
    row.u32(form.fund.number())?;
    row.text(form.name.as_slice())?;
    row.u32(form.family)?;
    put_class_loads(row, form)?;
    Ok(())
}

#[tactic(auto, unfolding(crate::specs::Rows::dealer))]
fn put_dealer(row: &mut RowWriter, form: &DealerForm) -> Result<(), NoMemory>
    ensures written { OnOk result (row.new ≡ row.old ++ spelled.dealer form.now) }
    ensures in_form { OnOk result (range.IsDealer form.now) }
{
    row.u32(form.dealer.number())?;
    row.text(form.key.as_slice())?;
    row.u32(form.window.seconds())?;
    Ok(())
}

#[tactic(auto, unfolding(crate::specs::Rows::household))]
fn put_household(row: &mut RowWriter, form: &HouseholdForm) -> Result<(), NoMemory>
    ensures written { OnOk result (row.new ≡ row.old ++ spelled.household form.now) }
    ensures in_form { OnOk result (range.IsHousehold form.now) }
{
    row.u32(form.household.number())?;
    row.text(form.key.as_slice())?;
    Ok(())
}

#[tactic(auto, unfolding(crate::specs::Rows::account))]
fn put_account(row: &mut RowWriter, form: &AccountForm) -> Result<(), NoMemory>
    ensures written { OnOk result (row.new ≡ row.old ++ spelled.account form.now) }
    ensures in_form { OnOk result (range.IsAccount form.now) }
{
    row.u32(form.account.number())?;
    row.u32(form.household.number())?;
    row.u32(form.dealer)?;
    row.text(form.name.as_slice())?;
    Ok(())
}

#[tactic(auto, unfolding(crate::specs::Rows::accepted_order))]
fn put_placed(row: &mut RowWriter, placed: &Placed) -> Result<(), NoMemory>
    ensures written { OnOk result (row.new ≡ row.old ++ spelled.accepted_order placed.now) }
    ensures in_form { OnOk result (range.IsPlaced placed.now) }
{
    row.u32(placed.order.account.number())?;
    row.u64(placed.order.ref_no.number())?;
    put_source(row, placed.source)?;
    row.u64(placed.receipt.seconds())?;
    row.u64(placed.due.seconds())?;
    put_body(row, &placed.order.body)?;
    Ok(())
}

#[tactic(auto, unfolding(crate::specs::Rows::cancel))]
fn put_cancel(row: &mut RowWriter, form: &CancelForm) -> Result<(), NoMemory>
    ensures written { OnOk result (row.new ≡ row.old ++ spelled.cancel form.now) }
    ensures in_form { OnOk result (range.IsCancel form.now) }
{
    row.u32(form.account.number())?;
    row.u64(form.ref_no.number())?;
    row.u64(form.target.number())?;
    Ok(())
}

#[tactic(auto, unfolding(crate::specs::Rows::sheet))]
fn put_sheet(row: &mut RowWriter, form: &SheetForm) -> Result<(), NoMemory>
    requires { fits_count form.now.prices ≡ true }
    ensures written { OnOk result (row.new ≡ row.old ++ spelled.sheet form.now) }
    ensures in_form { OnOk result (range.IsSheet form.now) }
{
    row.u32(form.calendar.number())?;
    row.u64(form.moment.seconds())?;
    put_prices(row, form.prices.as_slice())?;
    Ok(())
}

#[tactic(auto, unfolding(crate::specs::Rows::dividend))]
fn put_dividend(row: &mut RowWriter, form: &DividendForm) -> Result<(), NoMemory>
    ensures written { OnOk result (row.new ≡ row.old ++ spelled.dividend form.now) }
    ensures in_form { OnOk result (range.IsDividend form.now) }
{
    row.u32(form.class.number())?;
    row.u64(form.moment.seconds())?;
    row.u64(form.rate.millionths())?;
    Ok(())
}

#[tactic(auto, unfolding(crate::specs::Rows::fix_price))]
fn put_fix_price(row: &mut RowWriter, form: &FixPriceForm) -> Result<(), NoMemory>
    ensures written { OnOk result (row.new ≡ row.old ++ spelled.fix_price form.now) }
    ensures in_form { OnOk result (range.IsFixPrice form.now) }
{
    row.u64(form.fix.number())?;
    row.bearer(form.bearer)?;
    row.u32(form.class.number())?;
    row.u64(form.moment.seconds())?;
    row.u64(form.nav.cents())?;
    Ok(())
}

#[tactic(auto, unfolding(crate::specs::Rows::fix_rate))]
fn put_fix_rate(row: &mut RowWriter, form: &FixRateForm) -> Result<(), NoMemory>
    ensures written { OnOk result (row.new ≡ row.old ++ spelled.fix_rate form.now) }
    ensures in_form { OnOk result (range.IsFixRate form.now) }
{
    row.u64(form.fix.number())?;
    row.bearer(form.bearer)?;
    row.u32(form.class.number())?;
    row.u64(form.moment.seconds())?;
    row.u64(form.rate.millionths())?;
    Ok(())
}

#[tactic(auto, unfolding(crate::specs::Rows::entry))]
fn put_entry(row: &mut RowWriter, form: &EntryForm) -> Result<(), NoMemory>
    ensures written { OnOk result (row.new ≡ row.old ++ spelled.entry form.now) }
    ensures in_form { OnOk result (range.IsEntry form.now) }
{
    row.u64(form.fix.number())?;
    row.bearer(form.bearer)?;
    row.u32(form.order.account.number())?;
    row.u64(form.order.ref_no.number())?;
    row.u64(form.receipt.seconds())?;
    put_body(row, &form.order.body)?;
    Ok(())
}

#[tactic(auto, unfolding(crate::specs::Rows::void))]
fn put_void(row: &mut RowWriter, form: &VoidForm) -> Result<(), NoMemory>
    ensures written { OnOk result (row.new ≡ row.old ++ spelled.void form.now) }
    ensures in_form { OnOk result (range.IsVoid form.now) }
{
    row.u64(form.fix.number())?;
    row.bearer(form.bearer)?;
    row.u32(form.account.number())?;
    row.u64(form.ref_no.number())?;
    Ok(())
}

/// The number of a kind.
pub(crate) fn kind_number(kind: &EventKind) -> u8
    ensures { result ≡ spelled.kind_number kind.now }
{
    match kind {
        EventKind::Calendar(_) => 1,
        EventKind::Close(_) => 2,
        EventKind::Class(_) => 3,
        EventKind::Dealer(_) => 4,
        EventKind::Household(_) => 5,
        EventKind::Account(_) => 6,
        EventKind::Order(_) => 7,
        EventKind::Cancel(_) => 8,
        EventKind::Sheet(_) => 9,
        EventKind::Dividend(_) => 10,
        EventKind::FixPrice(_) => 11,
        EventKind::FixRate(_) => 12,
        EventKind::Enter(_) => 13,
        EventKind::Replace(_) => 14,
        EventKind::Void(_) => 15,
    }
}

/// The fields of a kind.
pub(crate) fn put_fields(row: &mut RowWriter, kind: &EventKind) -> Result<(), NoMemory>
    requires { fits_row kind.now ≡ true }
    ensures written { OnOk result (row.new ≡ row.old ++ spelled.fields kind.now) }
    ensures in_form { OnOk result (range.has_loads kind.now ≡ true → range.IsKind kind.now) }
{
    match kind {
        EventKind::Calendar(form) => put_calendar(row, form)?,
        EventKind::Close(form) => put_close(row, form)?,
        EventKind::Class(form) => put_class(row, form)?,
        EventKind::Dealer(form) => put_dealer(row, form)?,
        EventKind::Household(form) => put_household(row, form)?,
        EventKind::Account(form) => put_account(row, form)?,
        EventKind::Order(placed) => put_placed(row, placed)?,
        EventKind::Cancel(form) => put_cancel(row, form)?,
        EventKind::Sheet(form) => put_sheet(row, form)?,
        EventKind::Dividend(form) => put_dividend(row, form)?,
        EventKind::FixPrice(form) => put_fix_price(row, form)?,
        EventKind::FixRate(form) => put_fix_rate(row, form)?,
        EventKind::Enter(form) => put_entry(row, form)?,
        EventKind::Replace(form) => put_entry(row, form)?,
        EventKind::Void(form) => put_void(row, form)?,
    }
    Ok(())
}
