//! The lists of a row: a count, and so many items. The items are read one by one, so a count that the bytes don't bear out
//! takes no memory.
ghost use Rattle.std.specs.Prelude.{◌≡◌, true, length, IfOk};
ghost use Rattle.agent_events.specs.Events.{fits_count};
ghost use Rattle.event_rows.specs.FieldReading.{Reads, items_at};
ghost use Rattle.event_rows.specs.Readers.{day_at, rate_at};
ghost use Rattle.event_rows.specs.Reading.{bracket_at, price_at, holidays_at, front_at, deferred_at, prices_at};

use crate::fault::RowFault;
use crate::reader::RowReader;
use agent_events::{Days, FrontBrackets, Holidays, RisingPrices, SheetPrices};
use class_terms::{Bracket, Brackets, Schedule};
use money_units::{Cents, Nav};
use std::alloc::Global;

/// The most rows of front-end loads that a class has, and the most rates of a deferred load.
const MOST_FRONT_ROWS: usize = 16;

const MOST_DEFERRED_RATES: usize = 10;

#[tactic(auto, unfolding(crate::specs::Reading::bracket_at))]
fn read_bracket(row: &mut RowReader) -> Result<Bracket, RowFault>
    ensures { Reads result row.new (bracket_at row.old) }
{
    Ok(Bracket {
        floor: Cents(row.u64()?),
        rate: row.rate()?,
    })
}

#[tactic(auto, unfolding(crate::specs::Reading::price_at))]
fn read_price(row: &mut RowReader) -> Result<(u32, Nav), RowFault>
    ensures { Reads result row.new (price_at row.old) }
{
    let class = row.u32()?;
    let nav = row.nav()?;
    Ok((class, nav))
}

// So many dates.
fn read_days(alloc: Global, row: &mut RowReader, count: u16) -> Result<Days, RowFault>
    ensures read { Reads result row.new (items_at day_at count row.old) }
    ensures counted { IfOk result (λ days. length days ≡ count) }
{
    let mut days = Days::new(alloc);
    for _ in 0..count {
        let day = row.day()?;
        days.push(day)?;
    }
    Ok(days)
}

// So many rows of a table of front-end loads.
fn read_brackets(alloc: Global, row: &mut RowReader, count: u16) -> Result<Brackets, RowFault>
    ensures read { Reads result row.new (items_at bracket_at count row.old) }
    ensures counted { IfOk result (λ brackets. length brackets ≡ count) }
{
    let mut brackets = Brackets::new(alloc);
    for _ in 0..count {
        let bracket = read_bracket(row)?;
        brackets.push(bracket)?;
    }
    Ok(brackets)
}

// So many rates of a schedule.
fn read_rates(alloc: Global, row: &mut RowReader, count: u16) -> Result<Schedule, RowFault>
    ensures read { Reads result row.new (items_at rate_at count row.old) }
    ensures counted { IfOk result (λ rates. length rates ≡ count) }
{
    let mut rates = Schedule::new(alloc);
    for _ in 0..count {
        let rate = row.rate()?;
        rates.push(rate)?;
    }
    Ok(rates)
}

// So many classes with their net asset values.
fn read_prices(alloc: Global, row: &mut RowReader, count: u16) -> Result<SheetPrices, RowFault>
    ensures read { Reads result row.new (items_at price_at count row.old) }
    ensures counted { IfOk result (λ prices. length prices ≡ count) }
{
    let mut prices = SheetPrices::new(alloc);
    for _ in 0..count {
        let price = read_price(row)?;
        prices.push(price)?;
    }
    Ok(prices)
}

/// The holidays of a calendar.
#[tactic(auto, unfolding(crate::specs::Reading::holidays_at, crate::specs::FieldReading::list_at))]
pub(crate) fn read_holidays(alloc: Global, row: &mut RowReader) -> Result<Holidays, RowFault>
    ensures read { Reads result row.new (holidays_at row.old) }
    ensures fits { IfOk result (λ holidays. fits_count holidays ≡ true) }
{
    let count = row.u16()?;
    Holidays::new(read_days(alloc, row, count)?).ok_or(RowFault::Wrong)
}

/// The front-end loads of a class.
#[tactic(auto, unfolding(crate::specs::Reading::front_at, crate::specs::FieldReading::list_at))]
pub(crate) fn read_front(alloc: Global, row: &mut RowReader) -> Result<FrontBrackets, RowFault>
    ensures read { Reads result row.new (front_at row.old) }
    ensures fits { IfOk result (λ front. fits_count front ≡ true) }
{
    let count = row.u16()?;
    let rows = read_brackets(alloc, row, count)?;
    if rows.len() < 1 || rows.len() > MOST_FRONT_ROWS {
        return Err(RowFault::Wrong);
    }
    FrontBrackets::new(rows).ok_or(RowFault::Wrong)
}

/// The deferred loads of a class.
#[tactic(auto, unfolding(crate::specs::Reading::deferred_at, crate::specs::FieldReading::list_at))]
pub(crate) fn read_deferred(alloc: Global, row: &mut RowReader) -> Result<Schedule, RowFault>
    ensures read { Reads result row.new (deferred_at row.old) }
    ensures fits { IfOk result (λ rates. fits_count rates ≡ true) }
{
    let count = row.u16()?;
    let rates = read_rates(alloc, row, count)?;
    if rates.len() > MOST_DEFERRED_RATES {
        return Err(RowFault::Wrong);
    }
    Ok(rates)
}

/// The prices of a sheet.
#[tactic(auto, unfolding(crate::specs::Reading::prices_at, crate::specs::FieldReading::list_at))]
pub(crate) fn read_sheet_prices(
    alloc: Global,
    row: &mut RowReader,
) -> Result<RisingPrices, RowFault>
    ensures read { Reads result row.new (prices_at row.old) }
    ensures fits { IfOk result (λ prices. fits_count prices ≡ true) }
{
    let count = row.u16()?;
    RisingPrices::new(read_prices(alloc, row, count)?).ok_or(RowFault::Wrong)
}
