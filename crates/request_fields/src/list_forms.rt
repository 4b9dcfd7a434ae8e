//! The forms of lists: items with one space between them.
ghost use Rattle.std.specs.Prelude.{◌≡◌, map, IfOk};
ghost use Rattle.std.specs.List.{slice_split};
ghost use Rattle.fund_calendar.specs.DayText.{read_day};
ghost use Rattle.agent_events.specs.Fields as form;

use crate::field_forms::{bracket_of, price_of, rate_of};
use agent_events::{Days, FrontBrackets, Holidays, RisingPrices, SheetPrices};
use class_terms::{Brackets, Schedule};
use fund_calendar::read_day;
use money_units::NoMemory;
use std::alloc::{AllocError, Global};

// The items of a list; the empty text is the empty list.
fn list_items(alloc: Global, text: &[u8]) -> Result<Vec<&[u8]>, NoMemory>
    ensures { IfOk result (λ items. map (λ item. item.now) items.items ≡ form.list_items text.now) }
{
    if text.is_empty() {
        return Ok(Vec::new(alloc));
    }
    Ok(space_parts(alloc, text)?)
}

fn space_parts(alloc: Global, text: &[u8]) -> Result<Vec<&[u8]>, AllocError>
    ensures { IfOk result
        (λ items. map (λ item. item.now) items.items ≡ slice_split form.is_space text.now) }
{
    text.split(|byte| *byte == b' ').collect(alloc)
}

/// A table of front-end loads.
pub(crate) fn brackets_of(alloc: Global, text: &[u8]) -> Result<Option<FrontBrackets>, NoMemory>
    ensures { IfOk result (λ brackets. brackets ≡ form.brackets text.now) }
{
    let Some(rows) = listed_brackets(alloc, text)? else {
        return Ok(None);
    };
    Ok(FrontBrackets::new(rows))
}

fn listed_brackets(alloc: Global, text: &[u8]) -> Result<Option<Brackets>, NoMemory>
    ensures { IfOk result (λ brackets. brackets
        ≡ form.each form.bracket (form.list_items text.now)) }
{
    let items = list_items(alloc, text)?;
    let mut brackets = Brackets::new(alloc);
    for item in &items {
        let Some(bracket) = bracket_of(item) else {
            return Ok(None);
        };
        brackets.push(bracket)?;
    }
    Ok(Some(brackets))
}

/// The rates of a schedule.
pub(crate) fn rates_of(alloc: Global, text: &[u8]) -> Result<Option<Schedule>, NoMemory>
    ensures { IfOk result (λ rates. rates ≡ form.rates text.now) }
{
    let items = list_items(alloc, text)?;
    let mut rates = Schedule::new(alloc);
    for item in &items {
        let Some(rate) = rate_of(item) else {
            return Ok(None);
        };
        rates.push(rate)?;
    }
    Ok(Some(rates))
}

/// The list of a sheet, by strictly rising class.
pub(crate) fn prices_of(alloc: Global, text: &[u8]) -> Result<Option<RisingPrices>, NoMemory>
    ensures { IfOk result (λ prices. prices ≡ form.prices text.now) }
{
    let Some(prices) = listed_prices(alloc, text)? else {
        return Ok(None);
    };
    Ok(RisingPrices::new(prices))
}

fn listed_prices(alloc: Global, text: &[u8]) -> Result<Option<SheetPrices>, NoMemory>
    ensures { IfOk result
        (λ prices.
        prices ≡ form.each (form.pair form.identifier form.nav) (form.list_items text.now)) }
{
    let items = list_items(alloc, text)?;
    let mut prices = SheetPrices::new(alloc);
    for item in &items {
        let Some(price) = price_of(item) else {
            return Ok(None);
        };
        prices.push(price)?;
    }
    Ok(Some(prices))
}

/// The holidays of a calendar, at most 3,660 dates that rise strictly.
pub(crate) fn holidays_of(alloc: Global, text: &[u8]) -> Result<Option<Holidays>, NoMemory>
    ensures { IfOk result (λ days. days ≡ form.holidays text.now) }
{
    let Some(days) = listed_days(alloc, text)? else {
        return Ok(None);
    };
    Ok(Holidays::new(days))
}

fn listed_days(alloc: Global, text: &[u8]) -> Result<Option<Days>, NoMemory>
    ensures { IfOk result (λ days. days ≡ form.each read_day (form.list_items text.now)) }
{
    let items = list_items(alloc, text)?;
    let mut days = Days::new(alloc);
    for item in &items {
        let Some(day) = read_day(item) else {
            return Ok(None);
        };
        days.push(day)?;
    }
    Ok(Some(days))
}
