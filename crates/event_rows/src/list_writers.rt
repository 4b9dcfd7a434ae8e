//! The lists of a row: a count, and each item.
ghost use Rattle.std.specs.Prelude.{◌≡◌, ◌++◌, true, OnOk};
ghost use Rattle.std.specs.List.{flat_map, AllByRecursion};
ghost use Rattle.event_rows.specs.Ranges.{IsDay, IsBps, AreListed};
ghost use Rattle.event_rows.specs.InForm.{IsBracket, IsListedPrice};
ghost use Rattle.agent_events.specs.Events.{fits_count};
ghost use Rattle.event_rows.specs.Spelling.{two_bytes, four_bytes, list_bytes};
ghost use Rattle.event_rows.specs.Rows.{bracket, price};

use crate::writer::RowWriter;
use class_terms::Bracket;
use fund_calendar::Day;
use money_units::{Bps, Nav, NoMemory};

/// A date as its day number.
pub(crate) fn put_day(row: &mut RowWriter, day: Day) -> Result<(), NoMemory>
    ensures written { OnOk result (row.new ≡ row.old ++ four_bytes day) }
    ensures in_form { OnOk result (IsDay day) }
{
    row.u32(day.number() as u32)?;
    Ok(())
}

fn put_each_day(row: &mut RowWriter, days: &[Day]) -> Result<(), NoMemory>
    ensures written { OnOk result (row.new ≡ row.old ++ flat_map four_bytes days.now) }
    ensures in_form { OnOk result (AllByRecursion IsDay days.now) }
{
    for day in days {
        put_day(row, *day)?;
    }
    Ok(())
}

fn put_each_bracket(row: &mut RowWriter, brackets: &[Bracket]) -> Result<(), NoMemory>
    ensures written { OnOk result (row.new ≡ row.old ++ flat_map bracket brackets.now) }
    ensures in_form { OnOk result (AllByRecursion IsBracket brackets.now) }
{
    for bracket in brackets {
        row.u64(bracket.floor.0)?;
        row.u16(bracket.rate.0)?;
    }
    Ok(())
}

fn put_each_rate(row: &mut RowWriter, rates: &[Bps]) -> Result<(), NoMemory>
    ensures written { OnOk result (row.new ≡ row.old ++ flat_map two_bytes rates.now) }
    ensures in_form { OnOk result (AllByRecursion IsBps rates.now) }
{
    for rate in rates {
        row.u16(rate.0)?;
    }
    Ok(())
}

fn put_price(row: &mut RowWriter, priced: &(u32, Nav)) -> Result<(), NoMemory>
    ensures written { OnOk result (row.new ≡ row.old ++ price priced.now) }
    ensures in_form { OnOk result (IsListedPrice priced.now) }
{
    let class = priced.0;
    row.u32(class)?;
    row.u64(priced.1.cents())?;
    Ok(())
}

fn put_each_price(row: &mut RowWriter, prices: &[(u32, Nav)]) -> Result<(), NoMemory>
    ensures written { OnOk result (row.new ≡ row.old ++ flat_map price prices.now) }
    ensures in_form { OnOk result (AllByRecursion IsListedPrice prices.now) }
{
    for price in prices {
        put_price(row, price)?;
    }
    Ok(())
}

/// The holidays of a calendar.
#[tactic(auto, unfolding(crate::specs::Spelling::list_bytes))]
pub(crate) fn put_holidays(row: &mut RowWriter, days: &[Day]) -> Result<(), NoMemory>
    requires { fits_count days.now ≡ true }
    ensures written { OnOk result (row.new ≡ row.old ++ list_bytes four_bytes days.now) }
    ensures in_form { OnOk result (AreListed IsDay days.now) }
{
    row.count(days.len())?;
    put_each_day(row, days)?;
    Ok(())
}

/// The front-end loads of a class.
#[tactic(auto, unfolding(crate::specs::Spelling::list_bytes))]
pub(crate) fn put_front(row: &mut RowWriter, brackets: &[Bracket]) -> Result<(), NoMemory>
    requires { fits_count brackets.now ≡ true }
    ensures written { OnOk result (row.new ≡ row.old ++ list_bytes bracket brackets.now) }
    ensures in_form { OnOk result (AreListed IsBracket brackets.now) }
{
    row.count(brackets.len())?;
    put_each_bracket(row, brackets)?;
    Ok(())
}

/// The deferred loads of a class.
#[tactic(auto, unfolding(crate::specs::Spelling::list_bytes))]
pub(crate) fn put_deferred(row: &mut RowWriter, rates: &[Bps]) -> Result<(), NoMemory>
    requires { fits_count rates.now ≡ true }
    ensures written { OnOk result (row.new ≡ row.old ++ list_bytes two_bytes rates.now) }
    ensures in_form { OnOk result (AreListed IsBps rates.now) }
{
    row.count(rates.len())?;
    put_each_rate(row, rates)?;
    Ok(())
}

/// The prices of a sheet.
#[tactic(auto, unfolding(crate::specs::Spelling::list_bytes))]
pub(crate) fn put_prices(row: &mut RowWriter, prices: &[(u32, Nav)]) -> Result<(), NoMemory>
    requires { fits_count prices.now ≡ true }
    ensures written { OnOk result (row.new ≡ row.old ++ list_bytes price prices.now) }
    ensures in_form { OnOk result (AreListed IsListedPrice prices.now) }
{
    row.count(prices.len())?;
    put_each_price(row, prices)?;
    Ok(())
}
