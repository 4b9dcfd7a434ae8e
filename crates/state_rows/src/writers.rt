//! The writers of the parts of a checkpoint row.
ghost use Rattle.std.specs.Prelude.{◌≡◌, ◌++◌, true, OnOk};
ghost use Rattle.std.specs.List.{flat_map, list_all};
ghost use Rattle.agent_events.specs.Events.{fits_count};
ghost use Rattle.event_rows.specs.Spelling.{list_bytes, four_bytes};
ghost use Rattle.state_rows.specs.InForm.{fits_lots, fits_lists};
ghost use Rattle.state_rows.specs.Rows as spelled;

use agent_events::{LetterRow, LotRow, PositionRow, StateRow};
use event_rows::RowWriter;
use fund_calendar::Day;
use money_units::NoMemory;

// A date as its day number.
fn put_day(row: &mut RowWriter, day: Day) -> Result<(), NoMemory>
    ensures { OnOk result (row.new ≡ row.old ++ four_bytes day) }
{
    row.u32(day.number() as u32)?;
    Ok(())
}

#[tactic(auto, unfolding(crate::specs::Rows::lot))]
fn put_lot(row: &mut RowWriter, lot: &LotRow) -> Result<(), NoMemory>
    ensures { OnOk result (row.new ≡ row.old ++ spelled.lot lot.now) }
{
    row.u32(lot.number)?;
    put_day(row, lot.day)?;
    row.u64(lot.loose.0)?;
    row.u64(lot.held.0)?;
    row.u64(lot.cost.0)?;
    row.flag(lot.free)?;
    Ok(())
}

fn put_each_lot(row: &mut RowWriter, lots: &[LotRow]) -> Result<(), NoMemory>
    ensures { OnOk result (row.new ≡ row.old ++ flat_map spelled.lot lots.now) }
{
    for lot in lots {
        put_lot(row, lot)?;
    }
    Ok(())
}

#[tactic(auto, unfolding(event_rows::specs::Spelling::list_bytes))]
fn put_lots(row: &mut RowWriter, lots: &[LotRow]) -> Result<(), NoMemory>
    requires { fits_count lots.now ≡ true }
    ensures { OnOk result (row.new ≡ row.old ++ list_bytes spelled.lot lots.now) }
{
    row.count(lots.len())?;
    put_each_lot(row, lots)?;
    Ok(())
}

#[tactic(auto, unfolding(crate::specs::Rows::letter))]
fn put_letter(row: &mut RowWriter, letter: &LetterRow) -> Result<(), NoMemory>
    ensures { OnOk result (row.new ≡ row.old ++ spelled.letter letter.now) }
{
    row.u64(letter.amount.0)?;
    put_day(row, letter.day)?;
    row.u128(letter.start)?;
    row.u16(letter.rate.0)?;
    row.u64(letter.rest.0)?;
    row.u64(letter.bought.0)?;
    Ok(())
}

#[tactic(auto, unfolding(crate::specs::Rows::open_letter))]
fn put_open_letter(row: &mut RowWriter, letter: &Option<LetterRow>) -> Result<(), NoMemory>
    ensures { OnOk result (row.new ≡ row.old ++ spelled.open_letter letter.now) }
{
    match letter {
        None => row.byte(0)?,
        Some(letter) => {
            row.byte(1)?;
            put_letter(row, letter)?;
        }
    }
    Ok(())
}

#[tactic(auto, unfolding(crate::specs::Rows::position))]
fn put_position(row: &mut RowWriter, position: &PositionRow) -> Result<(), NoMemory>
    requires { fits_lots position.now ≡ true }
    ensures { OnOk result (row.new ≡ row.old ++ spelled.position position.now) }
{
    row.u32(position.account)?;
    row.u32(position.class)?;
    row.flag(position.in_cash)?;
    row.u32(position.next_lot)?;
    put_open_letter(row, &position.letter)?;
    put_lots(row, position.lots.as_slice())?;
    Ok(())
}

fn put_each_position(row: &mut RowWriter, positions: &[PositionRow]) -> Result<(), NoMemory>
    requires { list_all fits_lots positions.now ≡ true }
    ensures { OnOk result (row.new ≡ row.old ++ flat_map spelled.position positions.now) }
{
    for position in positions {
        put_position(row, position)?;
    }
    Ok(())
}

#[tactic(auto, unfolding(event_rows::specs::Spelling::list_bytes))]
fn put_positions(row: &mut RowWriter, positions: &[PositionRow]) -> Result<(), NoMemory>
    requires count { fits_count positions.now ≡ true }
    requires lots { list_all fits_lots positions.now ≡ true }
    ensures { OnOk result (row.new ≡ row.old ++ list_bytes spelled.position positions.now) }
{
    row.count(positions.len())?;
    put_each_position(row, positions)?;
    Ok(())
}

/// The household and its positions.
pub(crate) fn put_state(row: &mut RowWriter, state: &StateRow) -> Result<(), NoMemory>
    requires { fits_lists state.now ≡ true }
    ensures { OnOk result
        (row.new
        ≡ row.old
        ++ (four_bytes state.now.household ++ list_bytes spelled.position state.now.positions)) }
{
    row.u32(state.household)?;
    put_positions(row, state.positions.as_slice())?;
    Ok(())
}
