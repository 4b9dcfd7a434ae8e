//! The readers of the parts of a checkpoint row. The items of a list are read one by one, so a count that the bytes don't
//! bear out takes no memory.
ghost use Rattle.std.specs.Prelude.{◌≡◌};
ghost use Rattle.event_rows.specs.FieldReading.{Reads, items_at, list_at};
ghost use Rattle.state_rows.specs.Reading as part;

use crate::rules::keeps_rules;
use agent_events::{LetterRow, LotRow, LotRows, PositionRow, PositionRows, StateRow};
use event_rows::{RowFault, RowReader};
use money_units::{Cents, Mils};
use std::alloc::Global;

#[tactic(auto, unfolding(crate::specs::Reading::lot_at))]
fn read_lot(row: &mut RowReader) -> Result<LotRow, RowFault>
    ensures { Reads result row.new (part.lot_at row.old) }
{
    Ok(LotRow {
        number: row.u32()?,
        day: row.day()?,
        loose: Mils(row.u64()?),
        held: Mils(row.u64()?),
        cost: Cents(row.u64()?),
        free: row.flag()?,
    })
}

// So many lots.
fn read_lots(alloc: Global, row: &mut RowReader, count: u16) -> Result<LotRows, RowFault>
    ensures { Reads result row.new (items_at part.lot_at count row.old) }
{
    let mut lots = LotRows::new(alloc);
    for _ in 0..count {
        let lot = read_lot(row)?;
        lots.push(lot)?;
    }
    Ok(lots)
}

#[tactic(auto, unfolding(crate::specs::Reading::letter_at))]
fn read_letter(row: &mut RowReader) -> Result<LetterRow, RowFault>
    ensures { Reads result row.new (part.letter_at row.old) }
{
    Ok(LetterRow {
        amount: Cents(row.u64()?),
        day: row.day()?,
        start: row.u128()?,
        rate: row.rate()?,
        rest: Cents(row.u64()?),
        bought: Cents(row.u64()?),
    })
}

// The letter, by its flag.
#[tactic(auto, unfolding(crate::specs::Reading::open_letter_at))]
fn read_open_letter(row: &mut RowReader) -> Result<Option<LetterRow>, RowFault>
    ensures { Reads result row.new (part.open_letter_at row.old) }
{
    match row.byte()? {
        0 => Ok(None),
        1 => Ok(Some(read_letter(row)?)),
        _ => Err(RowFault::Wrong),
    }
}

// The lots behind their count.
#[tactic(auto, unfolding(event_rows::specs::FieldReading::list_at))]
fn read_listed_lots(alloc: Global, row: &mut RowReader) -> Result<LotRows, RowFault>
    ensures { Reads result row.new (list_at part.lot_at row.old) }
{
    let count = row.u16()?;
    read_lots(alloc, row, count)
}

#[tactic(auto, unfolding(crate::specs::Reading::position_at))]
fn read_position(alloc: Global, row: &mut RowReader) -> Result<PositionRow, RowFault>
    ensures { Reads result row.new (part.position_at row.old) }
{
    Ok(PositionRow {
        account: row.u32()?,
        class: row.u32()?,
        in_cash: row.flag()?,
        next_lot: row.u32()?,
        letter: read_open_letter(row)?,
        lots: read_listed_lots(alloc, row)?,
    })
}

// So many positions.
fn read_positions(alloc: Global, row: &mut RowReader, count: u16) -> Result<PositionRows, RowFault>
    ensures { Reads result row.new (items_at part.position_at count row.old) }
{
    let mut positions = PositionRows::new(alloc);
    for _ in 0..count {
        let position = read_position(alloc, row)?;
        positions.push(position)?;
    }
    Ok(positions)
}

// The positions behind their count.
#[tactic(auto, unfolding(event_rows::specs::FieldReading::list_at))]
fn read_listed_positions(alloc: Global, row: &mut RowReader) -> Result<PositionRows, RowFault>
    ensures { Reads result row.new (list_at part.position_at row.old) }
{
    let count = row.u16()?;
    read_positions(alloc, row, count)
}

/// The household and its positions, where they keep the rules.
#[tactic(auto, unfolding(crate::specs::Reading::state_at))]
pub(crate) fn read_state(alloc: Global, row: &mut RowReader) -> Result<StateRow, RowFault>
    ensures { Reads result row.new (part.state_at row.old) }
{
    let state = StateRow {
        household: row.u32()?,
        positions: read_listed_positions(alloc, row)?,
    };
    if keeps_rules(alloc, &state)? {
        Ok(state)
    } else {
        Err(RowFault::Wrong)
    }
}
