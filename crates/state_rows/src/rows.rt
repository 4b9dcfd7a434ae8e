//! The checkpoint row of a state, and the state of a row.
ghost use Rattle.std.specs.Prelude.{◌≡◌, true, Some, IfOk, IfSome};
ghost use Rattle.agent_events.specs.declared.checkpoint.StateRow.{StateRow};
ghost use Rattle.event_rows.specs.FieldReading.{Reads};
ghost use Rattle.state_rows.specs.InForm.{IsKept, fits_lists};
ghost use Rattle.state_rows.specs.Reading.{versioned_at, state_of_row};
ghost use Rattle.state_rows.specs.Rows.{state_row};

use crate::readers::read_state;
use crate::writers::put_state;
use agent_events::StateRow;
use event_rows::{RowFault, RowReader, RowWriter};
use money_units::NoMemory;
use std::alloc::Global;

/// The version of the rows that are written.
const VERSION: u8 = 1;

/// The row of a state, each of whose lists has at most 65,535 items. The row is in the grammar exactly where the state keeps
/// its rules and limits.
#[tactic(auto, unfolding(crate::specs::Rows::state_row))]
pub fn encode_state(alloc: Global, state: &StateRow) -> Result<Vec<u8>, NoMemory>
    requires { fits_lists state.now ≡ true }
    ensures { IfOk result (λ bytes. bytes.items ≡ state_row state.now) }
{
    let mut row = RowWriter::new(alloc);
    row.byte(VERSION)?;
    put_state(&mut row, state)?;
    Ok(row.into_bytes())
}

/// The state whose row the bytes are; `None` exactly where they are no row of a state that keeps the rules and limits.
pub fn decode_state(alloc: Global, bytes: &[u8]) -> Result<Option<StateRow>, NoMemory>
    // What is read is spelled so, all of the bytes, and keeps the rules.
    ensures found { IfOk result (λ read. IfSome read
        (λ state. IsKept state × (bytes.now ≡ state_row state))) }
    // So it can be written again.
    ensures fits { IfOk result (λ read. IfSome read (λ state. fits_lists state ≡ true)) }
    // What keeps the rules and is spelled so is read.
    ensures only { (state : StateRow) → IsKept state → bytes.now ≡ state_row state
        → IfOk result (λ read. read ≡ Some state) }
{
    decoded(alloc, bytes)
}

// The same by the reader of a row.
fn decoded(alloc: Global, bytes: &[u8]) -> Result<Option<StateRow>, NoMemory>
    ensures { IfOk result (λ read. read ≡ state_of_row bytes.now) }
{
    let mut row = RowReader::new(bytes);
    match read_versioned(alloc, &mut row) {
        Ok(state) => Ok(if row.is_empty() { Some(state) } else { None }),
        Err(RowFault::Wrong) => Ok(None),
        Err(RowFault::Memory) => Err(NoMemory),
    }
}

// The version, and what it has.
#[tactic(auto, unfolding(crate::specs::Reading::versioned_at))]
fn read_versioned(alloc: Global, row: &mut RowReader) -> Result<StateRow, RowFault>
    ensures { Reads result row.new (versioned_at row.old) }
{
    if row.byte()? != VERSION {
        return Err(RowFault::Wrong);
    }
    read_state(alloc, row)
}
