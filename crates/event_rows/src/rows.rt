//! The row of an event, and the event of a row.
ghost use Rattle.std.specs.Prelude.{◌≡◌, true, Some, IfOk, IfSome};
ghost use Rattle.agent_events.specs.Events.{Event};
ghost use Rattle.event_rows.specs.FieldReading.{Reads};
ghost use Rattle.event_rows.specs.InForm.{InForm, has_loads};
ghost use Rattle.event_rows.specs.Reading.{first_version_at, event_at, event_of_row};
ghost use Rattle.event_rows.specs.Rows.{event_row};

use crate::fault::RowFault;
use crate::kind_readers::read_fields;
use crate::kind_writers::{kind_number, put_fields};
use crate::reader::RowReader;
use crate::writer::RowWriter;
use agent_events::Event;
use money_units::NoMemory;
use std::alloc::Global;

/// The version of the rows that are written.
const VERSION: u8 = 1;

/// The bytes for which a row takes memory at first. An order's row has fewer, so that it doesn't
/// grow while it is written.
const USUAL_ROW: usize = 64;

/// The row of an event.
#[tactic(auto, unfolding(crate::specs::Rows::event_row))]
pub fn encode(alloc: Global, event: &Event) -> Result<Vec<u8>, NoMemory>
    ensures written { IfOk result (λ bytes. bytes.items ≡ event_row event.now) }
    // So what is written is read again.
    ensures in_form { IfOk result (λ bytes. has_loads event.now.kind ≡ true → InForm event.now) }
{
    let mut row = RowWriter::with_room(alloc, USUAL_ROW)?;
    row.byte(VERSION)?;
    row.byte(kind_number(event.kind()))?;
    row.u64(event.moment().seconds())?;
    put_fields(&mut row, event.kind())?;
    Ok(row.into_bytes())
}

/// The event whose row the bytes are; `None` exactly where they are no event's row.
pub fn decode(alloc: Global, bytes: &[u8]) -> Result<Option<Event>, NoMemory>
    // What is read is spelled so, all of the bytes.
    ensures found { IfOk result (λ read. IfSome read
        (λ event. InForm event × (bytes.now ≡ event_row event))) }
    // What is spelled so is read.
    ensures only { (event : Event) → InForm event → bytes.now ≡ event_row event
        → IfOk result (λ read. read ≡ Some event) }
{
    decoded(alloc, bytes)
}

// The same by the reader of a row.
fn decoded(alloc: Global, bytes: &[u8]) -> Result<Option<Event>, NoMemory>
    ensures { IfOk result (λ read. read ≡ event_of_row bytes.now) }
{
    let mut row = RowReader::new(bytes);
    match read_event(alloc, &mut row) {
        Ok(event) => Ok(if row.is_empty() { Some(event) } else { None }),
        Err(RowFault::Wrong) => Ok(None),
        Err(RowFault::Memory) => Err(NoMemory),
    }
}

// The version, and what it has.
#[tactic(auto, unfolding(crate::specs::Reading::event_at))]
fn read_event(alloc: Global, row: &mut RowReader) -> Result<Event, RowFault>
    ensures { Reads result row.new (event_at row.old) }
{
    if row.byte()? != VERSION {
        return Err(RowFault::Wrong);
    }
    read_first_version(alloc, row)
}

// The kind, the moment and the fields.
#[tactic(auto, unfolding(crate::specs::Reading::first_version_at))]
fn read_first_version(alloc: Global, row: &mut RowReader) -> Result<Event, RowFault>
    ensures { Reads result row.new (first_version_at row.old) }
{
    let number = row.byte()?;
    let moment = row.moment()?;
    let kind = read_fields(alloc, number, row)?;
    Ok(Event::new(moment, kind))
}
