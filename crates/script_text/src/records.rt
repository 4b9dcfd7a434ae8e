//! The records of a text, one at a time, so that no more than one is in memory.
ghost use Rattle.std.specs.Prelude.{◌≡◌, IfOk, OnOk, drop, slice_get};
ghost use Rattle.script_text.specs.Rows as spec;

use crate::rows::{Fields, fields_of_row};
use csv::{ByteRecord, Reader, ReaderBuilder};
use money_units::NoMemory;
use std::alloc::Global;
use std::marker::Model;

/// The records of a text that are still to come, which contracts see as the list of them.
#[derive(Drop)]
pub struct Records<'a> {
    reader: Reader<&'a [u8]>,
    row: ByteRecord,
    is_done: bool,
}

impl<'a> Model for Records<'a> {
    ghost use Rattle.std.specs.Prelude.{ℕ, List, [], if◌then◌else◌, true, ◌≡◌, ◌⊎◌};
    ghost use Rattle.script_text.specs.Rows.{IsReading, records_to_come};

    ghost Value = { List (List (List ℕ)) };

    ghost view = { λ records. if records.is_done then [] else records_to_come records.reader };

    ghost invariant = { λ records. (records.is_done ≡ true) ⊎ IsReading records.reader };
}

impl<'a> Records<'a> {
    /// All records of a text. A record may have any number of fields.
    pub fn new(alloc: Global, text: &'a [u8]) -> Records<'a>
        ensures { result ≡ spec.records_of text.now }
    {
        let reader = ReaderBuilder::new()
            .has_headers(false)
            .flexible(true)
            .from_reader(alloc, text);
        Records {
            reader,
            row: ByteRecord::new(alloc),
            is_done: false,
        }
    }

    /// The next record, or `None` exactly where none is to come. After `NoMemory` it may be passed over.
    pub fn next(&mut self, alloc: Global) -> Result<Option<Fields>, NoMemory>
        ensures next { IfOk result (λ row. row ≡ slice_get self.old 0) }
        ensures rest { OnOk result (self.new ≡ drop 1 self.old) }
    {
        if self.is_done {
            return Ok(None);
        }
        match self.reader.read_byte_record(&mut self.row) {
            Ok(true) => {}
            Ok(false) => {
                self.is_done = true;
                return Ok(None);
            }
            // The text is in memory and a record may have any length, so nothing but memory can be wanting.
            Err(_) => {
                self.is_done = true;
                return Err(NoMemory);
            }
        }
        Ok(Some(fields_of_row(alloc, &self.row)?))
    }
}
