//! The records of a text and the line of a record, in comma-separated values.
ghost use Rattle.std.specs.Prelude.{◌≡◌, [], ◌∷◌, ◌++◌, map, IfOk, OnOk, OnErr};
ghost use Rattle.csv.specs.Records.{fields_of};
ghost use Rattle.script_text.specs.Rows as spec;

use csv::{ByteRecord, ReaderBuilder, WriterBuilder};
use money_units::{Bytes, List, NoMemory};
use std::alloc::Global;

/// The fields of one request or record, which contracts see as a list of texts. A field may hold any bytes.
pub type Fields = List<Bytes>;

/// Appends a field with a copy of this text; after `NoMemory` the fields are as before.
pub fn push_field(alloc: Global, fields: &mut Fields, text: &[u8]) -> Result<(), NoMemory>
    ensures ok { OnOk result (fields.new ≡ fields.old ++ text.now ∷ []) }
    ensures err { OnErr result (fields.new ≡ fields.old) }
{
    let copy = Bytes::from_slice(alloc, text)?;
    fields.push(copy)?;
    Ok(())
}

/// The records of a text. A record may have any number of fields.
pub fn records_of(alloc: Global, text: &[u8]) -> Result<Vec<Fields>, NoMemory>
    ensures { IfOk result (λ rows. rows.items ≡ spec.records_of text.now) }
{
    let reader = ReaderBuilder::new()
        .has_headers(false)
        .flexible(true)
        .from_reader(alloc, text);
    let mut rows = Vec::new(alloc);
    for read in reader.into_byte_records() {
        // The bytes are in memory and a record may have any length, so nothing but memory can be wanting.
        let Ok(row) = read else { return Err(NoMemory) };
        rows.push(fields_of_row(alloc, &row)?)?;
    }
    Ok(rows)
}

/// The fields of a record that was read.
pub(crate) fn fields_of_row(alloc: Global, row: &ByteRecord) -> Result<Fields, NoMemory>
    ensures { IfOk result (λ fields. fields ≡ fields_of row.now) }
{
    let mut fields = Fields::new(alloc);
    for i in 0..row.len() {
        push_field(alloc, &mut fields, row.get(i).unwrap())?;
    }
    Ok(fields)
}

/// Appends the line of a record with these fields. After `NoMemory` `out` is as before.
pub fn append_fields(alloc: Global, fields: &Fields, out: &mut Vec<u8>) -> Result<(), NoMemory>
    ensures ok { OnOk result (out.new.items ≡ out.old.items ++ spec.line_of fields.now) }
    ensures err { OnErr result (out.new.items ≡ out.old.items) }
{
    let slices = slices_of(alloc, fields.as_slice())?;
    append_line(alloc, &slices, out)
}

/// The texts as slices.
pub fn slices_of<'a>(alloc: Global, texts: &'a [Bytes]) -> Result<Vec<&'a [u8]>, NoMemory>
    ensures { IfOk result (λ slices. map (λ text. text.now) slices.items ≡ texts.now) }
{
    let mut slices = Vec::new(alloc);
    for text in texts {
        slices.push(text.as_slice())?;
    }
    Ok(slices)
}

/// Appends the line of a record with these fields. After `NoMemory` `out` is as before.
pub fn append_line(alloc: Global, fields: &[&[u8]], out: &mut Vec<u8>) -> Result<(), NoMemory>
    ensures ok { OnOk result
        (out.new.items ≡ out.old.items ++ spec.line_of (map (λ text. text.now) fields.now)) }
    ensures err { OnErr result (out.new.items ≡ out.old.items) }
{
    let line = line_of(alloc, fields)?;
    out.extend_from_slice(&line)?;
    Ok(())
}

// The line of a record with these fields. Written to memory, it fails for nothing but memory.
fn line_of(alloc: Global, fields: &[&[u8]]) -> Result<Vec<u8>, NoMemory>
    ensures { IfOk result (λ line. line.items ≡ spec.line_of (map (λ text. text.now) fields.now)) }
{
    let mut writer = WriterBuilder::new().from_writer(Vec::new(alloc));
    if writer.write_fields(fields).is_err() {
        return Err(NoMemory);
    }
    match writer.into_inner() {
        Ok(line) => Ok(line),
        Err(_) => Err(NoMemory),
    }
}
