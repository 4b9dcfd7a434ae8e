//! Rows of bytes in one piece of memory.
ghost use Rattle.std.specs.Prelude.{◌≡◌, ◌≤◌, ◌<◌, ◌+◌, ◌^◌, ◌++◌, ◌∷◌, [], length, slice_get, Some, IfOk, OnOk, OnErr, vec_len, vec_capacity};
ghost use Rattle.std.specs.Option.{option_copied};
ghost use Rattle.agent_keeper.specs.Packed.{rows_between, AreEnds, start_at, bytes_in};

use money_units::{Bytes, NoMemory};
use std::alloc::{AllocError, Global};
use std::marker::Model;

/// Rows of bytes one behind the other, so that none has an allocation of its own. Contracts see them as the list of rows.
#[derive(Drop)]
pub struct PackedRows {
    bytes: Vec<u8>,
    // Where each row ends in the bytes. It begins where the one before it ends.
    ends: Vec<usize>,
}

impl Model for PackedRows {
    ghost use Rattle.std.specs.Prelude.{ℕ, List, length};
    ghost use Rattle.agent_keeper.specs.Packed.{rows_between, AreEnds};

    ghost Value = { List (List ℕ) };

    ghost view = { λ rows. rows_between rows.bytes.items 0 rows.ends.items };

    ghost invariant = { λ rows. AreEnds (length rows.bytes.items) 0 rows.ends.items };
}

impl PackedRows {
    /// No rows, which take no memory yet.
    pub fn new(alloc: Global) -> PackedRows
        ensures { result ≡ [] }
    {
        PackedRows {
            bytes: Vec::new(alloc),
            ends: Vec::new(alloc),
        }
    }

    /// How many rows there are.
    pub fn len(&self) -> usize
        ensures count { result ≡ length self.now }
        ensures bound { result < 2 ^ 63 }
    {
        count_rows(&self.bytes, &self.ends)
    }

    /// The row at a place.
    pub fn get(&self, place: u64) -> Option<&[u8]>
        ensures { option_copied result ≡ slice_get self.now place }
    {
        row_at(&self.bytes, &self.ends, place as usize)
    }

    /// Puts rows behind the others. After `NoMemory` there are the rows of before.
    pub fn append(&mut self, rows: &[Bytes]) -> Result<(), NoMemory>
        ensures ok { OnOk result (self.new ≡ self.old ++ rows.now) }
        ensures err { OnErr result (self.new ≡ self.old) }
    {
        let count = count_bytes(rows)?;
        self.bytes.reserve(count)?;
        self.ends.reserve(rows.len())?;
        put_behind(&mut self.bytes, &mut self.ends, rows);
        Ok(())
    }

    /// The same rows again.
    pub fn copy(&self, alloc: Global) -> Result<PackedRows, NoMemory>
        ensures { IfOk result (λ copy. copy ≡ self.now) }
    {
        Ok(PackedRows {
            bytes: Vec::from_slice(alloc, &self.bytes)?,
            ends: Vec::from_slice(alloc, &self.ends)?,
        })
    }
}

// How many rows the ends make of the bytes.
fn count_rows(bytes: &[u8], ends: &[usize]) -> usize
    ensures count { result ≡ length (rows_between bytes.now 0 ends.now) }
    ensures bound { result < 2 ^ 63 }
{
    ends.len()
}

// The row at a place among those that the ends make of the bytes.
fn row_at<'a>(bytes: &'a [u8], ends: &[usize], place: usize) -> Option<&'a [u8]>
    requires { AreEnds (length bytes.now) 0 ends.now }
    ensures { option_copied result ≡ slice_get (rows_between bytes.now 0 ends.now) place }
{
    match ends.get(place).copied() {
        Some(end) => Some(row_before(bytes, ends, place, end)),
        None => None,
    }
}

// The row at a place, which ends where it is told.
fn row_before<'a>(bytes: &'a [u8], ends: &[usize], place: usize, end: usize) -> &'a [u8]
    requires ends { AreEnds (length bytes.now) 0 ends.now }
    requires there { slice_get ends.now place ≡ Some end }
    ensures { slice_get (rows_between bytes.now 0 ends.now) place ≡ Some result.now }
{
    let start = start_before(bytes, ends, place, end);
    &bytes[start..end]
}

// Where the row at a place begins, which isn't behind its end.
fn start_before(bytes: &[u8], ends: &[usize], place: usize, end: usize) -> usize
    requires ends { AreEnds (length bytes.now) 0 ends.now }
    requires there { slice_get ends.now place ≡ Some end }
    ensures start { result ≡ start_at 0 ends.now place }
    ensures rises { result ≤ end }
    ensures within { end ≤ length bytes.now }
{
    start_of(ends, place)
}

// Where the row at a place begins.
fn start_of(ends: &[usize], place: usize) -> usize
    requires { place < length ends.now }
    ensures { result ≡ start_at 0 ends.now place }
{
    if place == 0 { 0 } else { ends[place - 1] }
}

// How many bytes the rows have.
fn count_bytes(rows: &[Bytes]) -> Result<usize, NoMemory>
    ensures { IfOk result (λ count. count ≡ bytes_in rows.now) }
{
    let mut count = 0_usize;
    for row in rows {
        count = count.checked_add(row.len()).ok_or(NoMemory)?;
    }
    Ok(count)
}

// Puts rows behind the others, within the room that there is.
fn put_behind(bytes: &mut Vec<u8>, ends: &mut Vec<usize>, rows: &[Bytes])
    requires ends { AreEnds (length bytes.old.items) 0 ends.old.items }
    requires bytes_room { vec_len bytes.old + bytes_in rows.now ≤ vec_capacity bytes.old }
    requires ends_room { vec_len ends.old + length rows.now ≤ vec_capacity ends.old }
    ensures rows { rows_between bytes.new.items 0 ends.new.items
        ≡ rows_between bytes.old.items 0 ends.old.items ++ rows.now }
    ensures ends { AreEnds (length bytes.new.items) 0 ends.new.items }
{
    for row in rows {
        put_row(bytes, ends, row.as_slice());
    }
}

fn put_row(bytes: &mut Vec<u8>, ends: &mut Vec<usize>, row: &[u8])
    requires ends { AreEnds (length bytes.old.items) 0 ends.old.items }
    requires bytes_room { vec_len bytes.old + length row.now ≤ vec_capacity bytes.old }
    requires ends_room { vec_len ends.old < vec_capacity ends.old }
    ensures rows { rows_between bytes.new.items 0 ends.new.items
        ≡ rows_between bytes.old.items 0 ends.old.items ++ row.now ∷ [] }
    ensures ends { AreEnds (length bytes.new.items) 0 ends.new.items }
    ensures bytes_len { vec_len bytes.new ≡ vec_len bytes.old + length row.now }
    ensures bytes_capacity { vec_capacity bytes.old ≤ vec_capacity bytes.new }
    ensures ends_len { vec_len ends.new ≡ vec_len ends.old + 1 }
    ensures ends_capacity { vec_capacity ends.old ≤ vec_capacity ends.new }
{
    extend_within(bytes, row);
    let end = bytes.as_slice().len();
    push_within(ends, end);
}

// Appends bytes for which there is room.
fn extend_within(bytes: &mut Vec<u8>, row: &[u8])
    requires { vec_len bytes.old + length row.now ≤ vec_capacity bytes.old }
    ensures items { bytes.new.items ≡ bytes.old.items ++ row.now }
    ensures len { vec_len bytes.new ≡ vec_len bytes.old + length row.now }
    ensures capacity { vec_capacity bytes.old ≤ vec_capacity bytes.new }
{
    let put: Result<(), AllocError> = bytes.extend_from_slice(row);
    put.unwrap();
}

// Pushes an end for which there is room.
fn push_within(ends: &mut Vec<usize>, end: usize)
    requires { vec_len ends.old < vec_capacity ends.old }
    ensures items { ends.new.items ≡ ends.old.items ++ end ∷ [] }
    ensures len { vec_len ends.new ≡ vec_len ends.old + 1 }
    ensures capacity { vec_capacity ends.old ≤ vec_capacity ends.new }
{
    let pushed: Result<_, _> = ends.push(end);
    pushed.unwrap();
}
