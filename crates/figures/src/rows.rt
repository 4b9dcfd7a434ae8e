//! The row of an order, written or read 100,000 times.
use agent_events::Event;
use event_rows::{decode, encode};
use money_units::NoMemory;
use std::alloc::Global;

/// The purchase of class 11 for $10,000.00 by account 101, at 2024-07-01 09:00 in New York.
const PURCHASE: &[u8] =
    b"\x01\x07\x00\x00\x00\x00\x66\x82\xa8\x50\x00\x00\x00\x65\x00\x00\x00\x00\x00\x00\x00\x01\x00\x00\x00\x00\x00\x66\x82\xa8\x50\x00\x00\x00\x00\x66\x83\x0a\xc0\x01\x00\x00\x00\x0b\x00\x00\x00\x00\x00\x0f\x42\x40";

fn purchase() -> &'static [u8] {
    PURCHASE
}

// Writes the row of an event so many times, and counts the bytes.
fn written(alloc: Global, event: &Event, rows: u64) -> Result<usize, NoMemory> {
    let mut bytes: usize = 0;
    for _ in 0..rows {
        let row = encode(alloc, event)?;
        bytes = bytes.saturating_add(row.len());
    }
    Ok(bytes)
}

// Gives the order of a row another reference.
fn put_reference(row: &mut [u8], number: u64) {
    if let Some(byte) = row.get_mut(21) {
        *byte = (number % 250) as u8 + 1;
    }
}

// Reads a row so many times, each time of another order, and counts how often it was one.
fn read(alloc: Global, row: &mut [u8], rows: u64) -> Result<usize, NoMemory> {
    let mut found: usize = 0;
    for number in 0..rows {
        put_reference(row, number);
        if decode(alloc, row)?.is_some() {
            found = found.saturating_add(1);
        }
    }
    Ok(found)
}

/// How often each is done, by the word that says which of them: written and read.
pub(crate) fn counts_of(word: &str) -> Option<(u64, u64)> {
    if word == "write" {
        Some((100_000, 0))
    } else if word == "read" {
        Some((0, 100_000))
    } else {
        None
    }
}

/// Writes and reads the row so many times, and tells the bytes written and the rows read.
pub(crate) fn figures(alloc: Global, writes: u64, reads: u64) -> Result<(usize, usize), NoMemory> {
    let mut row = Vec::new(alloc);
    row.extend_from_slice(purchase())?;
    let found = read(alloc, &mut row, reads)?;
    match decode(alloc, purchase())? {
        Some(event) => {
            let bytes = written(alloc, &event, writes)?;
            Ok((bytes, found))
        }
        None => Ok((0, found)),
    }
}
