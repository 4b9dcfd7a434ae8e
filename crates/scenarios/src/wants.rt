//! What must come of a run against what came.

use crate::cases::{KeptCheck, Wanted};
use crate::runs::Outcome;
use crate::stores::Store;
use crate::trouble::Trouble;
use agent_keeper::CheckPut;
use money_units::Bytes;
use std::alloc::Global;

// How many bytes of a difference are told.
const MOST_TOLD: usize = 240;

/// The first of two texts' bytes in which they differ; their common end where one begins the other.
pub(crate) fn first_difference(wanted: &[u8], found: &[u8]) -> usize {
    let pairs = wanted.iter().zip(found);
    pairs.take_while(|pair| *pair.0 == *pair.1).count()
}

fn part_from(text: &[u8], place: usize) -> &[u8] {
    let rest = text.get(place..).unwrap_or(b"");
    rest.get(..MOST_TOLD).unwrap_or(rest)
}

/// Two texts that differ, told from the first byte that does, or `None` where they are the same.
pub(crate) fn told_texts(
    alloc: Global,
    what: &str,
    wanted: &[u8],
    found: &[u8],
) -> Result<Option<String>, Trouble> {
    if wanted == found {
        return Ok(None);
    }
    let place = first_difference(wanted, found);
    let wanted = part_from(wanted, place).escape_ascii();
    let found = part_from(found, place).escape_ascii();
    Ok(Some(format!(in alloc;
        "  {what}, from byte {place} on\n    wanted \"{wanted}\"\n    came   \"{found}\"\n"
    )?))
}

/// Two numbers that differ, told; or `None`.
pub(crate) fn told_numbers(
    alloc: Global,
    what: &str,
    wanted: u64,
    found: u64,
) -> Result<Option<String>, Trouble> {
    if wanted == found {
        return Ok(None);
    }
    Ok(Some(format!(in alloc; "  {what}: wanted {wanted}, came {found}\n")?))
}

// The first of two lists' texts in which they differ, told; or `None`.
fn told_lists(
    alloc: Global,
    what: &str,
    wanted: &[Bytes],
    found: &[Bytes],
) -> Result<Option<String>, Trouble> {
    for (number, (one, other)) in wanted.iter().zip(found).enumerate() {
        let place = format!(in alloc; "{what} {number}")?;
        let told = told_texts(alloc, place.as_str(), one.as_slice(), other.as_slice())?;
        if told.is_some() {
            return Ok(told);
        }
    }
    let count = format!(in alloc; "number of {what}s")?;
    told_numbers(
        alloc,
        count.as_str(),
        wanted.len() as u64,
        found.len() as u64,
    )
}

// The lengths of a text's first lines, so many, none of which is a refusal; `None` where one is, or there are fewer.
fn accepted_length(text: &[u8], count: u64) -> Option<usize> {
    let mut length: usize = 0;
    for _ in 0..count {
        let rest = text.get(length..)?;
        if rest.starts_with(b"no") {
            return None;
        }
        let end = rest.iter().position(|byte| *byte == b'\n')?;
        length = length.saturating_add(end).saturating_add(1);
    }
    Some(length)
}

// The lines that must come, with those that are accepted as they came.
fn wanted_lines(alloc: Global, wanted: &Wanted, found: &[u8]) -> Result<Option<Vec<u8>>, Trouble> {
    let mut lines = Vec::from_slice(alloc, &wanted.item_answers)?;
    if wanted.accepted > 0 {
        let behind = found.get(lines.len()..).unwrap_or(b"");
        let Some(length) = accepted_length(behind, wanted.accepted) else {
            return Ok(None);
        };
        lines.extend_from_slice(behind.get(..length).unwrap_or(behind))?;
    }
    lines.extend_from_slice(&wanted.answers)?;
    Ok(Some(lines))
}

/// How the lines that came differ from those that must come.
pub(crate) fn told_lines(
    alloc: Global,
    wanted: &Wanted,
    found: &[u8],
) -> Result<Option<String>, Trouble> {
    match wanted_lines(alloc, wanted, found)? {
        Some(lines) => told_texts(alloc, "standard output", &lines, found),
        None => Ok(Some(format!(in alloc; "  an item was refused that must be accepted\n")?)),
    }
}

/// How the bytes on connections differ from those that must come: those of which nothing is said get none.
pub(crate) fn told_replies(
    alloc: Global,
    wanted: &[Bytes],
    found: &[Bytes],
) -> Result<Option<String>, Trouble> {
    for number in 0..wanted.len().max(found.len()) {
        let one = bytes_at(wanted, number);
        let other = bytes_at(found, number);
        let place = format!(in alloc; "connection {number}")?;
        let told = told_texts(alloc, place.as_str(), one, other)?;
        if told.is_some() {
            return Ok(told);
        }
    }
    Ok(None)
}

/// The bytes at a place in a list, none where there is none.
pub(crate) fn bytes_at(list: &[Bytes], number: usize) -> &[u8] {
    match list.get(number) {
        Some(bytes) => bytes.as_slice(),
        None => b"",
    }
}

/// How the rows of two stores differ.
pub(crate) fn told_rows(
    alloc: Global,
    wanted: &[Bytes],
    found: &[Bytes],
) -> Result<Option<String>, Trouble> {
    told_lists(alloc, "row", wanted, found)
}

// How the rows that a run added differ from those that must be added. The rows before it stand.
fn told_added(
    alloc: Global,
    before: &[Bytes],
    wanted: &[Bytes],
    found: &[Bytes],
) -> Result<Option<String>, Trouble> {
    let front = found.get(..before.len()).unwrap_or(found);
    let told = told_rows(alloc, before, front)?;
    if told.is_some() {
        return Ok(told);
    }
    let rest = found.get(before.len()..).unwrap_or(&[]);
    told_lists(alloc, "added row", wanted, rest)
}

// The bytes of the checkpoint row of a name.
fn check_at<'a>(checks: &'a [CheckPut], kept: &KeptCheck) -> Option<&'a [u8]> {
    for check in checks {
        if check.household == kept.name.household && check.sheet == kept.name.sheet {
            return Some(check.bytes.as_slice());
        }
    }
    None
}

fn told_check(
    alloc: Global,
    kept: &KeptCheck,
    found: Option<&[u8]>,
) -> Result<Option<String>, Trouble> {
    let household = kept.name.household;
    let sheet = kept.name.sheet;
    let place = format!(in alloc; "checkpoint row {household} {sheet}")?;
    match (kept.bytes.as_ref(), found) {
        (None, None) => Ok(None),
        (Some(wanted), Some(found)) => {
            told_texts(alloc, place.as_str(), wanted.as_slice(), found)
        }
        (None, Some(_)) => Ok(Some(format!(in alloc; "  {place} is there\n")?)),
        (Some(_), None) => Ok(Some(format!(in alloc; "  {place} is missing\n")?)),
    }
}

fn told_checks(
    alloc: Global,
    wanted: &[KeptCheck],
    found: &[CheckPut],
) -> Result<Option<String>, Trouble> {
    for kept in wanted {
        let told = told_check(alloc, kept, check_at(found, kept))?;
        if told.is_some() {
            return Ok(told);
        }
    }
    Ok(None)
}

// How the store that came differs from what is said of it.
fn told_store(
    alloc: Global,
    wanted: &Wanted,
    before: &Store,
    found: &Store,
) -> Result<Option<String>, Trouble> {
    if let Some(rows) = &wanted.rows {
        let told = told_rows(alloc, rows, &found.rows)?;
        if told.is_some() {
            return Ok(told);
        }
    }
    if let Some(added) = &wanted.added {
        let told = told_added(alloc, &before.rows, added, &found.rows)?;
        if told.is_some() {
            return Ok(told);
        }
    }
    if let Some(count) = wanted.count {
        let told = told_numbers(alloc, "number of rows", count, found.rows.len() as u64)?;
        if told.is_some() {
            return Ok(told);
        }
    }
    told_checks(alloc, &wanted.kept, &found.checks)
}

/// How what came of a run differs from what must come; `None` where it is the same.
pub(crate) fn told_outcome(
    alloc: Global,
    wanted: &Wanted,
    before: &Store,
    found: &Outcome,
) -> Result<Option<String>, Trouble> {
    let told = told_lines(alloc, wanted, &found.written)?;
    if told.is_some() {
        return Ok(told);
    }
    let told = told_numbers(alloc, "status", wanted.status as u64, found.status as u64)?;
    if told.is_some() {
        return Ok(told);
    }
    let told = told_replies(alloc, &wanted.replies, &found.replies)?;
    if told.is_some() {
        return Ok(told);
    }
    told_store(alloc, wanted, before, &found.store)
}
