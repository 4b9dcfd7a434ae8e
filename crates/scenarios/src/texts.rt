//! The texts of a case: what their escapes stand for.

use crate::trouble::Trouble;
use money_units::{print_number, read_number};
use std::alloc::Global;

// How often a text is repeated at most, so that a slip in a case doesn't take all memory.
const MOST_TIMES: u64 = 20_000_000;

// What stands from a place on, nothing past the end.
fn behind(text: &[u8], place: usize) -> &[u8] {
    text.get(place..).unwrap_or(b"")
}

fn before(text: &[u8], place: usize) -> &[u8] {
    text.get(..place).unwrap_or(text)
}

// The value of a hexadecimal digit.
fn digit_of(byte: u8) -> Option<u8> {
    match byte {
        b'0'..=b'9' => Some(byte - b'0'),
        b'a'..=b'f' => Some(byte - b'a' + 10),
        b'A'..=b'F' => Some(byte - b'A' + 10),
        _ => None,
    }
}

// The byte of two hexadecimal digits at the front of a text.
fn byte_of(text: &[u8]) -> Option<u8> {
    let high = digit_of(*text.first()?)?;
    let low = digit_of(*text.get(1)?)?;
    Some((high & 15) * 16 + (low & 15))
}

// Appends what an escape stands for that is of one byte, and answers how many bytes stand for it behind the backslash;
// `None` where it is no such escape.
fn push_byte(text: &[u8], made: &mut Vec<u8>) -> Result<Option<usize>, Trouble> {
    let (byte, length) = match text.first() {
        Some(b'\\') => (b'\\', 1),
        Some(b'r') => (b'\r', 1),
        Some(b'n') => (b'\n', 1),
        Some(b't') => (b'\t', 1),
        Some(b'=') => (b'=', 1),
        Some(b'}') => (b'}', 1),
        Some(b'x') => match byte_of(behind(text, 1)) {
            Some(byte) => (byte, 3),
            None => return Ok(None),
        },
        _ => return Ok(None),
    };
    made.push(byte)?;
    Ok(Some(length))
}

// Appends what a text without repetitions stands for, in which `\#` is this number.
fn push_once(text: &[u8], number: u64, made: &mut Vec<u8>) -> Result<(), Trouble> {
    let mut rest = text;
    for _ in 0..text.len() {
        let Some(place) = rest.iter().position(|byte| *byte == b'\\') else {
            break;
        };
        made.extend_from_slice(before(rest, place))?;
        rest = behind(rest, place.saturating_add(1));
        rest = behind(rest, push_escape(rest, number, made)?);
    }
    made.extend_from_slice(rest)?;
    Ok(())
}

// Appends what an escape stands for, and answers how many bytes it has behind the backslash. At the end of a line it stands for
// nothing, with the line's end.
fn push_escape(text: &[u8], number: u64, made: &mut Vec<u8>) -> Result<usize, Trouble> {
    if let Some(length) = push_byte(text, made)? {
        return Ok(length);
    }
    match text.first() {
        Some(b'#') => {
            print_number(number, made)?;
            Ok(1)
        }
        Some(b'\n') => Ok(1),
        Some(b'e') => Ok(1),
        None => Ok(0),
        _ => Err(Trouble::Unreadable("no such escape")),
    }
}

// The place of the brace that ends a repetition.
fn end_of_repetition(text: &[u8]) -> Option<usize> {
    let mut is_escaped = false;
    for (place, byte) in text.iter().enumerate() {
        if *byte == b'}' && !is_escaped {
            return Some(place);
        }
        is_escaped = *byte == b'\\' && !is_escaped;
    }
    None
}

fn number_in(text: &[u8]) -> Result<u64, Trouble> {
    match read_number(text) {
        Ok(number) => Ok(number),
        Err(_) => Err(Trouble::Unreadable("no number")),
    }
}

// The numbers of `A..B`, or of `N`, which is `1..N`.
fn numbers_in(text: &[u8]) -> Result<(u64, u64), Trouble> {
    match text.iter().position(|byte| *byte == b'.') {
        Some(place) => Ok((
            number_in(before(text, place))?,
            number_in(behind(text, place.saturating_add(2)))?,
        )),
        None => Ok((1, number_in(text)?)),
    }
}

// Appends a repetition, of which the text stands between its braces.
fn push_repeated(text: &[u8], made: &mut Vec<u8>) -> Result<(), Trouble> {
    let Some(place) = text.iter().position(|byte| *byte == b':') else {
        return Err(Trouble::Unreadable("a repetition has no colon"));
    };
    let (first, last) = numbers_in(before(text, place))?;
    if last.saturating_sub(first) > MOST_TIMES {
        return Err(Trouble::Unreadable("a repetition of too many times"));
    }
    let repeated = behind(text, place.saturating_add(1));
    if first > last {
        return Ok(());
    }
    for number in first..last {
        push_once(repeated, number, made)?;
    }
    push_once(repeated, last, made)
}

// Appends an escape or a repetition, and answers how many bytes it has behind the backslash.
fn push_any(text: &[u8], made: &mut Vec<u8>) -> Result<usize, Trouble> {
    if text.first() != Some(&b'{') {
        return push_escape(text, 0, made);
    }
    let inside = behind(text, 1);
    let Some(end) = end_of_repetition(inside) else {
        return Err(Trouble::Unreadable("a repetition has no end"));
    };
    push_repeated(before(inside, end), made)?;
    Ok(end.saturating_add(2))
}

/// Appends what a text stands for.
pub(crate) fn push_text(text: &[u8], made: &mut Vec<u8>) -> Result<(), Trouble> {
    let mut rest = text;
    for _ in 0..text.len() {
        let Some(place) = rest.iter().position(|byte| *byte == b'\\') else {
            break;
        };
        made.extend_from_slice(before(rest, place))?;
        rest = behind(rest, place.saturating_add(1));
        rest = behind(rest, push_any(rest, made)?);
    }
    made.extend_from_slice(rest)?;
    Ok(())
}

// Whether a text ends with a backslash that stands for itself alone, so that no line feed is behind it.
fn is_continued(text: &[u8]) -> bool {
    let mut is_escape = false;
    for byte in text {
        is_escape = *byte == b'\\' && !is_escape;
    }
    is_escape
}

/// Appends what the lines of a section stand for, each with its line feed but where a backslash ends it.
pub(crate) fn push_lines(text: &[u8], made: &mut Vec<u8>) -> Result<(), Trouble> {
    push_text(text, made)?;
    if !is_continued(text) {
        made.push(b'\n')?;
    }
    Ok(())
}

/// The bytes of a text in hexadecimal, in which spaces count nothing.
pub(crate) fn bytes_in_digits(alloc: Global, text: &[u8]) -> Result<Vec<u8>, Trouble> {
    let mut made = Vec::new(alloc);
    let mut high: Option<u8> = None;
    for byte in text {
        if *byte == b' ' {
            continue;
        }
        let Some(digit) = digit_of(*byte) else {
            return Err(Trouble::Unreadable("no hexadecimal digit"));
        };
        high = match high {
            Some(first) => {
                made.push((first & 15) * 16 + (digit & 15))?;
                None
            }
            None => Some(digit),
        };
    }
    match high {
        Some(_) => Err(Trouble::Unreadable("half a byte")),
        None => Ok(made),
    }
}
