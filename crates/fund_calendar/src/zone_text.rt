//! Reading the text of a zone rule.
ghost use Rattle.std.specs.Prelude.{◌≡◌, ◌≤◌, ◌<◌, length, option_map, position, ◌==◌, IfSome};
ghost use Rattle.std.specs.Option.{option_copied, ForSome};
ghost use Rattle.fund_calendar.specs.ZoneRules.{IsChange, IsDaylight, IsOffset, IsZoneRule};
ghost use Rattle.fund_calendar.specs.ZoneText as texts;

use crate::day_text::two_digits;
use crate::zone::{Change, Daylight, Offset, ZoneRule};

/// Reads a zone rule, and answers `None` exactly where the text is none.
pub(crate) fn read_zone(text: &[u8]) -> Option<ZoneRule>
    ensures value { result ≡ texts.read_zone text.now }
    ensures within { IfSome result IsZoneRule }
{
    match behind_name(text) {
        Some(rest) => rule_behind(rest),
        None => None,
    }
}

/// The rule behind its first name: an offset alone, or one with daylight time from the second name on.
fn rule_behind(text: &[u8]) -> Option<ZoneRule>
    ensures value { result ≡ texts.rule_behind text.now (position texts.begins_name text.now) }
    ensures within { IfSome result IsZoneRule }
{
    match place_of_name(text) {
        None => {
            let offset = read_offset(text)?;
            Some(ZoneRule {
                offset,
                daylight: None,
            })
        }
        Some(i) => {
            let offset = read_offset(&text[..i])?;
            let daylight = read_daylight(&text[i..])?;
            Some(ZoneRule {
                offset,
                daylight: Some(daylight),
            })
        }
    }
}

/// The place of the first byte that begins a name.
fn place_of_name(text: &[u8]) -> Option<usize>
    ensures value { result ≡ position texts.begins_name text.now }
    ensures bound { IfSome result (λ i. i < length text.now) }
{
    text.iter()
        .position(|byte| byte.is_ascii_alphabetic() || *byte == b'<')
}

/// The text before the first such byte, and the text behind it.
fn cut_at(text: &[u8], byte: u8) -> Option<(&[u8], &[u8])>
    ensures { option_map (λ parts. (parts.0.now, parts.1.now)) result ≡ texts.cut_at byte text.now }
{
    match place_of(text, byte) {
        Some(i) => Some((&text[..i], &text[i + 1..])),
        None => None,
    }
}

/// The place of the first such byte.
fn place_of(text: &[u8], byte: u8) -> Option<usize>
    ensures value { result ≡ position (λ b. b == byte) text.now }
    ensures bound { IfSome result (λ i. i < length text.now) }
{
    text.iter().position(|b| *b == byte)
}

/// The number, where it lies from `low` to `high`.
fn in_range(low: u8, high: u8, number: Option<u8>) -> Option<u8>
    ensures value { result ≡ texts.in_range low high number }
    ensures within { IfSome result (λ n. (low ≤ n) × (n ≤ high)) }
{
    let number = number?;
    if low <= number && number <= high {
        Some(number)
    } else {
        None
    }
}

/// A number of one or two digits.
fn read_digits(text: &[u8]) -> Option<u8>
    ensures { result ≡ texts.read_digits text.now }
{
    if text.len() == 2 {
        two_digits(text, 0)
    } else if text.len() == 1 && text[0].is_ascii_digit() {
        Some(text[0] - b'0')
    } else {
        None
    }
}

/// A number of one or two digits without a leading zero.
fn read_small(text: &[u8]) -> Option<u8>
    ensures { result ≡ texts.read_small text.now }
{
    if text.len() == 2 && text[0] == b'0' {
        None
    } else {
        read_digits(text)
    }
}

/// What stands behind the name that a text begins with.
fn behind_name(text: &[u8]) -> Option<&[u8]>
    ensures { option_copied result ≡ texts.behind_name text.now }
{
    if !text.is_empty() && text[0] == b'<' {
        return behind_quoted(&text[1..]);
    }
    let count = letters(text);
    if 3 <= count && count <= 10 {
        Some(&text[count..])
    } else {
        None
    }
}

/// How many letters a text begins with.
fn letters(text: &[u8]) -> usize
    ensures value { result ≡ texts.letters text.now }
    ensures bound { result ≤ length text.now }
{
    match place_of_other(text) {
        Some(i) => i,
        None => text.len(),
    }
}

/// The place of the first byte that is no letter.
fn place_of_other(text: &[u8]) -> Option<usize>
    ensures value { result ≡ position texts.is_other text.now }
    ensures bound { IfSome result (λ i. i < length text.now) }
{
    text.iter().position(|byte| !byte.is_ascii_alphabetic())
}

/// What stands behind a name and `>`.
fn behind_quoted(text: &[u8]) -> Option<&[u8]>
    ensures { option_copied result ≡ texts.behind_quoted (texts.cut_at 62 text.now) }
{
    let (name, rest) = cut_at(text, b'>')?;
    if 3 <= name.len() && name.len() <= 10 && is_quoted(name) {
        Some(rest)
    } else {
        None
    }
}

/// Letters, digits, `+` and `-`.
fn is_quoted(name: &[u8]) -> bool
    ensures { result ≡ texts.is_quoted name.now }
{
    name.iter().all(|byte| byte.is_ascii_alphanumeric() || *byte == b'+' || *byte == b'-')
}

/// How far standard time is behind UTC, or ahead of it.
fn read_offset(text: &[u8]) -> Option<Offset>
    ensures value { result ≡ texts.read_offset text.now }
    ensures within { IfSome result IsOffset }
{
    if !text.is_empty() && text[0] == b'-' {
        let ahead = unsigned_minutes(&text[1..])?;
        return Some(Offset { behind: 0, ahead });
    }
    if !text.is_empty() && text[0] == b'+' {
        let behind = unsigned_minutes(&text[1..])?;
        return Some(Offset { behind, ahead: 0 });
    }
    let behind = unsigned_minutes(text)?;
    Some(Offset { behind, ahead: 0 })
}

/// The minutes of an offset without its sign.
fn unsigned_minutes(text: &[u8]) -> Option<u16>
    ensures value { result ≡ texts.unsigned_minutes text.now }
    ensures within { IfSome result (λ n. n ≤ 899) }
{
    match cut_at(text, b':') {
        None => Some(60 * in_range(0, 14, read_digits(text))? as u16),
        Some((hours, minutes)) => {
            let hours = in_range(0, 14, read_digits(hours))? as u16;
            let minutes = offset_minutes(minutes)? as u16;
            Some(60 * hours + minutes)
        }
    }
}

/// The minutes of an offset: two digits.
fn offset_minutes(text: &[u8]) -> Option<u8>
    ensures value { result ≡ texts.offset_minutes text.now }
    ensures within { IfSome result (λ n. n ≤ 59) }
{
    if text.len() == 2 {
        in_range(0, 59, two_digits(text, 0))
    } else {
        None
    }
}

/// Daylight time by its name and its changes.
fn read_daylight(text: &[u8]) -> Option<Daylight>
    ensures value { result ≡ texts.daylight_named (texts.cut_at 44 text.now) }
    ensures within { IfSome result IsDaylight }
{
    let (name, changes) = cut_at(text, b',')?;
    if !is_name(name) {
        return None;
    }
    let (begins, ends) = cut_at(changes, b',')?;
    Some(Daylight {
        begins: read_change(begins)?,
        ends: read_change(ends)?,
    })
}

/// The text is a name and nothing else.
fn is_name(text: &[u8]) -> bool
    ensures { result ≡ texts.is_name text.now }
{
    match behind_name(text) {
        Some(rest) => rest.is_empty(),
        None => false,
    }
}

/// A change: its date, and behind a slash its hour, which is 2 where none is given.
fn read_change(text: &[u8]) -> Option<Change>
    ensures value { result ≡ texts.read_change text.now }
    ensures within { IfSome result IsChange }
{
    match cut_at(text, b'/') {
        None => change_on(text, Some(2)),
        Some((date, hour)) => change_on(date, in_range(0, 23, read_small(hour))),
    }
}

/// A change by its date, `Mm.w.d`, and its hour.
fn change_on(date: &[u8], hour: Option<u8>) -> Option<Change>
    requires { ForSome hour (λ h. h ≤ 23) }
    ensures value { result ≡ texts.change_on date.now hour }
    ensures within { IfSome result IsChange }
{
    if date.is_empty() || date[0] != b'M' {
        return None;
    }
    let (month, rest) = cut_at(&date[1..], b'.')?;
    let (week, weekday) = cut_at(rest, b'.')?;
    Some(Change {
        month: in_range(1, 12, read_small(month))?,
        week: in_range(1, 5, read_small(week))?,
        weekday: in_range(0, 6, read_small(weekday))?,
        hour: hour?,
    })
}
