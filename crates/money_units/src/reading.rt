//! Reading numbers from text. Each reader takes the one form of each value and nothing else.
ghost use Rattle.std.specs.Prelude.{◌≡◌, ◌+◌, ◌^◌, ◌≤◌, IsTrue, length};
ghost use Rattle.std.specs.List.{list_all};
ghost use Rattle.std.specs.Char.{is_ascii_digit};
ghost use Rattle.std.specs.Str.Parse.{digits_value};
ghost use Rattle.std.specs.Result.{result_ok};
ghost use Rattle.money_units.specs.Texts.{is_whole, is_fixed, fixed, number, money, shares, rate};

use crate::faults::TextFault;
use crate::units::{Cents, Mils};

/// Reads a whole number: 1 to 19 decimal digits, with no leading 0 but that of `0` itself.
pub fn read_number(text: &[u8]) -> Result<u64, TextFault>
    ensures { result_ok result ≡ number text.now }
{
    if is_whole(19, text) {
        Ok(value_of_digits(text))
    } else {
        Err(TextFault)
    }
}

/// Reads money in dollars, as `10.61`: a number of at most 13 digits, a point and two digits.
pub fn read_cents(text: &[u8]) -> Result<Cents, TextFault>
    ensures { result_ok result ≡ money text.now }
{
    match read_fixed(13, 2, 100, text) {
        Some(cents) => Ok(Cents(cents)),
        None => Err(TextFault),
    }
}

/// Reads shares, as `942.507`: a number of at most 13 digits, a point and three digits.
pub fn read_mils(text: &[u8]) -> Result<Mils, TextFault>
    ensures { result_ok result ≡ shares text.now }
{
    match read_fixed(13, 3, 1000, text) {
        Some(mils) => Ok(Mils(mils)),
        None => Err(TextFault),
    }
}

/// Reads a dividend rate in dollars per share, as `0.120000`, and answers millionths: a number of at most 4 digits, a
/// point and six digits.
pub fn read_rate(text: &[u8]) -> Result<u64, TextFault>
    ensures { result_ok result ≡ rate text.now }
{
    match read_fixed(4, 6, 1_000_000, text) {
        Some(millionths) => Ok(millionths),
        None => Err(TextFault),
    }
}

// A number of at most `most` digits, a point and `places` digits, in units of the last place.
fn read_fixed(most: usize, places: usize, scale: u64, text: &[u8]) -> Option<u64>
    requires scaled { scale ≡ 10 ^ places }
    requires fits { most + places ≤ 19 }
    ensures { result ≡ fixed most places text.now }
{
    if !is_fixed(most, places, text) {
        return None;
    }
    let point = text.len() - (places + 1);
    let units = value_of_digits(&text[..point]);
    let part = value_of_digits(&text[point + 1..]);
    Some(units * scale + part)
}

/// Whether every byte is a decimal digit.
pub fn is_digits(text: &[u8]) -> bool
    ensures { result ≡ list_all is_ascii_digit text.now }
{
    text.iter().all(|byte| byte.is_ascii_digit())
}

fn is_whole(most: usize, text: &[u8]) -> bool
    ensures { result ≡ is_whole most text.now }
{
    is_digits(text)
        && !text.is_empty()
        && text.len() <= most
        && (text[0] != b'0' || text.len() == 1)
}

fn is_fixed(most: usize, places: usize, text: &[u8]) -> bool
    requires { places ≤ 19 }
    ensures { result ≡ is_fixed most places text.now }
{
    let point = text.len().saturating_sub(places + 1);
    is_whole(most, &text[..point]) && text[point] == b'.' && is_digits(&text[point + 1..])
}

/// The number that at most 19 decimal digits spell.
pub fn value_of_digits(text: &[u8]) -> u64
    requires digits { IsTrue (list_all is_ascii_digit text.now) }
    requires few { length text.now ≤ 19 }
    ensures { result ≡ digits_value 10 text.now }
{
    let mut value = 0;
    for byte in text {
        value = value * 10 + (*byte - b'0') as u64;
    }
    value
}
