//! Writing numbers as text. Each call appends the one form of its value to `out`.
ghost use Rattle.std.specs.Prelude.{◌≡◌, ◌++◌, ◌<◌, ◌^◌, OnOk, OnErr};
ghost use Rattle.money_units.specs.Texts.{number_text, money_text, shares_text, signed_text, last_digit};

use crate::faults::NoMemory;

/// Appends a whole number in decimal digits; after `NoMemory` `out` is as before.
pub fn print_number(value: u64, out: &mut Vec<u8>) -> Result<(), NoMemory>
    ensures ok { OnOk result (out.new.items ≡ out.old.items ++ number_text value) }
    ensures err { OnErr result (out.new.items ≡ out.old.items) }
{
    let text = value.to_string(*out.allocator())?;
    out.extend_from_slice(text.as_bytes())?;
    Ok(())
}

/// Appends cents as dollars with two places, as `10.61`; after `NoMemory` `out` is as before.
pub fn print_cents(value: u128, out: &mut Vec<u8>) -> Result<(), NoMemory>
    ensures ok { OnOk result (out.new.items ≡ out.old.items ++ money_text value) }
    ensures err { OnErr result (out.new.items ≡ out.old.items) }
{
    let mut text = (value / 100).to_string(*out.allocator())?.into_bytes();
    text.extend_from_slice(&[b'.', last_digit(value / 10), last_digit(value)])?;
    out.extend_from_slice(&text)?;
    Ok(())
}

/// Appends mils as shares with three places, as `942.507`; after `NoMemory` `out` is as before.
pub fn print_mils(value: u128, out: &mut Vec<u8>) -> Result<(), NoMemory>
    ensures ok { OnOk result (out.new.items ≡ out.old.items ++ shares_text value) }
    ensures err { OnErr result (out.new.items ≡ out.old.items) }
{
    let mut text = (value / 1000).to_string(*out.allocator())?.into_bytes();
    let places = [
        b'.',
        last_digit(value / 100),
        last_digit(value / 10),
        last_digit(value),
    ];
    text.extend_from_slice(&places)?;
    out.extend_from_slice(&text)?;
    Ok(())
}

/// Appends signed cents as dollars, with `-` before a negative amount; after `NoMemory` `out` is as before.
pub fn print_signed(value: i128, out: &mut Vec<u8>) -> Result<(), NoMemory>
    ensures ok { OnOk result (out.new.items ≡ out.old.items ++ signed_text value) }
    ensures err { OnErr result (out.new.items ≡ out.old.items) }
{
    if value >= 0 {
        return print_cents(value as u128, out);
    }
    let mut text = Vec::new(*out.allocator());
    text.push(b'-')?;
    print_cents(value.unsigned_abs(), &mut text)?;
    out.extend_from_slice(&text)?;
    Ok(())
}

fn last_digit(value: u128) -> u8
    ensures { result ≡ last_digit value }
{
    b'0' + (value % 10) as u8
}
