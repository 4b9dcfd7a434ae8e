//! The forms of single fields: a value, exactly where the text is in the form.
ghost use Rattle.std.specs.Prelude.{◌==◌, ◌≡◌, ◌≤◌, IfOk, length};
ghost use Rattle.std.specs.List.{before_first, after_first, position_or_len};
ghost use Rattle.agent_events.specs.Fields as form;

use agent_events::{Amount, Identifier, Minimum, Name, Reference};
use class_terms::{Bracket, Label};
use money_units::{Bps, Moment, Nav, NoMemory, read_cents, read_number, same_bytes};
use std::alloc::Global;

/// The number of a calendar, class, fund, dealer, household or account.
pub(crate) fn identifier_of(text: &[u8]) -> Option<Identifier>
    ensures { result ≡ form.identifier text.now }
{
    Identifier::new(read_number(text).ok()?)
}

/// The same, or 0 for none.
pub(crate) fn identifier_or_none_of(text: &[u8]) -> Option<u32>
    ensures { result ≡ form.identifier_or_none text.now }
{
    let number = read_number(text).ok()?;
    if number <= 4_294_967_295 {
        Some(number as u32)
    } else {
        None
    }
}

/// What an account calls an order, or the number of a correction.
pub(crate) fn reference_of(text: &[u8]) -> Option<Reference>
    ensures { result ≡ form.reference text.now }
{
    Reference::new(read_number(text).ok()?)
}

/// Seconds since 1970-01-01 00:00 UTC.
pub fn moment_of(text: &[u8]) -> Option<Moment>
    ensures { result ≡ form.moment text.now }
{
    Moment::new(read_number(text).ok()?)
}

/// The money of an order.
pub(crate) fn amount_of(text: &[u8]) -> Option<Amount>
    ensures { result ≡ form.amount text.now }
{
    Amount::new(read_cents(text).ok()?)
}

/// The least money of a purchase.
pub(crate) fn minimum_of(text: &[u8]) -> Option<Minimum>
    ensures { result ≡ form.minimum text.now }
{
    Minimum::new(read_cents(text).ok()?)
}

/// A net asset value.
pub(crate) fn nav_of(text: &[u8]) -> Option<Nav>
    ensures { result ≡ form.nav text.now }
{
    Nav::new(read_cents(text).ok()?.0)
}

/// A rate in basis points.
pub(crate) fn rate_of(text: &[u8]) -> Option<Bps>
    ensures { result ≡ form.basis_points text.now }
{
    let number = read_number(text).ok()?;
    if number <= 65_535 {
        Some(Bps(number as u16))
    } else {
        None
    }
}

/// `1` for yes, `0` for no.
pub(crate) fn flag_of(text: &[u8]) -> Option<bool>
    ensures { result ≡ form.flag text.now }
{
    if same_bytes(text, b"1") {
        Some(true)
    } else if same_bytes(text, b"0") {
        Some(false)
    } else {
        None
    }
}

/// A name of 1 to 40 printable bytes, the first and the last no space.
pub(crate) fn name_of(alloc: Global, text: &[u8]) -> Result<Option<Name>, NoMemory>
    ensures { IfOk result (λ name. name ≡ form.label text.now) }
{
    let label = Label::from_slice(alloc, text)?;
    Ok(Name::new(label))
}

/// The place of the first of a byte, or the length where there is none.
pub fn place_of(byte: u8, text: &[u8]) -> usize
    ensures value { result ≡ position_or_len (λ other. other == byte) text.now }
    ensures within { result ≤ length text.now }
{
    text.iter()
        .position(|other| *other == byte)
        .unwrap_or(text.len())
}

/// What stands before the first colon.
pub(crate) fn before_colon(text: &[u8]) -> &[u8]
    ensures { result.now ≡ before_first form.is_colon text.now }
{
    &text[..place_of(b':', text)]
}

/// What stands behind the first colon, nothing where there is none.
pub(crate) fn after_colon(text: &[u8]) -> &[u8]
    ensures { result.now ≡ after_first form.is_colon text.now }
{
    let colon = place_of(b':', text);
    if colon < text.len() {
        &text[colon + 1..]
    } else {
        &[]
    }
}

/// A row of a table of front-end loads: a floor in money and a rate.
pub(crate) fn bracket_of(text: &[u8]) -> Option<Bracket>
    ensures { result ≡ form.bracket text.now }
{
    let floor = read_cents(before_colon(text)).ok()?;
    let rate = rate_of(after_colon(text))?;
    Some(Bracket { floor, rate })
}

/// A class and its net asset value.
pub(crate) fn price_of(text: &[u8]) -> Option<(u32, Nav)>
    ensures { result ≡ form.pair form.identifier form.nav text.now }
{
    let class = identifier_of(before_colon(text))?;
    let nav = nav_of(after_colon(text))?;
    Some((class.number(), nav))
}
