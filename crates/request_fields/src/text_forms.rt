//! The forms of texts, dates, times, keys, bearers and elections.
ghost use Rattle.std.specs.Prelude.{◌≡◌, ◌+◌, ◌<◌, length, IfOk};
ghost use Rattle.fund_calendar.specs.DayText as days;
ghost use Rattle.agent_events.specs.Fields as form;

use crate::field_forms::identifier_of;
use agent_events::{
    Bearer, CorrectedRate, DealerKey, DividendRate, HouseholdKey, Quantity, TimeOfDay, Window,
    ZoneText,
};
use money_units::{Bytes, NoMemory, read_mils, read_number, read_rate, same_bytes};
use std::alloc::Global;

/// The mils of an order.
pub(crate) fn quantity_of(text: &[u8]) -> Option<Quantity>
    ensures { result ≡ form.quantity text.now }
{
    Quantity::new(read_mils(text).ok()?)
}

/// The rate of a dividend in millionths of a dollar per share.
pub(crate) fn dividend_rate_of(text: &[u8]) -> Option<DividendRate>
    ensures { result ≡ form.dividend_rate text.now }
{
    DividendRate::new(read_rate(text).ok()?)
}

/// A corrected rate of a dividend, 0 for none.
pub(crate) fn corrected_rate_of(text: &[u8]) -> Option<CorrectedRate>
    ensures { result ≡ form.corrected_rate text.now }
{
    CorrectedRate::new(read_rate(text).ok()?)
}

/// Seconds of a dealer's window.
pub(crate) fn window_of(text: &[u8]) -> Option<Window>
    ensures { result ≡ form.window text.now }
{
    Window::new(read_number(text).ok()?)
}

/// A text of visible bytes that is read as a zone rule only later.
pub(crate) fn zone_of(alloc: Global, text: &[u8]) -> Result<Option<ZoneText>, NoMemory>
    ensures { IfOk result (λ zone. zone ≡ form.zone text.now) }
{
    let bytes = Bytes::from_slice(alloc, text)?;
    Ok(ZoneText::new(bytes))
}

/// The key of a household.
pub(crate) fn household_key_of(alloc: Global, text: &[u8]) -> Result<Option<HouseholdKey>, NoMemory>
    ensures { IfOk result (λ key. key ≡ form.household_key text.now) }
{
    let bytes = Bytes::from_slice(alloc, text)?;
    Ok(HouseholdKey::new(bytes))
}

/// The key of a dealer.
pub(crate) fn dealer_key_of(alloc: Global, text: &[u8]) -> Result<Option<DealerKey>, NoMemory>
    ensures { IfOk result (λ key. key ≡ form.dealer_key text.now) }
{
    let bytes = Bytes::from_slice(alloc, text)?;
    Ok(DealerKey::new(bytes))
}

// The digits at a place and the next one, read as a number.
fn two_digits(text: &[u8], place: usize) -> Option<u8>
    requires { place + 1 < length text.now }
    ensures value { result ≡ days.two_digits text.now place }
{
    let (tens, ones) = (text[place], text[place + 1]);
    if tens.is_ascii_digit() && ones.is_ascii_digit() {
        Some(10 * (tens - b'0') + (ones - b'0'))
    } else {
        None
    }
}

fn below(limit: u8, number: Option<u8>) -> Option<u8>
    ensures value { result ≡ form.within 0 limit number }
{
    match number {
        Some(number) if number <= limit => Some(number),
        _ => None,
    }
}

/// A time of day, in minutes after midnight.
pub(crate) fn time_of(text: &[u8]) -> Option<TimeOfDay>
    ensures { result ≡ form.time text.now }
{
    if text.len() != 5 || text[2] != b':' {
        return None;
    }
    let hour = below(23, two_digits(text, 0))?;
    let minute = below(59, two_digits(text, 3))?;
    TimeOfDay::new(60 * hour as u16 + minute as u16)
}

/// Who bears the loss of a correction.
pub(crate) fn bearer_of(text: &[u8]) -> Option<Bearer>
    ensures { result ≡ form.bearer text.now }
{
    if same_bytes(text, b"fund") {
        Some(Bearer::Fund)
    } else if same_bytes(text, b"agent") {
        Some(Bearer::Agent)
    } else {
        dealer_bearer(text)
    }
}

fn dealer_bearer(text: &[u8]) -> Option<Bearer>
    ensures { result ≡ form.dealer_bearer text.now }
{
    if text.len() < 7 || !same_bytes(&text[..7], b"dealer:") {
        return None;
    }
    let dealer = identifier_of(&text[7..])?;
    Some(Bearer::Dealer(dealer))
}

/// How dividends are to be paid: `cash` is true, `shares` false.
pub(crate) fn pay_of(text: &[u8]) -> Option<bool>
    ensures { result ≡ form.pay text.now }
{
    if same_bytes(text, b"cash") {
        Some(true)
    } else if same_bytes(text, b"shares") {
        Some(false)
    } else {
        None
    }
}
