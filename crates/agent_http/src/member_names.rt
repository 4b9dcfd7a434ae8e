//! The names of the members of each verb.
ghost use Rattle.std.specs.Prelude.{◌≡◌, bytes_eq, map};
ghost use Rattle.std.specs.List.{list_any};
ghost use Rattle.agent_events.specs.JsonForms as form;

use request_fields::same_bytes;

static BUY: [&[u8]; 4] = [b"account", b"ref", b"class", b"gross"];

static SELL: [&[u8]; 4] = [b"account", b"ref", b"class", b"shares"];

static AMOUNT: [&[u8]; 4] = [b"account", b"ref", b"class", b"amount"];

static SELL_ALL: [&[u8]; 3] = [b"account", b"ref", b"class"];

static EXCHANGE: [&[u8]; 5] = [b"account", b"ref", b"class", b"to", b"shares"];

static EXCHANGE_ALL: [&[u8]; 4] = [b"account", b"ref", b"class", b"to"];

static ELECT: [&[u8]; 4] = [b"account", b"ref", b"class", b"pay"];

static CALENDAR: [&[u8]; 6] = [
    b"calendar",
    b"zone",
    b"time",
    b"first",
    b"last",
    b"holidays",
];

static CLOSE: [&[u8]; 2] = [b"calendar", b"date"];

static CLASS: [&[u8]; 10] = [
    b"class",
    b"calendar",
    b"fund",
    b"name",
    b"family",
    b"counts",
    b"first_min",
    b"later_min",
    b"front",
    b"deferred",
];

static DEALER: [&[u8]; 3] = [b"dealer", b"key", b"window"];

static HOUSEHOLD: [&[u8]; 2] = [b"household", b"key"];

static ACCOUNT: [&[u8]; 4] = [b"account", b"household", b"dealer", b"name"];

static SHEET: [&[u8]; 3] = [b"calendar", b"moment", b"prices"];

static DIVIDEND: [&[u8]; 3] = [b"class", b"moment", b"rate"];

static FIX_PRICE: [&[u8]; 5] = [b"fix", b"bearer", b"class", b"moment", b"nav"];

static FIX_RATE: [&[u8]; 5] = [b"fix", b"bearer", b"class", b"moment", b"rate"];

static VOID: [&[u8]; 4] = [b"fix", b"bearer", b"account", b"ref"];

static CANCEL: [&[u8]; 3] = [b"account", b"ref", b"target"];

static ENTRY: [&[u8]; 4] = [b"fix", b"bearer", b"receipt", b"verb"];

/// The names of the members that `enter` and `replace` have beside those of their order.
pub(crate) fn entry_names() -> &'static [&'static [u8]]
    ensures { map (λ name. name.now) result.now ≡ form.entry_names }
{
    &ENTRY
}

/// The names of an order verb's members.
pub(crate) fn order_names(verb: &[u8]) -> &'static [&'static [u8]]
    ensures { map (λ name. name.now) result.now ≡ form.order_names verb.now }
{
    if same_bytes(verb, b"buy") {
        &BUY
    } else if same_bytes(verb, b"sell") {
        &SELL
    } else if same_bytes(verb, b"sellcash") {
        &AMOUNT
    } else if same_bytes(verb, b"sellall") {
        &SELL_ALL
    } else if same_bytes(verb, b"exchange") {
        &EXCHANGE
    } else if same_bytes(verb, b"exchangeall") {
        &EXCHANGE_ALL
    } else if same_bytes(verb, b"letter") {
        &AMOUNT
    } else {
        &ELECT
    }
}

/// The names of a verb's members, but for `enter` and `replace`.
pub(crate) fn field_names(verb: &[u8]) -> &'static [&'static [u8]]
    ensures { map (λ name. name.now) result.now ≡ form.field_names verb.now }
{
    if same_bytes(verb, b"calendar") {
        &CALENDAR
    } else if same_bytes(verb, b"close") {
        &CLOSE
    } else if same_bytes(verb, b"class") {
        &CLASS
    } else if same_bytes(verb, b"dealer") {
        &DEALER
    } else if same_bytes(verb, b"household") {
        &HOUSEHOLD
    } else if same_bytes(verb, b"account") {
        &ACCOUNT
    } else if same_bytes(verb, b"sheet") {
        &SHEET
    } else if same_bytes(verb, b"dividend") {
        &DIVIDEND
    } else if same_bytes(verb, b"fixprice") {
        &FIX_PRICE
    } else if same_bytes(verb, b"fixrate") {
        &FIX_RATE
    } else if same_bytes(verb, b"void") {
        &VOID
    } else if same_bytes(verb, b"cancel") {
        &CANCEL
    } else {
        order_names(verb)
    }
}

/// Whether a text is one of these.
pub(crate) fn is_one_of(text: &[u8], known: &[&[u8]]) -> bool
    ensures { result ≡ list_any (λ one. bytes_eq text.now one.now) known.now }
{
    known.iter().any(|one| same_bytes(text, one))
}
