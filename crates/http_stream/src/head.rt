//! What a head says: where its parts stand, read in one pass over its fields.
ghost use Rattle.std.specs.Prelude.{◌≡◌, ◌+◌, ◌-◌, ◌^◌, ◌<◌, ◌≤◌, if◌then◌else◌, All, false, length, map};
ghost use Rattle.std.specs.List.{fold};
ghost use Rattle.std.specs.Str.{str_eq_ignore_ascii_case};
ghost use Rattle.httparse.specs.Spans.{IsHeaderWithin, header_bytes};
ghost use Rattle.http_stream.specs.Heads as spec;
ghost use Rattle.http_stream.specs.Reading.{FoundAs, IsNoName, IsTallyWithin, ParsesAs, AreFactsWithin, facts_of, facts_with, no_facts, length_said, only_span, JudgedAs};

use crate::fault::HttpFault;
use httparse::Status;
use httparse::spans::{EMPTY_HEADER_SPAN, HeaderSpan, RequestSpans, Span, parse_request};
use money_units::{is_digits, same_bytes, value_of_digits};

/// Where the parts of a head stand, counted from the first byte of the item, and what it says of its body and its connection.
#[derive(Clone, Copy, Debug, PartialEq, Eq)]
pub struct HeadAt {
    /// How many bytes the head has.
    pub size: usize,
    pub method: Span,
    pub target: Span,
    /// The key; no byte where there is none.
    pub key: Span,
    /// How many bytes the body has, where a field says so.
    pub length: Option<usize>,
    /// Whether its reply is the last of the connection.
    pub closes: bool,
}

/// How many fields have a name, and where the value of the last stands.
#[derive(Clone, Copy, Debug)]
pub(crate) struct Tally {
    pub count: usize,
    pub value: Span,
}

/// What one pass over the fields gathers.
#[derive(Clone, Copy, Debug)]
pub(crate) struct Facts {
    pub key: Tally,
    pub length: Tally,
    pub coding: Tally,
    pub closes: bool,
}

/// What stands at the front of a text.
#[derive(Clone, Copy, Debug)]
pub(crate) enum Parsed {
    /// No head of at most 64 fields.
    NoHead,
    /// A head that is answered by this fault.
    Refused(HttpFault),
    Head(HeadAt),
}

const NO_SPAN: Span = Span { start: 0, end: 0 };

const NO_TALLY: Tally = Tally {
    count: 0,
    value: NO_SPAN,
};

const NO_FACTS: Facts = Facts {
    key: NO_TALLY,
    length: NO_TALLY,
    coding: NO_TALLY,
    closes: false,
};

/// The head of at most 16 fields at the front of a text, which most heads are; nothing is said where there is none.
pub(crate) fn parse_short_head(text: &[u8]) -> Parsed
    ensures { FoundAs text.now result }
{
    let mut spans = [EMPTY_HEADER_SPAN; 16];
    match parse_request(text, &mut spans) {
        Ok(Status::Complete(request)) => {
            let facts = facts_of(text, request.len, &spans[..request.headers]);
            judged(text, request, &facts)
        }
        _ => Parsed::NoHead,
    }
}

/// The head at the front of a text.
pub(crate) fn parse_head(text: &[u8]) -> Parsed
    ensures { ParsesAs text.now result }
{
    let mut spans = [EMPTY_HEADER_SPAN; 64];
    match parse_request(text, &mut spans) {
        Ok(Status::Complete(request)) => {
            let facts = facts_of(text, request.len, &spans[..request.headers]);
            judged(text, request, &facts)
        }
        _ => Parsed::NoHead,
    }
}

// A head with what its fields say.
fn judged(text: &[u8], request: RequestSpans, facts: &Facts) -> Parsed
    requires within { AreFactsWithin request.len facts.now }
    requires in_text { request.len ≤ length text.now }
    ensures { JudgedAs text.now request facts.now result }
{
    match said_length(text, facts) {
        Ok(length) => Parsed::Head(HeadAt {
            size: request.len,
            method: request.method,
            target: request.path,
            key: only_value(facts.key),
            length,
            closes: request.version == 0 || facts.closes,
        }),
        Err(fault) => Parsed::Refused(fault),
    }
}

// Where the one value stands.
fn only_value(tally: Tally) -> Span
    ensures { result ≡ only_span tally }
{
    if tally.count == 1 {
        tally.value
    } else {
        NO_SPAN
    }
}

// How many bytes the body has, where a field says so.
fn said_length(text: &[u8], facts: &Facts) -> Result<Option<usize>, HttpFault>
    requires in_text { IsTallyWithin (length text.now) facts.now.length }
    ensures { result ≡ length_said text.now facts.now }
{
    if facts.coding.count > 0 {
        Err(HttpFault::S501)
    } else if facts.length.count == 0 {
        Ok(None)
    } else if facts.length.count == 1 {
        length_of(facts.length.value.of(text))
    } else {
        Err(HttpFault::S400)
    }
}

fn length_of(text: &[u8]) -> Result<Option<usize>, HttpFault>
    ensures { result ≡ spec.length_of text.now }
{
    if is_length(text) {
        within_limit(value_of_digits(text) as usize)
    } else {
        Err(HttpFault::S400)
    }
}

fn within_limit(size: usize) -> Result<Option<usize>, HttpFault>
    ensures { result ≡ spec.within_limit size }
{
    if size <= 1_048_576 {
        Ok(Some(size))
    } else {
        Err(HttpFault::S413)
    }
}

fn is_length(text: &[u8]) -> bool
    ensures { result ≡ spec.is_length text.now }
{
    is_digits(text) && (1 <= text.len() && text.len() <= 10)
}

// One pass over the fields.
fn facts_of(text: &[u8], size: usize, fields: &[HeaderSpan]) -> Facts
    requires in_text { size ≤ length text.now }
    requires few { length fields.now ≤ 64 }
    requires within { All (IsHeaderWithin size) fields.now }
    ensures value { facts_of text.now result
        ≡ fold facts_with no_facts (map (header_bytes text.now) fields.now) }
    ensures within { AreFactsWithin size result }
{
    let mut facts = NO_FACTS;
    for field in fields {
        add_field(text, size, &mut facts, *field);
    }
    facts
}

// Adds what a field says. The facts stay where they are: to move them costs more than to read a field.
fn add_field(text: &[u8], size: usize, facts: &mut Facts, field: HeaderSpan)
    requires in_text { size ≤ length text.now }
    requires within { AreFactsWithin size facts.old }
    requires field_within { IsHeaderWithin size field }
    requires few { (facts.old.key.count < 2 ^ 32) × (facts.old.length.count < 2 ^ 32)
        × (facts.old.coding.count < 2 ^ 32) }
    ensures value { facts_of text.now facts.new
        ≡ facts_with (facts_of text.now facts.old) (header_bytes text.now field) }
    ensures within { AreFactsWithin size facts.new }
    ensures few { (facts.new.key.count ≤ facts.old.key.count + 1)
        × (facts.new.length.count ≤ facts.old.length.count + 1)
        × (facts.new.coding.count ≤ facts.old.coding.count + 1) }
{
    if is_asked(field.name) {
        let name = field.name.of(text);
        add_value(&mut facts.key, is_key(name), field.value);
        add_value(&mut facts.length, is_content_length(name), field.value);
        add_value(&mut facts.coding, is_coding(name), field.value);
        if is_close(name, field.value.of(text)) {
            facts.closes = true;
        }
    }
}

// Whether a name is as long as one that is asked for.
fn is_asked(name: Span) -> bool
    requires { name.start ≤ name.end }
    ensures { result ≡ false → IsNoName (name.end - name.start) }
{
    let size = name.end - name.start;
    size == 10 || size == 11 || size == 14 || size == 17
}

fn add_value(tally: &mut Tally, counts: bool, value: Span)
    requires { tally.old.count < 2 ^ 32 }
    ensures { tally.new ≡ (if counts then record { count = tally.old.count + 1; value = value }
        else tally.old) }
{
    if counts {
        tally.count += 1;
        tally.value = value;
    }
}

// The usual spelling of a name is tried first.
fn is_key(name: &[u8]) -> bool
    ensures { result ≡ str_eq_ignore_ascii_case name.now spec.key_name }
{
    same_bytes(name, b"X-Agent-Key") || is_named(name, b"x-agent-key")
}

fn is_content_length(name: &[u8]) -> bool
    ensures { result ≡ str_eq_ignore_ascii_case name.now spec.length_name }
{
    same_bytes(name, b"Content-Length") || is_named(name, b"content-length")
}

fn is_coding(name: &[u8]) -> bool
    ensures { result ≡ str_eq_ignore_ascii_case name.now spec.coding_name }
{
    is_named(name, b"transfer-encoding")
}

fn is_close(name: &[u8], value: &[u8]) -> bool
    ensures { result ≡ spec.is_close (name.now, value.now) }
{
    is_named(name, b"connection") && is_named(value, b"close")
}

// Whether two texts are the same without regard to ASCII case.
fn is_named(text: &[u8], known: &[u8]) -> bool
    ensures { result ≡ str_eq_ignore_ascii_case text.now known.now }
{
    text.eq_ignore_ascii_case(known)
}
