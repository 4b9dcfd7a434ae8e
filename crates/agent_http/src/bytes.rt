//! The bytes of a reply.
ghost use Rattle.std.specs.Prelude.{◌≡◌, ◌++◌, ◌≤◌, OnOk, IfOk, option_map};
ghost use Rattle.agent_http.specs.ReplyBodies as bodies;
ghost use Rattle.agent_http.specs.Bytes as spec;

use crate::bodies::json_body;
use agent_events::{Refusal, Reply};
use http::StatusCode;
use money_units::NoMemory;
use std::alloc::Global;

/// The bytes of a reply over HTTP: JSON, or plain text for a statement; `last` says that the connection closes behind it.
pub fn reply_bytes(alloc: Global, reply: &Reply, last: bool) -> Result<Vec<u8>, NoMemory>
    ensures { IfOk result (λ bytes. bytes.items ≡ spec.bytes_of reply.now last) }
{
    match plain_text(reply) {
        Some(text) => reply_of(alloc, status_of(reply), b"text/plain", last, text),
        None => json_bytes(alloc, reply, last),
    }
}

// The text that is sent as it is.
fn plain_text(reply: &Reply) -> Option<&[u8]>
    ensures { option_map (λ text. text.now) result ≡ bodies.plain_text reply.now }
{
    match reply {
        Reply::Statement { text, .. } => Some(text.as_slice()),
        _ => None,
    }
}

fn json_bytes(alloc: Global, reply: &Reply, last: bool) -> Result<Vec<u8>, NoMemory>
    ensures { IfOk result
        (λ bytes.
        bytes.items
        ≡ spec.reply_of (spec.status_of reply.now) spec.json_kind last
        (bodies.json_body reply.now)) }
{
    let body = json_body(alloc, reply)?;
    reply_of(
        alloc,
        status_of(reply),
        b"application/json",
        last,
        body.as_slice(),
    )
}

/// The bytes of a batch's reply, whose body are the lines of its lines.
pub fn batch_bytes(alloc: Global, lines: &[u8], last: bool) -> Result<Vec<u8>, NoMemory>
    ensures { IfOk result (λ bytes. bytes.items ≡ spec.batch_bytes lines.now last) }
{
    reply_of(alloc, 200, b"text/csv", last, lines)
}

// The status of a reply.
fn status_of(reply: &Reply) -> u16
    ensures value { result ≡ spec.status_of reply.now }
    ensures low { 100 ≤ result }
    ensures high { result ≤ 599 }
{
    match reply {
        Reply::Refused(refusal) => refusal_status(*refusal),
        _ => 200,
    }
}

fn refusal_status(refusal: Refusal) -> u16
    ensures value { result ≡ spec.refusal_status refusal }
    ensures low { 100 ≤ result }
    ensures high { result ≤ 599 }
{
    match refusal {
        Refusal::NoRight => 403,
        Refusal::BadForm(_) => 400,
        Refusal::NoSuch(_) => 404,
        Refusal::RefUsed => 409,
        Refusal::CancelLate(_) => 409,
        Refusal::NotPending => 409,
        Refusal::SheetOutOfTurn(_, _) => 409,
        Refusal::Stands(_) => 409,
        Refusal::Breaks(_, _) => 409,
        Refusal::TooSoon(_) => 409,
        Refusal::JournalFull => 409,
        Refusal::StampBack(_) => 409,
        Refusal::CalendarEnded => 422,
        Refusal::BelowMinimum(_) => 422,
        Refusal::NotOffered => 422,
        Refusal::LateForDealer(_) => 422,
        Refusal::ReceiptAhead(_) => 422,
        Refusal::SheetIncomplete(_) => 422,
        Refusal::OrdersFull(_) => 422,
        Refusal::TooMany(_) => 422,
    }
}

// The reply with this status, type and body.
fn reply_of(
    alloc: Global,
    status: u16,
    kind: &[u8],
    last: bool,
    body: &[u8],
) -> Result<Vec<u8>, NoMemory>
    requires low { 100 ≤ status }
    requires high { status ≤ 599 }
    ensures { IfOk result (λ bytes. bytes.items ≡ spec.reply_of status kind.now last body.now) }
{
    let mut bytes = Vec::with_capacity(alloc, 160 + body.len().min(65_536))?;
    push_status(alloc, &mut bytes, status)?;
    push_field(&mut bytes, b"Content-Type", kind)?;
    let size = body.len().to_string(alloc)?;
    push_field(&mut bytes, b"Content-Length", size.as_bytes())?;
    push_close(&mut bytes, last)?;
    bytes.extend_from_slice(b"\r\n")?;
    bytes.extend_from_slice(body)?;
    Ok(bytes)
}

// The last reply of a connection says so.
fn push_close(bytes: &mut Vec<u8>, last: bool) -> Result<(), NoMemory>
    ensures { OnOk result (bytes.new.items ≡ bytes.old.items ++ spec.close_line last) }
{
    if last {
        push_field(bytes, b"Connection", b"close")
    } else {
        Ok(())
    }
}

fn push_status(alloc: Global, bytes: &mut Vec<u8>, status: u16) -> Result<(), NoMemory>
    requires low { 100 ≤ status }
    requires high { status ≤ 599 }
    ensures { OnOk result (bytes.new.items ≡ bytes.old.items ++ spec.status_line status) }
{
    let number = status.to_string(alloc)?;
    bytes.extend_from_slice(b"HTTP/1.1 ")?;
    bytes.extend_from_slice(number.as_bytes())?;
    bytes.push(b' ')?;
    bytes.extend_from_slice(phrase_of(status))?;
    bytes.extend_from_slice(b"\r\n")?;
    Ok(())
}

fn phrase_of(status: u16) -> &'static [u8]
    requires low { 100 ≤ status }
    requires high { status ≤ 599 }
    ensures { result.now ≡ spec.phrase_of status }
{
    match StatusCode::from_u16(status) {
        Ok(code) => match code.canonical_reason() {
            Some(phrase) => phrase.as_bytes(),
            None => &[],
        },
        Err(_) => &[],
    }
}

fn push_field(bytes: &mut Vec<u8>, name: &[u8], value: &[u8]) -> Result<(), NoMemory>
    ensures { OnOk result (bytes.new.items
        ≡ bytes.old.items ++ spec.field_line name.now value.now) }
{
    bytes.extend_from_slice(name)?;
    bytes.extend_from_slice(b": ")?;
    bytes.extend_from_slice(value)?;
    bytes.extend_from_slice(b"\r\n")?;
    Ok(())
}
