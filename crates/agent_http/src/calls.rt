//! What a request asks.
ghost use Rattle.std.specs.Prelude.{◌≡◌, ℕ, Result, map, drop, bytes_eq, codes, if◌then◌else◌, IfOk};
ghost use Rattle.agent_events.specs.Forms as form;
ghost use Rattle.agent_events.specs.Items.{asked_by, batch_line};
ghost use Rattle.request_fields.specs.Reading.{Gives};
ghost use Rattle.agent_http.specs.Bodies.{asked_by_body};
ghost use Rattle.agent_http.specs.Calls as spec;

use crate::body::asked_by_body;
use crate::routes::{PART_LIMIT, Route, behind, part, parts_in, route_of};
use agent_events::{Asked, Request};
use http_stream::HttpFault;
use json::Scratch;
use money_units::{List, NoMemory};
use request_fields::{FormFault, asked_by, line_asked, same_bytes};
use script_text::{Fields, records_of, slices_of};
use std::alloc::Global;

/// What the lines of a batch ask in order.
pub type BatchAsks = List<Asked>;

/// What a request over HTTP asks, or why it asks nothing.
#[derive(Debug, Drop)]
pub enum CallAsk {
    Request(Request),
    /// The place of the first field that isn't in its form.
    BadForm(u8),
    /// A dealer's lines, each by itself.
    Batch(BatchAsks),
    /// Its route, its method or its length is none of the house's: the fault, whose reply is fixed.
    Fault(HttpFault),
}

/// What a request asks.
pub(crate) fn answered(
    alloc: Global,
    scratch: &mut Scratch,
    target: &[u8],
    method: &[u8],
    size: Option<usize>,
    body: &[u8],
) -> Result<CallAsk, NoMemory>
    ensures { IfOk result
        (λ answer. answer ≡ spec.target_answer target.now method.now size body.now) }
{
    let mut room: [&[u8]; PART_LIMIT] = [&[]; PART_LIMIT];
    let count = parts_in(target, &mut room);
    answered_by(alloc, scratch, &room[..count], method, size, body)
}

fn answered_by(
    alloc: Global,
    scratch: &mut Scratch,
    parts: &[&[u8]],
    method: &[u8],
    size: Option<usize>,
    body: &[u8],
) -> Result<CallAsk, NoMemory>
    ensures { IfOk result
        (λ answer.
        answer
        ≡ spec.answered_by (map (λ part. part.now) parts.now) method.now size body.now) }
{
    match route_of(parts) {
        Route::Missing => Ok(CallAsk::Fault(HttpFault::S404)),
        Route::Batch => batch_answer(alloc, method, size, body),
        Route::Posted => posted_answer(alloc, scratch, parts, method, size, body),
        Route::Look => look_answer(alloc, parts, method),
    }
}

// A batch takes much room on the stack, so it stands in a frame of its own.
#[inline(never)]
fn batch_answer(
    alloc: Global,
    method: &[u8],
    size: Option<usize>,
    body: &[u8],
) -> Result<CallAsk, NoMemory>
    ensures { IfOk result
        (λ answer.
        answer
        ≡ (if bytes_eq method.now (codes "POST") then spec.with_length size
        (spec.batch_ask body.now) else CallAsk.Fault HttpFault.S405)) }
{
    if !same_bytes(method, b"POST") {
        Ok(CallAsk::Fault(HttpFault::S405))
    } else if size.is_none() {
        Ok(CallAsk::Fault(HttpFault::S411))
    } else {
        batch_ask(alloc, body)
    }
}

#[inline(never)]
fn posted_answer(
    alloc: Global,
    scratch: &mut Scratch,
    parts: &[&[u8]],
    method: &[u8],
    size: Option<usize>,
    body: &[u8],
) -> Result<CallAsk, NoMemory>
    ensures { IfOk result (λ answer. answer ≡ (if bytes_eq method.now (codes "POST")
        then spec.with_length size (spec.ask_of
        (asked_by_body (form.field (map (λ part. part.now) parts.now) 3) body.now))
        else CallAsk.Fault HttpFault.S405)) }
{
    if !same_bytes(method, b"POST") {
        Ok(CallAsk::Fault(HttpFault::S405))
    } else if size.is_none() {
        Ok(CallAsk::Fault(HttpFault::S411))
    } else {
        ask_of(asked_by_body(alloc, scratch, part(parts, 3), body))
    }
}

fn look_answer(alloc: Global, parts: &[&[u8]], method: &[u8]) -> Result<CallAsk, NoMemory>
    ensures { IfOk result (λ answer. answer ≡ (if bytes_eq method.now (codes "GET")
        then spec.ask_of (asked_by (form.field (map (λ part. part.now) parts.now) 3)
        (drop 3 (map (λ part. part.now) parts.now)))
        else CallAsk.Fault HttpFault.S405)) }
{
    if !same_bytes(method, b"GET") {
        return Ok(CallAsk::Fault(HttpFault::S405));
    }
    ask_of(asked_by(alloc, part(parts, 3), behind(parts, 3)))
}

// What was read is what is asked.
fn ask_of(read: Result<Request, FormFault>) -> Result<CallAsk, NoMemory>
    ensures { (want : Result Request ℕ) → Gives read want
        → IfOk result (λ ask. ask ≡ spec.ask_of want) }
{
    match read {
        Ok(request) => Ok(CallAsk::Request(request)),
        Err(FormFault::Place(place)) => Ok(CallAsk::BadForm(place)),
        Err(FormFault::NoMemory) => Err(NoMemory),
    }
}

// What was read is a line of a batch, or the place of the field that isn't in its form.
fn line_of(read: Result<Request, FormFault>) -> Result<Asked, NoMemory>
    ensures { (want : Result Request ℕ) → Gives read want → IfOk result (λ asks. asks ≡ want) }
{
    match read {
        Ok(request) => Ok(Ok(request)),
        Err(FormFault::Place(place)) => Ok(Err(place)),
        Err(FormFault::NoMemory) => Err(NoMemory),
    }
}

fn batch_ask(alloc: Global, body: &[u8]) -> Result<CallAsk, NoMemory>
    ensures { IfOk result (λ asks. asks ≡ spec.batch_ask body.now) }
{
    let rows = records_of(alloc, body)?;
    if rows.len() > 4096 {
        return Ok(CallAsk::BadForm(0));
    }
    Ok(CallAsk::Batch(line_asks(alloc, &rows)?))
}

fn line_asks(alloc: Global, rows: &[Fields]) -> Result<BatchAsks, NoMemory>
    ensures { IfOk result (λ asks. asks ≡ map batch_line rows.now) }
{
    let mut asks = BatchAsks::new(alloc);
    for row in rows {
        asks.push(line_ask(alloc, row)?)?;
    }
    Ok(asks)
}

fn line_ask(alloc: Global, row: &Fields) -> Result<Asked, NoMemory>
    ensures { IfOk result (λ asks. asks ≡ batch_line row.now) }
{
    let texts = slices_of(alloc, row.as_slice())?;
    line_of(line_asked(&texts))
}
