//! A buffer of 1,000 requests, read 1,000 times by the parsers alone or by the feed, and one request of 1 MiB that comes byte by byte.
use agent_http::{Feed, Step};
use httparse::Status;
use httparse::spans::{EMPTY_HEADER_SPAN, parse_request};
use money_units::NoMemory;
use serde_json::Value;
use std::alloc::Global;

/// A look at account 101 over a connection that stays.
const SHOW: &[u8] =
    b"GET /v1/show/101 HTTP/1.1\r\nHost: 127.0.0.1:8080\r\nUser-Agent: curl/8.5.0\r\nAccept: */*\r\nX-Agent-Key: h-mary000001\r\n\r\n";

/// The purchase of class 11 for $10,000.00 by account 101.
const ORDER: &[u8] =
    b"POST /v1/buy HTTP/1.1\r\nHost: 127.0.0.1:8080\r\nUser-Agent: curl/8.5.0\r\nAccept: */*\r\nX-Agent-Key: h-mary000001\r\nContent-Type: application/json\r\nContent-Length: 53\r\n\r\n{\"account\":101,\"ref\":1,\"class\":11,\"gross\":\"10000.00\"}";

// A request 1,000 times.
fn repeated(alloc: Global, request: &[u8]) -> Result<Vec<u8>, NoMemory> {
    let mut buffer = Vec::new(alloc);
    for _ in 0..1000 {
        buffer.extend_from_slice(request)?;
    }
    Ok(buffer)
}

// How many bytes the head has by `httparse` alone.
fn head_size(request: &[u8]) -> usize {
    let mut spans = [EMPTY_HEADER_SPAN; 64];
    match parse_request(request, &mut spans) {
        Ok(Status::Complete(head)) => head.len,
        _ => 0,
    }
}

// Reads the heads of requests of one size by `httparse` alone, and counts those that are one.
fn read_heads(buffer: &[u8], size: usize) -> u64 {
    let mut count: u64 = 0;
    for request in buffer.chunks(size.max(1)) {
        if head_size(request) > 0 {
            count = count.saturating_add(1);
        }
    }
    count
}

fn is_value(alloc: Global, request: &[u8]) -> bool {
    match request.get(head_size(request)..) {
        Some(body) => Value::from_slice(alloc, body).is_ok(),
        None => false,
    }
}

// Reads the heads and the bodies of requests of one size by `httparse` and `serde_json`, and counts those whose body is JSON.
fn read_values(alloc: Global, buffer: &[u8], size: usize) -> u64 {
    let mut count: u64 = 0;
    for request in buffer.chunks(size.max(1)) {
        if is_value(alloc, request) {
            count = count.saturating_add(1);
        }
    }
    count
}

fn is_call(step: &Step) -> bool {
    match step {
        Step::Call(_) => true,
        _ => false,
    }
}

// Reads the requests of a connection by the feed, and counts the calls.
fn read_calls(alloc: Global, buffer: &[u8]) -> Result<u64, NoMemory> {
    let mut feed = Feed::new(alloc);
    feed.push(buffer)?;
    let mut count: u64 = 0;
    for _ in 0..1000 {
        if is_call(&feed.next(alloc)?) {
            count = count.saturating_add(1);
        }
    }
    Ok(count)
}

// An order whose body has 1 MiB, all of it white space.
fn long_order(alloc: Global) -> Result<Vec<u8>, NoMemory> {
    let mut order = b"POST /v1/buy HTTP/1.1\r\nContent-Length: 1048576\r\n\r\n".to_vec(alloc)?;
    for _ in 0..1_048_576 {
        order.push(b' ')?;
    }
    Ok(order)
}

// Reads a stream that comes byte by byte, and counts the calls.
fn read_pieces(alloc: Global, stream: &[u8]) -> Result<u64, NoMemory> {
    let mut feed = Feed::new(alloc);
    let mut count: u64 = 0;
    for piece in stream.chunks(1) {
        feed.push(piece)?;
        if is_call(&feed.next(alloc)?) {
            count = count.saturating_add(1);
        }
    }
    Ok(count)
}

// Reads a buffer of looks or of orders once.
fn read(alloc: Global, word: &str, looks: &[u8], orders: &[u8]) -> Result<u64, NoMemory> {
    if word == "heads" {
        Ok(read_heads(looks, SHOW.len()))
    } else if word == "shows" {
        read_calls(alloc, looks)
    } else if word == "values" {
        Ok(read_values(alloc, orders, ORDER.len()))
    } else {
        read_calls(alloc, orders)
    }
}

// Reads in the way of a word so many times.
fn read_often(alloc: Global, word: &str, times: u64) -> Result<u64, NoMemory> {
    let looks = repeated(alloc, SHOW)?;
    let orders = repeated(alloc, ORDER)?;
    let mut count: u64 = 0;
    for _ in 0..times {
        count = count.saturating_add(read(alloc, word, &looks, &orders)?);
    }
    Ok(count)
}

/// Whether a word says what is read and how.
pub(crate) fn is_way(word: &str) -> bool {
    word == "heads" || word == "shows" || word == "values" || word == "orders" || word == "pieces"
}

/// Reads what a word says, and counts the requests.
pub(crate) fn read_by(alloc: Global, word: &str) -> Result<u64, NoMemory> {
    if word == "pieces" {
        read_pieces(alloc, &long_order(alloc)?)
    } else {
        read_often(alloc, word, 1000)
    }
}

/// Reads a buffer once in each way, and counts the requests.
pub(crate) fn read_each(alloc: Global) -> Result<u64, NoMemory> {
    let mut count: u64 = 0;
    for word in ["heads", "shows", "values", "orders"] {
        count = count.saturating_add(read_often(alloc, word, 1)?);
    }
    Ok(count)
}
