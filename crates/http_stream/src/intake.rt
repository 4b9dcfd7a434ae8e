//! The bytes of a connection that were read and aren't answered yet.
ghost use Rattle.std.specs.Prelude.{◌≡◌, ◌+◌, ◌≤◌, nat_le, nat_lt, if◌then◌else◌, [], Some, true, false, length, take, drop, OnOk, OnErr, unwrap_or};
ghost use Rattle.http_stream.specs.Kept.{IsFrontScan, IsScanned, SeenAs, StandsAt};
ghost use Rattle.http_stream.specs.Lines.{Front as Shape, front, head_limit};
ghost use Rattle.http_stream.specs.Stream.{LooksAs, after_item, with_more};

use crate::fault::HttpFault;
use crate::head::{HeadAt, Parsed, parse_head, parse_short_head};
use crate::scan::{Scan, UNSCANNED, scan_on};
use money_units::NoMemory;
use std::alloc::Global;
use std::marker::Model;

/// A head's text ends within so many bytes.
pub const HEAD_LIMIT: usize = 16_384;

/// A connection is closed after so many items.
pub const ITEM_LIMIT: u16 = 10_000;

/// What a look at the stream says.
#[derive(Clone, Copy, Debug, PartialEq, Eq)]
pub enum Front {
    /// The bytes so far decide no further item, or none comes since the connection is closed.
    Nothing,
    /// The next item closes the connection with this fault.
    Closing(HttpFault),
    /// The next item is a whole message: here is its head, and its body stands behind it.
    Whole(HeadAt),
}

/// What is seen at the front of the bytes that are left.
#[derive(Clone, Copy, Debug)]
pub(crate) enum Seen {
    /// No head's text has ended; the lines were scanned so far.
    Open(Scan),
    Closing(HttpFault),
    Head(HeadAt),
}

/// The stream of a connection, which contracts see as the bytes that are left, the number of items that were given, and whether
/// the last of them closed the connection.
#[derive(Debug, Drop)]
pub struct Intake {
    bytes: Vec<u8>,
    // Where the bytes that are left begin.
    start: usize,
    given: u16,
    closed: bool,
    // How far the lines of the next head were scanned.
    scan: Scan,
    // The head whose body is awaited.
    waiting: Option<HeadAt>,
}

impl Model for Intake {
    ghost use Rattle.std.specs.Prelude.{◌≤◌, drop, vec_len};
    ghost use Rattle.http_stream.specs.Stream.{Stream};
    ghost use Rattle.http_stream.specs.Kept.{IsKept};

    ghost Value = { Stream };

    ghost view = { λ i. record {
      rest = drop i.start i.bytes.items;
      given = i.given;
      closed = i.closed;
    } };

    ghost invariant = { λ i. (i.start ≤ vec_len i.bytes)
        × IsKept (record { rest = drop i.start i.bytes.items; given = i.given; closed = i.closed })
        i.scan i.waiting };
}

impl Intake {
    /// The stream of a connection of which nothing was read yet; it takes no memory.
    pub fn new(alloc: Global) -> Intake
        ensures { result ≡ record { rest = []; given = 0; closed = false } }
    {
        Intake {
            bytes: Vec::new(alloc),
            start: 0,
            given: 0,
            closed: false,
            scan: UNSCANNED,
            waiting: None,
        }
    }

    /// The bytes that are left.
    pub fn rest(&self) -> &[u8]
        ensures { result.now ≡ self.now.rest }
    {
        &self.bytes[self.start..]
    }

    /// How many items were given.
    pub fn given(&self) -> u16
        ensures { result ≡ self.now.given }
    {
        self.given
    }

    /// Whether the connection is closed.
    pub fn is_closed(&self) -> bool
        ensures { result ≡ self.now.closed }
    {
        self.closed
    }

    /// Appends the next piece that was read. After `NoMemory` the stream is as before.
    pub fn push(&mut self, piece: &[u8]) -> Result<(), NoMemory>
        ensures ok { OnOk result (self.new ≡ with_more self.old piece.now) }
        ensures err { OnErr result (self.new ≡ self.old) }
    {
        self.compact();
        self.bytes.extend_from_slice(piece)?;
        Ok(())
    }

    // Moves the bytes that are left to the front, where more than half of the room was taken by those before them.
    fn compact(&mut self)
        ensures { self.new ≡ self.old }
    {
        let len = self.bytes.len();
        if self.start > len / 2 {
            self.bytes.copy_within(self.start..len, 0);
            self.bytes.truncate(len - self.start);
            self.start = 0;
        }
    }

    /// What the bytes so far say of the next item. Nothing is taken; a second look says the same.
    pub fn look(&mut self) -> Front
        ensures looks { LooksAs self.old result }
        ensures same { self.new ≡ self.old }
    {
        if self.closed {
            return Front::Nothing;
        }
        if let Some(head) = self.waiting {
            return self.whole_or_wait(head);
        }
        if self.scan.size == 0 {
            self.look_first()
        } else {
            self.look_by_lines()
        }
    }

    // The first look at a head: the lines of a short one that is there as a whole need no scan.
    fn look_first(&mut self) -> Front
        requires is_open { self.old.closed ≡ false }
        ensures looks { LooksAs self.old result }
        ensures same { self.new ≡ self.old }
    {
        match parse_short_head(window_of(self.rest())) {
            Parsed::Head(head) => self.whole_or_wait(head),
            _ => self.look_by_lines(),
        }
    }

    // What the lines so far say of the next item; how far they were scanned is kept.
    fn look_by_lines(&mut self) -> Front
        requires is_open { self.old.closed ≡ false }
        ensures looks { LooksAs self.old result }
        ensures same { self.new ≡ self.old }
    {
        match seen_by_lines(self.rest(), self.scan) {
            Seen::Open(scan) => {
                self.scan = scan;
                Front::Nothing
            }
            Seen::Closing(fault) => Front::Closing(fault),
            Seen::Head(head) => self.whole_or_wait(head),
        }
    }

    // The message whose head stands at the front; the head is kept only where its body is awaited.
    fn whole_or_wait(&mut self, head: HeadAt) -> Front
        requires is_open { self.old.closed ≡ false }
        requires stands { StandsAt self.old.rest (Some head) }
        ensures looks { LooksAs self.old result }
        ensures same { self.new ≡ self.old }
    {
        if is_whole(self.rest().len(), head) {
            Front::Whole(head)
        } else {
            self.waiting = Some(head);
            Front::Nothing
        }
    }

    /// Takes the next item, of so many bytes; where it closes the connection, or is the 10,000th, no further one comes.
    pub fn take(&mut self, size: usize, closes: bool)
        requires is_open { self.old.closed ≡ false }
        requires within { size ≤ length self.old.rest }
        ensures { self.new ≡ after_item closes size self.old }
    {
        self.start += size;
        self.given += 1;
        self.closed = closes || self.given == ITEM_LIMIT;
        self.scan = UNSCANNED;
        self.waiting = None;
    }
}

// Whether the body of a head came, among so many bytes that are left.
fn is_whole(left: usize, head: HeadAt) -> bool
    requires { head.size ≤ left }
    ensures { result ≡ nat_le (head.size + unwrap_or head.length 0) left }
{
    head.length.unwrap_or(0) <= left - head.size
}

// What is seen at the front of what is left, where the lines were scanned so far.
fn seen_by_lines(rest: &[u8], scan: Scan) -> Seen
    requires { IsScanned rest.now scan }
    ensures { SeenAs rest.now result }
{
    let scan = scan_front(rest, scan);
    if scan.ended {
        read_lines(rest, scan)
    } else {
        open_or_full(rest.len(), scan)
    }
}

// What a head's text says that has ended.
fn read_lines(rest: &[u8], scan: Scan) -> Seen
    requires scanned { IsFrontScan rest.now scan }
    requires ended { scan.ended ≡ true }
    ensures { SeenAs rest.now result }
{
    if scan.filled > 65 {
        Seen::Closing(HttpFault::S431)
    } else {
        read_text(rest, scan.size)
    }
}

// The scan of as much of a stream as a head may have.
fn scan_front(rest: &[u8], scan: Scan) -> Scan
    requires { IsScanned rest.now scan }
    ensures { IsFrontScan rest.now result }
{
    let window = window_of(rest);
    scan_on(scan, behind(window, scan.size))
}

// The bytes behind so many.
fn behind(text: &[u8], size: usize) -> &[u8]
    requires { size ≤ length text.now }
    ensures { result.now ≡ drop size text.now }
{
    &text[size..]
}

fn window_of(rest: &[u8]) -> &[u8]
    ensures { result.now ≡ take head_limit rest.now }
{
    &rest[..HEAD_LIMIT.min(rest.len())]
}

fn open_or_full(came: usize, scan: Scan) -> Seen
    ensures { result ≡ (if nat_lt came head_limit then Seen.Open scan
        else Seen.Closing HttpFault.S431) }
{
    if came < HEAD_LIMIT {
        Seen::Open(scan)
    } else {
        Seen::Closing(HttpFault::S431)
    }
}

// What the head's text of so many bytes says.
fn read_text(rest: &[u8], size: usize) -> Seen
    requires shown { front rest.now ≡ Shape.Ended size }
    requires within { size ≤ length rest.now }
    ensures { SeenAs rest.now result }
{
    match parse_head(&rest[..size]) {
        Parsed::NoHead => Seen::Closing(HttpFault::S400),
        Parsed::Refused(fault) => Seen::Closing(fault),
        Parsed::Head(head) => Seen::Head(head),
    }
}
