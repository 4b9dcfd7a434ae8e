//! The calls of a connection, one after another.
ghost use Rattle.std.specs.Prelude.{◌≡◌, ◌≤◌, ◌+◌, [], Some, false, length, take, drop, IfOk, IfSome, OnOk, OnErr, unwrap_or};
ghost use Rattle.httparse.specs.Spans.{span_bytes};
ghost use Rattle.http_stream.specs.Kept.{StandsAt};
ghost use Rattle.http_stream.specs.Stream.{LooksAs, with_more};
ghost use Rattle.agent_http.specs.Calls.{closes_by, fault_closes};
ghost use Rattle.agent_http.specs.Steps.{StepsAs, answer_at};

use crate::calls::{CallAsk, answered};
use crate::shows::shown_account;
use agent_events::{Identifier, KeyText, Request};
use http_stream::{Front, HeadAt, HttpFault, Intake};
use json::Scratch;
use money_units::NoMemory;
use std::alloc::Global;
use std::fmt;
use std::marker::Model;

/// A request that was read.
#[derive(Debug, Drop)]
pub struct Call {
    pub key: KeyText,
    pub ask: CallAsk,
    /// Whether its reply is the last of the connection.
    pub last: bool,
}

/// What the bytes of a connection give next.
#[derive(Debug, Drop)]
pub enum Step {
    /// The bytes so far decide no further item, or none comes since the connection is closed.
    Need,
    Call(Call),
    /// A fault with its fixed reply.
    Fault { fault: HttpFault, last: bool },
}

// What the reading of a body needs, kept from one to the next.
#[derive(Drop)]
struct Room {
    scratch: Scratch,
}

impl fmt::Debug for Room {
    fn fmt<W: fmt::Write>(&self, f: &mut fmt::Formatter<W>) -> fmt::Result {
        f.write_str("Room")
    }
}

/// The stream of a connection, which contracts see as the bytes that are left, the number of items that were given, and whether
/// the last of them closed the connection.
#[derive(Debug, Drop)]
pub struct Feed {
    intake: Intake,
    room: Room,
}

impl Model for Feed {
    ghost use Rattle.http_stream.specs.Stream.{Stream};

    ghost Value = { Stream };

    ghost view = { λ feed. feed.intake };
}

impl Feed {
    /// The stream of a connection of which nothing was read yet.
    pub fn new(alloc: Global) -> Feed
        ensures { result ≡ record { rest = []; given = 0; closed = false } }
    {
        Feed {
            intake: Intake::new(alloc),
            room: Room {
                scratch: Scratch::new(alloc),
            },
        }
    }

    /// Appends the next piece that was read. After `NoMemory` the stream is as before.
    pub fn push(&mut self, piece: &[u8]) -> Result<(), NoMemory>
        ensures ok { OnOk result (self.new ≡ with_more self.old piece.now) }
        ensures err { OnErr result (self.new ≡ self.old) }
    {
        self.intake.push(piece)
    }

    /// Whether the connection is closed.
    pub fn is_closed(&self) -> bool
        ensures { result ≡ self.now.closed }
    {
        self.intake.is_closed()
    }

    /// The first item of what is left, as a call or a fault. After `NoMemory` the stream is as before.
    pub fn next(&mut self, alloc: Global) -> Result<Step, NoMemory>
        ensures ok { IfOk result (λ step. StepsAs self.old step self.new) }
        ensures err { OnErr result (self.new ≡ self.old) }
    {
        let front = self.intake.look();
        if let Front::Whole(head) = front {
            if let Some(account) = account_shown(self.intake.rest(), head) {
                return self.show_call(alloc, head, account);
            }
        }
        self.other_step(alloc, front)
    }

    // The call that asks to show this account.
    fn show_call(
        &mut self,
        alloc: Global,
        head: HeadAt,
        account: Identifier,
    ) -> Result<Step, NoMemory>
        requires is_open { self.old.closed ≡ false }
        requires stands { StandsAt self.old.rest (Some head) }
        requires within { head.size + unwrap_or head.length 0 ≤ length self.old.rest }
        requires asked { answer_at self.old.rest head ≡ CallAsk.Request (Request.Show account) }
        ensures ok { IfOk result (λ step. StepsAs self.old step self.new) }
        ensures err { OnErr result (self.new ≡ self.old) }
    {
        let key = message_key(alloc, self.intake.rest(), head)?;
        let size = size_at(self.intake.rest(), head);
        self.intake.take(size, head.closes);
        let ask = CallAsk::Request(Request::Show(account));
        let last = self.intake.is_closed();
        Ok(Step::Call(Call { key, ask, last }))
    }

    // Any other step takes more room on the stack, so it stands in a frame of its own.
    #[inline(never)]
    fn other_step(&mut self, alloc: Global, front: Front) -> Result<Step, NoMemory>
        requires looks { LooksAs self.old front }
        ensures ok { IfOk result (λ step. StepsAs self.old step self.new) }
        ensures err { OnErr result (self.new ≡ self.old) }
    {
        match front {
            Front::Nothing => Ok(Step::Need),
            Front::Closing(fault) => {
                self.intake.take(0, true);
                Ok(Step::Fault { fault, last: true })
            }
            Front::Whole(head) => self.other_call(alloc, head),
        }
    }

    // The call of a whole message.
    fn other_call(&mut self, alloc: Global, head: HeadAt) -> Result<Step, NoMemory>
        requires is_open { self.old.closed ≡ false }
        requires stands { StandsAt self.old.rest (Some head) }
        requires within { head.size + unwrap_or head.length 0 ≤ length self.old.rest }
        ensures ok { IfOk result (λ step. StepsAs self.old step self.new) }
        ensures err { OnErr result (self.new ≡ self.old) }
    {
        let size = size_at(self.intake.rest(), head);
        let ask = message_ask(alloc, &mut self.room.scratch, self.intake.rest(), head)?;
        let closes = closes_by(head.closes, &ask);
        if let CallAsk::Fault(fault) = ask {
            self.intake.take(size, closes);
            let last = self.intake.is_closed();
            return Ok(Step::Fault { fault, last });
        }
        let key = message_key(alloc, self.intake.rest(), head)?;
        self.intake.take(size, closes);
        let last = self.intake.is_closed();
        Ok(Step::Call(Call { key, ask, last }))
    }
}

// How many bytes the message has whose head stands here.
fn size_at(rest: &[u8], head: HeadAt) -> usize
    requires { head.size + unwrap_or head.length 0 ≤ length rest.now }
    ensures { result ≡ head.size + unwrap_or head.length 0 }
{
    head.size + head.length.unwrap_or(0)
}

// The account that the message asks to show whose head stands here.
fn account_shown(rest: &[u8], head: HeadAt) -> Option<Identifier>
    requires stands { StandsAt rest.now (Some head) }
    ensures { IfSome result
        (λ account. answer_at rest.now head ≡ CallAsk.Request (Request.Show account)) }
{
    shown_account(head.target.of(rest), head.method.of(rest))
}

// What the message asks whose head stands here.
fn message_ask(
    alloc: Global,
    scratch: &mut Scratch,
    rest: &[u8],
    head: HeadAt,
) -> Result<CallAsk, NoMemory>
    requires stands { StandsAt rest.now (Some head) }
    requires within { head.size + unwrap_or head.length 0 ≤ length rest.now }
    ensures { IfOk result (λ ask. ask ≡ answer_at rest.now head) }
{
    let body = body_of(rest, head.size, head.length.unwrap_or(0));
    answered(
        alloc,
        scratch,
        head.target.of(rest),
        head.method.of(rest),
        head.length,
        body,
    )
}

fn body_of(rest: &[u8], start: usize, size: usize) -> &[u8]
    requires { start + size ≤ length rest.now }
    ensures { result.now ≡ take size (drop start rest.now) }
{
    &rest[start..start + size]
}

fn message_key(alloc: Global, rest: &[u8], head: HeadAt) -> Result<KeyText, NoMemory>
    requires stands { StandsAt rest.now (Some head) }
    ensures { IfOk result (λ key. key ≡ span_bytes rest.now head.key) }
{
    KeyText::from_slice(alloc, head.key.of(rest))
}

// Whether the connection closes behind what a message asks that says itself whether it closes it.
fn closes_by(closes: bool, ask: &CallAsk) -> bool
    ensures { result ≡ closes_by closes ask.now }
{
    match ask {
        CallAsk::Request(_) => closes,
        CallAsk::BadForm(_) => closes,
        CallAsk::Batch(_) => closes,
        CallAsk::Fault(fault) => closes || fault_closes(*fault),
    }
}

fn fault_closes(fault: HttpFault) -> bool
    ensures { result ≡ fault_closes fault }
{
    match fault {
        HttpFault::S404 => false,
        HttpFault::S405 => false,
        _ => true,
    }
}
