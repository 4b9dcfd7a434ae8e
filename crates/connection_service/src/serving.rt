//! Serving a connection: its bytes are read piece by piece, and each item that they decide is answered before the next is begun.
ghost use Rattle.std.specs.Prelude.{◌≡◌, ◌≤◌, ◌++◌, ℕ, [], List, Option, false, length, IfSome, IsTrue, true};
ghost use Rattle.agent_edge.specs.Links.{Links};
ghost use Rattle.agent_keeper.specs.Calls.{GoesOn};
ghost use Rattle.connection_service.specs.Answers.{At, batch_asks_lines};
ghost use Rattle.connection_service.specs.Serving.{CountsGoing, CountsLink, FewerAhead, GoesAs, GoesOnBehind, IsOverBehind, IsReplied, IsServed, IsServedAndShut, IsServing, IsWithin, at_of, going_on, going_over, memory_text};
ghost use Rattle.agent_http.specs.Steps.{StepsAs};
ghost use Rattle.agent_http.specs.Bytes.{fault_bytes};
ghost use Rattle.http_stream.specs.Stream.{Stream, Undecided, with_more};
ghost use Rattle.register_desk.specs.Rows.{TellsRowsOf};
ghost use Rattle.register_machine.specs.journal.Journals.{Journal};
ghost use Rattle.register_machine.specs.journal.Lawful.{IsLawful};

use crate::answering::answer_call;
use crate::texts::{write_bytes, write_text};
use agent_edge::{Clock, Door, LinkFault};
use agent_http::{Call, Feed, Step, fault_bytes};
use agent_keeper::Keeper;
use household_fold::Steps;
use http_stream::HttpFault;
use money_units::NoMemory;
use register_desk::Desk;
use std::alloc::Global;
use std::sync::ledger::Ledger as StepLedger;

/// How many bytes are asked for at a time.
const PIECE: usize = 4096;

/// How a connection was served.
#[derive(Clone, Copy, Debug, PartialEq, Eq)]
pub enum Served {
    /// Its items were answered up to the one that closes it, or to the end of its input.
    Ended,
    /// A read or a write on it failed.
    LinkFailed,
}

/// Whether a step goes on.
#[derive(Clone, Copy, Debug, PartialEq, Eq)]
pub(crate) enum Going {
    On,
    Over(Served),
}

// Behind an item's text the connection goes on.
fn going_on(written: Result<(), LinkFault>) -> Going
    ensures { result ≡ going_on written }
{
    match written {
        Ok(()) => Going::On,
        Err(_) => Going::Over(Served::LinkFailed),
    }
}

// Behind the text that closes it the connection is over.
fn going_over(written: Result<(), LinkFault>) -> Going
    ensures { result ≡ going_over written }
{
    match written {
        Ok(()) => Going::Over(Served::Ended),
        Err(_) => Going::Over(Served::LinkFailed),
    }
}

// Memory was wanting for the bytes of a connection that is open: it is closed with the text that says so.
fn close_for_memory<D: Door>(door: &mut D) -> Going
    requires { IsTrue (D.is_connected door.old) }
    ensures over { IsOverBehind memory_text (D.told door.old) (D.told door.new) result }
    ensures connected { IsTrue (D.is_connected door.new) }
    ensures link { CountsGoing result (D.link_faults door.old) (D.link_faults door.new) }
    ensures door { D.door_faults door.new ≡ D.door_faults door.old }
{
    going_over(write_bytes(door, fault_bytes(HttpFault::S507, true)))
}

// Takes a piece that was read; without bytes it is the end of the input.
fn take_piece<D: Door>(door: &mut D, feed: &mut Feed, piece: &[u8]) -> Going
    requires { IsTrue (D.is_connected door.old) }
    ensures goes { (operator : List ℕ) (opened at : At) (before : Option Links)
        → IsServing operator opened before (D.told door.old) (with_more feed.old piece.now) at
        → feed.old.closed ≡ false → Undecided feed.old
        → (length piece.now ≡ 0 → IfSome (D.told door.old) (λ links. links.unread ≡ []))
        → GoesAs operator opened before (D.told door.new) feed.new at result }
    ensures fewer { IsWithin feed.old → feed.old.closed ≡ false → Undecided feed.old
        → length piece.now ≤ 4096 → FewerAhead result feed.old feed.new }
    ensures connected { IsTrue (D.is_connected door.new) }
    ensures link { CountsGoing result (D.link_faults door.old) (D.link_faults door.new) }
    ensures door { D.door_faults door.new ≡ D.door_faults door.old }
{
    if piece.is_empty() {
        return Going::Over(Served::Ended);
    }
    match feed.push(piece) {
        Ok(()) => Going::On,
        Err(NoMemory) => close_for_memory(door),
    }
}

// Reads the next piece of a connection of which nothing further is decided.
fn read_on<D: Door>(door: &mut D, feed: &mut Feed) -> Going
    requires { IsTrue (D.is_connected door.old) }
    ensures goes { (operator : List ℕ) (opened at : At) (before : Option Links)
        → IsServing operator opened before (D.told door.old) feed.old at
        → feed.old.closed ≡ false → Undecided feed.old
        → GoesAs operator opened before (D.told door.new) feed.new at result }
    ensures fewer { IsWithin feed.old → feed.old.closed ≡ false → Undecided feed.old
        → FewerAhead result feed.old feed.new }
    ensures connected { IsTrue (D.is_connected door.new) }
    ensures link { CountsGoing result (D.link_faults door.old) (D.link_faults door.new) }
    ensures door { D.door_faults door.new ≡ D.door_faults door.old }
{
    let mut piece = [0u8; PIECE];
    match door.read(&mut piece) {
        Ok(count) => take_piece(door, feed, &piece[..count]),
        Err(_) => Going::Over(Served::LinkFailed),
    }
}

// Answers a fault of the stream.
fn serve_fault<D: Door>(door: &mut D, fault: HttpFault, last: bool) -> Going
    requires { IsTrue (D.is_connected door.old) }
    ensures on { GoesOnBehind (fault_bytes fault last) (D.told door.old) (D.told door.new) result }
    ensures connected { IsTrue (D.is_connected door.new) }
    ensures link { CountsGoing result (D.link_faults door.old) (D.link_faults door.new) }
    ensures door { D.door_faults door.new ≡ D.door_faults door.old }
{
    going_on(write_bytes(door, fault_bytes(fault, last)))
}

// Answers a call, and writes the answer.
fn serve_call<K: Keeper, D: Door, C: Clock, L: StepLedger>(
    alloc: Global,
    desk: &mut Desk,
    keeper: &mut K,
    door: &mut D,
    clock: &mut C,
    operator: &[u8],
    call: &Call,
    steps: &mut Steps<L>,
) -> Going
    requires connected { IsTrue (D.is_connected door.old) }
    requires attached { IsTrue (K.is_attached keeper.old) }
    requires told { TellsRowsOf (K.tells keeper.old) desk.old.book.journal }
    requires lines { batch_asks_lines call.now.ask ≡ true }
    ensures replied { IsReplied operator.now call.now.key call.now.last call.now.ask
        (at_of desk.old.book.journal (K.faults keeper.old) (C.last clock.old) (C.coming clock.old))
        (at_of desk.new.book.journal (K.faults keeper.new) (C.last clock.new) (C.coming clock.new))
        (D.told door.old)
        (D.told door.new) result }
    ensures grown { (more : Journal) × (desk.new.book.journal ≡ desk.old.book.journal ++ more) }
    ensures told { TellsRowsOf (K.tells keeper.new) desk.new.book.journal }
    ensures attached { IsTrue (K.is_attached keeper.new) }
    ensures was_honest { K.is_honest keeper.new → K.is_honest keeper.old }
    ensures goes_on { GoesOn K.moment K.gave keeper.old keeper.new }
    ensures connected { IsTrue (D.is_connected door.new) }
    ensures link { CountsGoing result (D.link_faults door.old) (D.link_faults door.new) }
    ensures door { D.door_faults door.new ≡ D.door_faults door.old }
{
    let text = answer_call(alloc, desk, keeper, clock, operator, call, steps);
    going_on(write_text(door, &text, call.last))
}

// Answers the next item that the stream gave, or reads on where it gave none.
fn serve_step<K: Keeper, D: Door, C: Clock, L: StepLedger>(
    alloc: Global,
    desk: &mut Desk,
    keeper: &mut K,
    door: &mut D,
    clock: &mut C,
    operator: &[u8],
    feed: &mut Feed,
    step: &Step,
    steps: &mut Steps<L>,
) -> Going
    requires connected { IsTrue (D.is_connected door.old) }
    requires attached { IsTrue (K.is_attached keeper.old) }
    requires told { TellsRowsOf (K.tells keeper.old) desk.old.book.journal }
    requires step { (stream : Stream) × StepsAs stream step.now feed.old }
    ensures goes { (stream : Stream) (opened : At) (before : Option Links)
        → StepsAs stream step.now feed.old → stream.closed ≡ false
        → IsServing operator.now opened before (D.told door.old) stream
        (at_of desk.old.book.journal (K.faults keeper.old) (C.last clock.old) (C.coming clock.old))
        → GoesAs operator.now opened before (D.told door.new) feed.new
        (at_of desk.new.book.journal (K.faults keeper.new) (C.last clock.new) (C.coming clock.new))
        result }
    ensures fewer { (stream : Stream) → StepsAs stream step.now feed.old → stream.closed ≡ false
        → IsWithin stream → FewerAhead result stream feed.new }
    ensures grown { (more : Journal) × (desk.new.book.journal ≡ desk.old.book.journal ++ more) }
    ensures told { TellsRowsOf (K.tells keeper.new) desk.new.book.journal }
    ensures attached { IsTrue (K.is_attached keeper.new) }
    ensures was_honest { K.is_honest keeper.new → K.is_honest keeper.old }
    ensures goes_on { GoesOn K.moment K.gave keeper.old keeper.new }
    ensures connected { IsTrue (D.is_connected door.new) }
    ensures link { CountsGoing result (D.link_faults door.old) (D.link_faults door.new) }
    ensures door { D.door_faults door.new ≡ D.door_faults door.old }
{
    match step {
        Step::Need => read_on(door, feed),
        Step::Call(call) => serve_call(alloc, desk, keeper, door, clock, operator, call, steps),
        Step::Fault { fault, last } => serve_fault(door, *fault, *last),
    }
}

// Answers the next item of a connection, or reads on where none is decided; or the connection is over.
fn serve_next<K: Keeper, D: Door, C: Clock, L: StepLedger>(
    alloc: Global,
    desk: &mut Desk,
    keeper: &mut K,
    door: &mut D,
    clock: &mut C,
    operator: &[u8],
    feed: &mut Feed,
    steps: &mut Steps<L>,
) -> Going
    requires connected { IsTrue (D.is_connected door.old) }
    requires attached { IsTrue (K.is_attached keeper.old) }
    requires told { TellsRowsOf (K.tells keeper.old) desk.old.book.journal }
    ensures goes { (opened : At) (before : Option Links)
        → IsServing operator.now opened before (D.told door.old) feed.old
        (at_of desk.old.book.journal (K.faults keeper.old) (C.last clock.old) (C.coming clock.old))
        → GoesAs operator.now opened before (D.told door.new) feed.new
        (at_of desk.new.book.journal (K.faults keeper.new) (C.last clock.new) (C.coming clock.new))
        result }
    ensures fewer { IsWithin feed.old → FewerAhead result feed.old feed.new }
    ensures grown { (more : Journal) × (desk.new.book.journal ≡ desk.old.book.journal ++ more) }
    ensures told { TellsRowsOf (K.tells keeper.new) desk.new.book.journal }
    ensures attached { IsTrue (K.is_attached keeper.new) }
    ensures was_honest { K.is_honest keeper.new → K.is_honest keeper.old }
    ensures goes_on { GoesOn K.moment K.gave keeper.old keeper.new }
    ensures connected { IsTrue (D.is_connected door.new) }
    ensures link { CountsGoing result (D.link_faults door.old) (D.link_faults door.new) }
    ensures door { D.door_faults door.new ≡ D.door_faults door.old }
{
    if feed.is_closed() {
        return Going::Over(Served::Ended);
    }
    match feed.next(alloc) {
        Ok(step) => serve_step(
            alloc, desk, keeper, door, clock, operator, feed, &step, steps,
        ),
        Err(NoMemory) => close_for_memory(door),
    }
}

// Serves a connection to its end.
fn serve_all<K: Keeper, D: Door, C: Clock, L: StepLedger>(
    alloc: Global,
    desk: &mut Desk,
    keeper: &mut K,
    door: &mut D,
    clock: &mut C,
    operator: &[u8],
    steps: &mut Steps<L>,
) -> Served
    requires connected { IsTrue (D.is_connected door.old) }
    requires attached { IsTrue (K.is_attached keeper.old) }
    requires told { TellsRowsOf (K.tells keeper.old) desk.old.book.journal }
    ensures served { IsServed operator.now
        (at_of desk.old.book.journal (K.faults keeper.old) (C.last clock.old) (C.coming clock.old))
        (D.told door.old) result
        (D.told door.new)
        (at_of desk.new.book.journal (K.faults keeper.new)
        (C.last clock.new) (C.coming clock.new)) }
    ensures grown { (more : Journal) × (desk.new.book.journal ≡ desk.old.book.journal ++ more) }
    ensures told { TellsRowsOf (K.tells keeper.new) desk.new.book.journal }
    ensures attached { IsTrue (K.is_attached keeper.new) }
    ensures was_honest { K.is_honest keeper.new → K.is_honest keeper.old }
    ensures goes_on { GoesOn K.moment K.gave keeper.old keeper.new }
    ensures connected { IsTrue (D.is_connected door.new) }
    ensures link { CountsLink result (D.link_faults door.old) (D.link_faults door.new) }
    ensures door { D.door_faults door.new ≡ D.door_faults door.old }
{
    let mut feed = Feed::new(alloc);
    loop {
        match serve_next(alloc, desk, keeper, door, clock, operator, &mut feed, steps) {
            Going::On => (),
            Going::Over(served) => return served,
        }
    }
}

/// Serves the accepted connection: its requests are answered in turn, each before the next is begun, up to the one that closes it or to
/// the end of its input; then it is shut.
///
/// What was read of it is a stream of items, in whatever pieces it came. Each item is answered as the register machine answers it
/// behind the journal of the desk, at one reading of the clock, and what it brings is kept before its reply is written. In an item's
/// place stands 503 only where the keeper failed in it and it has something to keep, and 507 where memory was wanting; both leave the
/// journal as it was.
pub fn serve_connection<K: Keeper, D: Door, C: Clock, L: StepLedger>(
    alloc: Global,
    desk: &mut Desk,
    keeper: &mut K,
    door: &mut D,
    clock: &mut C,
    operator: &[u8],
    steps: &mut Steps<L>,
) -> Served
    requires connected { IsTrue (D.is_connected door.old) }
    requires attached { IsTrue (K.is_attached keeper.old) }
    requires told { TellsRowsOf (K.tells keeper.old) desk.old.book.journal }

    // The bytes that were read, the texts of the run over them, and what was written of these texts by how the connection ended; what is
    // told of the other connections is as it was.
    ensures served { IsServedAndShut operator.now
        (at_of desk.old.book.journal (K.faults keeper.old) (C.last clock.old) (C.coming clock.old))
        (D.told door.old) result
        (D.told door.new)
        (at_of desk.new.book.journal (K.faults keeper.new)
        (C.last clock.new) (C.coming clock.new)) }

    // The journal only grows, and the rows that are told are its own.
    ensures grown { (more : Journal) × (desk.new.book.journal ≡ desk.old.book.journal ++ more) }
    ensures lawful { IsLawful desk.new.book.journal }
    ensures told { TellsRowsOf (K.tells keeper.new) desk.new.book.journal }
    ensures attached { IsTrue (K.is_attached keeper.new) }
    ensures was_honest { K.is_honest keeper.new → K.is_honest keeper.old }
    ensures goes_on { GoesOn K.moment K.gave keeper.old keeper.new }

    // The connection failed exactly where the links' count rose in this call.
    ensures link { CountsLink result (D.link_faults door.old) (D.link_faults door.new) }
    ensures door { D.door_faults door.new ≡ D.door_faults door.old }
    ensures shut { D.is_connected door.new ≡ false }
{
    let served = serve_all(alloc, desk, keeper, door, clock, operator, steps);
    desk.journal_is_lawful();
    door.shut();
    served
}
