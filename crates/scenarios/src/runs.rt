//! A run of the program over objects in memory, and what comes of it.
ghost use Rattle.std.specs.Prelude.{◌≤◌};

use crate::cases::{Fails, Given};
use crate::clocks::CaseClock;
use crate::stores::{Store, keeper_of, store_of};
use crate::trouble::Trouble;
use agent_edge::{Connections, MemoryDoor, MemoryLink, MemorySink, MemorySource};
use agent_keeper::{CheckName, MemoryKeeper};
use agent_run::{Status, run};
use household_fold::Steps;
use money_units::{Bytes, Moment};
use std::alloc::Global;
use std::sync::ledger::Ledger;

// So many bytes can be written where nothing is said: 256 KiB.
const ROOM: usize = 262_144;

// 09:00 in New York on 2024-07-01, where nothing is said of the clock.
const MORNING: u64 = 1_719_838_800;

/// How a run is made: what it is given, the calls that fail, the length of pieces, and the connection that ends early, with the number
/// of its bytes.
#[derive(Clone, Copy)]
pub struct Setting<'a> {
    pub given: &'a Given,
    pub fails: &'a Fails,
    pub pieces: usize,
    pub end: Option<(usize, usize)>,
}

/// What came of a run.
#[derive(Drop)]
pub struct Outcome {
    pub status: u8,
    pub written: Vec<u8>,
    /// What was written on each connection that was accepted.
    pub replies: Vec<Bytes>,
    pub store: Store,
    /// How many calls of source, sink, door and links failed.
    pub faults: u64,
}

/// A run as its case says.
pub(crate) fn plain(given: &Given) -> Setting<'_> {
    Setting {
        given,
        fails: &given.fails,
        pieces: given.pieces,
        end: None,
    }
}

// The bytes of a connection, up to where it ends.
fn bytes_on<'a>(setting: &Setting<'_>, number: usize, bytes: &'a [u8]) -> &'a [u8] {
    match setting.end {
        Some((ended, length)) if ended == number => bytes.get(..length).unwrap_or(bytes),
        _ => bytes,
    }
}

fn connections_of(alloc: Global, setting: &Setting<'_>) -> Result<Connections, Trouble> {
    let mut connections = Connections::new(alloc);
    for (number, bytes) in setting.given.connections.iter().enumerate() {
        let bytes = bytes_on(setting, number, bytes.as_slice());
        connections.push(Bytes::from_slice(alloc, bytes)?)?;
    }
    Ok(connections)
}

fn clock_of(alloc: Global, given: &Given) -> Result<CaseClock, Trouble> {
    if !given.readings.is_empty() {
        return Ok(CaseClock::new(alloc, &given.readings)?);
    }
    match Moment::new(MORNING) {
        Some(morning) => Ok(CaseClock::new(alloc, &[morning])?),
        None => Ok(CaseClock::new(alloc, &[])?),
    }
}

fn replies_on(alloc: Global, links: &[MemoryLink]) -> Result<Vec<Bytes>, Trouble> {
    let mut replies = Vec::new(alloc);
    for link in links {
        replies.push(Bytes::from_slice(alloc, link.written())?)?;
    }
    Ok(replies)
}

// What came of a run, but its store.
fn answers_of(
    alloc: Global,
    status: u8,
    door: &MemoryDoor,
    input: &MemorySource,
    out: &MemorySink,
) -> Result<Outcome, Trouble> {
    let of_door = door.door_faults().saturating_add(door.link_faults());
    let of_streams = input.faults().saturating_add(out.faults());
    Ok(Outcome {
        status,
        written: Vec::from_slice(alloc, out.contents())?,
        replies: replies_on(alloc, door.finished())?,
        store: crate::stores::no_store(alloc),
        faults: of_door.saturating_add(of_streams),
    })
}

fn run_over<L: Ledger>(
    alloc: Global,
    setting: &Setting<'_>,
    keeper: &mut MemoryKeeper,
    steps: &mut Steps<L>,
) -> Result<Outcome, Trouble> {
    let given = setting.given;
    let fails = setting.fails;
    let pieces = setting.pieces.max(1);
    let room = given.room.unwrap_or(ROOM);
    let connections = connections_of(alloc, setting)?;
    let mut door = MemoryDoor::new(alloc, connections, pieces, room, &fails.door, &fails.link)?;
    let mut clock = clock_of(alloc, given)?;
    let mut input = MemorySource::new(alloc, &given.script, pieces, &fails.source)?;
    let mut out = MemorySink::new(alloc, pieces, room, &fails.sink)?;
    let Status(status) = run(
        alloc,
        &given.words,
        keeper,
        &mut door,
        &mut clock,
        &mut input,
        &mut out,
        steps,
    );
    answers_of(alloc, status, &door, &input, &out)
}

/// What comes of a run over a store, with its keeper. The checkpoint rows of these names are read afterwards.
pub(crate) fn outcome_of<L: Ledger>(
    alloc: Global,
    setting: &Setting<'_>,
    store: &Store,
    names: &[CheckName],
    steps: &mut Steps<L>,
) -> Result<(Outcome, MemoryKeeper), Trouble> {
    let mut keeper = keeper_of(alloc, store, &setting.fails.keeper)?;
    let mut outcome = run_over(alloc, setting, &mut keeper, steps)?;
    outcome.store = store_of(alloc, &mut keeper, names)?;
    Ok((outcome, keeper))
}
