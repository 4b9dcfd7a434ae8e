//! A case: what stands before it, its runs, what they are given, and what must come.

use agent_keeper::{CheckName, CheckPut};
use money_units::{Bytes, Moment};
use std::alloc::Global;

/// A case.
#[derive(Drop)]
pub struct Case {
    /// The case that it begins behind.
    pub behind: Option<String>,
    pub rows: Vec<Bytes>,
    pub checks: Vec<CheckPut>,
    pub runs: Vec<Run>,
}

/// The calls that fail, by their numbers from 1.
#[derive(Drop)]
pub struct Fails {
    pub keeper: Vec<u64>,
    pub source: Vec<u64>,
    pub sink: Vec<u64>,
    pub door: Vec<u64>,
    pub link: Vec<u64>,
}

/// What fails in the runs that are made again.
#[derive(Clone, Copy, Debug, PartialEq, Eq)]
pub enum Failing {
    Keeper,
    Source,
    Sink,
    Door,
    Link,
}

/// What a run is given beside its store.
#[derive(Drop)]
pub struct Given {
    pub words: Vec<String>,
    pub script: Vec<u8>,
    pub connections: Vec<Bytes>,
    pub readings: Vec<Moment>,
    /// At most so many bytes are read or written at a time, from 1.
    pub pieces: usize,
    /// So many bytes can be written on standard output, and on each connection; all where nothing is said.
    pub room: Option<usize>,
    pub fails: Fails,
}

/// A checkpoint row that must be there afterwards, or none.
#[derive(Drop)]
pub struct KeptCheck {
    pub name: CheckName,
    pub bytes: Option<Bytes>,
}

/// What must come of a run.
#[derive(Drop)]
pub struct Wanted {
    pub status: u8,
    /// The answers to the items of which both are said.
    pub item_answers: Vec<u8>,
    /// So many lines that are no refusals come behind them, and then these answers.
    pub accepted: u64,
    pub answers: Vec<u8>,
    pub replies: Vec<Bytes>,
    pub rows: Option<Vec<Bytes>>,
    pub added: Option<Vec<Bytes>>,
    pub count: Option<u64>,
    pub kept: Vec<KeptCheck>,
}

/// How a run is made again.
#[derive(Drop)]
pub struct Again {
    pub each_cut: bool,
    pub each_end: bool,
    pub each_fault: Vec<Failing>,
}

/// A run of the program, the line in which it begins, and how a stop behind it leaves the store: with its last commit, or without.
#[derive(Drop)]
pub struct Run {
    pub line: u64,
    pub given: Given,
    pub wanted: Wanted,
    pub again: Again,
    pub stop: Option<bool>,
}

/// A case of nothing.
pub(crate) fn no_case(alloc: Global) -> Case {
    Case {
        behind: None,
        rows: Vec::new(alloc),
        checks: Vec::new(alloc),
        runs: Vec::new(alloc),
    }
}

/// No call fails.
pub(crate) fn no_fails(alloc: Global) -> Fails {
    Fails {
        keeper: Vec::new(alloc),
        source: Vec::new(alloc),
        sink: Vec::new(alloc),
        door: Vec::new(alloc),
        link: Vec::new(alloc),
    }
}

fn nothing_given(alloc: Global) -> Given {
    Given {
        words: Vec::new(alloc),
        script: Vec::new(alloc),
        connections: Vec::new(alloc),
        readings: Vec::new(alloc),
        pieces: 4096,
        room: None,
        fails: no_fails(alloc),
    }
}

fn nothing_wanted(alloc: Global) -> Wanted {
    Wanted {
        status: 0,
        item_answers: Vec::new(alloc),
        accepted: 0,
        answers: Vec::new(alloc),
        replies: Vec::new(alloc),
        rows: None,
        added: None,
        count: None,
        kept: Vec::new(alloc),
    }
}

/// A run of which nothing is said yet.
pub(crate) fn no_run(alloc: Global, line: u64) -> Run {
    Run {
        line,
        given: nothing_given(alloc),
        wanted: nothing_wanted(alloc),
        again: Again {
            each_cut: false,
            each_end: false,
            each_fault: Vec::new(alloc),
        },
        stop: None,
    }
}
