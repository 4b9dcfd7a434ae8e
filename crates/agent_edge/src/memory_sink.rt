//! A sink in memory. It tells all, and fails exactly where it is told to.
ghost use Rattle.std.specs.Prelude.{◌≡◌, ℕ, ◌<◌, ◌≤◌, ◌↔◌, [], length, Some, IfOk, OnErr, IsErr};
ghost use Rattle.agent_edge.specs.Memory.{write_count, sink_after_write, after_write_fault, FailsToWrite};

use super::{Sink, SinkFault};
use money_units::NoMemory;
use std::alloc::Global;
use std::marker::Model;

/// A sink with room for a number of bytes. A write takes at most `piece` of them. It fails exactly where it is
/// listed, or where its bytes aren't empty and no room is left.
#[derive(Drop)]
pub struct MemorySink {
    contents: Vec<u8>,
    piece: usize,
    room: usize,
    fails: Vec<u64>,
    calls: u64,
    faults: u64,
}

impl Model for MemorySink {
    ghost use Rattle.agent_edge.specs.Memory.{SinkState};

    ghost Value = { SinkState };

    ghost use Rattle.agent_edge.specs.Room.{HasItsRoom};

    ghost view = { λ s. record {
      contents = s.contents.items;
      piece = s.piece;
      room = s.room;
      fails = s.fails.items;
      calls = s.calls;
      faults = s.faults;
    } };

    ghost invariant = { HasItsRoom };
}

impl MemorySink {
    /// An empty sink. The room is taken now, so a write takes no memory. `fails` names the writes that fail, by
    /// their numbers from 1.
    pub fn new(
        alloc: Global,
        piece: usize,
        room: usize,
        fails: &[u64],
    ) -> Result<MemorySink, NoMemory>
        requires { 1 ≤ piece }
        ensures contents { IfOk result (λ sink. sink.contents ≡ []) }
        ensures piece { IfOk result (λ sink. sink.piece ≡ piece) }
        ensures room { IfOk result (λ sink. sink.room ≡ room) }
        ensures fails { IfOk result (λ sink. sink.fails ≡ fails.now) }
        ensures calls { IfOk result (λ sink. sink.calls ≡ 0) }
        ensures faults { IfOk result (λ sink. sink.faults ≡ 0) }
    {
        Ok(MemorySink {
            contents: Vec::with_capacity(alloc, room)?,
            piece,
            room,
            fails: fails.to_vec(alloc)?,
            calls: 0,
            faults: 0,
        })
    }

    /// The bytes written so far.
    pub fn contents(&self) -> &[u8]
        ensures { result.now ≡ self.now.contents }
    {
        &self.contents
    }

    /// How many writes have failed.
    pub fn faults(&self) -> u64
        ensures { result ≡ self.now.faults }
    {
        self.faults
    }
}

impl Sink for MemorySink {
    ghost contents = { λ sink. Some sink.contents };

    ghost faults = { λ sink. sink.faults };

    fn write(&mut self, from: &[u8]) -> Result<usize, SinkFault>
        ensures fails { IsErr result ↔ FailsToWrite self.old from.now }
        ensures fault { OnErr result (self.new ≡ after_write_fault self.old) }
        ensures count { IfOk result (λ count. count ≡ write_count self.old from.now) }
        ensures taken { IfOk result (λ count. self.new ≡ sink_after_write self.old from.now count) }
        ensures some { IfOk result (λ count. 0 < length from.now → 0 < count) }
        ensures never_falls { self.old.faults ≤ self.new.faults }
    {
        self.calls = self.calls.saturating_add(1);
        let room = self.room - self.contents.len();
        if self.fails.contains(&self.calls) || (!from.is_empty() && room == 0) {
            self.faults = self.faults.saturating_add(1);
            return Err(SinkFault);
        }
        let count = self.piece.min(room).min(from.len());
        match self.contents.extend_from_slice(&from[..count]) {
            Ok(()) => Ok(count),
            Err(_) => unreachable!(),
        }
    }
}
