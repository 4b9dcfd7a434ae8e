//! A source in memory. It tells all, and fails exactly where it is told to.
ghost use Rattle.std.specs.Prelude.{◌≡◌, ℕ, ◌<◌, ◌≤◌, ◌↔◌, min, [], length, take, Some, IfOk, OnErr, IsErr};
ghost use Rattle.agent_edge.specs.Memory.{read_count, source_after_read, after_read_fault, FailsToRead};

use super::{Source, SourceFault};
use money_units::NoMemory;
use std::alloc::Global;
use std::marker::Model;

/// A source of given bytes. A read gives at most `piece` of them, and fails exactly where it is listed.
#[derive(Drop)]
pub struct MemorySource {
    bytes: Vec<u8>,
    position: usize,
    piece: usize,
    fails: Vec<u64>,
    calls: u64,
    faults: u64,
}

impl Model for MemorySource {
    ghost use Rattle.std.specs.Prelude.{◌≤◌, drop, vec_len};
    ghost use Rattle.agent_edge.specs.Memory.{SourceState};

    ghost Value = { SourceState };

    ghost view = { λ s. record {
      left = drop s.position s.bytes.items;
      piece = s.piece;
      fails = s.fails.items;
      calls = s.calls;
      faults = s.faults;
    } };

    ghost invariant = { λ s. (s.position ≤ vec_len s.bytes) × (1 ≤ s.piece) };
}

impl MemorySource {
    /// A source of these bytes. `fails` names the reads that fail, by their numbers from 1.
    pub fn new(
        alloc: Global,
        bytes: &[u8],
        piece: usize,
        fails: &[u64],
    ) -> Result<MemorySource, NoMemory>
        requires { 1 ≤ piece }
        ensures left { IfOk result (λ source. source.left ≡ bytes.now) }
        ensures piece { IfOk result (λ source. source.piece ≡ piece) }
        ensures fails { IfOk result (λ source. source.fails ≡ fails.now) }
        ensures calls { IfOk result (λ source. source.calls ≡ 0) }
        ensures faults { IfOk result (λ source. source.faults ≡ 0) }
    {
        Ok(MemorySource {
            bytes: bytes.to_vec(alloc)?,
            position: 0,
            piece,
            fails: fails.to_vec(alloc)?,
            calls: 0,
            faults: 0,
        })
    }

    /// The bytes left to read.
    pub fn left(&self) -> &[u8]
        ensures { result.now ≡ self.now.left }
    {
        &self.bytes[self.position..]
    }

    /// How many reads have failed.
    pub fn faults(&self) -> u64
        ensures { result ≡ self.now.faults }
    {
        self.faults
    }
}

impl Source for MemorySource {
    ghost left = { λ source. Some source.left };

    ghost faults = { λ source. source.faults };

    fn read(&mut self, into: &mut [u8]) -> Result<usize, SourceFault>
        ensures fails { IsErr result ↔ FailsToRead self.old }
        ensures fault { OnErr result (self.new ≡ after_read_fault self.old) }
        ensures count { IfOk result (λ count. count ≡ read_count self.old (length into.old)) }
        ensures bytes { IfOk result (λ count. take count into.new ≡ take count self.old.left) }
        ensures rest { IfOk result (λ count. self.new ≡ source_after_read self.old count) }
        ensures only_at_end { IfOk result (λ count. count ≡ 0 → 0 < length into.new
            → self.old.left ≡ []) }
        ensures never_falls { self.old.faults ≤ self.new.faults }
    {
        self.calls = self.calls.saturating_add(1);
        if self.fails.contains(&self.calls) {
            self.faults = self.faults.saturating_add(1);
            return Err(SourceFault);
        }
        let count = copy_front(&self.bytes[self.position..], into, self.piece);
        self.position += count;
        Ok(count)
    }
}

// Copies bytes from the front of `from` to the front of `into`, at most this many.
pub(crate) fn copy_front(from: &[u8], into: &mut [u8], most: usize) -> usize
    ensures count { result ≡ min most (min (length into.old) (length from.now)) }
    ensures copied { take result into.new ≡ take result from.now }
{
    let count = most.min(into.len()).min(from.len());
    into[..count].copy_from_slice(&from[..count]);
    count
}
