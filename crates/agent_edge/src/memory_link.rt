//! The connections of the door in memory, each with its room, which is taken when the connection is made.
ghost use Rattle.std.specs.Prelude.{◌≡◌, ◌≤◌, ◌↔◌, IsNone, length, take, IfOk, IfSome, IfNone};
ghost use Rattle.agent_edge.specs.MemoryDoors.{waiting, opened_link, link_read_count, link_after_read, link_write_count, link_after_write, IsFull};

use crate::memory_source::copy_front;
use money_units::{Bytes, NoMemory};
use std::alloc::Global;
use std::marker::Model;

/// A connection that is still to be accepted.
#[derive(Drop)]
pub(crate) struct WaitingLink {
    bytes: Bytes,
    written: Vec<u8>,
    room: usize,
}

impl Model for WaitingLink {
    ghost use Rattle.std.specs.Prelude.{◌≡◌, ◌≤◌, [], vec_capacity};
    ghost use Rattle.agent_edge.specs.MemoryDoors.{WaitingState};

    ghost Value = { WaitingState };

    ghost view = { λ s. record { bytes = s.bytes; room = s.room } };

    ghost invariant = { λ s. (s.written.items ≡ []) × (s.room ≤ vec_capacity s.written) };
}

impl WaitingLink {
    /// A connection on which these bytes will come, and which takes so many bytes.
    pub(crate) fn new(alloc: Global, bytes: Bytes, room: usize) -> Result<WaitingLink, NoMemory>
        ensures { IfOk result (λ link. link ≡ waiting room bytes) }
    {
        Ok(WaitingLink {
            bytes,
            written: Vec::with_capacity(alloc, room)?,
            room,
        })
    }

    /// The connection, accepted.
    pub(crate) fn accepted(self) -> MemoryLink
        ensures { result ≡ opened_link self }
    {
        let WaitingLink {
            bytes,
            written,
            room,
        } = self;
        MemoryLink {
            bytes,
            position: 0,
            written,
            room,
        }
    }
}

/// A connection that was accepted.
#[derive(Drop)]
pub struct MemoryLink {
    bytes: Bytes,
    position: usize,
    written: Vec<u8>,
    room: usize,
}

impl Model for MemoryLink {
    ghost use Rattle.std.specs.Prelude.{drop, vec_capacity};
    ghost use Rattle.agent_edge.specs.MemoryDoors.{HoldsLink, LinkState};

    ghost Value = { LinkState };

    ghost view = { λ s. record {
      unread = drop s.position s.bytes;
      written = s.written.items;
      room = s.room;
    } };

    ghost invariant = { λ s.
        HoldsLink s.bytes s.position s.written.items s.room (vec_capacity s.written) };
}

impl MemoryLink {
    /// The bytes that weren't read.
    pub fn unread(&self) -> &[u8]
        ensures { result.now ≡ self.now.unread }
    {
        &self.bytes.as_slice()[self.position..]
    }

    /// The bytes written.
    pub fn written(&self) -> &[u8]
        ensures { result.now ≡ self.now.written }
    {
        &self.written
    }

    /// Fills the front of `into` with the next bytes, at most so many, and answers how many these are.
    pub(crate) fn read(&mut self, into: &mut [u8], most: usize) -> usize
        ensures count { result ≡ link_read_count self.old most (length into.old) }
        ensures bytes { take result into.new ≡ take result self.old.unread }
        ensures rest { self.new ≡ link_after_read result self.old }
    {
        let count = copy_front(&self.bytes.as_slice()[self.position..], into, most);
        self.position += count;
        count
    }

    /// Takes bytes from the front of `from`, at most so many, and answers how many; `None` where no room is left.
    pub(crate) fn write(&mut self, from: &[u8], most: usize) -> Option<usize>
        ensures full { IsNone result ↔ IsFull self.old from.now }
        ensures kept { IfNone result (self.new ≡ self.old) }
        ensures count { IfSome result (λ count. count ≡ link_write_count self.old most from.now) }
        ensures taken { IfSome result (λ count. self.new
            ≡ link_after_write (take count from.now) self.old) }
    {
        let room = self.room - self.written.len();
        if !from.is_empty() && room == 0 {
            return None;
        }
        let count = most.min(room).min(from.len());
        match self.written.extend_from_slice(&from[..count]) {
            Ok(()) => Some(count),
            Err(_) => unreachable!(),
        }
    }
}
