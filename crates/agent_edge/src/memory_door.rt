//! A door in memory. It tells all, and fails exactly where it is told to.
ghost use Rattle.std.specs.Prelude.{◌≡◌, ◌≤◌, ◌<◌, ◌↔◌, ◌++◌, Bool, is_some, None, Some, [], length, map, take, option_copied, option_to_list, option_map, IsTrue, IsSome, IsNone, IfNone, IsErr, IfOk, IfSome, OnOk, OnErr, vec_len, vec_capacity};
ghost use Rattle.agent_edge.specs.CallCounts.{IsListed, calls_of};
ghost use Rattle.agent_edge.specs.Links.{is_there};
ghost use Rattle.agent_edge.specs.MemoryDoors.{waiting, links_of, after_listen, after_door_fault, after_accepted, door_after_read, door_after_write, after_link_fault, door_after_shut, FailsToSend, unread_of, PresentIsFull, link_after_read, link_after_write, present_read_count, present_write_count};

use super::{Door, DoorFault, LinkFault};
use crate::call_counts::Calls;
use crate::memory_link::{MemoryLink, WaitingLink};
use money_units::{Bytes, List, NoMemory};
use std::alloc::Global;
use std::collections::VecDeque;
use std::marker::Model;

/// The bytes that come on each connection.
pub type Connections = List<Bytes>;

/// A door that hands out given connections. A read gives at most `piece` bytes and a write takes at most so many. A
/// call fails exactly where it is listed, or where it writes bytes for which no room is left.
#[derive(Drop)]
pub struct MemoryDoor {
    finished: Vec<MemoryLink>,
    present: Option<MemoryLink>,
    coming: VecDeque<WaitingLink>,
    piece: usize,
    door_calls: Calls,
    link_calls: Calls,
}

impl Model for MemoryDoor {
    ghost use Rattle.agent_edge.specs.MemoryDoors.{DoorState};
    ghost use Rattle.agent_edge.specs.DoorRoom.{HasPlaces};

    ghost Value = { DoorState };

    ghost view = { λ s. record {
      finished = s.finished.items;
      present = s.present;
      coming = s.coming.items;
      piece = s.piece;
      door_calls = s.door_calls;
      link_calls = s.link_calls;
    } };

    ghost invariant = { HasPlaces };
}

impl MemoryDoor {
    /// A door of these connections. The room, which each of them has, is taken now, so a write takes no memory.
    /// `accept_fails` names the calls of `listen` and `accept` that fail, and `link_fails` the reads and writes, by
    /// their numbers from 1.
    pub fn new(
        alloc: Global,
        connections: Connections,
        piece: usize,
        room: usize,
        accept_fails: &[u64],
        link_fails: &[u64],
    ) -> Result<MemoryDoor, NoMemory>
        requires { 1 ≤ piece }
        ensures finished { IfOk result (λ door. door.finished ≡ []) }
        ensures present { IfOk result (λ door. door.present ≡ None) }
        ensures coming { IfOk result (λ door. door.coming ≡ map (waiting room) connections) }
        ensures piece { IfOk result (λ door. door.piece ≡ piece) }
        ensures door_calls { IfOk result (λ door. door.door_calls ≡ calls_of accept_fails.now) }
        ensures link_calls { IfOk result (λ door. door.link_calls ≡ calls_of link_fails.now) }
    {
        let finished = Vec::with_capacity(alloc, connections.len())?;
        Ok(MemoryDoor {
            finished,
            present: None,
            coming: waiting_links(alloc, connections, room)?,
            piece,
            door_calls: Calls::new(alloc, accept_fails)?,
            link_calls: Calls::new(alloc, link_fails)?,
        })
    }

    /// The connections that were shut, in the order in which they were accepted.
    pub fn finished(&self) -> &[MemoryLink]
        ensures { result.now ≡ self.now.finished }
    {
        &self.finished
    }

    /// The open connection.
    pub fn present(&self) -> Option<&MemoryLink>
        ensures { option_copied result ≡ self.now.present }
    {
        self.present.as_ref()
    }

    /// How many calls of `listen` and `accept` have failed.
    pub fn door_faults(&self) -> u64
        ensures { result ≡ self.now.door_calls.failed }
    {
        self.door_calls.failed()
    }

    /// How many reads and writes have failed.
    pub fn link_faults(&self) -> u64
        ensures { result ≡ self.now.link_calls.failed }
    {
        self.link_calls.failed()
    }
}

// The connections, each with its room.
fn waiting_links(
    alloc: Global,
    connections: Connections,
    room: usize,
) -> Result<VecDeque<WaitingLink>, NoMemory>
    ensures { IfOk result (λ links. links.items ≡ map (waiting room) connections) }
{
    let mut links = VecDeque::with_capacity(alloc, connections.len())?;
    for bytes in connections.into_vec() {
        links.push_back(WaitingLink::new(alloc, bytes, room)?)?;
    }
    Ok(links)
}

// Puts the open connection behind those that were shut.
fn finish(present: &mut Option<MemoryLink>, finished: &mut Vec<MemoryLink>)
    requires { IsSome present.old → vec_len finished.old < vec_capacity finished.old }
    ensures present { present.new ≡ None }
    ensures finished { finished.new.items ≡ finished.old.items ++ option_to_list present.old }
    ensures capacity { vec_capacity finished.old ≤ vec_capacity finished.new }
{
    if let Some(link) = present.take() {
        match finished.push(link) {
            Ok(()) => {}
            Err(_) => unreachable!(),
        }
    }
}

// Reads at most so many bytes of the open connection.
fn read_from(present: &mut Option<MemoryLink>, into: &mut [u8], most: usize) -> usize
    requires { IsTrue (is_some present.old) }
    ensures count { result ≡ present_read_count present.old most (length into.old) }
    ensures bytes { take result into.new ≡ take result (unread_of present.old) }
    ensures rest { present.new ≡ option_map (link_after_read result) present.old }
{
    match present {
        Some(link) => link.read(into, most),
        None => unreachable!(),
    }
}

// Writes at most so many of these bytes on the open connection; `None` where no room is left.
fn write_to(present: &mut Option<MemoryLink>, from: &[u8], most: usize) -> Option<usize>
    requires { IsTrue (is_some present.old) }
    ensures full { IsNone result ↔ PresentIsFull present.old from.now }
    ensures kept { IfNone result (present.new ≡ present.old) }
    ensures count { IfSome result (λ count. count ≡ present_write_count present.old most from.now) }
    ensures taken { IfSome result (λ count. present.new
        ≡ option_map (link_after_write (take count from.now)) present.old) }
{
    match present {
        Some(link) => link.write(from, most),
        None => unreachable!(),
    }
}

impl Door for MemoryDoor {
    ghost told = { λ door. Some (links_of door) };

    ghost is_connected = { λ door. is_some door.present };

    ghost door_faults = { λ door. door.door_calls.failed };

    ghost link_faults = { λ door. door.link_calls.failed };

    fn listen(&mut self, _port: u16) -> Result<(), DoorFault>
        ensures fails { IsErr result ↔ IsListed self.old.door_calls }
        ensures failed { OnErr result (self.new ≡ after_door_fault self.old) }
        ensures listens { OnOk result (self.new ≡ after_listen self.old) }
        ensures never_falls { self.old.door_calls.failed ≤ self.new.door_calls.failed }
    {
        if self.door_calls.next_is_listed() {
            self.door_calls.count_fault();
            return Err(DoorFault);
        }
        Ok(())
    }

    fn accept(&mut self) -> Result<bool, DoorFault>
        ensures fails { IsErr result ↔ IsListed self.old.door_calls }
        ensures failed { OnErr result (self.new ≡ after_door_fault self.old) }
        ensures one_more { IfOk result (λ more. more ≡ is_there self.old.coming) }
        ensures accepts { OnOk result (self.new ≡ after_accepted self.old self.old.coming) }
        ensures never_falls { self.old.door_calls.failed ≤ self.new.door_calls.failed }
    {
        if self.door_calls.next_is_listed() {
            self.door_calls.count_fault();
            return Err(DoorFault);
        }
        match self.coming.pop_front() {
            Some(next) => {
                finish(&mut self.present, &mut self.finished);
                self.present = Some(next.accepted());
                Ok(true)
            }
            None => Ok(false),
        }
    }

    fn read(&mut self, into: &mut [u8]) -> Result<usize, LinkFault>
        requires { IsTrue (is_some self.old.present) }
        ensures fails { IsErr result ↔ IsListed self.old.link_calls }
        ensures failed { OnErr result (self.new ≡ after_link_fault self.old) }
        ensures count { IfOk result (λ count. count
            ≡ present_read_count self.old.present self.old.piece (length into.old)) }
        ensures bytes { IfOk result (λ count. take count into.new
            ≡ take count (unread_of self.old.present)) }
        ensures reads { IfOk result (λ count. self.new ≡ door_after_read count self.old) }
        ensures within { IfOk result (λ count. count ≤ length into.new) }
        ensures only_at_end { IfOk result (λ count. count ≡ 0 → 0 < length into.new
            → unread_of self.old.present ≡ []) }
        ensures never_falls { self.old.link_calls.failed ≤ self.new.link_calls.failed }
    {
        if self.link_calls.next_is_listed() {
            self.link_calls.count_fault();
            return Err(LinkFault);
        }
        Ok(read_from(&mut self.present, into, self.piece))
    }

    fn write(&mut self, from: &[u8]) -> Result<usize, LinkFault>
        requires { IsTrue (is_some self.old.present) }
        ensures fails { IsErr result ↔ FailsToSend self.old from.now }
        ensures failed { OnErr result (self.new ≡ after_link_fault self.old) }
        ensures count { IfOk result (λ count. count
            ≡ present_write_count self.old.present self.old.piece from.now) }
        ensures writes { IfOk result (λ count. self.new
            ≡ door_after_write (take count from.now) self.old) }
        ensures some { IfOk result (λ count. 0 < length from.now → 0 < count) }
        ensures never_falls { self.old.link_calls.failed ≤ self.new.link_calls.failed }
    {
        if self.link_calls.next_is_listed() {
            self.link_calls.count_fault();
            return Err(LinkFault);
        }
        match write_to(&mut self.present, from, self.piece) {
            Some(count) => Ok(count),
            None => {
                self.link_calls.count_fault();
                Err(LinkFault)
            }
        }
    }

    fn shut(&mut self)
        requires { IsTrue (is_some self.old.present) }
        ensures shuts { self.new ≡ door_after_shut self.old }
    {
        finish(&mut self.present, &mut self.finished);
    }
}
