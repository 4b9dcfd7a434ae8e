//! What hands out connections, one after the other.
ghost use Rattle.std.specs.Prelude.{◌≡◌, ℕ, ◌<◌, ◌≤◌, Bool, true, false, IsTrue, Option, [], length, take, option_map, IfSome, IfOk, OnOk, OnErr, if◌then◌else◌};
ghost use Rattle.agent_edge.specs.Counts.{Rose};
ghost use Rattle.agent_edge.specs.Links.{Links, has_more, after_accept, after_read, after_write, after_shut};

use std::error::Error;
use std::fmt;

/// A `listen` or an `accept` failed. The connections are as they were.
#[derive(Clone, Copy, Debug, PartialEq, Eq)]
pub struct DoorFault;

impl fmt::Display for DoorFault {
    fn fmt<W: fmt::Write>(&self, f: &mut fmt::Formatter<W>) -> fmt::Result {
        write!(f, "no connection could be accepted")
    }
}

impl Error for DoorFault {}

/// A read or a write on a connection failed. What was read and written on it before is as it was.
#[derive(Clone, Copy, Debug, PartialEq, Eq)]
pub struct LinkFault;

impl fmt::Display for LinkFault {
    fn fmt<W: fmt::Write>(&self, f: &mut fmt::Formatter<W>) -> fmt::Result {
        write!(f, "a connection failed")
    }
}

impl Error for LinkFault {}

/// What hands out connections, of which one at most is open.
///
/// What each call does to the connections is said as an equation on what is told before and after it.
pub trait Door {
    /// The connections, where they are told.
    ghost told: { Self → Option Links };

    /// A connection was accepted and isn't shut.
    ghost is_connected: { Self → Bool };

    /// How many calls of `listen` and `accept` have failed: a u64 that begins at 0.
    ghost door_faults: { Self → ℕ };

    /// How many reads and writes have failed: a u64 that begins at 0.
    ghost link_faults: { Self → ℕ };

    /// Begins to wait for connections at this port.
    fn listen(&mut self, port: u16) -> Result<(), DoorFault>
        ensures links { told self.new ≡ told self.old }
        ensures connected { is_connected self.new ≡ is_connected self.old }

        ensures fault { OnErr result (Rose (door_faults self.old) (door_faults self.new)) }
        ensures no_fault { OnOk result (door_faults self.new ≡ door_faults self.old) }
        ensures never_falls { door_faults self.old ≤ door_faults self.new }
        ensures link { link_faults self.new ≡ link_faults self.old };

    /// Waits for the next connection. True: it is open from now on, and one that was open is shut. False: the door
    /// is closed, and no more come.
    fn accept(&mut self) -> Result<bool, DoorFault>
        ensures more { IfOk result (λ more. IfSome (told self.old) (λ links. more
            ≡ has_more links)) }
        ensures links { IfOk result (λ more. told self.new ≡ (if more then option_map
            (after_accept (is_connected self.old)) (told self.old) else told self.old)) }
        ensures connected { IfOk result (λ more. is_connected self.new
            ≡ (if more then true else is_connected self.old)) }
        ensures kept { OnErr result (told self.new ≡ told self.old) }
        ensures as_before { OnErr result (is_connected self.new ≡ is_connected self.old) }

        ensures fault { OnErr result (Rose (door_faults self.old) (door_faults self.new)) }
        ensures no_fault { OnOk result (door_faults self.new ≡ door_faults self.old) }
        ensures never_falls { door_faults self.old ≤ door_faults self.new }
        ensures link { link_faults self.new ≡ link_faults self.old };

    /// Fills the front of `into` with the next bytes of the open connection, and answers how many these are.
    ///
    /// 0 for a piece that isn't empty means the end. What stands in `into` behind these bytes, or after a fault,
    /// isn't said.
    fn read(&mut self, into: &mut [u8]) -> Result<usize, LinkFault>
        requires { IsTrue (is_connected self.old) }
        ensures within { IfOk result (λ count. count ≤ length into.new) }
        ensures bytes { IfOk result (λ count. IfSome (told self.old) (λ links. take count into.new
            ≡ take count links.unread)) }
        ensures links { IfOk result (λ count. told self.new
            ≡ option_map (after_read count) (told self.old)) }
        ensures end { IfOk result (λ count. IfSome (told self.old) (λ links. links.unread ≡ []
            → count ≡ 0)) }
        ensures only_at_end { IfOk result (λ count. count ≡ 0 → 0 < length into.new
            → IfSome (told self.old) (λ links. links.unread ≡ [])) }
        ensures kept { OnErr result (told self.new ≡ told self.old) }
        ensures connected { IsTrue (is_connected self.new) }

        ensures fault { OnErr result (Rose (link_faults self.old) (link_faults self.new)) }
        ensures no_fault { OnOk result (link_faults self.new ≡ link_faults self.old) }
        ensures never_falls { link_faults self.old ≤ link_faults self.new }
        ensures door { door_faults self.new ≡ door_faults self.old };

    /// Writes bytes from the front of `from` on the open connection, and answers how many: at least 1 of a piece
    /// that isn't empty.
    fn write(&mut self, from: &[u8]) -> Result<usize, LinkFault>
        requires { IsTrue (is_connected self.old) }
        ensures within { IfOk result (λ count. count ≤ length from.now) }
        ensures some { IfOk result (λ count. 0 < length from.now → 0 < count) }
        ensures links { IfOk result (λ count. told self.new
            ≡ option_map (after_write (take count from.now)) (told self.old)) }
        ensures kept { OnErr result (told self.new ≡ told self.old) }
        ensures connected { IsTrue (is_connected self.new) }

        ensures fault { OnErr result (Rose (link_faults self.old) (link_faults self.new)) }
        ensures no_fault { OnOk result (link_faults self.new ≡ link_faults self.old) }
        ensures never_falls { link_faults self.old ≤ link_faults self.new }
        ensures door { door_faults self.new ≡ door_faults self.old };

    /// Shuts the open connection.
    fn shut(&mut self)
        requires { IsTrue (is_connected self.old) }
        ensures links { told self.new ≡ option_map after_shut (told self.old) }
        ensures connected { is_connected self.new ≡ false }
        ensures door { door_faults self.new ≡ door_faults self.old }
        ensures link { link_faults self.new ≡ link_faults self.old };
}
