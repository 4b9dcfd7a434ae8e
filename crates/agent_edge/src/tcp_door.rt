//! The door on the system's sockets. It tells no content: what the system gives and takes is trusted.
ghost use Rattle.std.specs.Prelude.{◌≡◌, ◌≤◌, is_some, false, length, IfOk, None};

use super::{Door, DoorFault, LinkFault};
use std::io;
use std::io::{ErrorKind, Read, Write};
use std::net::{
    Ipv4Addr, Net, OpenListener, OpenStream, Shutdown, SocketAddr, SocketAddrV4, TcpListener,
};
use std::time::{Clock, Duration, Instant};

// How many seconds a connection may go without an answer, and how long a reply may take to be taken.
const PATIENCE: u64 = 30;

// From when on the time of a connection counts, by the system's clock: from its accept or its last answer on while a request is awaited,
// from the begin of a reply on while that is written. It isn't known where the clock couldn't be read, and then the time is up.
#[derive(Clone, Copy)]
struct Turn {
    since: Option<Instant>,
    writes: bool,
}

impl Turn {
    fn new<R: Clock>(clock: &R, writes: bool) -> Turn {
        Turn {
            since: Instant::now(clock).ok(),
            writes,
        }
    }

    // The turn of a read or a write: this one, where it is of that kind already.
    fn goes_on<R: Clock>(self, clock: &R, writes: bool) -> Turn {
        if self.writes == writes {
            self
        } else {
            Turn::new(clock, writes)
        }
    }

    // What is left of the time, where something is.
    fn left<R: Clock>(self, clock: &R) -> Option<Duration> {
        let passed = self.since?.elapsed(clock).ok()?;
        let left = Duration::from_secs(PATIENCE).checked_sub(passed)?;
        if left.is_zero() { None } else { Some(left) }
    }
}

/// Connections to a port of this machine, at 127.0.0.1 alone.
///
/// A connection that gets no answer for 30 seconds since it was accepted or last answered, however its bytes trickle in, is given up: its
/// next read is a fault of the link. So is one that doesn't take a reply within 30 seconds: the write that waits for it is a fault.
#[derive(Drop)]
pub struct TcpDoor<R: Net + Clock> {
    net: R,
    listener: Option<R::Listener>,
    stream: Option<R::Stream>,
    turn: Turn,
    door_faults: u64,
    link_faults: u64,
}

impl<R: Net + Clock> TcpDoor<R> {
    /// A door that doesn't listen yet.
    pub fn new(net: R) -> TcpDoor<R>
        ensures connected { ⟦<TcpDoor<R> as Door>⟧.is_connected result ≡ false }
        ensures door_faults { ⟦<TcpDoor<R> as Door>⟧.door_faults result ≡ 0 }
        ensures link_faults { ⟦<TcpDoor<R> as Door>⟧.link_faults result ≡ 0 }
    {
        TcpDoor {
            net,
            listener: None,
            stream: None,
            turn: Turn {
                since: None,
                writes: false,
            },
            door_faults: 0,
            link_faults: 0,
        }
    }
}

// The next connection of a listener. A reply in one write goes out at once.
fn next_stream<L: OpenListener>(listener: &Option<L>) -> Option<L::Stream>
where
    L::Stream: OpenStream,
{
    match listener {
        Some(listener) => match listener.accept() {
            Ok((stream, _)) => {
                let _ = stream.set_nodelay(true);
                Some(stream)
            }
            Err(_) => None,
        },
        None => None,
    }
}

// Reads what comes within this time; where none is left nothing is waited for.
fn read_within<S: Read + OpenStream>(
    stream: &mut S,
    left: Option<Duration>,
    into: &mut [u8],
) -> io::Result<usize>
    ensures within { IfOk result (λ count. count ≤ length into.new) }
{
    let Some(left) = left else {
        return Err(io::Error::from(ErrorKind::TimedOut));
    };
    stream.set_read_timeout(Some(left))?;
    stream.read(into)
}

// Writes what is taken within this time.
fn write_within<S: Write + OpenStream>(
    stream: &mut S,
    left: Option<Duration>,
    from: &[u8],
) -> io::Result<usize>
    ensures within { IfOk result (λ count. count ≤ length from.now) }
{
    let Some(left) = left else {
        return Err(io::Error::from(ErrorKind::TimedOut));
    };
    stream.set_write_timeout(Some(left))?;
    stream.write(from)
}

// Reads what has come and passes it over, without waiting for more: a connection that is closed over bytes which
// nobody read may lose the reply on its way.
fn pass_over<S: Read + OpenStream>(stream: &mut S) {
    if stream.set_nonblocking(true).is_err() {
        return;
    }
    let mut piece = [0u8; 4096];
    for _ in 0..256 {
        match stream.read(&mut piece) {
            Ok(count) if count > 0 => {}
            _ => return,
        }
    }
}

impl<R: Net + Clock> Door for TcpDoor<R> {
    ghost told = { λ _. None };

    ghost is_connected = { λ door. is_some door.stream };

    ghost door_faults = { λ door. door.door_faults };

    ghost link_faults = { λ door. door.link_faults };

    fn listen(&mut self, port: u16) -> Result<(), DoorFault> {
        let address = SocketAddr::V4(SocketAddrV4::new(Ipv4Addr::LOCALHOST, port));
        match TcpListener::bind(&self.net, address) {
            Ok(listener) => {
                self.listener = Some(listener);
                Ok(())
            }
            Err(_) => {
                self.door_faults = self.door_faults.saturating_add(1);
                Err(DoorFault)
            }
        }
    }

    fn accept(&mut self) -> Result<bool, DoorFault> {
        match next_stream(&self.listener) {
            Some(stream) => {
                self.stream = Some(stream);
                self.turn = Turn::new(&self.net, false);
                Ok(true)
            }
            None => {
                self.door_faults = self.door_faults.saturating_add(1);
                Err(DoorFault)
            }
        }
    }

    fn read(&mut self, into: &mut [u8]) -> Result<usize, LinkFault> {
        self.turn = self.turn.goes_on(&self.net, false);
        let left = self.turn.left(&self.net);
        let read = match &mut self.stream {
            Some(stream) => read_within(stream, left, into),
            None => unreachable!(),
        };
        match read {
            Ok(count) => Ok(count),
            Err(_) => {
                self.link_faults = self.link_faults.saturating_add(1);
                Err(LinkFault)
            }
        }
    }

    fn write(&mut self, from: &[u8]) -> Result<usize, LinkFault> {
        self.turn = self.turn.goes_on(&self.net, true);
        let left = self.turn.left(&self.net);
        let written = match &mut self.stream {
            Some(stream) => write_within(stream, left, from),
            None => unreachable!(),
        };
        match written {
            Ok(count) if count > 0 || from.is_empty() => Ok(count),
            _ => {
                self.link_faults = self.link_faults.saturating_add(1);
                Err(LinkFault)
            }
        }
    }

    fn shut(&mut self) {
        if let Some(mut stream) = self.stream.take() {
            let _ = stream.shutdown(Shutdown::Write);
            pass_over(&mut stream);
        }
    }
}
