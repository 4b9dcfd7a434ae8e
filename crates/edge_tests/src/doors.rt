//! Doors: a connection to this machine is read to its end and answered.
ghost use Rattle.std.specs.Prelude.{IsTrue};

use agent_edge::{Door, DoorFault, LinkFault, TcpDoor, write_reply};
use money_units::NoMemory;
use std::alloc::Global;
use std::io::{Read, Write};
use std::net::{Ipv4Addr, Shutdown, SocketAddr, SocketAddrV4, TcpStream};
use std::test::Fail;

const REQUEST: &[u8] = b"GET /account/101 HTTP/1.1\r\n\r\n";

const REPLY: &[u8] = b"HTTP/1.1 200 OK\r\n\r\n";

// How the service of one connection ended.
#[derive(Clone, Copy, Debug, PartialEq, Eq, Drop)]
enum End {
    Served,
    Closed,
    DoorFailed,
    LinkFailed,
}

// Reads the open connection to its end, in at most a hundred reads.
fn read_all<D: Door>(door: &mut D, into: &mut Vec<u8>) -> Result<End, NoMemory>
    requires { IsTrue (D.is_connected door.old) }
    ensures { IsTrue (D.is_connected door.new) }
{
    let mut piece = [0u8; 16];
    for _ in 0..100 {
        match door.read(&mut piece) {
            Ok(0) => return Ok(End::Served),
            Ok(count) => into.extend_from_slice(&piece[..count])?,
            Err(LinkFault) => return Ok(End::LinkFailed),
        }
    }
    Ok(End::Served)
}

// Accepts a connection, reads it to its end, replies and shuts it.
fn serve_one<D: Door>(door: &mut D, reply: &[u8], into: &mut Vec<u8>) -> Result<End, NoMemory> {
    match door.accept() {
        Ok(true) => {
            let end = read_all(door, into);
            let sent = write_reply(door, reply);
            door.shut();
            match sent {
                Ok(()) => end,
                Err(LinkFault) => Ok(End::LinkFailed),
            }
        }
        Ok(false) => Ok(End::Closed),
        Err(DoorFault) => Ok(End::DoorFailed),
    }
}

// Listens at the first port that is free, which is the answer.
fn listen<D: Door>(door: &mut D) -> u16 {
    let mut port = 47_600_u16;
    for candidate in 47_600..47_700_u16 {
        port = candidate;
        if door.listen(candidate).is_ok() {
            break;
        }
    }
    port
}

// Sends a request, and no more.
fn send(client: &mut TcpStream) -> Result<(), Fail> {
    client.write_all(REQUEST)?;
    client.shutdown(Shutdown::Write)?;
    Ok(())
}

// How the service of a connection ended, and whether what was sent on it was read.
fn served<D: Door>(alloc: Global, door: &mut D) -> Result<(End, bool), Fail> {
    let mut read = Vec::new(alloc);
    let end = serve_one(door, REPLY, &mut read)?;
    Ok((end, read.as_slice() == REQUEST))
}

// Whether the reply comes and then the end.
fn is_answered(alloc: Global, client: &mut TcpStream) -> Result<bool, Fail> {
    let mut answer = Vec::new(alloc);
    client.read_to_end(&mut answer)?;
    Ok(answer.as_slice() == REPLY)
}

// How the service of a connection ended, whether what was sent on it was read, and whether the reply came.
fn exchange<D: Door>(
    alloc: Global,
    door: &mut D,
    client: &mut TcpStream,
) -> Result<(End, bool, bool), Fail> {
    send(client)?;
    let (end, is_read) = served(alloc, door)?;
    Ok((end, is_read, is_answered(alloc, client)?))
}

fn exchange_on_this_machine(rt: HostRuntime) -> Result<(End, bool, bool), Fail> {
    let mut door = TcpDoor::new(rt);
    let port = listen(&mut door);
    let address = SocketAddr::V4(SocketAddrV4::new(Ipv4Addr::LOCALHOST, port));
    let mut client = TcpStream::connect(&rt, address)?;
    exchange(rt.alloc(), &mut door, &mut client)
}

#[test]
fn a_connection_to_this_machine_is_read_and_answered(rt: HostRuntime) -> Result<(), Fail> {
    assert_eq!(rt; exchange_on_this_machine(rt)?, (End::Served, true, true));
    Ok(())
}

// What a door that doesn't listen accepts.
fn accepted(rt: HostRuntime) -> Result<bool, DoorFault> {
    let mut door = TcpDoor::new(rt);
    door.accept()
}

#[test]
fn a_door_that_does_not_listen_fails(rt: HostRuntime) {
    assert_eq!(rt; accepted(rt), Err(DoorFault));
}

#[test]
fn faults_are_told_in_words(rt: HostRuntime) -> Result<(), Fail> {
    let text = format!(in rt.alloc(); "{DoorFault}; {LinkFault}")?;
    assert_eq!(rt;
        text.as_str(),
        "no connection could be accepted; a connection failed"
    );
    Ok(())
}
