//! The text of an answer, made of a reply or fixed by a fault.
ghost use Rattle.std.specs.Prelude.{◌≡◌, ◌≤◌, IfOk, IsTrue, OnErr, OnOk};
ghost use Rattle.agent_edge.specs.Counts.{Rose};
ghost use Rattle.connection_service.specs.Answers as spec;
ghost use Rattle.connection_service.specs.Serving.{IsWritten};
ghost use Rattle.agent_http.specs.Bytes.{bytes_of};

use agent_edge::{Door, LinkFault, write_reply};
use agent_events::Reply;
use agent_http::{fault_bytes, reply_bytes};
use agent_keeper::KeepFault;
use http_stream::HttpFault;
use money_units::{Bytes, NoMemory};
use std::alloc::Global;

/// The text of an answer, or the fault in its place.
pub(crate) type Text = Result<Bytes, HttpFault>;

// The bytes of a reply.
pub(crate) fn reply_text(alloc: Global, reply: &Reply, last: bool) -> Result<Bytes, NoMemory>
    ensures { IfOk result (λ bytes. bytes ≡ bytes_of reply.now last) }
{
    Ok(Bytes::from_vec(reply_bytes(alloc, reply, last)?))
}

// What an answer that was to be kept is replied to with.
pub(crate) fn kept_text(answer: Result<Bytes, KeepFault>) -> Text
    ensures { result ≡ spec.kept_text answer }
{
    match answer {
        Ok(bytes) => Ok(bytes),
        Err(KeepFault::Failed) => Err(HttpFault::S503),
        Err(KeepFault::NoMemory) => Err(HttpFault::S507),
    }
}

// Writes the text of an answer; `last` says that the connection closes behind it.
pub(crate) fn write_text<D: Door>(door: &mut D, text: &Text, last: bool) -> Result<(), LinkFault>
    requires { IsTrue (D.is_connected door.old) }
    ensures written { IsWritten (spec.text_of last text.now) (D.told door.old) (D.told door.new)
        result }
    ensures connected { IsTrue (D.is_connected door.new) }
    ensures fault { OnErr result (Rose (D.link_faults door.old) (D.link_faults door.new)) }
    ensures no_fault { OnOk result (D.link_faults door.new ≡ D.link_faults door.old) }
    ensures door { D.door_faults door.new ≡ D.door_faults door.old }
{
    match text {
        Ok(bytes) => write_bytes(door, bytes.as_slice()),
        Err(fault) => write_bytes(door, fault_bytes(*fault, last)),
    }
}

pub(crate) fn write_bytes<D: Door>(door: &mut D, bytes: &[u8]) -> Result<(), LinkFault>
    requires { IsTrue (D.is_connected door.old) }
    ensures written { IsWritten bytes.now (D.told door.old) (D.told door.new) result }
    ensures connected { IsTrue (D.is_connected door.new) }
    ensures fault { OnErr result (Rose (D.link_faults door.old) (D.link_faults door.new)) }
    ensures no_fault { OnOk result (D.link_faults door.new ≡ D.link_faults door.old) }
    ensures door { D.door_faults door.new ≡ D.door_faults door.old }
{
    match write_reply(door, bytes) {
        Ok(()) => Ok(()),
        Err(fault) => Err(fault),
    }
}
