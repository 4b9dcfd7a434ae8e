//! Reading to the end and writing in full, over any source and sink.
ghost use Rattle.std.specs.Prelude.{◌≡◌, ℕ, ◌<◌, ◌≤◌, List, [], Some, length, take, vec_len, IfSome, IfOk, OnOk, OnErr, IsErrOf};
ghost use Rattle.std.specs.Io.KnownBytes.{Appends, Consumes};
ghost use Rattle.agent_edge.specs.Counts.{Rose};
ghost use Rattle.agent_edge.specs.Whole.{CountsFault};
ghost use Rattle.agent_edge.specs.declared.whole.ReadFault.TheVariants.{Fault as fault, NoMemory as no_memory};

use super::{Sink, SinkFault, Source, SourceFault};
use std::alloc::{AllocError, Global};
use std::error::Error;
use std::fmt;

/// How many bytes are asked for at a time.
const PIECE: usize = 4096;

/// Why a source wasn't read to its end.
#[derive(Clone, Copy, Debug, PartialEq, Eq)]
pub enum ReadFault {
    /// A read failed.
    Fault,
    /// Memory was wanting.
    NoMemory,
    /// More bytes than the limit are there.
    TooLong,
}

impl fmt::Display for ReadFault {
    fn fmt<W: fmt::Write>(&self, f: &mut fmt::Formatter<W>) -> fmt::Result {
        match self {
            ReadFault::Fault => write!(f, "a read failed"),
            ReadFault::NoMemory => write!(f, "out of memory"),
            ReadFault::TooLong => write!(f, "too many bytes to read"),
        }
    }
}

impl Error for ReadFault {}

impl From<SourceFault> for ReadFault {
    ghost from_gives = { λ _ e. e ≡ fault };

    fn from(_: SourceFault) -> Self {
        ReadFault::Fault
    }
}

impl From<AllocError> for ReadFault {
    ghost from_gives = { λ _ e. e ≡ no_memory };

    fn from(_: AllocError) -> Self {
        ReadFault::NoMemory
    }
}

/// All bytes that are left in `input`, where these are at most `limit`.
///
/// Reading stops at the first fault, and as soon as more than `limit` bytes were given. What was read by then is
/// given up.
pub fn read_up_to<S: Source>(
    alloc: Global,
    input: &mut S,
    limit: usize,
) -> Result<Vec<u8>, ReadFault>
    ensures all { IfOk result (λ bytes. IfSome (S.left input.old) (λ left. bytes.items ≡ left)) }
    ensures end { OnOk result (IfSome (S.left input.old) (λ _. S.left input.new ≡ Some [])) }
    ensures within { IfOk result (λ bytes. vec_len bytes ≤ limit) }

    // Too long: only where more than the limit was left. The other way round is `all` with `within`.
    ensures too_long { IsErrOf result ReadFault.TooLong
        → IfSome (S.left input.old) (λ left. limit < length left) }

    // A fault comes only where the count of faults rose, and nothing else raises it.
    ensures fault { CountsFault result (S.faults input.old) (S.faults input.new) }
    ensures never_falls { S.faults input.old ≤ S.faults input.new }

    // Whatever the answer, what is left is an end of what was left.
    ensures front { (taken : List ℕ) × Consumes (S.left input.old) (S.left input.new) taken }
{
    let mut bytes = Vec::new(alloc);
    let mut piece = [0u8; PIECE];
    loop {
        let count = input.read(&mut piece)?;
        if count == 0 {
            return Ok(bytes);
        }
        if count > limit - bytes.len() {
            return Err(ReadFault::TooLong);
        }
        bytes.extend_from_slice(&piece[..count])?;
    }
}

/// Writes all of `bytes` to `out`, piece by piece. After a fault the front that was taken by then stays written.
pub fn write_whole<O: Sink>(out: &mut O, bytes: &[u8]) -> Result<(), SinkFault>
    ensures all { OnOk result (Appends (O.contents out.old) (O.contents out.new) bytes.now) }
    ensures front { OnErr result ((count : ℕ) × (count < length bytes.now)
        × Appends (O.contents out.old) (O.contents out.new) (take count bytes.now)) }

    // A fault comes only where the count of faults rose, and nothing else raises it.
    ensures fault { OnErr result (Rose (O.faults out.old) (O.faults out.new)) }
    ensures no_fault { OnOk result (O.faults out.new ≡ O.faults out.old) }
    ensures never_falls { O.faults out.old ≤ O.faults out.new }
{
    let mut written = 0;
    while written < bytes.len() {
        written += out.write(&bytes[written..])?;
    }
    Ok(())
}
