//! The ends of a run: its statuses, and the line of each.
ghost use Rattle.std.specs.Prelude.{◌≡◌, ◌≤◌, IfOk};
ghost use Rattle.agent_run.specs.Runs.{MaySayLine, SaysLine, damaged_line, sink_at, status_line};

use agent_edge::{Sink, write_whole};
use money_units::{NoMemory, print_number};
use std::alloc::Global;

/// The number with which the program ends.
#[derive(Clone, Copy, Debug, PartialEq, Eq)]
pub struct Status(pub u8);

// Ends with a status and its line: all of the line, or the front of it that was written before a write failed.
pub(crate) fn end<O: Sink>(out: &mut O, status: u8, line: &[u8]) -> Status
    ensures status { result.0 ≡ status }
    ensures line { SaysLine line.now
        (sink_at (O.contents out.old) (O.faults out.old))
        (sink_at (O.contents out.new) (O.faults out.new)) }
    ensures never_falls { O.faults out.old ≤ O.faults out.new }
{
    let _ = write_whole(out, line);
    Status(status)
}

/// Ends for want of memory.
pub fn no_memory<O: Sink>(out: &mut O) -> Status
    ensures status { result.0 ≡ 7 }
    ensures line { SaysLine (status_line 7)
        (sink_at (O.contents out.old) (O.faults out.old))
        (sink_at (O.contents out.new) (O.faults out.new)) }
    ensures never_falls { O.faults out.old ≤ O.faults out.new }
{
    end(out, 7, b"no memory\n")
}

/// Ends for a fault of the keeper.
pub(crate) fn keeper_fault<O: Sink>(out: &mut O) -> Status
    ensures status { result.0 ≡ 5 }
    ensures line { SaysLine (status_line 5)
        (sink_at (O.contents out.old) (O.faults out.old))
        (sink_at (O.contents out.new) (O.faults out.new)) }
    ensures never_falls { O.faults out.old ≤ O.faults out.new }
{
    end(out, 5, b"keeper fault\n")
}

/// Ends where a row of the store is damaged; without its line where memory for it is wanting.
pub(crate) fn damaged<O: Sink>(alloc: Global, out: &mut O, place: u64) -> Status
    ensures status { result.0 ≡ 6 }
    ensures line { MaySayLine (damaged_line place)
        (sink_at (O.contents out.old) (O.faults out.old))
        (sink_at (O.contents out.new) (O.faults out.new)) }
    ensures never_falls { O.faults out.old ≤ O.faults out.new }
{
    match line_of_damage(alloc, place) {
        Ok(line) => end(out, 6, &line),
        Err(NoMemory) => Status(6),
    }
}

fn line_of_damage(alloc: Global, place: u64) -> Result<Vec<u8>, NoMemory>
    ensures { IfOk result (λ line. line.items ≡ damaged_line place) }
{
    let mut line = Vec::from_slice(alloc, b"damaged ")?;
    print_number(place, &mut line)?;
    line.push(b'\n')?;
    Ok(line)
}
