//! The command `load`: it runs the register over a generated book without a store, and prints its summary.
ghost use Rattle.std.specs.Prelude.{◌≡◌, ◌≤◌, ◌∷◌, []};
ghost use Rattle.std.specs.Io.KnownBytes.{Appends};
ghost use Rattle.agent_run.specs.Ends.{is_one_of};
ghost use Rattle.agent_run.specs.Runs.{SaysLine, sink_at, status_line};
ghost use Rattle.agent_edge.specs.Counts.{Rose};
ghost use Rattle.load_requests.specs.Summaries as summary;
ghost use Rattle.script_answers.specs.Runs.{AppendsFront};

use crate::ends::{Status, no_memory};
use agent_edge::{Sink, write_whole};
use household_fold::Steps;
use load_runs::load_text;
use money_units::NoMemory;
use std::alloc::Global;
use std::sync::ledger::Ledger as StepLedger;

// Ends with the summary, as far as it can be written.
fn printed<O: Sink>(out: &mut O, text: &[u8]) -> Status
    ensures known { is_one_of (0 ∷ 4 ∷ []) result.0 }
    ensures whole { result.0 ≡ 0 → Appends (O.contents out.old) (O.contents out.new) text.now }
    ensures no_fault { result.0 ≡ 0 → O.faults out.new ≡ O.faults out.old }
    ensures front { result.0 ≡ 4
        → AppendsFront (O.contents out.old) (O.contents out.new) text.now }
    ensures fault { result.0 ≡ 4 → Rose (O.faults out.old) (O.faults out.new) }
{
    if write_whole(out, text).is_err() {
        return Status(4);
    }
    Status(0)
}

/// Prints the summary of a load.
pub(crate) fn load<O: Sink, L: StepLedger>(
    alloc: Global,
    number: u32,
    households: u32,
    days: u32,
    out: &mut O,
    steps: &mut Steps<L>,
) -> Status
    requires some { 1 ≤ households }
    requires few { households ≤ 1000 }
    requires short { days ≤ 2000 }
    ensures known { is_one_of (0 ∷ 4 ∷ 7 ∷ []) result.0 }
    ensures whole { result.0 ≡ 0 → Appends (O.contents out.old) (O.contents out.new)
        (summary.load_text (record { number = number; households = households; days = days })) }
    ensures no_fault { result.0 ≡ 0 → O.faults out.new ≡ O.faults out.old }
    ensures front { result.0 ≡ 4 → AppendsFront (O.contents out.old) (O.contents out.new)
        (summary.load_text (record { number = number; households = households; days = days })) }
    ensures fault { result.0 ≡ 4 → Rose (O.faults out.old) (O.faults out.new) }
    ensures no_memory { result.0 ≡ 7
        → SaysLine (status_line 7) (sink_at (O.contents out.old) (O.faults out.old))
        (sink_at (O.contents out.new) (O.faults out.new)) }
{
    match load_text(alloc, number, households, days, steps) {
        Ok(text) => printed(out, &text),
        Err(NoMemory) => no_memory(out),
    }
}
