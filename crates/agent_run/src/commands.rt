//! The top call of the program.
ghost use Rattle.std.specs.Prelude.{map, Some};
ghost use Rattle.std.specs.String.{string_bytes};
ghost use Rattle.agent_run.specs.Ends.{Ends, IsInRange, sides_of};
ghost use Rattle.agent_run.specs.Commands as spec;
ghost use Rattle.agent_run.specs.Views.{command_view};
ghost use Rattle.connection_service.specs.Answers.{clock_at};
ghost use Rattle.connection_service.specs.InTurn.{door_at};

use crate::applying::apply;
use crate::command::{Command, command_of};
use crate::ends::{Status, end, no_memory};
use crate::loading::load;
use crate::serving::serve;
use agent_edge::{Clock, Door, Sink, Source};
use agent_keeper::Keeper;
use household_fold::Steps;
use money_units::NoMemory;
use std::alloc::Global;
use std::sync::ledger::Ledger as StepLedger;

// Does what a command says.
fn do_command<K: Keeper, D: Door, C: Clock, S: Source, O: Sink, L: StepLedger>(
    alloc: Global,
    command: &Command<'_>,
    keeper: &mut K,
    door: &mut D,
    clock: &mut C,
    input: &mut S,
    out: &mut O,
    steps: &mut Steps<L>,
) -> Status
    requires { IsInRange command.now }
    ensures { Ends (Some (command_view command.now)) result.0
        (sides_of (K.tells keeper.old, K.faults keeper.old) (
          door_at (D.is_connected door.old) (D.told door.old) (D.link_faults door.old),
          D.door_faults door.old,
        )
        (clock_at (C.last clock.old) (C.coming clock.old))
        (S.left input.old, S.faults input.old) (O.contents out.old, O.faults out.old))
        (sides_of (K.tells keeper.new, K.faults keeper.new) (
          door_at (D.is_connected door.new) (D.told door.new) (D.link_faults door.new),
          D.door_faults door.new,
        )
        (clock_at (C.last clock.new) (C.coming clock.new))
        (S.left input.new, S.faults input.new) (O.contents out.new, O.faults out.new)) }
{
    match *command {
        Command::Apply { store, key } => apply(alloc, store, key, keeper, input, out, steps),
        Command::Load {
            number,
            households,
            days,
        } => load(alloc, number, households, days, out, steps),
        Command::Serve {
            store,
            port,
            key,
            connections,
        } => serve(
            alloc,
            store,
            port,
            key,
            connections,
            keeper,
            door,
            clock,
            out,
            steps,
        ),
    }
}

/// A run of the program on these words (those after the program's name), over this store, this door and clock, this input and
/// this output.
///
/// `apply --store P --key W` opens the store P, reads the script from `input`, and answers each of its items with one line on
/// `out`; what an item brings is kept before its line is written, and its line is written before the next item is begun.
/// `serve --store P --port N --key W --connections M` opens the store, listens at the port N, and serves connections one after
/// another until M were served or the door is closed; the moment of a request is the greater of the clock's reading and the
/// journal's last moment, in seconds, what it brings is kept before its reply is written, and nothing is printed.
/// `load --number n --households h --days d` writes the summary of a generated book, and touches neither store nor input.
///
/// The status is that of the first cause, whether or not its line could be written: 0 all of this was done; 1 the words don't
/// meet the rule; 2 the script has more than 16 MiB; 3 a read failed; 4 a write failed; 5 the keeper failed; 6 a row of the
/// store is damaged; 7 want of memory; 8 the door couldn't listen or accept. Serving ends with 5, 6 and 7 only before the first
/// connection: a fault of a connection ends that connection, and a fault of the keeper or want of memory at an item is its
/// reply. All but 0 and 4 print a line, 6 where there is memory for it.
pub fn run<K: Keeper, D: Door, C: Clock, S: Source, O: Sink, L: StepLedger>(
    alloc: Global,
    words: &[String],
    keeper: &mut K,
    door: &mut D,
    clock: &mut C,
    input: &mut S,
    out: &mut O,
    steps: &mut Steps<L>,
) -> Status
    ensures ends { Ends (spec.command_of (map string_bytes words.now)) result.0
        (sides_of (K.tells keeper.old, K.faults keeper.old) (
          door_at (D.is_connected door.old) (D.told door.old) (D.link_faults door.old),
          D.door_faults door.old,
        )
        (clock_at (C.last clock.old) (C.coming clock.old))
        (S.left input.old, S.faults input.old) (O.contents out.old, O.faults out.old))
        (sides_of (K.tells keeper.new, K.faults keeper.new) (
          door_at (D.is_connected door.new) (D.told door.new) (D.link_faults door.new),
          D.door_faults door.new,
        )
        (clock_at (C.last clock.new) (C.coming clock.new))
        (S.left input.new, S.faults input.new) (O.contents out.new, O.faults out.new)) }
{
    match command_of(alloc, words) {
        Ok(found) => match found {
            Some(command) => do_command(alloc, &command, keeper, door, clock, input, out, steps),
            None => end(out, 1, b"usage\n"),
        },
        Err(NoMemory) => no_memory(out),
    }
}
