//! The command `serve`: it opens the store, listens at a port, and serves connections one after another.
ghost use Rattle.std.specs.Prelude.{◌≡◌, ◌≢◌, ◌++◌, [], ◌∷◌, IsTrue, OnErr, OnOk, ℕ};
ghost use Rattle.agent_run.specs.Ends.{is_one_of};
ghost use Rattle.agent_run.specs.Runs.{AreServedBehind, AreServedFrom, GrowLawfully, IsUntouched, MaySayLine, SaysLine, TellSame, TellsLawful, damaged_line, door_failed, service_at, sink_at, status_line};
ghost use Rattle.agent_edge.specs.Counts.{Rose};
ghost use Rattle.agent_keeper.specs.Calls.{Rose as KeeperRose};
ghost use Rattle.agent_keeper.specs.Content.{Content};
ghost use Rattle.connection_service.specs.Answers.{clock_at};
ghost use Rattle.connection_service.specs.InTurn.{AreServed, door_at};
ghost use Rattle.connection_service.specs.Serving.{at_of};
ghost use Rattle.register_desk.specs.Rows.{IsDamagedAt, TellsRowsOf, rows_of};
ghost use Rattle.register_machine.specs.journal.Journals.{Journal};
ghost use Rattle.register_machine.specs.journal.Lawful.{IsLawful};

use crate::ends::{Status, damaged, end, keeper_fault, no_memory};
use crate::opening::open;
use agent_edge::{Clock, Door, DoorFault, Sink};
use agent_keeper::Keeper;
use connection_service::serve_connections;
use household_fold::Steps;
use register_desk::{Desk, StartFault};
use std::alloc::Global;
use std::sync::ledger::Ledger as StepLedger;

// Listens, and serves connections behind the journal of a desk.
fn listen_and_serve<K: Keeper, D: Door, C: Clock, L: StepLedger>(
    alloc: Global,
    port: u16,
    key: &[u8],
    connections: u32,
    desk: &mut Desk,
    keeper: &mut K,
    door: &mut D,
    clock: &mut C,
    steps: &mut Steps<L>,
) -> Result<(), DoorFault>
    requires attached { IsTrue (K.is_attached keeper.old) }
    requires told { TellsRowsOf (K.tells keeper.old) desk.old.book.journal }
    ensures served { AreServed key.now connections
        (at_of desk.old.book.journal (K.faults keeper.old) (C.last clock.old) (C.coming clock.old))
        (door_at (D.is_connected door.old) (D.told door.old) (D.link_faults door.old))
        result
        (door_at (D.is_connected door.new) (D.told door.new) (D.link_faults door.new))
        (at_of desk.new.book.journal (K.faults keeper.new)
        (C.last clock.new) (C.coming clock.new)) }
    ensures grown { (more : Journal) × (desk.new.book.journal ≡ desk.old.book.journal ++ more) }
    ensures told { TellsRowsOf (K.tells keeper.new) desk.new.book.journal }
    ensures was_honest { K.is_honest keeper.new → K.is_honest keeper.old }
    ensures fault { OnErr result (Rose (D.door_faults door.old) (D.door_faults door.new)) }
    ensures no_fault { OnOk result (D.door_faults door.new ≡ D.door_faults door.old) }
{
    door.listen(port)?;
    serve_connections(alloc, desk, keeper, door, clock, key, connections, steps)
}

// Serves behind the journal of a store that was opened.
fn serve_opened<K: Keeper, D: Door, C: Clock, O: Sink, L: StepLedger>(
    alloc: Global,
    port: u16,
    key: &[u8],
    connections: u32,
    mut desk: Desk,
    keeper: &mut K,
    door: &mut D,
    clock: &mut C,
    out: &mut O,
    steps: &mut Steps<L>,
) -> Status
    requires attached { IsTrue (K.is_attached keeper.old) }
    requires told { TellsRowsOf (K.tells keeper.old) desk.book.journal }
    ensures known { is_one_of (0 ∷ 8 ∷ []) result.0 }
    ensures served { result.0 ≡ 0 → AreServedBehind key.now connections
        (at_of desk.book.journal (K.faults keeper.old) (C.last clock.old) (C.coming clock.old))
        (door_at (D.is_connected door.old) (D.told door.old) (D.link_faults door.old))
        (Ok tt)
        (service_at (K.tells keeper.new) (K.faults keeper.new)
        (door_at (D.is_connected door.new) (D.told door.new) (D.link_faults door.new))
        (clock_at (C.last clock.new) (C.coming clock.new))) }
    ensures silent { result.0 ≡ 0 → O.contents out.new ≡ O.contents out.old }
    ensures no_write_fault { result.0 ≡ 0 → O.faults out.new ≡ O.faults out.old }
    ensures served_before { result.0 ≡ 8 → AreServedBehind key.now connections
        (at_of desk.book.journal (K.faults keeper.old) (C.last clock.old) (C.coming clock.old))
        (door_at (D.is_connected door.old) (D.told door.old) (D.link_faults door.old))
        door_failed
        (service_at (K.tells keeper.new) (K.faults keeper.new)
        (door_at (D.is_connected door.new) (D.told door.new) (D.link_faults door.new))
        (clock_at (C.last clock.new) (C.coming clock.new))) }
    ensures door_line { result.0 ≡ 8
        → SaysLine (status_line 8) (sink_at (O.contents out.old) (O.faults out.old))
        (sink_at (O.contents out.new) (O.faults out.new)) }
    ensures door_fault { result.0 ≡ 8 → Rose (D.door_faults door.old) (D.door_faults door.new) }
    ensures no_door_fault { result.0 ≢ 8 → D.door_faults door.new ≡ D.door_faults door.old }
    ensures grown { (kept : Content) → K.tells keeper.new kept
        → (more : Journal) × IsLawful (desk.book.journal ++ more)
        × (kept.rows ≡ rows_of (desk.book.journal ++ more)) }
    ensures was_honest { K.is_honest keeper.new → K.is_honest keeper.old }
{
    let ends = listen_and_serve(
        alloc,
        port,
        key,
        connections,
        &mut desk,
        keeper,
        door,
        clock,
        steps,
    );
    desk.journal_is_lawful();
    desk.close();
    match ends {
        Ok(()) => Status(0),
        Err(DoorFault) => end(out, 8, b"door fault\n"),
    }
}

/// Opens the store, listens at the port, and serves connections until so many were served or the door is closed.
pub(crate) fn serve<K: Keeper, D: Door, C: Clock, O: Sink, L: StepLedger>(
    alloc: Global,
    store: &str,
    port: u16,
    key: &[u8],
    connections: u32,
    keeper: &mut K,
    door: &mut D,
    clock: &mut C,
    out: &mut O,
    steps: &mut Steps<L>,
) -> Status
    ensures known { is_one_of (0 ∷ 5 ∷ 6 ∷ 7 ∷ 8 ∷ []) result.0 }
    ensures served { result.0 ≡ 0 → AreServedFrom key.now connections (Ok tt)
        (service_at (K.tells keeper.old) (K.faults keeper.old)
        (door_at (D.is_connected door.old) (D.told door.old) (D.link_faults door.old))
        (clock_at (C.last clock.old) (C.coming clock.old)))
        (service_at (K.tells keeper.new) (K.faults keeper.new)
        (door_at (D.is_connected door.new) (D.told door.new) (D.link_faults door.new))
        (clock_at (C.last clock.new) (C.coming clock.new))) }
    ensures silent { result.0 ≡ 0 → O.contents out.new ≡ O.contents out.old }
    ensures no_write_fault { result.0 ≡ 0 → O.faults out.new ≡ O.faults out.old }
    ensures keeper_fault { result.0 ≡ 5 → KeeperRose (K.faults keeper.old) (K.faults keeper.new) }
    ensures failed { result.0 ≡ 5
        → IsUntouched (status_line 5) (K.tells keeper.old) (K.tells keeper.new)
        (sink_at (O.contents out.old) (O.faults out.old))
        (sink_at (O.contents out.new) (O.faults out.new)) }
    ensures damaged { result.0 ≡ 6 → (place : ℕ)
        × MaySayLine (damaged_line place) (sink_at (O.contents out.old) (O.faults out.old))
        (sink_at (O.contents out.new) (O.faults out.new))
        × TellSame (K.tells keeper.old) (K.tells keeper.new)
        × ((kept : Content) → K.tells keeper.new kept → IsDamagedAt place kept.rows) }
    ensures not_damaged { is_one_of (0 ∷ 8 ∷ []) result.0 → TellsLawful (K.tells keeper.new) }
    ensures no_memory { result.0 ≡ 7
        → IsUntouched (status_line 7) (K.tells keeper.old) (K.tells keeper.new)
        (sink_at (O.contents out.old) (O.faults out.old))
        (sink_at (O.contents out.new) (O.faults out.new)) }
    ensures unopened { is_one_of (5 ∷ 6 ∷ 7 ∷ []) result.0
        → (door.new ≡ door.old) × (clock.new ≡ clock.old) }
    ensures served_before { result.0 ≡ 8 → AreServedFrom key.now connections door_failed
        (service_at (K.tells keeper.old) (K.faults keeper.old)
        (door_at (D.is_connected door.old) (D.told door.old) (D.link_faults door.old))
        (clock_at (C.last clock.old) (C.coming clock.old)))
        (service_at (K.tells keeper.new) (K.faults keeper.new)
        (door_at (D.is_connected door.new) (D.told door.new) (D.link_faults door.new))
        (clock_at (C.last clock.new) (C.coming clock.new))) }
    ensures door_line { result.0 ≡ 8
        → SaysLine (status_line 8) (sink_at (O.contents out.old) (O.faults out.old))
        (sink_at (O.contents out.new) (O.faults out.new)) }
    ensures door_fault { result.0 ≡ 8 → Rose (D.door_faults door.old) (D.door_faults door.new) }
    ensures no_door_fault { result.0 ≢ 8 → D.door_faults door.new ≡ D.door_faults door.old }
    ensures kept { (first last : Content) → K.tells keeper.old first → K.tells keeper.new last
        → GrowLawfully first.rows last.rows }
{
    match open(alloc, store, keeper, steps) {
        Ok(desk) => serve_opened(
            alloc,
            port,
            key,
            connections,
            desk,
            keeper,
            door,
            clock,
            out,
            steps,
        ),
        Err(StartFault::Keeper) => keeper_fault(out),
        Err(StartFault::Damaged(place)) => damaged(alloc, out, place),
        Err(StartFault::NoMemory) => no_memory(out),
    }
}
