//! Serving connections one after another.
ghost use Rattle.std.specs.Prelude.{◌≡◌, ◌++◌, IfOk, IsTrue, OnErr, OnOk};
ghost use Rattle.agent_edge.specs.Counts.{Rose};
ghost use Rattle.agent_keeper.specs.Calls.{GoesOn};
ghost use Rattle.connection_service.specs.InTurn.{AreServed, IsUnchanged, ServesNext, door_at};
ghost use Rattle.connection_service.specs.Serving.{at_of};
ghost use Rattle.register_desk.specs.Rows.{TellsRowsOf};
ghost use Rattle.register_machine.specs.journal.Journals.{Journal};
ghost use Rattle.register_machine.specs.journal.Lawful.{IsLawful};

use crate::serving::serve_connection;
use agent_edge::{Clock, Door, DoorFault};
use agent_keeper::Keeper;
use household_fold::Steps;
use register_desk::Desk;
use std::alloc::Global;
use std::sync::ledger::Ledger as StepLedger;

// Accepts the next connection and serves it. False: the door is closed.
fn serve_next_connection<K: Keeper, D: Door, C: Clock, L: StepLedger>(
    alloc: Global,
    desk: &mut Desk,
    keeper: &mut K,
    door: &mut D,
    clock: &mut C,
    operator: &[u8],
    steps: &mut Steps<L>,
) -> Result<bool, DoorFault>
    requires attached { IsTrue (K.is_attached keeper.old) }
    requires told { TellsRowsOf (K.tells keeper.old) desk.old.book.journal }
    requires lawful { IsLawful desk.old.book.journal }
    ensures served { IfOk result (ServesNext operator.now
        (at_of desk.old.book.journal (K.faults keeper.old) (C.last clock.old) (C.coming clock.old))
        (at_of desk.new.book.journal (K.faults keeper.new) (C.last clock.new) (C.coming clock.new))
        (door_at (D.is_connected door.old) (D.told door.old) (D.link_faults door.old))
        (door_at (D.is_connected door.new) (D.told door.new) (D.link_faults door.new))) }
    ensures kept { OnErr result (IsUnchanged
        (at_of desk.old.book.journal (K.faults keeper.old) (C.last clock.old) (C.coming clock.old))
        (at_of desk.new.book.journal (K.faults keeper.new) (C.last clock.new) (C.coming clock.new))
        (door_at (D.is_connected door.old) (D.told door.old) (D.link_faults door.old))
        (door_at (D.is_connected door.new) (D.told door.new) (D.link_faults door.new))) }
    ensures grown { (more : Journal) × (desk.new.book.journal ≡ desk.old.book.journal ++ more) }
    ensures lawful { IsLawful desk.new.book.journal }
    ensures told { TellsRowsOf (K.tells keeper.new) desk.new.book.journal }
    ensures attached { IsTrue (K.is_attached keeper.new) }
    ensures was_honest { K.is_honest keeper.new → K.is_honest keeper.old }
    ensures goes_on { GoesOn K.moment K.gave keeper.old keeper.new }
    ensures fault { OnErr result (Rose (D.door_faults door.old) (D.door_faults door.new)) }
    ensures no_fault { OnOk result (D.door_faults door.new ≡ D.door_faults door.old) }
{
    if !door.accept()? {
        return Ok(false);
    }
    let _ = serve_connection(alloc, desk, keeper, door, clock, operator, steps);
    Ok(true)
}

/// Accepts and serves connections one after another, until so many were served or the door is closed. A connection whose link
/// fails ends, and the next one is served.
///
/// Each is served behind the journal that those before it left. The one fault is that of an `accept`: what was served before
/// stays.
pub fn serve_connections<K: Keeper, D: Door, C: Clock, L: StepLedger>(
    alloc: Global,
    desk: &mut Desk,
    keeper: &mut K,
    door: &mut D,
    clock: &mut C,
    operator: &[u8],
    most: u32,
    steps: &mut Steps<L>,
) -> Result<(), DoorFault>
    requires attached { IsTrue (K.is_attached keeper.old) }
    requires told { TellsRowsOf (K.tells keeper.old) desk.old.book.journal }
    ensures served { AreServed operator.now most
        (at_of desk.old.book.journal (K.faults keeper.old) (C.last clock.old) (C.coming clock.old))
        (door_at (D.is_connected door.old) (D.told door.old) (D.link_faults door.old))
        result
        (door_at (D.is_connected door.new) (D.told door.new) (D.link_faults door.new))
        (at_of desk.new.book.journal (K.faults keeper.new)
        (C.last clock.new) (C.coming clock.new)) }
    ensures grown { (more : Journal) × (desk.new.book.journal ≡ desk.old.book.journal ++ more) }
    ensures lawful { IsLawful desk.new.book.journal }
    ensures told { TellsRowsOf (K.tells keeper.new) desk.new.book.journal }
    ensures attached { IsTrue (K.is_attached keeper.new) }
    ensures was_honest { K.is_honest keeper.new → K.is_honest keeper.old }
    ensures goes_on { GoesOn K.moment K.gave keeper.old keeper.new }

    // An accept failed exactly where the door's own count rose.
    ensures fault { OnErr result (Rose (D.door_faults door.old) (D.door_faults door.new)) }
    ensures no_fault { OnOk result (D.door_faults door.new ≡ D.door_faults door.old) }
{
    desk.journal_is_lawful();
    for _ in 0..most {
        if !serve_next_connection(alloc, desk, keeper, door, clock, operator, steps)? {
            return Ok(());
        }
    }
    Ok(())
}
