//! One commit, as one transaction.
ghost use Rattle.std.specs.Prelude.{◌≡◌, ◌≤◌, ◌∷◌, [], true, map, Ok, Err, IsTrue, OnOk, OnErr, if◌then◌else◌};
ghost use Rattle.sqlite.specs.Held.{state};
ghost use Rattle.sqlite.specs.State.{HasCleanDisk, Survives};
ghost use Rattle.sqlite.specs.Values.{bound};
ghost use Rattle.sqlite_keeper.specs.Commits.{row_added, check_put, check_removed, rows_added, changes_of, CommitsNothing, Runs, RunsAll, MakesAll};

use crate::faults::fault_of;
use crate::tables::{INSERT_ROW, PUT_CHECK, REMOVE_CHECK};
use agent_keeper::{Batch, CheckName, CheckPut, KeepFault};
use money_units::Bytes;
use sqlite::types::ValueRef;
use sqlite::{Alter, Connection, Transaction, params};

/// Makes a batch part of the two tables, all of it or nothing, its rows from the place `base` on. The transaction rolls
/// back where an error drops it.
pub(crate) fn commit_batch<S: Alter>(
    conn: &mut Connection<S>,
    base: u64,
    batch: &Batch,
) -> Result<(), KeepFault>
    ensures whole { HasCleanDisk (state S.Store conn.new)
        → OnOk result
        (MakesAll (state S.Store) (changes_of base batch.now)
        (record conn.old { in_transaction = true })
        (state S.Store conn.new).committed
        × ((state S.Store conn.new).now ≡ (state S.Store conn.new).committed)) }
    ensures neither { HasCleanDisk (state S.Store conn.new)
        → IsTrue (state S.Store conn.new).is_open
        → OnErr result
        (((state S.Store conn.new).now ≡ (state S.Store conn.old).now)
        × ((state S.Store conn.new).committed ≡ (state S.Store conn.old).committed)) }
    ensures crash { Survives (state S.Store conn.old) (state S.Store conn.new)
        (λ trees. (db : _)
        × MakesAll (state S.Store) (changes_of base batch.now)
        (record conn.old { in_transaction = true }) db
        × (trees ≡ db.trees)) }
{
    if !conn.is_autocommit() {
        return Err(KeepFault::Failed);
    }
    let mut changes = conn.transaction();
    make_changes(&mut changes, base, batch)?;
    changes.commit().map_err(fault_of)?;
    Ok(())
}

// The statements of a batch, up to the first that fails.
fn make_changes<S: Alter>(
    changes: &mut Transaction<'_, S>,
    base: u64,
    batch: &Batch,
) -> Result<(), KeepFault>
    ensures same_reference { changes.new.conn.ghost_name ≡ changes.old.conn.ghost_name }
    ensures ran { HasCleanDisk (state S.Store changes.new.conn.now)
        → IsTrue (state S.Store changes.old.conn.now).in_transaction
        → OnOk result
        (RunsAll (state S.Store) (changes_of base batch.now)
        changes.old.conn.now changes.new.conn.now) }
    ensures nothing { CommitsNothing (state S.Store changes.old.conn.now)
        (state S.Store changes.new.conn.now) }
{
    insert_rows(changes, base, batch.rows.as_slice())?;
    put_checks(changes, batch.puts.as_slice())?;
    remove_checks(changes, batch.removes.as_slice())?;
    Ok(())
}

fn insert_rows<S: Alter>(
    changes: &mut Transaction<'_, S>,
    base: u64,
    rows: &[Bytes],
) -> Result<(), KeepFault>
    ensures same_reference { changes.new.conn.ghost_name ≡ changes.old.conn.ghost_name }
    ensures ran { HasCleanDisk (state S.Store changes.new.conn.now)
        → IsTrue (state S.Store changes.old.conn.now).in_transaction
        → OnOk result
        (RunsAll (state S.Store) (rows_added base rows.now)
        changes.old.conn.now changes.new.conn.now) }
    ensures nothing { CommitsNothing (state S.Store changes.old.conn.now)
        (state S.Store changes.new.conn.now) }
{
    let mut place = base;
    for row in rows {
        insert_row(changes, place, row.as_slice())?;
        place = place.checked_add(1).ok_or(KeepFault::Failed)?;
    }
    Ok(())
}

fn put_checks<S: Alter>(
    changes: &mut Transaction<'_, S>,
    puts: &[CheckPut],
) -> Result<(), KeepFault>
    ensures same_reference { changes.new.conn.ghost_name ≡ changes.old.conn.ghost_name }
    ensures ran { HasCleanDisk (state S.Store changes.new.conn.now)
        → IsTrue (state S.Store changes.old.conn.now).in_transaction
        → OnOk result
        (RunsAll (state S.Store) (map check_put puts.now)
        changes.old.conn.now changes.new.conn.now) }
    ensures nothing { CommitsNothing (state S.Store changes.old.conn.now)
        (state S.Store changes.new.conn.now) }
{
    for put in puts {
        put_check(changes, put)?;
    }
    Ok(())
}

fn remove_checks<S: Alter>(
    changes: &mut Transaction<'_, S>,
    names: &[CheckName],
) -> Result<(), KeepFault>
    ensures same_reference { changes.new.conn.ghost_name ≡ changes.old.conn.ghost_name }
    ensures ran { HasCleanDisk (state S.Store changes.new.conn.now)
        → IsTrue (state S.Store changes.old.conn.now).in_transaction
        → OnOk result
        (RunsAll (state S.Store) (map check_removed names.now)
        changes.old.conn.now changes.new.conn.now) }
    ensures nothing { CommitsNothing (state S.Store changes.old.conn.now)
        (state S.Store changes.new.conn.now) }
{
    for name in names {
        remove_check(changes, *name)?;
    }
    Ok(())
}

fn insert_row<S: Alter>(
    changes: &mut Transaction<'_, S>,
    place: u64,
    bytes: &[u8],
) -> Result<(), KeepFault>
    ensures same_reference { changes.new.conn.ghost_name ≡ changes.old.conn.ghost_name }
    ensures ran { HasCleanDisk (state S.Store changes.new.conn.now)
        → IsTrue (state S.Store changes.old.conn.now).in_transaction
        → OnOk result
        (Runs (state S.Store) (row_added place bytes.now)
        changes.old.conn.now changes.new.conn.now) }
    ensures nothing { CommitsNothing (state S.Store changes.old.conn.now)
        (state S.Store changes.new.conn.now) }
{
    let Ok(place) = i64::try_from(place) else {
        return Err(KeepFault::Failed);
    };
    run_change(changes, INSERT_ROW, params![place, bytes], 1, 1)
}

fn put_check<S: Alter>(changes: &mut Transaction<'_, S>, put: &CheckPut) -> Result<(), KeepFault>
    ensures same_reference { changes.new.conn.ghost_name ≡ changes.old.conn.ghost_name }
    ensures ran { HasCleanDisk (state S.Store changes.new.conn.now)
        → IsTrue (state S.Store changes.old.conn.now).in_transaction
        → OnOk result
        (Runs (state S.Store) (check_put put.now)
        changes.old.conn.now changes.new.conn.now) }
    ensures nothing { CommitsNothing (state S.Store changes.old.conn.now)
        (state S.Store changes.new.conn.now) }
{
    let bytes = put.bytes.as_slice();
    run_change(
        changes,
        PUT_CHECK,
        params![put.household, put.sheet, bytes],
        1,
        1,
    )
}

fn remove_check<S: Alter>(
    changes: &mut Transaction<'_, S>,
    name: CheckName,
) -> Result<(), KeepFault>
    ensures same_reference { changes.new.conn.ghost_name ≡ changes.old.conn.ghost_name }
    ensures ran { HasCleanDisk (state S.Store changes.new.conn.now)
        → IsTrue (state S.Store changes.old.conn.now).in_transaction
        → OnOk result
        (Runs (state S.Store) (check_removed name)
        changes.old.conn.now changes.new.conn.now) }
    ensures nothing { CommitsNothing (state S.Store changes.old.conn.now)
        (state S.Store changes.new.conn.now) }
{
    run_change(
        changes,
        REMOVE_CHECK,
        params![name.household, name.sheet],
        0,
        1,
    )
}

// Runs one statement. One that changes another number of rows than it can over these tables is a fault of the store.
fn run_change<S: Alter>(
    changes: &mut Transaction<'_, S>,
    sql: &str,
    params: &[ValueRef<'_>],
    least: usize,
    most: usize,
) -> Result<(), KeepFault>
    ensures same_reference { changes.new.conn.ghost_name ≡ changes.old.conn.ghost_name }
    ensures ran { HasCleanDisk (state S.Store changes.new.conn.now)
        → IsTrue (state S.Store changes.old.conn.now).in_transaction
        → OnOk result
        (Runs (state S.Store)
        (record { text = sql.now; params = bound params.now; least = least; most = most })
        changes.old.conn.now changes.new.conn.now) }
    ensures nothing { CommitsNothing (state S.Store changes.old.conn.now)
        (state S.Store changes.new.conn.now) }
{
    let changed = changes.execute(sql, params).map_err(fault_of)?;
    if least <= changed && changed <= most {
        Ok(())
    } else {
        Err(KeepFault::Failed)
    }
}
