//! What the reading statements answer.
ghost use Rattle.std.specs.Prelude.{◌≡◌, ◌<◌, ◌≤◌, ◌^◌, pos, List, [], ◌∷◌, Ok, false, Some, None, IfOk, OnErr, IsErrOf, IsOkUnless, if◌then◌else◌};
ghost use Rattle.std.specs.Bool.{OnFalse};
ghost use Rattle.sqlite.specs.Held.{state};
ghost use Rattle.sqlite.specs.State.{HasCleanDisk, Shown};
ghost use Rattle.sqlite_value.specs.Order.{Row as SqlRow};
ghost use Rattle.sqlite_value.specs.declared.value.Value.TheVariants.{Int};
ghost use Rattle.sqlite_keeper.specs.Answers.{number_in, found_in};

use crate::faults::fault_of;
use crate::tables::{COUNT_ROWS, READ_CHECK, READ_ROW};
use agent_keeper::KeepFault;
use sqlite::types::ValueRef;
use sqlite::{Alter, Connection, Row, params};

/// How many rows the journal has.
pub fn count_rows<S: Alter>(conn: &mut Connection<S>) -> Result<u64, KeepFault>
    ensures shown { HasCleanDisk (state S.Store conn.new)
        → IfOk result
        (λ number.
        (rows : List SqlRow)
        × Shown COUNT_ROWS.now [] (state S.Store conn.old) (state S.Store conn.new) rows
        × (number_in rows ≡ Some number)) }
{
    let answer = conn.query_all(COUNT_ROWS, &[]).map_err(fault_of)?;
    number_of(&answer)
}

/// Reads the row of the journal at a place, from 0. No place is above the greatest signed number of 64 bits.
pub fn find_row<S: Alter>(
    conn: &mut Connection<S>,
    seq: u64,
    into: &mut Vec<u8>,
) -> Result<bool, KeepFault>
    ensures shown { HasCleanDisk (state S.Store conn.new)
        → seq < 2 ^ 63
        → IfOk result
        (λ found.
        (rows : List SqlRow)
        × Shown READ_ROW.now (Int (pos seq) ∷ []) (state S.Store conn.old)
        (state S.Store conn.new) rows
        × (found_in rows ≡ Some (if found then Some into.new.items else None))) }
    ensures beyond { 2 ^ 63 ≤ seq → result ≡ Ok false }
    ensures missing { IfOk result (λ found. OnFalse found (into.new.items ≡ [])) }
    ensures refused { OnErr result (into.new.items ≡ []) }
{
    into.clear();
    let Ok(place) = i64::try_from(seq) else {
        return Ok(false);
    };
    let answer = conn.query_all(READ_ROW, params![place]).map_err(fault_of)?;
    hand_out(&answer, into)
}

/// Reads the checkpoint row of a household at a sheet.
pub fn find_check<S: Alter>(
    conn: &mut Connection<S>,
    household: u32,
    sheet: u32,
    into: &mut Vec<u8>,
) -> Result<bool, KeepFault>
    ensures shown { HasCleanDisk (state S.Store conn.new)
        → IfOk result
        (λ found.
        (rows : List SqlRow)
        × Shown READ_CHECK.now (Int (pos household) ∷ Int (pos sheet) ∷ [])
        (state S.Store conn.old) (state S.Store conn.new) rows
        × (found_in rows ≡ Some (if found then Some into.new.items else None))) }
    ensures missing { IfOk result (λ found. OnFalse found (into.new.items ≡ [])) }
    ensures refused { OnErr result (into.new.items ≡ []) }
{
    into.clear();
    let answer = conn
        .query_all(READ_CHECK, params![household, sheet])
        .map_err(fault_of)?;
    hand_out(&answer, into)
}

// The number that the one row holds. Any other answer is a fault of the store.
fn number_of(answer: &[Row]) -> Result<u64, KeepFault>
    ensures ok { IfOk result (λ number. number_in answer.now ≡ Some number) }
    ensures failed { IsErrOf result KeepFault.Failed → number_in answer.now ≡ None }
    ensures no_other { IsOkUnless result KeepFault.Failed }
{
    let [row] = answer else {
        return Err(KeepFault::Failed);
    };
    match row.get_ref(0) {
        Ok(ValueRef::Int(number)) if number >= 0 => Ok(number as u64),
        _ => Err(KeepFault::Failed),
    }
}

// Leaves in `into` the bytes of the one row, and nothing where there is no row. Any other answer is a fault of the
// store.
fn hand_out(answer: &[Row], into: &mut Vec<u8>) -> Result<bool, KeepFault>
    ensures exact { IfOk result
        (λ found. found_in answer.now ≡ Some (if found then Some into.new.items else None)) }
    ensures failed { IsErrOf result KeepFault.Failed → found_in answer.now ≡ None }
    ensures missing { IfOk result (λ found. OnFalse found (into.new.items ≡ [])) }
    ensures refused { OnErr result (into.new.items ≡ []) }
{
    into.clear();
    match answer {
        [] => Ok(false),
        [row] => match row.get_ref(0) {
            Ok(ValueRef::Blob(bytes)) => {
                into.extend_from_slice(bytes)?;
                Ok(true)
            }
            _ => Err(KeepFault::Failed),
        },
        _ => Err(KeepFault::Failed),
    }
}
