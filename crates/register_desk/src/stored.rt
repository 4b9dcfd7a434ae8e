//! The rows of a store, read one after the other into the books.
ghost use Rattle.std.specs.Prelude.{◌≡◌, ◌≤◌, ◌<◌, ◌+◌, [], Err, None, Some, IfOk, IfSome, IsTrue, OnOk, slice_get, ℕ};
ghost use Rattle.agent_keeper.specs.Calls.{GoesOn, OnlyReads, Rose};
ghost use Rattle.agent_keeper.specs.Content.{Content};
ghost use Rattle.register_desk.specs.StepBounds.{most_steps};
ghost use Rattle.desk_books.specs.BooksOfJournals.{AreBooksOf, ShowTheSame};
ghost use Rattle.desk_books.specs.ReadyChanges.{IsReady};
ghost use Rattle.event_rows.specs.InForm.{InForm};
ghost use Rattle.event_rows.specs.Rows.{event_row};
ghost use Rattle.register_desk.specs.Opening.{FindsNone, OpensRow, OpensRows, StopsAt};
ghost use Rattle.register_desk.specs.OpeningBounds.{TakesUpToBad, TakesWhereBad, opening_bound};
ghost use Rattle.register_desk.specs.Rows.{FollowsAsNone, IsDesk};
ghost use Rattle.register_desk.specs.declared.faults.StartFault.{StartFault as Fault};

use crate::faults::StartFault;
use crate::following::follows;
use crate::ready_change::ReadyChange;
use agent_keeper::Keeper;
use desk_books::DeskBooks;
use event_rows::decode;
use household_fold::Steps;
use money_units::NoMemory;
use std::alloc::Global;
use std::sync::ledger::Ledger as StepLedger;

// What the event of a row changes, where it is one's row and follows.
fn change_of_row<L: StepLedger>(
    alloc: Global,
    books: &mut DeskBooks,
    row: &[u8],
    steps: &mut Steps<L>,
) -> Result<Option<ReadyChange>, NoMemory>
    requires { AreBooksOf books.old.book.journal books.old }
    ensures same { ShowTheSame books.old books.new }
    ensures journal { books.new.book.journal ≡ books.old.book.journal }
    ensures row { IfOk result (λ found. IfSome found (λ change. row.now ≡ event_row change.event)) }
    ensures in_form { IfOk result (λ found. IfSome found (λ change. InForm change.event)) }
    ensures ready { IfOk result (λ found. IfSome found (λ change. IsReady books.new change)) }
    ensures none { IfOk result (λ found. found ≡ None
        → FollowsAsNone (Some row.now) books.old.book.journal) }
    ensures steps { IfOk result (λ found. IfSome found (λ change. steps.new
        ≤ steps.old + most_steps books.old.book.journal change.event)) }
    ensures bad_steps { IfOk result (λ found. found ≡ None
        → TakesWhereBad (Some row.now) books.old.book.journal steps.old steps.new) }
{
    let Some(event) = decode(alloc, row)? else {
        return Ok(None);
    };
    follows(alloc, books, &event, steps)
}

// Notes the event of the row at a place behind those of the rows before it.
fn open_row<K: Keeper, L: StepLedger>(
    alloc: Global,
    keeper: &mut K,
    books: &mut DeskBooks,
    place: u64,
    row: &mut Vec<u8>,
    steps: &mut Steps<L>,
) -> Result<(), StartFault>
    requires attached { IsTrue (K.is_attached keeper.old) }
    requires books { IsDesk books.old }
    ensures opened { OnOk result (OpensRow K.tells K.moment K.gave keeper.old keeper.new place
        books.old.book.journal books.new) }
    ensures damaged { (at : ℕ) → result ≡ Err (Fault.Damaged at) → (at ≡ place)
        × FindsNone K.tells K.moment K.gave keeper.old keeper.new place books.old.book.journal }
    ensures attached { IsTrue (K.is_attached keeper.new) }
    ensures reads { OnlyReads K.tells K.may_leave K.is_honest keeper.old keeper.new }
    ensures speaks { OnOk result (K.is_honest keeper.new → (kept : Content)
        → K.tells keeper.old kept → K.tells keeper.new kept) }
    ensures goes_on { GoesOn K.moment K.gave keeper.old keeper.new }
    ensures fault { result ≡ Err Fault.Keeper → Rose (K.faults keeper.old) (K.faults keeper.new) }
    ensures no_fault { K.faults keeper.old ≤ K.faults keeper.new }
    ensures due { K.faults keeper.old < K.faults keeper.new → result ≡ Err Fault.Keeper }
    ensures steps { OnOk result (steps.new + opening_bound books.old.book.journal
        ≤ steps.old + opening_bound books.new.book.journal) }
    ensures bad_steps { (at : ℕ) → result ≡ Err (Fault.Damaged at) → (kept : Content)
        → K.tells keeper.new kept
        → TakesWhereBad (slice_get kept.rows place) books.old.book.journal steps.old steps.new }
{
    if !keeper.row(place, row)? {
        return Err(StartFault::Damaged(place));
    }
    let Some(change) = change_of_row(alloc, books, row.as_slice(), steps)? else {
        return Err(StartFault::Damaged(place));
    };
    books.apply(change.into_change());
    Ok(())
}

/// Reads the rows of a store, as many as it says that it has, into the books of no event.
pub(crate) fn open_rows<K: Keeper, L: StepLedger>(
    alloc: Global,
    keeper: &mut K,
    books: &mut DeskBooks,
    count: u64,
    steps: &mut Steps<L>,
) -> Result<(), StartFault>
    requires attached { IsTrue (K.is_attached keeper.old) }
    requires books { IsDesk books.old }
    requires empty { books.old.book.journal ≡ [] }
    ensures opened { OnOk result (OpensRows K.tells K.moment K.gave keeper.old keeper.new count
        books.new) }
    ensures damaged { (place : ℕ) → result ≡ Err (Fault.Damaged place) → (place < count)
        × StopsAt K.tells K.moment K.gave keeper.old keeper.new place }
    ensures attached { IsTrue (K.is_attached keeper.new) }
    ensures reads { OnlyReads K.tells K.may_leave K.is_honest keeper.old keeper.new }
    ensures speaks { OnOk result (K.is_honest keeper.new → (kept : Content)
        → K.tells keeper.old kept → K.tells keeper.new kept) }
    ensures goes_on { GoesOn K.moment K.gave keeper.old keeper.new }
    ensures fault { result ≡ Err Fault.Keeper → Rose (K.faults keeper.old) (K.faults keeper.new) }
    ensures no_fault { K.faults keeper.old ≤ K.faults keeper.new }
    ensures due { K.faults keeper.old < K.faults keeper.new → result ≡ Err Fault.Keeper }
    ensures steps { OnOk result (steps.new ≤ steps.old + opening_bound books.new.book.journal) }
    ensures bad_steps { (place : ℕ) → result ≡ Err (Fault.Damaged place) → (kept : Content)
        → K.tells keeper.new kept → TakesUpToBad place kept.rows steps.old steps.new }
{
    let mut row = Vec::new(alloc);
    for place in 0..count {
        open_row(alloc, keeper, books, place, &mut row, steps)?;
    }
    Ok(())
}
