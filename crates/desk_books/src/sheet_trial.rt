//! The trial of a sheet.
ghost use Rattle.std.specs.Prelude.{◌≡◌, ◌≤◌, ◌+◌, IfOk, None, OnOk, Some, length, true};
ghost use Rattle.agent_events.specs.declared.event.EventKind.{EventKind as Kind};
ghost use Rattle.checkpoint_replay.specs.Moves.{households_of};
ghost use Rattle.desk_books.specs.BooksOfJournals.{AreBooksOf, ShowTheSame};
ghost use Rattle.desk_books.specs.LedgerChanges.{IsLedgerChange};
ghost use Rattle.register_laws.specs.EventReplays.{is_sheet};
ghost use Rattle.forward_price.specs.PriceTables.{with_published};
ghost use Rattle.reference_tables.specs.PriceChanges.{IsNextSheet};
ghost use Rattle.register_machine.specs.journal.Journals.{with_event};
ghost use Rattle.register_machine.specs.journal.Lawful.{IsLawful};
ghost use Rattle.desk_books.specs.SheetReach.{TakeOneStepEach};

use crate::advance::change_on_trial;
use crate::books::DeskBooks;
use crate::change::LedgerChange;
use crate::keeping::keep_moved;
use agent_events::{Event, EventKind, SheetForm};
use forward_price::PriceBook;
use household_fold::Steps;
use money_units::NoMemory;
use reference_tables::prices_in;
use std::alloc::Global;
use std::sync::ledger::Ledger as StepLedger;

/// What a sheet that follows the journal makes of the ledger: one step for each household that isn't quiet on it, and none for
/// another. The sheet is published on trial and withdrawn, and of the households that it moves states are kept where they are due, so
/// the books show what they showed before, after `NoMemory` too.
pub fn try_sheet<L: StepLedger>(
    alloc: Global,
    books: &mut DeskBooks,
    event: &Event,
    steps: &mut Steps<L>,
) -> Result<LedgerChange, NoMemory>
    requires books { AreBooksOf books.old.book.journal books.old }
    requires follows { IsLawful (with_event books.old.book.journal event.now) }
    requires sheet { is_sheet event.now.kind ≡ true }
    ensures same { ShowTheSame books.old books.new }
    ensures journal { books.new.book.journal ≡ books.old.book.journal }
    ensures change { IfOk result (λ change. IsLedgerChange books.new.book.journal event.now
        books.new.ledger.parts (Some change)) }
    ensures steps { IfOk result (λ change. TakeOneStepEach books.new.book.journal event.now
        (households_of change.change.moves) steps.old steps.new) }
{
    let change = try_published(alloc, books, event, steps)?;
    keep_moved(alloc, books, change.change.moves())?;
    Ok(change)
}

// The same, while it is published on trial.
fn try_published<L: StepLedger>(
    alloc: Global,
    books: &mut DeskBooks,
    event: &Event,
    steps: &mut Steps<L>,
) -> Result<LedgerChange, NoMemory>
    requires books { AreBooksOf books.old.book.journal books.old }
    requires follows { IsLawful (with_event books.old.book.journal event.now) }
    requires sheet { is_sheet event.now.kind ≡ true }
    ensures same { ShowTheSame books.old books.new }
    ensures journal { books.new.book.journal ≡ books.old.book.journal }
    ensures change { IfOk result (λ change. IsLedgerChange books.new.book.journal event.now
        books.new.ledger.parts (Some change)) }
    ensures steps { IfOk result (λ change. TakeOneStepEach books.new.book.journal event.now
        (households_of change.change.moves) steps.old steps.new) }
{
    let form = sheet_of(event);
    make_room(&mut books.prices, form)?;
    let number = publish(&mut books.prices, form);
    let change = change_on_trial(alloc, books, number, steps);
    let _withdrawn = books.prices.withdraw();
    change
}

// The sheet of an event.
fn sheet_of(event: &Event) -> &SheetForm
    requires { is_sheet event.now.kind ≡ true }
    ensures { event.now.kind ≡ Kind.Sheet result.now }
{
    match event.kind() {
        EventKind::Sheet(form) => form,
        _ => unreachable!(),
    }
}

// Makes room for the prices of a sheet.
fn make_room(prices: &mut PriceBook, form: &SheetForm) -> Result<(), NoMemory>
    ensures room { OnOk result (length form.now.prices ≤ prices.new.list) }
    ensures table { prices.new.table ≡ prices.old.table }
{
    let count = prices_in(form)?;
    prices.reserve(count)
}

// Publishes a sheet behind the others, and answers its number.
fn publish(prices: &mut PriceBook, form: &SheetForm) -> u32
    requires fits { IsNextSheet prices.old.table form.now }
    requires room { length form.now.prices ≤ prices.old.list }
    ensures number { result ≡ length prices.old.table.sheets + 1 }
    ensures table { prices.new.table
        ≡ with_published prices.old.table form.now.calendar form.now.moment form.now.prices }
{
    prices.publish(form.calendar.number(), form.moment, form.prices.as_slice())
}
