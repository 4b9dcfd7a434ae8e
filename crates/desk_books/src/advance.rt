//! What the sheet on trial makes of the ledger.
ghost use Rattle.std.specs.Prelude.{All, ◌≡◌, ◌≤◌, ◌+◌, ℕ, IfOk, None, Some, length};
ghost use Rattle.agent_events.specs.Events.{Event};
ghost use Rattle.checkpoint_replay.specs.Differences.{AreChangesOf};
ghost use Rattle.checkpoint_replay.specs.Moves.{AreMoves, households_of, part_after};
ghost use Rattle.checkpoint_replay.specs.Parts.{part_in};
ghost use Rattle.checkpoint_replay.specs.Sheets.{CanAdvance, IsReached};
ghost use Rattle.desk_books.specs.LedgerChanges.{IsLedgerChange};
ghost use Rattle.gain_loss_book.specs.ClassGains.{most_mils, size_of_mils};
ghost use Rattle.gain_loss_book.specs.Posted.{most_cash, size_of_cash};
ghost use Rattle.household_fold.specs.Facts.{FactsFit};
ghost use Rattle.checkpoint_replay.specs.Replays.{day_behind, orders_under};
ghost use Rattle.desk_books.specs.SheetReach.{TakeOneStepEach};
ghost use Rattle.desk_books.specs.SheetTrials.{IsOnTrial, known_on_sheet};

use crate::books::DeskBooks;
use crate::change::LedgerChange;
use checkpoint_replay::{Change, NumberedOrders};
use gain_loss_book::{cash_within, shares_within};
use household_fold::{Facts, Steps};
use money_units::NoMemory;
use standing_orders::orders_priced;
use std::alloc::Global;
use std::sync::ledger::Ledger as StepLedger;

/// What the sheet of this number, which is published on trial, makes of the ledger. Nothing of it shows in the books.
pub(crate) fn change_on_trial<L: StepLedger>(
    alloc: Global,
    books: &DeskBooks,
    number: u32,
    steps: &mut Steps<L>,
) -> Result<LedgerChange, NoMemory>
    requires { (event : Event) × IsOnTrial books.now number event }
    ensures change { IfOk result (λ change. (event : Event) → IsOnTrial books.now number event
        → IsLedgerChange books.now.book.journal event books.now.ledger.parts (Some change)) }
    ensures steps { IfOk result (λ change. (event : Event) → IsOnTrial books.now number event
        → TakeOneStepEach books.now.book.journal event (households_of change.change.moves)
        steps.old steps.new) }
{
    let orders = orders_priced(
        alloc,
        books.book.orders(),
        &books.prices,
        &books.orders,
        number,
    )?;
    let change = advanced(alloc, books, number, &orders, steps)?;
    within_limits(change)
}

// What one step over the sheet makes of each household, by the orders that are priced on it.
fn advanced<L: StepLedger>(
    alloc: Global,
    books: &DeskBooks,
    number: u32,
    orders: &NumberedOrders,
    steps: &mut Steps<L>,
) -> Result<Change, NoMemory>
    requires facts { FactsFit (known_on_sheet books.now number) }
    requires households { CanAdvance (known_on_sheet books.now number) orders.now
        books.now.ledger.parts }
    ensures days { IfOk result (λ change. (household : ℕ)
        → part_after change.moves books.now.ledger.parts household
        ≡ day_behind (known_on_sheet books.now number) (orders_under household orders.now)
        (part_in books.now.ledger.parts household)) }
    ensures reached { IfOk result (λ change.
        All (IsReached (known_on_sheet books.now number) orders.now books.now.ledger.parts)
        change.moves) }
    ensures differences { IfOk result (λ change.
        AreChangesOf change.changes books.now.ledger.parts change.moves) }
    ensures steps { IfOk result (λ change. steps.new ≡ steps.old + length change.moves) }
{
    let facts = Facts {
        prices: &books.prices,
        terms: books.tables.terms(),
        accounts: books.tables.accounts(),
        rates: books.tables.rates(),
        patch: None,
        sheet: number,
    };
    books.ledger.advance_all(alloc, &facts, orders, steps)
}

// A change that keeps the limits of a post; one past them has no memory.
fn within_limits(change: Change) -> Result<LedgerChange, NoMemory>
    ensures change { IfOk result (λ made. made.change ≡ change) }
    ensures moves { IfOk result (λ made. AreMoves made.change.moves) }
    ensures correction { IfOk result (λ made. made.correction ≡ None) }
    ensures cash { IfOk result (λ made. size_of_cash made.change.changes.cash ≤ most_cash) }
    ensures mils { IfOk result (λ made.
        size_of_mils made.change.changes.outstanding ≤ most_mils) }
{
    let _moves = change.moves();
    if !cash_within(change.changes()) {
        return Err(NoMemory);
    }
    if !shares_within(change.changes()) {
        return Err(NoMemory);
    }
    Ok(LedgerChange {
        change,
        correction: None,
    })
}
