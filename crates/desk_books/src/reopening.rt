//! The households that a correction reaches are replayed with it, one after another.
ghost use Rattle.std.specs.Prelude.{◌≡◌, ◌≤◌, ◌+◌, ◌*◌, IfOk, OnOk, length};
ghost use Rattle.std.specs.List.{sum_by};
ghost use Rattle.std.specs.List.Sorted.{IsStrictlyIncreasing};
ghost use Rattle.desk_books.specs.Reopened.{AreReopened, IsOneMore, IsTriedOver, ReopensMore};
ghost use Rattle.desk_books.specs.Starts.{LeavesBefore, sheets_replayed};

use crate::books::DeskBooks;
use crate::breaking::see_broken;
use crate::least::FirstBroken;
use crate::references::references_in;
use crate::starts::start_of;
use agent_events::Event;
use checkpoint_replay::{HouseholdMove, move_by_replay};
use household_fold::{Facts, Steps};
use money_units::NoMemory;
use standing_orders::orders_of_household;
use std::alloc::Global;
use std::sync::ledger::Ledger as StepLedger;

/// What the households that were reopened come to: the moves of each, and the first trade that is broken in their parts.
#[derive(Drop)]
pub(crate) struct Reopened {
    pub(crate) moves: Vec<HouseholdMove>,
    pub(crate) first: FirstBroken,
}

/// Replays each of these households with a correction on trial that touches no sheet before this one: from the last state of it that
/// is kept behind an earlier sheet on, and else from the first sheet on.
pub(crate) fn reopen_all<L: StepLedger>(
    alloc: Global,
    books: &DeskBooks,
    event: &Event,
    facts: &Facts,
    households: &[u32],
    before: u32,
    steps: &mut Steps<L>,
) -> Result<Reopened, NoMemory>
    requires tried { IsTriedOver books.now event.now facts.now }
    requires before { LeavesBefore books.now.book.journal event.now before }
    requires rising { IsStrictlyIncreasing households.now }
    ensures reopened { IfOk result (λ reopened. AreReopened books.now event.now facts.now
        households.now reopened.moves.items reopened.first.least) }
    ensures steps { OnOk result (steps.new
        ≤ steps.old + length households.now * facts.now.sheet) }
    ensures behind { OnOk result (steps.new ≤ steps.old
        + sum_by (sheets_replayed books.now.kept before facts.now.sheet) households.now) }
{
    let mut moves = Vec::with_capacity(alloc, households.len())?;
    let mut first = FirstBroken::new();
    for household in households {
        let moved = reopen_more(
            alloc, books, event, facts, *household, before, &mut first, steps,
        )?;
        moves.push(moved)?;
    }
    Ok(Reopened { moves, first })
}

// One household more, which isn't among those so far.
fn reopen_more<L: StepLedger>(
    alloc: Global,
    books: &DeskBooks,
    event: &Event,
    facts: &Facts,
    household: u32,
    before: u32,
    first: &mut FirstBroken,
    steps: &mut Steps<L>,
) -> Result<HouseholdMove, NoMemory>
    requires tried { IsTriedOver books.now event.now facts.now }
    requires before { LeavesBefore books.now.book.journal event.now before }
    ensures more { IfOk result (λ moved. ReopensMore books.now event.now facts.now household
        first.old.least moved first.new.least) }
    ensures steps { OnOk result (steps.new ≤ steps.old + facts.now.sheet) }
    ensures behind { OnOk result (steps.new
        ≤ steps.old + sheets_replayed books.now.kept before facts.now.sheet household) }
{
    let one = reopen_one(alloc, books, event, facts, household, before, steps)?;
    references_in(books);
    see_broken(alloc, books, event, household, &one, first)?;
    Ok(one)
}

fn reopen_one<L: StepLedger>(
    alloc: Global,
    books: &DeskBooks,
    event: &Event,
    facts: &Facts,
    household: u32,
    before: u32,
    steps: &mut Steps<L>,
) -> Result<HouseholdMove, NoMemory>
    requires tried { IsTriedOver books.now event.now facts.now }
    requires before { LeavesBefore books.now.book.journal event.now before }
    ensures one { IfOk result (IsOneMore books.now event.now facts.now household) }
    ensures steps { steps.new ≤ steps.old + facts.now.sheet }
    ensures behind { steps.new
        ≤ steps.old + sheets_replayed books.now.kept before facts.now.sheet household }
{
    let start = start_of(alloc, &books.kept, household, before)?;
    let orders = orders_of_household(
        alloc,
        books.book.orders(),
        &books.prices,
        &books.orders,
        household,
        start.orders,
        Some(event),
    )?;
    move_by_replay(alloc, facts, start.replay, &orders, steps)
}
