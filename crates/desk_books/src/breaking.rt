//! The trade that a correction breaks first in the part of one household.
ghost use Rattle.std.specs.Prelude.{◌≡◌, ◌∷◌, Some, [], IfOk, OnOk, find, take};
ghost use Rattle.std.specs.Option.{option_copied, option_map_or};
ghost use Rattle.checkpoint_replay.specs.Moves.{part_after};
ghost use Rattle.checkpoint_replay.specs.Parts.{part_in};
ghost use Rattle.desk_books.specs.Reopened.{AreUnbroken, SeesBroken};
ghost use Rattle.order_book.specs.Books.{Fits};
ghost use Rattle.register_machine.specs.journal.Journals.{with_event};
ghost use Rattle.register_machine.specs.pricing.CorrectedOrders.{orders_of};
ghost use Rattle.register_machine.specs.rules.Breaks.{is_broken, order_corrected};

use crate::books::DeskBooks;
use crate::broken::first_broken;
use crate::least::FirstBroken;
use crate::turns::turn_of;
use agent_events::{Event, EventKind, Order, Trade};
use checkpoint_replay::HouseholdMove;
use money_units::NoMemory;
use std::alloc::Global;

/// Sees the first trade that a correction on trial breaks in the part of a household, between its trades so far and those that it
/// is moved to. A corrected price or rate names no order, so that it can break the new trades alone: then those that stay aren't
/// looked at.
pub(crate) fn see_broken(
    alloc: Global,
    books: &DeskBooks,
    event: &Event,
    household: u32,
    moved: &HouseholdMove,
    first: &mut FirstBroken,
) -> Result<(), NoMemory>
    requires fits { Fits books.now.book.journal event.now }
    requires only { moved.now.household ≡ household }
    requires unbroken { AreUnbroken (part_in books.now.ledger.parts household).trades }
    ensures { OnOk result (SeesBroken (orders_of (with_event books.now.book.journal event.now))
        (find (is_broken (order_corrected event.now.kind)
        (part_in books.now.ledger.parts household).trades)
        (part_after (moved.now ∷ []) books.now.ledger.parts household).trades)
        first.old.least first.new.least) }
{
    let broken = broken_of(alloc, books, event, household, moved)?;
    see(books, event, broken, first)
}

fn broken_of<'a>(
    alloc: Global,
    books: &'a DeskBooks,
    event: &Event,
    household: u32,
    moved: &'a HouseholdMove,
) -> Result<Option<&'a Trade>, NoMemory>
    requires only { moved.now.household ≡ household }
    requires unbroken { AreUnbroken (part_in books.now.ledger.parts household).trades }
    ensures { IfOk result (λ broken. option_copied broken
        ≡ find (is_broken (order_corrected event.now.kind)
        (part_in books.now.ledger.parts household).trades)
        (part_after (moved.now ∷ []) books.now.ledger.parts household).trades) }
{
    let before = books.ledger.trades(household);
    let order = order_corrected(event.kind());
    let stay = trades_seen(order, before, moved);
    first_broken(alloc, order, before, stay, moved.trades.as_slice())
}

// The old trades that stay and that a correction could break: none of them where it names no order.
fn trades_seen<'a>(order: Option<&Order>, trades: &'a [Trade], moved: &HouseholdMove) -> &'a [Trade]
    ensures { result.now ≡ option_map_or (λ own. take moved.now.kept trades.now)
        (option_copied order.entry) [] }
{
    match order {
        Some(_) => trades_kept(trades, moved),
        None => &[],
    }
}

// The order that a correction enters or replaces.
fn order_corrected(kind: &EventKind) -> Option<&Order>
    ensures { option_copied result ≡ order_corrected kind.now }
{
    match kind {
        EventKind::Enter(form) => Some(&form.order),
        EventKind::Replace(form) => Some(&form.order),
        _ => None,
    }
}

// The old trades of a household that stay.
fn trades_kept<'a>(trades: &'a [Trade], moved: &HouseholdMove) -> &'a [Trade]
    ensures { result.now ≡ take moved.now.kept trades.now }
{
    if moved.kept <= trades.len() {
        &trades[..moved.kept]
    } else {
        trades
    }
}

fn see(
    books: &DeskBooks,
    event: &Event,
    broken: Option<&Trade>,
    first: &mut FirstBroken,
) -> Result<(), NoMemory>
    requires { Fits books.now.book.journal event.now }
    ensures { OnOk result (SeesBroken (orders_of (with_event books.now.book.journal event.now))
        (option_copied broken.entry) first.old.least first.new.least) }
{
    match broken {
        Some(trade) => see_trade(books, event, trade, first),
        None => Ok(()),
    }
}

fn see_trade(
    books: &DeskBooks,
    event: &Event,
    trade: &Trade,
    first: &mut FirstBroken,
) -> Result<(), NoMemory>
    requires { Fits books.now.book.journal event.now }
    ensures { OnOk result (SeesBroken (orders_of (with_event books.now.book.journal event.now))
        (Some trade.now) first.old.least first.new.least) }
{
    match turn_of(books.book.orders(), Some(event), trade) {
        Some(turn) => {
            first.see(turn, *trade);
            Ok(())
        }
        None => Err(NoMemory),
    }
}
