//! What a sheet or a correction moves in the ledger and books as cash: room is made before, and to post it takes no memory.
ghost use Rattle.std.specs.Prelude.{◌≡◌, ℕ, Some, IfSome, OnOk};
ghost use Rattle.agent_events.specs.declared.order.Party.{Party as AnyParty};
ghost use Rattle.checkpoint_replay.specs.Parts.{part_in};
ghost use Rattle.checkpoint_replay.specs.Tallied.{IsTallied};
ghost use Rattle.desk_books.specs.LedgerChanges.{CanPost, HasMoved, HasPosted, HasRoomForLedger, IsPosted};
ghost use Rattle.gain_loss_book.specs.Posted.{cash_held, gains_kept};

use crate::change::LedgerChange;
use checkpoint_replay::Ledger;
use gain_loss_book::CashBook;
use money_units::NoMemory;

/// Makes room for what a sheet or a correction moves and posts. Ledger and cash book show what they showed before, after
/// `NoMemory` too.
pub(crate) fn reserve_ledger(
    ledger: &mut Ledger,
    cash: &mut CashBook,
    change: &Option<LedgerChange>,
) -> Result<(), NoMemory>
    ensures room { OnOk result (HasRoomForLedger ledger.new cash.new change.now) }
    ensures parts { (household : ℕ) → part_in ledger.new.parts household
        ≡ part_in ledger.old.parts household }
    ensures tallied { IsTallied ledger.old → IsTallied ledger.new }
    ensures installs { ledger.new.totals.cash.posts ≡ ledger.old.totals.cash.posts }
    ensures balances { (party : AnyParty) → cash_held cash.new party ≡ cash_held cash.old party }
    ensures gains { (place : ℕ) → gains_kept cash.new place ≡ gains_kept cash.old place }
    ensures posts { cash.new.posts ≡ cash.old.posts }
{
    match change {
        Some(change) => reserve_change(ledger, cash, change),
        None => Ok(()),
    }
}

fn reserve_change(
    ledger: &mut Ledger,
    cash: &mut CashBook,
    change: &LedgerChange,
) -> Result<(), NoMemory>
    ensures room { OnOk result (HasRoomForLedger ledger.new cash.new (Some change.now)) }
    ensures parts { (household : ℕ) → part_in ledger.new.parts household
        ≡ part_in ledger.old.parts household }
    ensures tallied { IsTallied ledger.old → IsTallied ledger.new }
    ensures installs { ledger.new.totals.cash.posts ≡ ledger.old.totals.cash.posts }
    ensures balances { (party : AnyParty) → cash_held cash.new party ≡ cash_held cash.old party }
    ensures gains { (place : ℕ) → gains_kept cash.new place ≡ gains_kept cash.old place }
    ensures posts { cash.new.posts ≡ cash.old.posts }
{
    ledger.reserve(&change.change)?;
    cash.reserve(change.change.changes(), change.correction.as_ref())?;
    Ok(())
}

/// Moves and posts what a sheet or a correction brings, the event at this place; nothing else moves. It takes no memory.
pub(crate) fn post_ledger(
    ledger: &mut Ledger,
    cash: &mut CashBook,
    place: u64,
    change: Option<LedgerChange>,
)
    requires { IfSome change (CanPost ledger.old cash.old place) }
    ensures { IsPosted place change ledger.old cash.old ledger.new cash.new }
{
    match change {
        Some(change) => post_change(ledger, cash, place, change),
        None => {}
    }
}

fn post_change(ledger: &mut Ledger, cash: &mut CashBook, place: u64, change: LedgerChange)
    requires { CanPost ledger.old cash.old place change }
    ensures moved { HasMoved change.change ledger.old ledger.new }
    ensures posted { HasPosted place change cash.old cash.new }
{
    let LedgerChange { change, correction } = change;
    cash.post(place, change.changes(), correction);
    ledger.install(change);
}
