//! What a correction that breaks no order makes of the ledger, with its gains.
ghost use Rattle.std.specs.Prelude.{◌≡◌, ◌≤◌, IfOk, true};
ghost use Rattle.desk_books.specs.Changed.{AreGainsOf, AreWithin, IsChangeWith};
ghost use Rattle.forward_price.specs.PriceTables.{sheets_on_trial};
ghost use Rattle.gain_loss_book.specs.ClassGains.{are_numbered, most_mils, size_of_mils};
ghost use Rattle.gain_loss_book.specs.Posted.{most_cash, size_of_cash};
ghost use Rattle.register_machine.specs.corrections.Payments.{bearer_in};

use crate::change::LedgerChange;
use agent_events::{Bearer, Changes, ClassGains, EventKind};
use checkpoint_replay::Change;
use forward_price::{Patch, PriceBook};
use gain_loss_book::{
    Correction, cash_within, classes_are_numbered, gains, gains_within, shares_within,
};
use money_units::NoMemory;
use std::alloc::Global;

/// The change with its gains, and who bears its losses. Past the limits of a post it is `NoMemory`.
pub(crate) fn with_gains(
    alloc: Global,
    change: Change,
    bearer: Bearer,
    prices: &PriceBook,
    patch: Option<Patch>,
) -> Result<LedgerChange, NoMemory>
    ensures { IfOk result
        (IsChangeWith change bearer (sheets_on_trial patch prices.now.table.sheets)) }
{
    let gains = gains_within_limits(alloc, change.changes(), prices, patch)?;
    Ok(LedgerChange {
        change,
        correction: Some(Correction { bearer, gains }),
    })
}

fn gains_within_limits(
    alloc: Global,
    changes: &Changes,
    prices: &PriceBook,
    patch: Option<Patch>,
) -> Result<ClassGains, NoMemory>
    ensures within { IfOk result (AreWithin changes.now) }
    ensures gains { IfOk result
        (AreGainsOf changes.now (sheets_on_trial patch prices.now.table.sheets)) }
{
    if are_within(changes) {
        let gains = gains(alloc, changes, prices, patch)?;
        if gains_within(&gains) {
            Ok(gains)
        } else {
            Err(NoMemory)
        }
    } else {
        Err(NoMemory)
    }
}

fn are_within(changes: &Changes) -> bool
    ensures cash { result ≡ true → size_of_cash changes.now.cash ≤ most_cash }
    ensures mils { result ≡ true → size_of_mils changes.now.outstanding ≤ most_mils }
    ensures numbered { result ≡ true → are_numbered changes.now ≡ true }
{
    if cash_within(changes) {
        if shares_within(changes) {
            classes_are_numbered(changes)
        } else {
            false
        }
    } else {
        false
    }
}

/// Who bears the losses of a correction; `None` exactly for another event.
pub(crate) fn bearer_of(kind: &EventKind) -> Option<Bearer>
    ensures { result ≡ bearer_in kind.now }
{
    match kind {
        EventKind::FixPrice(form) => Some(form.bearer),
        EventKind::FixRate(form) => Some(form.bearer),
        EventKind::Enter(form) => Some(form.bearer),
        EventKind::Replace(form) => Some(form.bearer),
        EventKind::Void(form) => Some(form.bearer),
        _ => None,
    }
}
