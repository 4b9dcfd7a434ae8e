//! The orders with an event on trial behind the journal.
ghost use Rattle.std.specs.Prelude.{◌≡◌};
ghost use Rattle.std.specs.Option.{option_copied};
ghost use Rattle.order_book.specs.Trials.{row_after, row_begun, row_on_trial};
ghost use Rattle.register_laws.specs.OneEventMore.{replaced_by, struck_by};
ghost use Rattle.register_machine.specs.pricing.CorrectedOrders.{order_begun, row_as_sent};

use agent_events::{EntryForm, Event, EventKind, Identifier, Order, OrderRow, Reference};
use money_units::Moment;

/// An order as an event on trial leaves it.
pub fn row_on_trial(trial: Option<&Event>, row: &OrderRow) -> OrderRow
    ensures { result ≡ row_on_trial (option_copied trial.entry) row.now }
{
    match trial {
        Some(event) => row_after(event.kind(), row),
        None => *row,
    }
}

/// The order that an event on trial begins behind so many events.
pub fn row_begun(trial: Option<&Event>, place: u64) -> Option<OrderRow>
    ensures { result ≡ row_begun place (option_copied trial.entry) }
{
    match trial {
        Some(event) => order_begun(event.kind(), place),
        None => None,
    }
}

fn row_after(kind: &EventKind, row: &OrderRow) -> OrderRow
    ensures { result ≡ row_after kind.now row.now }
{
    match kind {
        EventKind::Cancel(form) => struck_by(form.account, form.target, row),
        EventKind::Void(form) => struck_by(form.account, form.ref_no, row),
        EventKind::Replace(form) => replaced_by(form, row),
        _ => *row,
    }
}

fn order_begun(kind: &EventKind, place: u64) -> Option<OrderRow>
    ensures { result ≡ order_begun place kind.now }
{
    match kind {
        EventKind::Order(placed) => Some(sent(place, placed.receipt, placed.order)),
        EventKind::Enter(form) => Some(sent(place, form.receipt, form.order)),
        _ => None,
    }
}

fn sent(place: u64, receipt: Moment, order: Order) -> OrderRow
    ensures { result ≡ row_as_sent place receipt order }
{
    OrderRow {
        place,
        receipt,
        struck: false,
        order,
    }
}

fn struck_by(account: Identifier, ref_no: Reference, row: &OrderRow) -> OrderRow
    ensures { result ≡ struck_by (account, ref_no) row.now }
{
    if row.order.account == account && row.order.ref_no == ref_no {
        OrderRow {
            struck: true,
            ..*row
        }
    } else {
        *row
    }
}

fn replaced_by(form: &EntryForm, row: &OrderRow) -> OrderRow
    ensures { result ≡ replaced_by form.now row.now }
{
    if form.order.account == row.order.account && form.order.ref_no == row.order.ref_no {
        OrderRow {
            receipt: form.receipt,
            order: form.order,
            ..*row
        }
    } else {
        *row
    }
}
