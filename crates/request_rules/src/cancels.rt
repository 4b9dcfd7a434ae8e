//! The rules on cancels.
ghost use Rattle.std.specs.Prelude.{◌≡◌};
ghost use Rattle.agent_events.specs.declared.request.Request.{Request};
ghost use Rattle.request_rules.specs.VerbRules.{rules_of};
ghost use Rattle.register_machine.specs.journal.Choices.{first_some};
ghost use Rattle.register_machine.specs.rules.NamedThings.{none_such};
ghost use Rattle.register_machine.specs.rules.Orders.{cancel_late, late_cancel_of, not_pending};

use crate::inquiry::Inquiry;
use crate::limits::{journal_full, orders_full, reference_used};
use crate::orders::due_moment;
use crate::rules::{first_absent, first_broken, refused_when};
use agent_events::{CancelForm, OrderRow, Refusal};

/// The account or the order to cancel isn't there.
fn cancel_absent(inquiry: &Inquiry, form: &CancelForm) -> Option<Refusal>
    ensures { result ≡ none_such inquiry.now (Request.Cancel form.now) }
{
    first_absent(&[
        (1, inquiry.has_account(form.account)),
        (3, inquiry.has_order(form.account, form.target)),
    ])
}

/// The order stands, and its due moment has come.
fn late_cancel_of(inquiry: &Inquiry, row: &OrderRow) -> Option<Refusal>
    ensures { result ≡ late_cancel_of inquiry.now row.now }
{
    match due_moment(inquiry, row) {
        Some(due) => refused_when(
            !row.struck && due.seconds() <= inquiry.moment().seconds(),
            Refusal::CancelLate(due),
        ),
        None => None,
    }
}

/// Refusal 10. The order to cancel stands, and its due moment has come.
fn cancel_late(inquiry: &Inquiry, form: &CancelForm) -> Option<Refusal>
    ensures { result ≡ cancel_late inquiry.now (Request.Cancel form.now) }
{
    match inquiry.order(form.account, form.target) {
        Some(row) => late_cancel_of(inquiry, row),
        None => None,
    }
}

/// Refusal 11. The order is struck already.
fn not_pending(inquiry: &Inquiry, form: &CancelForm) -> Option<Refusal>
    ensures { result ≡ not_pending inquiry.now (Request.Cancel form.now) }
{
    refused_when(
        inquiry.is_struck(form.account, form.target),
        Refusal::NotPending,
    )
}

/// The first rule behind the repeat that a cancel breaks.
pub(crate) fn broken_by_cancel(inquiry: &Inquiry, form: &CancelForm) -> Option<Refusal>
    ensures { result ≡ first_some (rules_of inquiry.now (Request.Cancel form.now)) }
{
    first_broken(&[
        cancel_absent(inquiry, form),
        reference_used(inquiry, form.account, form.ref_no),
        cancel_late(inquiry, form),
        not_pending(inquiry, form),
        orders_full(inquiry, form.account),
        journal_full(inquiry),
    ])
}
