//! The rules on corrections: of prices, dividend rates and orders.
ghost use Rattle.std.specs.Prelude.{◌≡◌};
ghost use Rattle.agent_events.specs.declared.request.Request.{Request};
ghost use Rattle.request_rules.specs.VerbRules.{rules_of};
ghost use Rattle.register_machine.specs.journal.Choices.{first_some};
ghost use Rattle.register_machine.specs.rules.Identities.{ref_used};
ghost use Rattle.register_machine.specs.rules.NamedThings.{none_such};
ghost use Rattle.register_machine.specs.rules.Orders.{below_minimum, calendar_ended, not_offered, receipt_ahead, refused_order, row_asked};

use crate::inquiry::Inquiry;
use crate::limits::{fix_used, journal_full, orders_full};
use crate::orders::{below_minimum, calendar_ended, not_offered, receipt_ahead, row_as_sent};
use crate::rules::{first_absent, first_broken, refused_when};
use agent_events::{EntryForm, FixPriceForm, FixRateForm, OrderRow, Refusal, VoidForm};
use register_machine::{class_of, target_of};

/// The bearer, the class or its sheet isn't there.
fn fix_price_absent(inquiry: &Inquiry, form: &FixPriceForm) -> Option<Refusal>
    ensures { result ≡ none_such inquiry.now (Request.FixPrice form.now) }
{
    first_absent(&[
        (2, inquiry.has_bearer(form.bearer)),
        (3, inquiry.has_class(form.class)),
        (4, inquiry.has_price(form.class, form.moment)),
    ])
}

/// The first rule behind the repeat that a corrected price breaks.
pub(crate) fn broken_by_fix_price(inquiry: &Inquiry, form: &FixPriceForm) -> Option<Refusal>
    ensures { result ≡ first_some (rules_of inquiry.now (Request.FixPrice form.now)) }
{
    first_broken(&[
        fix_price_absent(inquiry, form),
        fix_used(inquiry, form.fix),
        journal_full(inquiry),
    ])
}

/// The bearer, the class or its sheet isn't there.
fn fix_rate_absent(inquiry: &Inquiry, form: &FixRateForm) -> Option<Refusal>
    ensures { result ≡ none_such inquiry.now (Request.FixRate form.now) }
{
    first_absent(&[
        (2, inquiry.has_bearer(form.bearer)),
        (3, inquiry.has_class(form.class)),
        (4, inquiry.has_price(form.class, form.moment)),
    ])
}

/// The first rule behind the repeat that a corrected dividend rate breaks.
pub(crate) fn broken_by_fix_rate(inquiry: &Inquiry, form: &FixRateForm) -> Option<Refusal>
    ensures { result ≡ first_some (rules_of inquiry.now (Request.FixRate form.now)) }
{
    first_broken(&[
        fix_rate_absent(inquiry, form),
        fix_used(inquiry, form.fix),
        journal_full(inquiry),
    ])
}

/// The bearer, the account or a class of the entered order isn't there.
fn entry_absent(inquiry: &Inquiry, form: &EntryForm) -> Option<Refusal>
    ensures { result ≡ none_such inquiry.now (Request.Enter form.now) }
{
    let bearer = (2, inquiry.has_bearer(form.bearer));
    let account = (5, inquiry.has_account(form.order.account));
    let class = (7, inquiry.has_class(class_of(&form.order.body)));
    match target_of(&form.order.body) {
        Some(to) => first_absent(&[bearer, account, class, (8, inquiry.has_class(to))]),
        None => first_absent(&[bearer, account, class]),
    }
}

/// The reference of the entered order or the number of the correction is known.
fn entry_used(inquiry: &Inquiry, form: &EntryForm) -> Option<Refusal>
    ensures { result ≡ ref_used inquiry.now (Request.Enter form.now) }
{
    refused_when(
        inquiry.has_reference(form.order.account, form.order.ref_no) || inquiry.has_fix(form.fix),
        Refusal::RefUsed,
    )
}

/// The first rule behind the repeat that an entered order breaks.
pub(crate) fn broken_by_entry(inquiry: &Inquiry, form: &EntryForm) -> Option<Refusal>
    ensures { result ≡ first_some (rules_of inquiry.now (Request.Enter form.now)) }
{
    let row = row_as_sent(inquiry, form.receipt, &form.order);
    first_broken(&[
        entry_absent(inquiry, form),
        entry_used(inquiry, form),
        calendar_ended(inquiry, &row),
        below_minimum(inquiry, &row),
        not_offered(inquiry, &row),
        receipt_ahead(inquiry, form.receipt),
        orders_full(inquiry, form.order.account),
        journal_full(inquiry),
    ])
}

/// The bearer, the account, the order or a class of its new content isn't there.
fn replacement_absent(inquiry: &Inquiry, form: &EntryForm) -> Option<Refusal>
    ensures { result ≡ none_such inquiry.now (Request.Replace form.now) }
{
    let bearer = (2, inquiry.has_bearer(form.bearer));
    let account = (5, inquiry.has_account(form.order.account));
    let order = (6, inquiry.has_order(form.order.account, form.order.ref_no));
    let class = (7, inquiry.has_class(class_of(&form.order.body)));
    match target_of(&form.order.body) {
        Some(to) => first_absent(&[bearer, account, order, class, (8, inquiry.has_class(to))]),
        None => first_absent(&[bearer, account, order, class]),
    }
}

/// The replaced order with its new content and receipt, at the place of its first event.
fn row_replaced(inquiry: &Inquiry, form: &EntryForm) -> Option<OrderRow>
    ensures { result ≡ row_asked inquiry.now (Request.Replace form.now) }
{
    match inquiry.order(form.order.account, form.order.ref_no) {
        Some(row) => Some(OrderRow {
            place: row.place,
            receipt: form.receipt,
            struck: false,
            order: form.order,
        }),
        None => None,
    }
}

fn replacement_ended(inquiry: &Inquiry, form: &EntryForm) -> Option<Refusal>
    ensures { result ≡ refused_order calendar_ended inquiry.now (Request.Replace form.now) }
{
    match row_replaced(inquiry, form) {
        Some(row) => calendar_ended(inquiry, &row),
        None => None,
    }
}

fn replacement_below_minimum(inquiry: &Inquiry, form: &EntryForm) -> Option<Refusal>
    ensures { result ≡ refused_order below_minimum inquiry.now (Request.Replace form.now) }
{
    match row_replaced(inquiry, form) {
        Some(row) => below_minimum(inquiry, &row),
        None => None,
    }
}

fn replacement_not_offered(inquiry: &Inquiry, form: &EntryForm) -> Option<Refusal>
    ensures { result ≡ refused_order not_offered inquiry.now (Request.Replace form.now) }
{
    match row_replaced(inquiry, form) {
        Some(row) => not_offered(inquiry, &row),
        None => None,
    }
}

/// Refusal 9. The receipt of the replacement is ahead of now.
fn replacement_ahead(inquiry: &Inquiry, form: &EntryForm) -> Option<Refusal>
    ensures { result ≡ receipt_ahead inquiry.now (Request.Replace form.now) }
{
    match row_replaced(inquiry, form) {
        Some(row) => receipt_ahead(inquiry, row.receipt),
        None => None,
    }
}

/// The first rule behind the repeat that a replacement breaks.
pub(crate) fn broken_by_replacement(inquiry: &Inquiry, form: &EntryForm) -> Option<Refusal>
    ensures { result ≡ first_some (rules_of inquiry.now (Request.Replace form.now)) }
{
    first_broken(&[
        replacement_absent(inquiry, form),
        fix_used(inquiry, form.fix),
        replacement_ended(inquiry, form),
        replacement_below_minimum(inquiry, form),
        replacement_not_offered(inquiry, form),
        replacement_ahead(inquiry, form),
        refused_when(
            inquiry.is_struck(form.order.account, form.order.ref_no),
            Refusal::NotPending,
        ),
        journal_full(inquiry),
    ])
}

/// The bearer, the account or the order to strike isn't there.
fn void_absent(inquiry: &Inquiry, form: &VoidForm) -> Option<Refusal>
    ensures { result ≡ none_such inquiry.now (Request.Void form.now) }
{
    first_absent(&[
        (2, inquiry.has_bearer(form.bearer)),
        (3, inquiry.has_account(form.account)),
        (4, inquiry.has_order(form.account, form.ref_no)),
    ])
}

/// The first rule behind the repeat that a void breaks.
pub(crate) fn broken_by_void(inquiry: &Inquiry, form: &VoidForm) -> Option<Refusal>
    ensures { result ≡ first_some (rules_of inquiry.now (Request.Void form.now)) }
{
    first_broken(&[
        void_absent(inquiry, form),
        fix_used(inquiry, form.fix),
        refused_when(
            inquiry.is_struck(form.account, form.ref_no),
            Refusal::NotPending,
        ),
        journal_full(inquiry),
    ])
}
