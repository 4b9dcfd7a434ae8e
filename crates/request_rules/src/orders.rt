//! The rules on orders, dealers' lines and entered orders.
ghost use Rattle.std.specs.Prelude.{Bool, None, ◌≡◌, ◌≤◌, ◌&&◌, length, nat_le, nat_lt, true};
ghost use Rattle.agent_events.specs.declared.request.Request.{Request};
ghost use Rattle.request_rules.specs.VerbRules.{absent_among, below_least, has_breakpoints, rules_of};
ghost use Rattle.std.specs.Option.{option_copied};
ghost use Rattle.register_machine.specs.journal.Choices.{first_some, when};
ghost use Rattle.register_machine.specs.journal.Kinds.{class_numbered};
ghost use Rattle.register_machine.specs.pricing.OrderClasses.{class_of};
ghost use Rattle.register_machine.specs.pricing.CorrectedBook.{calendar_of, due_at, due_moment};
ghost use Rattle.register_machine.specs.pricing.CorrectedOrders.{row_as_sent};
ghost use Rattle.register_machine.specs.rules.NamedThings.{has_class, named_in_order};
ghost use Rattle.register_machine.specs.rules.Orders.{below_minimum, calendar_ended, family_of, has_one_calendar, is_exchangeable, is_of_calendar, is_offered, late_by, not_offered, window_of};

use crate::inquiry::Inquiry;
use crate::limits::{journal_full, orders_full, reference_used};
use crate::rules::{first_absent, first_broken, refused_when};
use agent_events::{
    Amount, Body, Caller, ClassForm, Identifier, LineForm, Order, OrderRow, Refusal,
};
use money_units::Moment;
use register_machine::{class_of, target_of};

/// An order as it is sent, behind all events.
pub(crate) fn row_as_sent(inquiry: &Inquiry, receipt: Moment, order: &Order) -> OrderRow
    ensures { result ≡ row_as_sent (length inquiry.now.journal) receipt order.now }
{
    OrderRow {
        place: inquiry.len(),
        receipt,
        struck: false,
        order: *order,
    }
}

/// The due moment of an order.
pub(crate) fn due_moment(inquiry: &Inquiry, row: &OrderRow) -> Option<Moment>
    ensures { result ≡ due_moment inquiry.now.book row.now }
{
    inquiry.due_at(&row.order.body, row.receipt)
}

/// Whether a class is of the calendar of another.
fn is_of_one_calendar(inquiry: &Inquiry, first: Identifier, class: Identifier) -> bool
    ensures { result ≡ is_of_calendar inquiry.now.book (calendar_of inquiry.now.book first) class }
{
    match inquiry.calendar_of(class) {
        Some(own) => match inquiry.calendar_of(first) {
            Some(other) => other.number() == own.number(),
            None => false,
        },
        None => false,
    }
}

/// Whether all classes of an order are of one calendar.
fn has_one_calendar(inquiry: &Inquiry, body: &Body) -> bool
    ensures { result ≡ has_one_calendar inquiry.now.book body.now }
{
    let class = class_of(body);
    match target_of(body) {
        Some(to) => {
            is_of_one_calendar(inquiry, class, class) && is_of_one_calendar(inquiry, class, to)
        }
        None => is_of_one_calendar(inquiry, class, class),
    }
}

/// Refusal 5. The classes have one calendar, and no due moment is left in it; `due` is the order's.
fn calendar_ended_by(inquiry: &Inquiry, row: &OrderRow, due: &Option<Moment>) -> Option<Refusal>
    requires { due.now ≡ due_moment inquiry.now.book row.now }
    ensures { result ≡ calendar_ended inquiry.now.book row.now }
{
    match due {
        Some(_) => None,
        None => refused_when(
            has_one_calendar(inquiry, &row.order.body),
            Refusal::CalendarEnded,
        ),
    }
}

/// The same, where the due moment isn't known yet.
pub(crate) fn calendar_ended(inquiry: &Inquiry, row: &OrderRow) -> Option<Refusal>
    ensures { result ≡ calendar_ended inquiry.now.book row.now }
{
    calendar_ended_by(inquiry, row, &due_moment(inquiry, row))
}

/// The refusal of a purchase of this gross in cents below its minimum: the later one of the class's terms where the account has
/// bought the class before, else the first one.
pub fn below_least(terms: &ClassForm, is_bought: bool, gross: Amount) -> Option<Refusal>
    ensures { result ≡ below_least terms.now is_bought gross }
{
    let least = if is_bought {
        terms.later_min
    } else {
        terms.first_min
    };
    refused_when(gross.cents() < least.cents(), Refusal::BelowMinimum(least))
}

/// Whether a gross in cents is at both minimums of a class, so that no earlier purchase needs to be looked for.
fn is_at_both_minimums(terms: &ClassForm, gross: Amount) -> bool
    ensures both { result
        ≡ (nat_le terms.now.first_min gross && nat_le terms.now.later_min gross) }
    ensures none { result ≡ true
        → (is_bought : Bool) → below_least terms.now is_bought gross ≡ None }
{
    terms.first_min.cents() <= gross.cents() && terms.later_min.cents() <= gross.cents()
}

/// Refusal 6. The gross of a purchase is below its minimum: the later one behind another order to buy the class that stands,
/// else the first one; `terms` are those of the order's class.
fn below_minimum_by(inquiry: &Inquiry, row: &OrderRow, terms: Option<&ClassForm>) -> Option<Refusal>
    requires { option_copied terms
        ≡ class_numbered inquiry.now.book.classes (class_of row.now.order.body) }
    ensures { result ≡ below_minimum inquiry.now.book row.now }
{
    match row.order.body {
        Body::Buy { class, gross } => match terms {
            Some(terms) if is_at_both_minimums(terms, gross) => None,
            Some(terms) => below_least(terms, inquiry.has_bought(row, class), gross),
            None => None,
        },
        _ => None,
    }
}

/// The same, where the class isn't looked up yet.
pub(crate) fn below_minimum(inquiry: &Inquiry, row: &OrderRow) -> Option<Refusal>
    ensures { result ≡ below_minimum inquiry.now.book row.now }
{
    below_minimum_by(inquiry, row, inquiry.class(class_of(&row.order.body)))
}

/// The family of a class, 0 for none.
fn family_of(inquiry: &Inquiry, class: Identifier) -> u32
    ensures { result ≡ family_of inquiry.now.book class }
{
    match inquiry.class(class) {
        Some(terms) => terms.family,
        None => 0,
    }
}

/// Whether the classes are two of one family.
fn is_exchangeable(inquiry: &Inquiry, class: Identifier, to: Identifier) -> bool
    ensures { result ≡ is_exchangeable inquiry.now.book class to }
{
    class.number() != to.number()
        && family_of(inquiry, class) != 0
        && family_of(inquiry, class) == family_of(inquiry, to)
}

/// Whether the class has breakpoints.
fn has_breakpoints(inquiry: &Inquiry, class: Identifier) -> bool
    ensures { result ≡ has_breakpoints inquiry.now.book class }
{
    match inquiry.class(class) {
        Some(terms) => terms.front.as_slice().len() != 1,
        None => true,
    }
}

fn is_offered(inquiry: &Inquiry, body: &Body) -> bool
    ensures { result ≡ is_offered inquiry.now.book body.now }
{
    match body {
        Body::Exchange { class, to, mils: _ } => is_exchangeable(inquiry, *class, *to),
        Body::ExchangeAll { class, to } => is_exchangeable(inquiry, *class, *to),
        Body::Letter { class, amount: _ } => has_breakpoints(inquiry, *class),
        _ => true,
    }
}

/// Refusal 7. The exchange or the letter isn't offered.
pub(crate) fn not_offered(inquiry: &Inquiry, row: &OrderRow) -> Option<Refusal>
    ensures { result ≡ not_offered inquiry.now.book row.now }
{
    refused_when(!is_offered(inquiry, &row.order.body), Refusal::NotOffered)
}

/// Refusal 9. The receipt is ahead of now.
pub(crate) fn receipt_ahead(inquiry: &Inquiry, receipt: Moment) -> Option<Refusal>
    ensures { result
        ≡ when (nat_lt inquiry.now.now receipt) (Refusal.ReceiptAhead inquiry.now.now) }
{
    refused_when(
        inquiry.moment().seconds() < receipt.seconds(),
        Refusal::ReceiptAhead(inquiry.moment()),
    )
}

/// Refusal 3 on an order whose account stands at this place, with its classes behind.
fn named_absent(inquiry: &Inquiry, first: u8, order: &Order, is_there: bool) -> Option<Refusal>
    requires few { first ≤ 100 }
    requires class { is_there ≡ has_class inquiry.now (class_of order.now.body) }
    ensures { result ≡ absent_among (named_in_order inquiry.now first order.now) }
{
    let account = (first, inquiry.has_account(order.account));
    let class = (first + 2, is_there);
    match target_of(&order.body) {
        Some(to) => first_absent(&[account, class, (first + 3, inquiry.has_class(to))]),
        None => first_absent(&[account, class]),
    }
}

/// The first rule behind the repeat that an order breaks; `due` is its due moment.
pub(crate) fn broken_by_order(
    inquiry: &Inquiry,
    order: &Order,
    due: &Option<Moment>,
) -> Option<Refusal>
    requires { due.now ≡ due_at inquiry.now.book order.now.body inquiry.now.now }
    ensures { result ≡ first_some (rules_of inquiry.now (Request.Order order.now)) }
{
    let row = row_as_sent(inquiry, inquiry.moment(), order);
    let terms = inquiry.class(class_of(&order.body));
    first_broken(&[
        named_absent(inquiry, 1, order, terms.is_some()),
        reference_used(inquiry, order.account, order.ref_no),
        calendar_ended_by(inquiry, &row, due),
        below_minimum_by(inquiry, &row, terms),
        not_offered(inquiry, &row),
        orders_full(inquiry, order.account),
        journal_full(inquiry),
    ])
}

/// The seconds behind the due moment in which the caller's lines may come; 0 for all but a dealer.
fn window_of(inquiry: &Inquiry) -> u64
    ensures window { result ≡ window_of inquiry.now inquiry.now.caller }
    ensures day { result ≤ 86400 }
{
    match inquiry.caller() {
        Caller::Dealer(dealer) => match inquiry.dealer(dealer) {
            Some(form) => form.window.seconds() as u64,
            None => 0,
        },
        _ => 0,
    }
}

/// Refusal 8. The line's sheet is published, or its due moment is past by more than the window.
fn late_for_dealer(inquiry: &Inquiry, line: &LineForm, due: &Option<Moment>) -> Option<Refusal>
    ensures { result ≡ late_by inquiry.now line.now due.now }
{
    match due {
        Some(due) => refused_when(
            inquiry.is_published_at(class_of(&line.order.body), *due)
                || due.seconds() + window_of(inquiry) < inquiry.moment().seconds(),
            Refusal::LateForDealer(*due),
        ),
        None => None,
    }
}

/// The first rule behind the repeat that a dealer's line breaks; `due` is its due moment.
pub(crate) fn broken_by_line(
    inquiry: &Inquiry,
    line: &LineForm,
    due: &Option<Moment>,
) -> Option<Refusal>
    requires { due.now ≡ due_at inquiry.now.book line.now.order.body line.now.receipt }
    ensures { result ≡ first_some (rules_of inquiry.now (Request.Line line.now)) }
{
    let row = row_as_sent(inquiry, line.receipt, &line.order);
    let terms = inquiry.class(class_of(&line.order.body));
    first_broken(&[
        named_absent(inquiry, 3, &line.order, terms.is_some()),
        reference_used(inquiry, line.order.account, line.order.ref_no),
        calendar_ended_by(inquiry, &row, due),
        below_minimum_by(inquiry, &row, terms),
        not_offered(inquiry, &row),
        late_for_dealer(inquiry, line, due),
        receipt_ahead(inquiry, line.receipt),
        orders_full(inquiry, line.order.account),
        journal_full(inquiry),
    ])
}
