//! The first rule that a line breaks behind the orders of earlier lines.
ghost use Rattle.std.specs.Prelude.{◌≡◌, ◌++◌, Some};
ghost use Rattle.agent_events.specs.declared.request.Request.{Request as AnyRequest};
ghost use Rattle.dealer_lines.specs.Lines.{line_events};
ghost use Rattle.dealer_lines.specs.RulesBehind.{earlier_rule, rule_place, sale_of, without_minimum};
ghost use Rattle.register_laws.specs.Lawful.{own_at};
ghost use Rattle.register_machine.specs.journal.Lawful.{IsLawful};
ghost use Rattle.register_machine.specs.rules.InOrder.{broken_rule};

use crate::earlier::broken_by_earlier;
use agent_events::{Body, LineForm, Order, Placed, Refusal, Request};
use order_book::OrderBook;
use request_rules::{Inquiry, broken_rule};

/// The place of a refusal's rule among those that a line can break behind the repeat.
fn rule_place(refusal: &Refusal) -> u8
    ensures { result ≡ rule_place refusal.now }
{
    match refusal {
        Refusal::NoSuch(_) => 1,
        Refusal::RefUsed => 2,
        Refusal::CalendarEnded => 3,
        Refusal::BelowMinimum(_) => 4,
        Refusal::NotOffered => 5,
        Refusal::LateForDealer(_) => 6,
        Refusal::ReceiptAhead(_) => 7,
        Refusal::OrdersFull(_) => 8,
        Refusal::JournalFull => 9,
        _ => 0,
    }
}

/// The refusal of two whose rule comes earlier.
fn earlier_of(one: Refusal, other: Refusal) -> Refusal
    ensures { Some result ≡ earlier_rule (Some one) (Some other) }
{
    if rule_place(&other) < rule_place(&one) {
        other
    } else {
        one
    }
}

/// The refusal whose rule comes earlier.
fn earlier_rule(one: Option<Refusal>, other: Option<Refusal>) -> Option<Refusal>
    ensures { result ≡ earlier_rule one other }
{
    match one {
        None => other,
        Some(first) => match other {
            None => Some(first),
            Some(second) => Some(earlier_of(first, second)),
        },
    }
}

/// A sale of all shares of the class in place of a purchase.
fn sale_of(body: &Body) -> Body
    ensures { result ≡ sale_of body.now }
{
    match body {
        Body::Buy { class, gross: _ } => Body::SellAll { class: *class },
        _ => *body,
    }
}

/// The line with no minimum to meet, which meets every other rule alike.
fn without_minimum(line: &LineForm) -> LineForm
    ensures { result ≡ without_minimum line.now }
{
    LineForm {
        receipt: line.receipt,
        order: Order {
            account: line.order.account,
            ref_no: line.order.ref_no,
            body: sale_of(&line.order.body),
        },
    }
}

/// The first rule behind the repeat that a line with no minimum to meet breaks at the journal.
fn broken_at_journal(inquiry: &Inquiry, line: &LineForm) -> Option<Refusal>
    ensures { result ≡ broken_rule inquiry.now (AnyRequest.Line (without_minimum line.now)) }
{
    let request = Request::Line(without_minimum(line));
    broken_rule(inquiry, &request)
}

/// The first rule behind the repeat that a line breaks, behind the orders of earlier lines.
pub(crate) fn broken_behind(
    book: &OrderBook,
    inquiry: &Inquiry,
    earlier: &[Placed],
    line: &LineForm,
) -> Option<Refusal>
    requires own { inquiry.now ≡ own_at book.now.journal inquiry.now.now inquiry.now.caller }
    requires lawful { IsLawful (book.now.journal ++ line_events inquiry.now.now earlier.now) }
    ensures { result ≡ broken_rule (own_at
        (book.now.journal ++ line_events inquiry.now.now earlier.now)
        inquiry.now.now inquiry.now.caller) (AnyRequest.Line line.now) }
{
    let at_journal = broken_at_journal(inquiry, line);
    let by_earlier = broken_by_earlier(book, earlier, line);
    earlier_rule(at_journal, by_earlier)
}
