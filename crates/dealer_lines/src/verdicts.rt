//! What is said of a line behind the orders of earlier lines.
ghost use Rattle.std.specs.Prelude.{◌≡◌, ◌++◌, unwrap_or};
ghost use Rattle.agent_events.specs.Events.{placed_by_dealer};
ghost use Rattle.agent_events.specs.declared.request.Request.{Request as AnyRequest};
ghost use Rattle.dealer_lines.specs.Answers.{said_by_right, said_by_rule};
ghost use Rattle.dealer_lines.specs.Lines.{line_events};
ghost use Rattle.dealer_lines.specs.Repeats.{placed_before};
ghost use Rattle.register_laws.specs.Lawful.{own_at};
ghost use Rattle.register_machine.specs.journal.Lawful.{IsLawful};
ghost use Rattle.register_machine.specs.pricing.CorrectedBook.{due_at};
ghost use Rattle.register_machine.specs.rules.InOrder.{broken_rule};
ghost use Rattle.register_machine.specs.rules.Situations.{no_right};

use crate::repeats::placed_before;
use crate::rules::broken_behind;
use agent_events::{LineForm, Placed, Refusal, Request, Source};
use money_units::Moment;
use order_book::OrderBook;
use request_rules::{Inquiry, due_now, no_right};

/// What is said of a line.
#[derive(Clone, Copy, Debug, PartialEq, Eq)]
pub enum LineVerdict {
    /// The line is new and breaks no rule: it places this order.
    Places(Placed),
    /// An equal line placed this order before.
    Again(Placed),
    /// The first rule that the line breaks.
    Refused(Refusal),
}

/// The order that a line places: it keeps the moment at which it is due now.
fn order_placed(inquiry: &Inquiry, line: &LineForm) -> Placed
    ensures { result ≡ placed_by_dealer line.now
        (unwrap_or (due_at inquiry.now.book line.now.order.body line.now.receipt) 0) }
{
    let due = match due_now(inquiry, &line.order.body, line.receipt) {
        Some(due) => due,
        None => Moment::start(),
    };
    Placed {
        order: line.order,
        source: Source::Dealer,
        receipt: line.receipt,
        due,
    }
}

/// What is said of a line whose content is new.
fn said_by_rule(
    book: &OrderBook,
    inquiry: &Inquiry,
    earlier: &[Placed],
    line: &LineForm,
) -> LineVerdict
    requires own { inquiry.now ≡ own_at book.now.journal inquiry.now.now inquiry.now.caller }
    requires lawful { IsLawful (book.now.journal ++ line_events inquiry.now.now earlier.now) }
    ensures { result ≡ said_by_rule inquiry.now line.now (broken_rule (own_at
        (book.now.journal ++ line_events inquiry.now.now earlier.now)
        inquiry.now.now inquiry.now.caller) (AnyRequest.Line line.now)) }
{
    match broken_behind(book, inquiry, earlier, line) {
        Some(refusal) => LineVerdict::Refused(refusal),
        None => LineVerdict::Places(order_placed(inquiry, line)),
    }
}

/// What is said of a line, which the request is, behind the book's events and the orders of earlier lines.
pub(crate) fn said_of_line(
    book: &OrderBook,
    inquiry: &Inquiry,
    earlier: &[Placed],
    request: &Request,
    line: &LineForm,
) -> LineVerdict
    requires own { inquiry.now ≡ own_at book.now.journal inquiry.now.now inquiry.now.caller }
    requires lawful { IsLawful (book.now.journal ++ line_events inquiry.now.now earlier.now) }
    requires line { request.now ≡ AnyRequest.Line line.now }
    ensures { result ≡ said_by_right inquiry.now line.now (broken_rule (own_at
        (book.now.journal ++ line_events inquiry.now.now earlier.now)
        inquiry.now.now inquiry.now.caller) (AnyRequest.Line line.now))
        (placed_before request.now (book.now.journal ++ line_events inquiry.now.now earlier.now))
        (no_right inquiry.now request.now) }
{
    if let Some(refusal) = no_right(inquiry, request) {
        return LineVerdict::Refused(refusal);
    }
    match placed_before(book, earlier, request) {
        Some(placed) => LineVerdict::Again(placed),
        None => said_by_rule(book, inquiry, earlier, line),
    }
}
