//! The content of an event beside that of a request.
ghost use Rattle.std.specs.Prelude.{◌≡◌};
ghost use Rattle.agent_events.specs.Contents.{same_request};
ghost use Rattle.agent_events.specs.Events.{order_request, request_of};

use crate::event::{EventKind, Placed, Source};
use crate::request::{LineForm, Request};
use crate::verbs::{
    same_account, same_asked, same_calendar, same_cancel, same_class, same_close, same_dealer,
    same_dividend, same_enter, same_fix_price, same_fix_rate, same_household, same_line,
    same_replace, same_sheet, same_void,
};

// Whether an order was asked for by this request.
fn placed_by(placed: &Placed, request: &Request) -> bool
    ensures { result ≡ same_request (order_request placed.now.source placed.now.receipt
        placed.now.order) request.now }
{
    match placed.source {
        Source::Direct => match request {
            Request::Order(order) => same_asked(&placed.order, order),
            _ => false,
        },
        Source::Dealer => match request {
            Request::Line(line) => {
                let first = LineForm {
                    receipt: placed.receipt,
                    order: placed.order,
                };
                same_line(&first, line)
            }
            _ => false,
        },
    }
}

/// Whether an event was brought by a request of this content.
pub fn brought_by(kind: &EventKind, request: &Request) -> bool
    ensures { result ≡ same_request (request_of kind.now) request.now }
{
    match kind {
        EventKind::Calendar(first) => match request {
            Request::Calendar(second) => same_calendar(first, second),
            _ => false,
        },
        EventKind::Close(first) => match request {
            Request::Close(second) => same_close(first, second),
            _ => false,
        },
        EventKind::Class(first) => match request {
            Request::Class(second) => same_class(first, second),
            _ => false,
        },
        EventKind::Dealer(first) => match request {
            Request::Dealer(second) => same_dealer(first, second),
            _ => false,
        },
        EventKind::Household(first) => match request {
            Request::Household(second) => same_household(first, second),
            _ => false,
        },
        EventKind::Account(first) => match request {
            Request::Account(second) => same_account(first, second),
            _ => false,
        },
        EventKind::Order(placed) => placed_by(placed, request),
        EventKind::Cancel(first) => match request {
            Request::Cancel(second) => same_cancel(first, second),
            _ => false,
        },
        EventKind::Sheet(first) => match request {
            Request::Sheet(second) => same_sheet(first, second),
            _ => false,
        },
        EventKind::Dividend(first) => match request {
            Request::Dividend(second) => same_dividend(first, second),
            _ => false,
        },
        EventKind::FixPrice(first) => match request {
            Request::FixPrice(second) => same_fix_price(first, second),
            _ => false,
        },
        EventKind::FixRate(first) => match request {
            Request::FixRate(second) => same_fix_rate(first, second),
            _ => false,
        },
        EventKind::Enter(first) => match request {
            Request::Enter(second) => same_enter(first, second),
            _ => false,
        },
        EventKind::Replace(first) => match request {
            Request::Replace(second) => same_replace(first, second),
            _ => false,
        },
        EventKind::Void(first) => match request {
            Request::Void(second) => same_void(first, second),
            _ => false,
        },
    }
}
