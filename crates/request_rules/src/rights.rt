//! Refusal 1: who may ask what.
ghost use Rattle.std.specs.Prelude.{◌≡◌};
ghost use Rattle.register_machine.specs.rules.Callers.{dealer_may, household_may, may, operator_may, owns, serves};
ghost use Rattle.register_machine.specs.rules.Situations.{no_right};

use crate::inquiry::Inquiry;
use crate::rules::refused_when;
use agent_events::{Caller, Refusal, Request};

/// The operator may ask for all but a dealer's line.
fn operator_may(request: &Request) -> bool
    ensures { result ≡ operator_may request.now }
{
    match request {
        Request::Line(_) => false,
        _ => true,
    }
}

/// A household may place and cancel orders and look, on its own accounts.
fn household_may(inquiry: &Inquiry, household: u32, request: &Request) -> bool
    ensures { result ≡ household_may (owns inquiry.now.book.accounts household) request.now }
{
    match request {
        Request::Order(order) => inquiry.owns(household, order.account),
        Request::Cancel(form) => inquiry.owns(household, form.account),
        Request::Show(account) => inquiry.owns(household, *account),
        Request::Trace(form) => inquiry.owns(household, form.account),
        Request::Statement(form) => inquiry.owns(household, form.account),
        _ => false,
    }
}

/// A dealer may send lines, cancel and look, on accounts that name it.
fn dealer_may(inquiry: &Inquiry, dealer: u32, request: &Request) -> bool
    ensures { result ≡ dealer_may (serves inquiry.now.book.accounts dealer) request.now }
{
    match request {
        Request::Line(line) => inquiry.serves(dealer, line.order.account),
        Request::Cancel(form) => inquiry.serves(dealer, form.account),
        Request::Show(account) => inquiry.serves(dealer, *account),
        Request::Trace(form) => inquiry.serves(dealer, form.account),
        Request::Statement(form) => inquiry.serves(dealer, form.account),
        _ => false,
    }
}

/// Whether the caller may ask for this.
fn may(inquiry: &Inquiry, request: &Request) -> bool
    ensures { result ≡ may inquiry.now.book.accounts inquiry.now.caller request.now }
{
    match inquiry.caller() {
        Caller::Operator => operator_may(request),
        Caller::Household(household) => household_may(inquiry, household, request),
        Caller::Dealer(dealer) => dealer_may(inquiry, dealer, request),
        Caller::Stranger => false,
    }
}

/// Refusal 1. The caller has no right to the verb, or to the account that it names.
pub fn no_right(inquiry: &Inquiry, request: &Request) -> Option<Refusal>
    ensures { result ≡ no_right inquiry.now request.now }
{
    refused_when(!may(inquiry, request), Refusal::NoRight)
}
