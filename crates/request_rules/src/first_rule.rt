//! The first rule behind the repeat that a request breaks, by its verb.
ghost use Rattle.std.specs.Prelude.{◌≡◌};
ghost use Rattle.request_rules.specs.VerbRules.{due_of_request, rules_of};
ghost use Rattle.register_machine.specs.journal.Choices.{first_some};
ghost use Rattle.register_machine.specs.pricing.CorrectedBook.{due_at};
ghost use Rattle.register_machine.specs.rules.InOrder.{broken_rule};

use crate::cancels::broken_by_cancel;
use crate::corrections::{
    broken_by_entry, broken_by_fix_price, broken_by_fix_rate, broken_by_replacement, broken_by_void,
};
use crate::days::{broken_by_close, broken_by_dividend, broken_by_sheet};
use crate::inquiry::Inquiry;
use crate::looks::{broken_by_show, broken_by_statement, broken_by_trace};
use crate::orders::{broken_by_line, broken_by_order};
use crate::set_up::{
    broken_by_account, broken_by_calendar, broken_by_class, broken_by_dealer, broken_by_household,
};
use agent_events::{Body, Refusal, Request};
use money_units::Moment;

/// The due moment of what a request orders; `None` too where it orders nothing.
pub fn due_of_request(inquiry: &Inquiry, request: &Request) -> Option<Moment>
    ensures { result ≡ due_of_request inquiry.now request.now }
{
    match request {
        Request::Order(order) => inquiry.due_at(&order.body, inquiry.moment()),
        Request::Line(line) => inquiry.due_at(&line.order.body, line.receipt),
        _ => None,
    }
}

/// The first of its verb's rules that a request breaks.
fn broken_of_verb(inquiry: &Inquiry, request: &Request, due: &Option<Moment>) -> Option<Refusal>
    requires { due.now ≡ due_of_request inquiry.now request.now }
    ensures { result ≡ first_some (rules_of inquiry.now request.now) }
{
    match request {
        Request::Calendar(form) => broken_by_calendar(inquiry, form),
        Request::Close(form) => broken_by_close(inquiry, form),
        Request::Class(form) => broken_by_class(inquiry, form),
        Request::Dealer(form) => broken_by_dealer(inquiry, form),
        Request::Household(form) => broken_by_household(inquiry, form),
        Request::Account(form) => broken_by_account(inquiry, form),
        Request::Sheet(form) => broken_by_sheet(inquiry, form),
        Request::Dividend(form) => broken_by_dividend(inquiry, form),
        Request::FixPrice(form) => broken_by_fix_price(inquiry, form),
        Request::FixRate(form) => broken_by_fix_rate(inquiry, form),
        Request::Enter(form) => broken_by_entry(inquiry, form),
        Request::Replace(form) => broken_by_replacement(inquiry, form),
        Request::Void(form) => broken_by_void(inquiry, form),
        Request::Order(order) => broken_by_order(inquiry, order, due),
        Request::Cancel(form) => broken_by_cancel(inquiry, form),
        Request::Show(account) => broken_by_show(inquiry, *account),
        Request::Trace(form) => broken_by_trace(inquiry, form),
        Request::Statement(form) => broken_by_statement(inquiry, form),
        Request::Books => None,
        Request::Line(line) => broken_by_line(inquiry, line, due),
    }
}

/// The first rule behind the repeat that a request breaks, but for the one on what a correction
/// breaks. `due` is the due moment of what it orders.
#[tactic(auto, using(crate::proofs::RulesByVerb::rule_by_verb))]
pub fn broken_rule_by(inquiry: &Inquiry, request: &Request, due: &Option<Moment>) -> Option<Refusal>
    requires { due.now ≡ due_of_request inquiry.now request.now }
    ensures { result ≡ broken_rule inquiry.now request.now }
{
    broken_of_verb(inquiry, request, due)
}

/// The same, where the due moment isn't known yet.
pub fn broken_rule(inquiry: &Inquiry, request: &Request) -> Option<Refusal>
    ensures { result ≡ broken_rule inquiry.now request.now }
{
    broken_rule_by(inquiry, request, &due_of_request(inquiry, request))
}

/// The due moment of what a request orders, received at this moment.
pub fn due_now(inquiry: &Inquiry, body: &Body, receipt: Moment) -> Option<Moment>
    ensures { result ≡ due_at inquiry.now.book body.now receipt }
{
    inquiry.due_at(body, receipt)
}
