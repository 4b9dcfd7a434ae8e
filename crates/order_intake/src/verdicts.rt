//! The verdict on a request behind a book of orders.
ghost use Rattle.std.specs.Prelude.{◌≡◌, IfOk, None, position, unwrap_or};
ghost use Rattle.agent_events.specs.Events.{event_of};
ghost use Rattle.order_intake.specs.Admitted.{due_asked};
ghost use Rattle.register_laws.specs.Lawful.{own_at};
ghost use Rattle.register_machine.specs.journal.Choices.{first_some};
ghost use Rattle.register_machine.specs.journal.Lawful.{IsLawful};
ghost use Rattle.register_machine.specs.rules.InOrder.{broken_rule, first_rules};
ghost use Rattle.register_machine.specs.run.Verdicts.{repeats, verdict, verdict_by_place, verdict_by_rule};

use crate::fresh::{due_kept, event_of, read_lists};
use crate::repeats::first_repeated;
use crate::terms::bad_terms;
use agent_events::{Event, Refusal, Request, Verdict};
use money_units::{Moment, NoMemory};
use order_book::OrderBook;
use request_rules::{Inquiry, broken_rule_by, due_of_request, no_right};
use std::alloc::Global;

/// The first rule before the repeat that a request breaks.
fn first_refusal(
    alloc: Global,
    inquiry: &Inquiry,
    request: &Request,
) -> Result<Option<Refusal>, NoMemory>
    ensures { IfOk result (λ found. found ≡ first_some (first_rules inquiry.now request.now)) }
{
    if let Some(refusal) = no_right(inquiry, request) {
        return Ok(Some(refusal));
    }
    match bad_terms(alloc, request)? {
        Some(refusal) => Ok(Some(refusal)),
        None => Ok(None),
    }
}

/// The verdict on a request that breaks no rule: the event that it brings, or a look. `due` is the
/// due moment of what it orders.
fn verdict_fresh(
    alloc: Global,
    book: &OrderBook,
    inquiry: &Inquiry,
    request: &Request,
    due: Option<Moment>,
) -> Result<Verdict, NoMemory>
    requires due { unwrap_or due 0 ≡ due_asked inquiry.now request.now }
    requires lawful { IsLawful book.now.journal }
    requires own { inquiry.now ≡ own_at book.now.journal inquiry.now.now inquiry.now.caller }
    requires good { first_some (first_rules inquiry.now request.now) ≡ None }
    requires clear { broken_rule inquiry.now request.now ≡ None }
    ensures { IfOk result (λ said. said ≡ verdict_by_rule inquiry.now request.now None) }
{
    match event_of(alloc, request, inquiry.moment(), due_kept(due))? {
        Some(kind) => {
            read_lists(&kind);
            Ok(Verdict::Fresh(Event::new(inquiry.moment(), kind)))
        }
        None => Ok(Verdict::Query),
    }
}

/// The verdict on a request whose content is new.
#[tactic(auto, using(crate::proofs::LawfulFits::asked_due))]
fn verdict_by_rule(
    alloc: Global,
    book: &OrderBook,
    inquiry: &Inquiry,
    request: &Request,
) -> Result<Verdict, NoMemory>
    requires lawful { IsLawful book.now.journal }
    requires own { inquiry.now ≡ own_at book.now.journal inquiry.now.now inquiry.now.caller }
    requires good { first_some (first_rules inquiry.now request.now) ≡ None }
    ensures { IfOk result (λ said. said
        ≡ verdict_by_rule inquiry.now request.now (broken_rule inquiry.now request.now)) }
{
    let due = due_of_request(inquiry, request);
    match broken_rule_by(inquiry, request, &due) {
        Some(refusal) => Ok(Verdict::Refused(refusal)),
        None => verdict_fresh(alloc, book, inquiry, request, due),
    }
}

/// The verdict on a request that may be made, in good terms.
fn verdict_by_place(
    alloc: Global,
    book: &OrderBook,
    inquiry: &Inquiry,
    request: &Request,
) -> Result<Verdict, NoMemory>
    requires lawful { IsLawful book.now.journal }
    requires own { inquiry.now ≡ own_at book.now.journal inquiry.now.now inquiry.now.caller }
    requires good { first_some (first_rules inquiry.now request.now) ≡ None }
    ensures { IfOk result (λ said. said ≡ verdict_by_place inquiry.now request.now
        (position (repeats request.now) book.now.journal)) }
{
    match first_repeated(book, request) {
        Some(place) => Ok(Verdict::Again(place)),
        None => verdict_by_rule(alloc, book, inquiry, request),
    }
}

/// The verdict on a request.
pub(crate) fn verdict_of(
    alloc: Global,
    book: &OrderBook,
    inquiry: &Inquiry,
    request: &Request,
) -> Result<Verdict, NoMemory>
    requires lawful { IsLawful book.now.journal }
    requires own { inquiry.now ≡ own_at book.now.journal inquiry.now.now inquiry.now.caller }
    ensures { IfOk result (λ said. said ≡ verdict inquiry.now request.now) }
{
    match first_refusal(alloc, inquiry, request)? {
        Some(refusal) => Ok(Verdict::Refused(refusal)),
        None => verdict_by_place(alloc, book, inquiry, request),
    }
}
