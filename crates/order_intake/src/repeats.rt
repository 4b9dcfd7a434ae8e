//! Whether a request was answered before: it is found by its identity, and told by its content.
ghost use Rattle.std.specs.Prelude.{◌≡◌, false, position, slice_get};
ghost use Rattle.std.specs.Option.{option_map_or};
ghost use Rattle.order_intake.specs.Requested.{identity_asked, place_asked};
ghost use Rattle.register_laws.specs.Identities.{HasNoIdentityTwice};
ghost use Rattle.register_machine.specs.run.Verdicts.{repeats};

use agent_events::{Identifier, Reference, Request, brought_by};
use order_book::{Identity, OrderBook};

fn reference_of(account: Identifier, ref_no: Reference) -> Identity
    ensures { result ≡ Identity.Reference account ref_no }
{
    Identity::Reference {
        account: account.number(),
        ref_no: ref_no.number(),
    }
}

fn fix_of(fix: Reference) -> Identity
    ensures { result ≡ Identity.Fix fix }
{
    Identity::Fix(fix.number())
}

/// The identity under which a request asks; `None` for a look.
fn identity_asked(request: &Request) -> Option<Identity>
    ensures { result ≡ identity_asked request.now }
{
    match request {
        Request::Calendar(form) => Some(Identity::Calendar(form.calendar.number())),
        Request::Close(form) => Some(Identity::Closure {
            calendar: form.calendar.number(),
            day: form.day,
        }),
        Request::Class(form) => Some(Identity::Class(form.class.number())),
        Request::Dealer(form) => Some(Identity::Dealer(form.dealer.number())),
        Request::Household(form) => Some(Identity::Household(form.household.number())),
        Request::Account(form) => Some(Identity::Account(form.account.number())),
        Request::Sheet(form) => Some(Identity::Sheet {
            calendar: form.calendar.number(),
            moment: form.moment,
        }),
        Request::Dividend(form) => Some(Identity::Dividend {
            class: form.class.number(),
            moment: form.moment,
        }),
        Request::FixPrice(form) => Some(fix_of(form.fix)),
        Request::FixRate(form) => Some(fix_of(form.fix)),
        Request::Enter(form) => Some(fix_of(form.fix)),
        Request::Replace(form) => Some(fix_of(form.fix)),
        Request::Void(form) => Some(fix_of(form.fix)),
        Request::Order(order) => Some(reference_of(order.account, order.ref_no)),
        Request::Cancel(form) => Some(reference_of(form.account, form.ref_no)),
        Request::Show(_) => None,
        Request::Trace(_) => None,
        Request::Statement(_) => None,
        Request::Books => None,
        Request::Line(line) => Some(reference_of(line.order.account, line.order.ref_no)),
    }
}

/// Whether the event at a place was brought by a request of this content.
fn repeats_at(book: &OrderBook, place: u64, request: &Request) -> bool
    ensures { result
        ≡ option_map_or (repeats request.now) (slice_get book.now.journal place) false }
{
    match book.event(place) {
        Some(event) => brought_by(event.kind(), request),
        None => false,
    }
}

/// The place of the first event of the request's identity, where it has the request's content.
fn place_asked(book: &OrderBook, request: &Request) -> Option<u64>
    ensures { result ≡ place_asked request.now book.now.journal }
{
    let identity = identity_asked(request)?;
    let place = book.place(identity)?;
    if repeats_at(book, place, request) {
        Some(place)
    } else {
        None
    }
}

/// The place of the first event that was brought by a request of this content.
pub fn first_repeated(book: &OrderBook, request: &Request) -> Option<u64>
    requires { HasNoIdentityTwice book.now.journal }
    ensures { result ≡ position (repeats request.now) book.now.journal }
{
    place_asked(book, request)
}
