//! The request that a stored event answers, and who asked it.
ghost use Rattle.std.specs.Prelude.{◌≡◌, IfOk};
ghost use Rattle.std.specs.Option.{option_copied, option_map_or};
ghost use Rattle.agent_events.specs.Events.{order_request, request_of};
ghost use Rattle.register_machine.specs.journal.Lawful.{asker_by, asker_of, dealer_of};

use agent_events::{Caller, Copied, DealerForm, EventKind, LineForm, Placed, Request, Source};
use money_units::NoMemory;
use order_intake::Book;
use std::alloc::Global;

/// An order was asked for by itself, a dealer's by a line with its receipt.
fn order_request(placed: &Placed) -> Request
    ensures { result ≡ order_request placed.now.source placed.now.receipt placed.now.order }
{
    match placed.source {
        Source::Direct => Request::Order(placed.order),
        Source::Dealer => Request::Line(LineForm {
            receipt: placed.receipt,
            order: placed.order,
        }),
    }
}

/// The request that an event answers, by a copy of its fields.
pub fn request_of(alloc: Global, kind: &EventKind) -> Result<Request, NoMemory>
    ensures { IfOk result (λ request. request ≡ request_of kind.now) }
{
    Ok(match kind {
        EventKind::Calendar(form) => Request::Calendar(form.copy(alloc)?),
        EventKind::Close(form) => Request::Close(*form),
        EventKind::Class(form) => Request::Class(form.copy(alloc)?),
        EventKind::Dealer(form) => Request::Dealer(form.copy(alloc)?),
        EventKind::Household(form) => Request::Household(form.copy(alloc)?),
        EventKind::Account(form) => Request::Account(form.copy(alloc)?),
        EventKind::Order(placed) => order_request(placed),
        EventKind::Cancel(form) => Request::Cancel(*form),
        EventKind::Sheet(form) => Request::Sheet(form.copy(alloc)?),
        EventKind::Dividend(form) => Request::Dividend(*form),
        EventKind::FixPrice(form) => Request::FixPrice(*form),
        EventKind::FixRate(form) => Request::FixRate(*form),
        EventKind::Enter(form) => Request::Enter(*form),
        EventKind::Replace(form) => Request::Replace(*form),
        EventKind::Void(form) => Request::Void(*form),
    })
}

/// The dealer that an account names, where the journal has that dealer.
fn dealer_of(book: &Book, account: u32) -> Option<&DealerForm>
    ensures { option_copied result ≡ dealer_of book.now.journal account }
{
    let account = book.orders().account(account)?;
    book.orders().dealer(account.dealer)
}

/// The dealer of an account asked for a line on it; a stranger, where the journal has no such dealer.
fn asker_of_line(book: &Book, account: u32) -> Caller
    ensures { result ≡ option_map_or (λ form. Caller.Dealer form.dealer)
        (dealer_of book.now.journal account) Caller.Stranger }
{
    match dealer_of(book, account) {
        Some(form) => Caller::Dealer(form.dealer.number()),
        None => Caller::Stranger,
    }
}

/// Who asked for an order.
fn asker_by(book: &Book, placed: &Placed) -> Caller
    ensures { result ≡ asker_by book.now.journal placed.now placed.now.source }
{
    match placed.source {
        Source::Direct => Caller::Operator,
        Source::Dealer => asker_of_line(book, placed.order.account.number()),
    }
}

/// Who is to ask for an event again: the dealer of its account for a dealer's line, and the operator for all else.
pub fn asker_of(book: &Book, kind: &EventKind) -> Caller
    ensures { result ≡ asker_of book.now.journal kind.now }
{
    match kind {
        EventKind::Order(placed) => asker_by(book, placed),
        _ => Caller::Operator,
    }
}
