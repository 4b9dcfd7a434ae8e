//! The order that an equal line placed before, in the journal or in the same batch.
ghost use Rattle.std.specs.Prelude.{◌≡◌, ◌++◌, Ok, find, option_and_then, slice_get, true, ℕ};
ghost use Rattle.std.specs.Option.{option_copied};
ghost use Rattle.dealer_lines.specs.Lines.{is_line, line_events, placed_in};
ghost use Rattle.dealer_lines.specs.Repeats.{is_repeat, placed_before};
ghost use Rattle.register_laws.specs.Identities.{HasNoIdentityTwice};

use agent_events::{Event, EventKind, Placed, Request, brought_by};
use order_book::OrderBook;
use order_intake::first_repeated;

/// The order of an event, where it is one of an order.
fn placed_in(kind: &EventKind) -> Option<Placed>
    ensures { result ≡ placed_in kind.now }
{
    match kind {
        EventKind::Order(placed) => Some(*placed),
        _ => None,
    }
}

/// The order of an event, where there is one of an order.
fn order_of(event: Option<&Event>) -> Option<Placed>
    ensures { result ≡ option_and_then (λ event. placed_in event.kind) (option_copied event.entry) }
{
    match event {
        Some(event) => placed_in(event.kind()),
        None => None,
    }
}

/// The order of the event at a place.
fn order_at(book: &OrderBook, place: u64) -> Option<Placed>
    ensures { result ≡ option_and_then (λ event. placed_in event.kind)
        (slice_get book.now.journal place) }
{
    order_of(book.event(place))
}

/// The order of the first event of the book that was brought by a request of this content.
fn placed_in_book(book: &OrderBook, request: &Request) -> Option<Placed>
    requires { HasNoIdentityTwice book.now.journal }
    ensures { result ≡ placed_before request.now book.now.journal }
{
    match first_repeated(book, request) {
        Some(place) => order_at(book, place),
        None => None,
    }
}

/// Whether an order was placed by a request of this content.
fn is_repeat(request: &Request, placed: &Placed) -> bool
    ensures { result ≡ is_repeat request.now placed.now }
{
    brought_by(&EventKind::Order(*placed), request)
}

/// The first order of earlier lines that was placed by a request of this content.
fn placed_earlier(earlier: &[Placed], request: &Request) -> Option<Placed>
    ensures { result ≡ find (is_repeat request.now) earlier.now }
{
    for placed in earlier {
        if is_repeat(request, placed) {
            return Some(*placed);
        }
    }
    None
}

/// The order that an equal line placed before.
pub(crate) fn placed_before(
    book: &OrderBook,
    earlier: &[Placed],
    request: &Request,
) -> Option<Placed>
    requires once { HasNoIdentityTwice book.now.journal }
    requires line { is_line (Ok request.now) ≡ true }
    ensures { (moment : ℕ) → result
        ≡ placed_before request.now (book.now.journal ++ line_events moment earlier.now) }
{
    match placed_in_book(book, request) {
        Some(placed) => Some(placed),
        None => placed_earlier(earlier, request),
    }
}
