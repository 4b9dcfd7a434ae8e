//! The event that a new request brings.
ghost use Rattle.std.specs.Prelude.{◌≡◌, IfOk, true, unwrap_or};
ghost use Rattle.agent_events.specs.Events.{event_of};
ghost use Rattle.register_laws.specs.LawfulLimits.{has_list_forms};

use agent_events::{Copied, EventKind, Placed, Request, Source};
use money_units::{Moment, NoMemory};
use std::alloc::Global;

/// The due moment that the event keeps: the first moment of all where there is none.
pub(crate) fn due_kept(due: Option<Moment>) -> Moment
    ensures { result ≡ unwrap_or due 0 }
{
    match due {
        Some(due) => due,
        None => Moment::start(),
    }
}

/// What a request brings at a moment; nothing for a look.
pub(crate) fn event_of(
    alloc: Global,
    request: &Request,
    now: Moment,
    due: Moment,
) -> Result<Option<EventKind>, NoMemory>
    ensures { IfOk result (λ kind. kind ≡ event_of request.now now due) }
{
    Ok(match request {
        Request::Calendar(form) => Some(EventKind::Calendar(form.copy(alloc)?)),
        Request::Close(form) => Some(EventKind::Close(*form)),
        Request::Class(form) => Some(EventKind::Class(form.copy(alloc)?)),
        Request::Dealer(form) => Some(EventKind::Dealer(form.copy(alloc)?)),
        Request::Household(form) => Some(EventKind::Household(form.copy(alloc)?)),
        Request::Account(form) => Some(EventKind::Account(form.copy(alloc)?)),
        Request::Sheet(form) => Some(EventKind::Sheet(form.copy(alloc)?)),
        Request::Dividend(form) => Some(EventKind::Dividend(*form)),
        Request::FixPrice(form) => Some(EventKind::FixPrice(*form)),
        Request::FixRate(form) => Some(EventKind::FixRate(*form)),
        Request::Enter(form) => Some(EventKind::Enter(*form)),
        Request::Replace(form) => Some(EventKind::Replace(*form)),
        Request::Void(form) => Some(EventKind::Void(*form)),
        Request::Order(order) => Some(EventKind::Order(Placed {
            order: *order,
            source: Source::Direct,
            receipt: now,
            due,
        })),
        Request::Cancel(form) => Some(EventKind::Cancel(*form)),
        Request::Show(_) => None,
        Request::Trace(_) => None,
        Request::Statement(_) => None,
        Request::Books => None,
        Request::Line(line) => Some(EventKind::Order(Placed {
            order: line.order,
            source: Source::Dealer,
            receipt: line.receipt,
            due,
        })),
    })
}

/// The lists of an event have the forms of their types.
pub(crate) fn read_lists(kind: &EventKind)
    ensures { has_list_forms kind.now ≡ true }
{
    match kind {
        EventKind::Calendar(form) => {
            let _holidays = form.holidays.as_slice();
        }
        EventKind::Sheet(form) => {
            let _prices = form.prices.as_slice();
        }
        _ => {}
    }
}
