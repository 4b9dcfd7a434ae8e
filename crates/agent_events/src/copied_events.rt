//! Copies of events and requests.
use crate::copied::Copied;
use crate::event::{Event, EventKind};
use crate::request::Request;
use money_units::NoMemory;
use std::alloc::Global;

impl Copied for EventKind {
    fn copy(&self, alloc: Global) -> Result<EventKind, NoMemory> {
        Ok(match self {
            EventKind::Calendar(form) => EventKind::Calendar(form.copy(alloc)?),
            EventKind::Close(form) => EventKind::Close(*form),
            EventKind::Class(form) => EventKind::Class(form.copy(alloc)?),
            EventKind::Dealer(form) => EventKind::Dealer(form.copy(alloc)?),
            EventKind::Household(form) => EventKind::Household(form.copy(alloc)?),
            EventKind::Account(form) => EventKind::Account(form.copy(alloc)?),
            EventKind::Order(form) => EventKind::Order(*form),
            EventKind::Cancel(form) => EventKind::Cancel(*form),
            EventKind::Sheet(form) => EventKind::Sheet(form.copy(alloc)?),
            EventKind::Dividend(form) => EventKind::Dividend(*form),
            EventKind::FixPrice(form) => EventKind::FixPrice(*form),
            EventKind::FixRate(form) => EventKind::FixRate(*form),
            EventKind::Enter(form) => EventKind::Enter(*form),
            EventKind::Replace(form) => EventKind::Replace(*form),
            EventKind::Void(form) => EventKind::Void(*form),
        })
    }
}

impl Copied for Event {
    fn copy(&self, alloc: Global) -> Result<Event, NoMemory> {
        let kind = self.kind().copy(alloc)?;
        Ok(Event::new(self.moment(), kind))
    }
}

impl Copied for Request {
    fn copy(&self, alloc: Global) -> Result<Request, NoMemory> {
        Ok(match self {
            Request::Calendar(form) => Request::Calendar(form.copy(alloc)?),
            Request::Close(form) => Request::Close(*form),
            Request::Class(form) => Request::Class(form.copy(alloc)?),
            Request::Dealer(form) => Request::Dealer(form.copy(alloc)?),
            Request::Household(form) => Request::Household(form.copy(alloc)?),
            Request::Account(form) => Request::Account(form.copy(alloc)?),
            Request::Sheet(form) => Request::Sheet(form.copy(alloc)?),
            Request::Dividend(form) => Request::Dividend(*form),
            Request::FixPrice(form) => Request::FixPrice(*form),
            Request::FixRate(form) => Request::FixRate(*form),
            Request::Enter(form) => Request::Enter(*form),
            Request::Replace(form) => Request::Replace(*form),
            Request::Void(form) => Request::Void(*form),
            Request::Order(form) => Request::Order(*form),
            Request::Cancel(form) => Request::Cancel(*form),
            Request::Show(form) => Request::Show(*form),
            Request::Trace(form) => Request::Trace(*form),
            Request::Statement(form) => Request::Statement(*form),
            Request::Line(form) => Request::Line(*form),
            Request::Books => Request::Books,
        })
    }
}
