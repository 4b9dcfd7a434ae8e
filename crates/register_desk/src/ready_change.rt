//! What an event changes, ready to be noted, as it is handed on.
ghost use Rattle.std.specs.Prelude.{◌≡◌, IfOk};

use agent_events::Event;
use desk_books::EventChange;
use money_units::NoMemory;
use std::alloc::Global;
use std::marker::Model;

/// An event with all that it changes, which stays where it lies while its answer is handed on. Contracts see the change.
#[derive(Drop)]
pub struct ReadyChange {
    change: Box<EventChange>,
}

impl Model for ReadyChange {
    ghost use Rattle.desk_books.specs.declared.change.EventChange.{EventChange as Changes};

    ghost Value = { Changes };

    ghost view = { λ ready. ready.change.value };
}

impl ReadyChange {
    /// A change, to be handed on. After `NoMemory` it is given up.
    pub fn of(alloc: Global, change: EventChange) -> Result<ReadyChange, NoMemory>
        ensures { IfOk result (λ ready. ready ≡ change) }
    {
        let change = Box::new(alloc, change)?;
        Ok(ReadyChange { change })
    }

    /// The event.
    pub fn event(&self) -> &Event
        ensures { result.now ≡ self.now.event }
    {
        &self.change.event
    }

    /// The change itself, to be noted.
    pub fn into_change(self) -> EventChange
        ensures { result ≡ self }
    {
        Box::into_inner(self.change)
    }
}
