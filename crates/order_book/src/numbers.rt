//! How many calendars and households there are, and where classes and dealers are opened.
ghost use Rattle.std.specs.Prelude.{◌≡◌, ◌≤◌, ◌<◌, ◌+◌, ℕ, [], OnOk, length};
ghost use Rattle.order_book.specs.Numbers.{KeepsNumbers, HasNumberRoom};
ghost use Rattle.register_machine.specs.journal.Journals.{Journal, with_event};

use crate::room::push_within;
use agent_events::EventKind;
use money_units::NoMemory;
use std::alloc::Global;

/// The numbers of calendars and households, and the places of the events that open classes and of those that register dealers.
#[derive(Drop)]
pub struct Numbers {
    calendars: usize,
    classes: Vec<usize>,
    dealers: Vec<usize>,
    households: usize,
}

impl Numbers {
    pub fn new(alloc: Global) -> Numbers
        ensures { KeepsNumbers result [] }
    {
        Numbers {
            calendars: 0,
            classes: Vec::new(alloc),
            dealers: Vec::new(alloc),
            households: 0,
        }
    }

    pub fn calendars(&self) -> usize
        ensures { result ≡ self.now.calendars }
    {
        self.calendars
    }

    pub fn households(&self) -> usize
        ensures { result ≡ self.now.households }
    {
        self.households
    }

    /// The places of the events that open classes, in order.
    pub fn classes(&self) -> &[usize]
        ensures { result.now ≡ self.now.classes.items }
    {
        self.classes.as_slice()
    }

    /// The places of the events that register dealers, in order.
    pub fn dealers(&self) -> &[usize]
        ensures { result.now ≡ self.now.dealers.items }
    {
        self.dealers.as_slice()
    }

    /// Takes the memory for so many events.
    pub fn reserve(&mut self, events: usize) -> Result<(), NoMemory>
        ensures same { (journal : Journal) → KeepsNumbers self.old journal
            → KeepsNumbers self.new journal }
        ensures room { OnOk result (HasNumberRoom self.new events) }
        ensures kept { (n : ℕ) → HasNumberRoom self.old n → HasNumberRoom self.new n }
    {
        self.classes.reserve(events)?;
        self.dealers.reserve(events)?;
        Ok(())
    }

    /// Takes in what an event at this place opens.
    pub fn take(&mut self, kind: &EventKind, place: usize)
        requires room { HasNumberRoom self.old 1 }
        requires calendars { self.old.calendars < 100000000 }
        requires households { self.old.households < 100000000 }
        ensures kept { (journal : Journal) (moment : ℕ) → place ≡ length journal
            → KeepsNumbers self.old journal
            → KeepsNumbers self.new
            (with_event journal (record { moment = moment; kind = kind.now })) }
        ensures room { (n : ℕ) → HasNumberRoom self.old (n + 1) → HasNumberRoom self.new n }
    {
        match kind {
            EventKind::Calendar(_) => self.calendars += 1,
            EventKind::Class(_) => push_within(&mut self.classes, &place),
            EventKind::Dealer(_) => push_within(&mut self.dealers, &place),
            EventKind::Household(_) => self.households += 1,
            _ => {}
        }
    }
}
