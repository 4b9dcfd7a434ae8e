//! The book of orders with its verdicts.
ghost use Rattle.std.specs.Prelude.{◌≡◌, ◌≤◌, ◌<◌, ◌-◌, [], OnOk, length, slice_get};
ghost use Rattle.std.specs.Option.{option_copied};
ghost use Rattle.order_book.specs.Books.{Fits};
ghost use Rattle.register_machine.specs.journal.Journals.{last_moment, with_event};
ghost use Rattle.register_machine.specs.pricing.CorrectedOrders.{order_named, orders_of};
ghost use Rattle.register_machine.specs.rules.Callers.{caller_of};

use crate::admitting::caller_of;
use agent_events::{Caller, Event, OrderRow};
use money_units::{Moment, NoMemory};
use order_book::OrderBook;
use std::alloc::Global;
use std::marker::Model;

/// The events of the register in turn, with what is asked of them when a request comes. Contracts see it as its journal, with
/// the number of events for which it has memory.
#[derive(Drop)]
pub struct Book {
    orders: OrderBook,
}

impl Model for Book {
    ghost use Rattle.order_book.specs.Books.{NotedJournal};

    ghost Value = { NotedJournal };

    ghost view = { λ book. book.orders };
}

impl Book {
    /// The empty book, which takes no memory yet.
    pub fn new(alloc: Global) -> Book
        ensures { result ≡ record { journal = []; spare = 0 } }
    {
        Book {
            orders: OrderBook::new(alloc),
        }
    }

    /// Who calls, as the key tells.
    pub fn caller_of(&self, key: &[u8], operator: &[u8]) -> Caller
        ensures { result ≡ caller_of self.now.journal operator.now key.now }
    {
        caller_of(&self.orders, key, operator)
    }

    /// Takes the memory that so many events of any kind need. After `NoMemory` the book is as before but for its room.
    pub fn reserve(&mut self, events: usize) -> Result<(), NoMemory>
        ensures same { self.new.journal ≡ self.old.journal }
        ensures room { OnOk result (events ≤ self.new.spare) }
        ensures kept { self.old.spare ≤ self.new.spare }
    {
        self.orders.reserve(events)
    }

    /// Notes an event behind the others, for which memory was taken.
    pub fn note(&mut self, seq: u64, event: Event)
        requires next { seq ≡ length self.old.journal }
        requires few { seq < 100000000 }
        requires room { 1 ≤ self.old.spare }
        requires fits { Fits self.old.journal event }
        ensures journal { self.new.journal ≡ with_event self.old.journal event }
        ensures spare { self.new.spare ≡ self.old.spare - 1 }
    {
        self.orders.note(seq, event)
    }

    /// How many events are noted.
    pub fn len(&self) -> u64
        ensures { result ≡ length self.now.journal }
    {
        self.orders.len()
    }

    /// The moment of the last event, the first moment of all where there is none.
    pub fn last_moment(&self) -> Moment
        ensures { result ≡ last_moment self.now.journal }
    {
        self.orders.last_moment()
    }

    /// The event at a place, from 0; `None` exactly where there is none.
    pub fn event(&self, seq: u64) -> Option<&Event>
        ensures { option_copied result ≡ slice_get self.now.journal seq }
    {
        self.orders.event(seq)
    }

    /// The order of an account as corrected, struck or not; `None` exactly where there is none.
    pub fn order(&self, account: u32, ref_no: u64) -> Option<&OrderRow>
        ensures { option_copied result ≡ order_named (orders_of self.now.journal) account ref_no }
    {
        self.orders.order(account, ref_no)
    }

    /// All look-ups of the book of orders.
    pub fn orders(&self) -> &OrderBook
        ensures { result.now ≡ self.now }
    {
        &self.orders
    }
}
