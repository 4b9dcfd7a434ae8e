//! The book of orders: its journal, and how it grows.
ghost use Rattle.std.specs.Prelude.{All, ◌≡◌, ◌≤◌, ◌<◌, ◌-◌, ◌==◌, [], length, slice_get, position, find, count_by, option_map, option_and_then, take, OnOk};
ghost use Rattle.std.specs.Option.{option_copied};
ghost use Rattle.agent_events.specs.declared.order.OrderRow.{OrderRow as Row};
ghost use Rattle.order_book.specs.Books.{Fits};
ghost use Rattle.order_book.specs.Brought.{brings};
ghost use Rattle.order_book.specs.LastPlaces.{is_order_of, last_place};
ghost use Rattle.register_machine.specs.journal.Choices.{last_of};
ghost use Rattle.register_machine.specs.journal.Journals.{last_moment, with_event};
ghost use Rattle.register_machine.specs.journal.Kinds.{accounts_of, calendars_of, class_in, classes_of, dealer_in, dealers_of, household_in, households_of};
ghost use Rattle.register_machine.specs.pricing.CorrectedOrders.{is_named, order_named, orders_of};
ghost use Rattle.register_machine.specs.pricing.DividendRates.{fixes_rate, rates_of};
ghost use Rattle.register_machine.specs.rules.Callers.{dealer_with_key, household_with_key};
ghost use Rattle.register_machine.specs.rules.Limits.{is_of_account};

use crate::identity::Identity;
use crate::indexes::Indexes;
use crate::kinds::{class_in, dealer_in, household_in};
use crate::order_index::OrderName;
use crate::rates::RateName;
use crate::room::{item_at, push_event};
use agent_events::{ClassForm, DealerForm, Event, OrderRow};
use money_units::{Moment, NoMemory};
use std::alloc::Global;
use std::marker::Model;

/// So many events at least are made room for at once.
const FEW_EVENTS: usize = 64;

/// The events noted so far, and what is looked up in them. Contracts see them with the number of events, of any kind, that
/// can be noted without more memory.
#[derive(Drop)]
pub struct OrderBook {
    events: Vec<Event>,
    last: Moment,
    indexes: Indexes,
    spare: usize,
}

impl Model for OrderBook {
    ghost use Rattle.order_book.specs.Books.{NotedJournal};

    ghost Value = { NotedJournal };

    ghost use Rattle.order_book.specs.BookKeeps.{noted_journal, IsKept};

    ghost view = { noted_journal };

    ghost invariant = { IsKept };
}

impl OrderBook {
    /// The empty book, which takes no memory yet.
    pub fn new(alloc: Global) -> OrderBook
        ensures { result ≡ record { journal = []; spare = 0 } }
    {
        OrderBook {
            events: Vec::new(alloc),
            last: Moment::start(),
            indexes: Indexes::new(alloc),
            spare: 0,
        }
    }

    /// How many events are noted.
    pub fn len(&self) -> u64
        ensures { result ≡ length self.now.journal }
    {
        self.events.len() as u64
    }

    /// The event at a place, from 0; `None` exactly where there is none.
    pub fn event(&self, seq: u64) -> Option<&Event>
        ensures { option_copied result ≡ slice_get self.now.journal seq }
    {
        self.events.get(seq as usize)
    }

    /// The moment of the last event, 0 where there is none.
    pub fn last_moment(&self) -> Moment
        ensures { result ≡ last_moment self.now.journal }
    {
        self.last
    }

    /// Takes the memory that so many events of any kind need, and that for a few at least, so that most calls find it taken.
    /// After `NoMemory` the journal is as before.
    pub fn reserve(&mut self, events: usize) -> Result<(), NoMemory>
        ensures same { self.new.journal ≡ self.old.journal }
        ensures room { OnOk result (events ≤ self.new.spare) }
        ensures kept { self.old.spare ≤ self.new.spare }
    {
        if events <= self.spare {
            return Ok(());
        }
        let room = events_at_once(events);
        self.events.reserve(room)?;
        self.indexes.reserve(room)?;
        self.spare = room;
        Ok(())
    }

    /// Notes an event behind the others, for which room was reserved: a logarithm of their number at most, and no memory.
    pub fn note(&mut self, seq: u64, event: Event)
        requires next { seq ≡ length self.old.journal }
        requires few { seq < 100000000 }
        requires room { 1 ≤ self.old.spare }
        requires fits { Fits self.old.journal event }
        ensures journal { self.new.journal ≡ with_event self.old.journal event }
        ensures spare { self.new.spare ≡ self.old.spare - 1 }
    {
        let moment = event.moment();
        self.indexes.take(event.kind(), seq);
        push_event(&mut self.events, event);
        self.last = moment;
        self.spare -= 1;
    }

    /// The place of the first event that brings this identity.
    pub fn place(&self, identity: Identity) -> Option<u64>
        ensures { result ≡ position (brings identity) self.now.journal }
    {
        match self.indexes.identities.place(identity) {
            Some(place) => Some(place as u64),
            None => None,
        }
    }

    /// The first event that brings this identity.
    pub fn brought(&self, identity: Identity) -> Option<&Event>
        ensures { option_copied result ≡ find (brings identity) self.now.journal }
    {
        match self.indexes.identities.place(identity) {
            Some(place) => item_at(self.events.as_slice(), place),
            None => None,
        }
    }

    /// How many calendars there are.
    pub fn calendars(&self) -> usize
        ensures { result ≡ length (calendars_of self.now.journal) }
    {
        self.indexes.numbers.calendars()
    }

    /// How many classes there are.
    pub fn classes(&self) -> usize
        ensures { result ≡ length (classes_of self.now.journal) }
    {
        self.indexes.numbers.classes().len()
    }

    /// The classes in the order of their opening, from 0.
    pub fn class_at(&self, index: usize) -> Option<&ClassForm>
        ensures { option_copied result ≡ slice_get (classes_of self.now.journal) index }
    {
        match item_at(self.indexes.numbers.classes(), index) {
            Some(place) => class_of(item_at(self.events.as_slice(), *place)),
            None => None,
        }
    }

    /// How many dealers there are.
    pub fn dealers(&self) -> usize
        ensures { result ≡ length (dealers_of self.now.journal) }
    {
        self.indexes.numbers.dealers().len()
    }

    /// The dealers in the order of their registration, from 0; `None` exactly past the last.
    pub fn dealer_at(&self, index: usize) -> Option<&DealerForm>
        ensures { option_copied result ≡ slice_get (dealers_of self.now.journal) index }
    {
        match item_at(self.indexes.numbers.dealers(), index) {
            Some(place) => dealer_of(item_at(self.events.as_slice(), *place)),
            None => None,
        }
    }

    /// How many households there are.
    pub fn households(&self) -> usize
        ensures { result ≡ length (households_of self.now.journal) }
    {
        self.indexes.numbers.households()
    }

    /// The household with this key.
    pub fn household_with_key(&self, key: &[u8]) -> Option<u32>
        ensures { result ≡ household_with_key self.now.journal key.now }
    {
        match self.indexes.household_keys.place(key) {
            Some(place) => household_of(item_at(self.events.as_slice(), place)),
            None => None,
        }
    }

    /// The dealer with this key.
    pub fn dealer_with_key(&self, key: &[u8]) -> Option<u32>
        ensures { result ≡ dealer_with_key self.now.journal key.now }
    {
        match self.indexes.dealer_keys.place(key) {
            Some(place) => dealer_number(item_at(self.events.as_slice(), place)),
            None => None,
        }
    }

    /// How many accounts a household has.
    pub fn accounts_in(&self, household: u32) -> usize
        ensures { result ≡ count_by (λ account. account.household == household)
            (accounts_of self.now.journal) }
    {
        self.indexes.account_counts.count(household)
    }

    /// How many orders and cancels an account has, struck ones too.
    pub fn orders_in(&self, account: u32) -> usize
        ensures { result ≡ count_by (is_of_account account) self.now.journal }
    {
        self.indexes.order_counts.count(account)
    }

    /// The rate that the last correction gave a class at a pricing moment.
    pub(crate) fn last_rate(&self, class: u32, moment: Moment) -> Option<u64>
        ensures { result ≡ option_map (λ form. form.rate)
            (last_of (fixes_rate class moment) (rates_of self.now.journal).fixed) }
    {
        self.indexes.rates.rate(RateName { class, moment })
    }

    /// The order of an account as corrected, struck or not.
    pub fn order(&self, account: u32, ref_no: u64) -> Option<&OrderRow>
        ensures { option_copied result ≡ order_named (orders_of self.now.journal) account ref_no }
    {
        match self.indexes.orders.place(OrderName { account, ref_no }) {
            Some(place) => item_at(self.indexes.orders.rows(), place),
            None => None,
        }
    }

    /// The place among all orders of the one that an account calls so, struck or not; `None` exactly where there is none.
    pub fn order_place(&self, account: u32, ref_no: u64) -> Option<usize>
        ensures { result ≡ position (λ row. is_named account ref_no row.order)
            (orders_of self.now.journal) }
    {
        self.indexes.orders.place(OrderName { account, ref_no })
    }

    /// All orders as corrected, in the order of their first events.
    pub fn orders(&self) -> &[OrderRow]
        ensures { result.now ≡ orders_of self.now.journal }
    {
        self.indexes.orders.rows()
    }

    /// The reference of each order is above 0, as the index of their names has it. It takes no time.
    pub fn references_are_above_zero(&self)
        ensures { All (λ row. 0 < row.order.ref_no) (orders_of self.now.journal) }
    {
        let _spare = self.spare;
    }

    /// The place among all orders of the last one of an account.
    pub fn last_order(&self, account: u32) -> Option<usize>
        ensures { result ≡ last_place (is_order_of account) (orders_of self.now.journal) }
    {
        self.indexes.orders.last(account)
    }

    /// The place among all orders of the last one of the same account before an order.
    pub fn earlier_order(&self, index: usize) -> Option<usize>
        ensures { (row : Row) → slice_get (orders_of self.now.journal) index ≡ Some row
            → result
            ≡ last_place (is_order_of row.order.account) (take index (orders_of self.now.journal)) }
    {
        self.indexes.orders.earlier(index)
    }
}

// For how many events room is made where it is asked for so many.
fn events_at_once(events: usize) -> usize
    ensures { events ≤ result }
{
    if events < FEW_EVENTS {
        FEW_EVENTS
    } else {
        events
    }
}

fn class_of(event: Option<&Event>) -> Option<&ClassForm>
    ensures { option_copied result
        ≡ option_and_then (λ event. class_in event.kind) (option_copied event.entry) }
{
    match event {
        Some(event) => class_in(event.kind()),
        None => None,
    }
}

fn household_of(event: Option<&Event>) -> Option<u32>
    ensures { result ≡ option_map (λ form. form.household)
        (option_and_then (λ event. household_in event.kind) (option_copied event.entry)) }
{
    match event {
        Some(event) => match household_in(event.kind()) {
            Some(form) => Some(form.household.number()),
            None => None,
        },
        None => None,
    }
}

fn dealer_of(event: Option<&Event>) -> Option<&DealerForm>
    ensures { option_copied result
        ≡ option_and_then (λ event. dealer_in event.kind) (option_copied event.entry) }
{
    match event {
        Some(event) => dealer_in(event.kind()),
        None => None,
    }
}

fn dealer_number(event: Option<&Event>) -> Option<u32>
    ensures { result ≡ option_map (λ form. form.dealer)
        (option_and_then (λ event. dealer_in event.kind) (option_copied event.entry)) }
{
    match dealer_of(event) {
        Some(form) => Some(form.dealer.number()),
        None => None,
    }
}
