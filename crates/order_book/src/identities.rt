//! The places of the events that bring identities.
ghost use Rattle.std.specs.Prelude.{◌≡◌, ◌≤◌, ◌*◌, ◌-◌, ◌+◌, ℕ, None, Some, OnOk, length, if◌then◌else◌};
ghost use Rattle.std.specs.HashMap.{get, spare};
ghost use Rattle.std.specs.Option.{option_or};
ghost use Rattle.order_book.specs.Brought.{same_identity, identity_in, reference_entered};
ghost use Rattle.order_book.specs.Indexes.{place_of, is_reference, HasRoom};
ghost use Rattle.order_book.specs.Kept.{KeepsPlaces};
ghost use Rattle.register_machine.specs.journal.Journals.{Journal, with_event};
ghost use Rattle.order_book.specs.declared.identity.Identity.{Identity as Named};

use crate::identity::Identity;
use agent_events::{EventKind, Order};
use money_units::NoMemory;
use number_hashing::{NumberMap, number_map};
use std::alloc::Global;

/// The place of the first event that brings an identity. References stand apart from the others: there are as many as orders and
/// cancels, and each order asks for its class, its account and its household, which stay at hand in a small table.
#[derive(Drop)]
pub struct Identities {
    references: NumberMap<Identity, usize>,
    others: NumberMap<Identity, usize>,
}

impl Identities {
    pub fn new(alloc: Global) -> Identities
        ensures { (q : Named) → place_of result q ≡ None }
    {
        Identities {
            references: number_map(alloc),
            others: number_map(alloc),
        }
    }

    /// The place that is kept.
    pub fn place(&self, identity: Identity) -> Option<usize>
        ensures { result ≡ place_of self.now identity }
    {
        if is_reference(&identity) {
            self.references.get(&identity).copied()
        } else {
            self.others.get(&identity).copied()
        }
    }

    /// Takes the memory for so many events.
    pub fn reserve(&mut self, events: usize) -> Result<(), NoMemory>
        ensures same { (q : Named) → place_of self.new q ≡ place_of self.old q }
        ensures room { OnOk result (HasRoom self.new events) }
        ensures kept { (n : ℕ) → HasRoom self.old n → HasRoom self.new n }
    {
        if events > usize::MAX / 2 {
            return Err(NoMemory);
        }
        self.references.reserve(2 * events)?;
        self.others.reserve(2 * events)?;
        Ok(())
    }

    /// Takes in what an event at this place brings.
    pub fn take(&mut self, kind: &EventKind, place: usize)
        requires { HasRoom self.old 1 }
        ensures kept { (journal : Journal) (moment : ℕ) → place ≡ length journal
            → KeepsPlaces self.old journal
            → KeepsPlaces self.new
            (with_event journal (record { moment = moment; kind = kind.now })) }
        ensures room { (n : ℕ) → HasRoom self.old (n + 1) → HasRoom self.new n }
    {
        self.put(identity_in(kind), place);
        if let Some(entered) = reference_entered(kind) {
            self.put(entered, place);
        }
    }

    // Keeps the place, unless one is kept already.
    fn put(&mut self, identity: Identity, place: usize)
        requires references { 1 ≤ spare self.old.references }
        requires others { 1 ≤ spare self.old.others }
        ensures places { (q : Named) → place_of self.new q
            ≡ option_or (place_of self.old q)
            (if same_identity identity q then Some place else None) }
        ensures references { spare self.old.references ≤ spare self.new.references + 1 }
        ensures others { spare self.old.others ≤ spare self.new.others + 1 }
    {
        if is_reference(&identity) {
            put_first(&mut self.references, identity, place);
        } else {
            put_first(&mut self.others, identity, place);
        }
    }
}

fn is_reference(identity: &Identity) -> bool
    ensures { result ≡ is_reference identity.now }
{
    match identity {
        Identity::Reference {
            account: _,
            ref_no: _,
        } => true,
        _ => false,
    }
}

// Keeps the place, unless one is kept already.
fn put_first(places: &mut NumberMap<Identity, usize>, identity: Identity, place: usize)
    requires { 1 ≤ spare places.old }
    ensures places { (q : Named) → get same_identity places.new q
        ≡ option_or (get same_identity places.old q)
        (if same_identity identity q then Some place else None) }
    ensures room { spare places.old ≤ spare places.new + 1 }
{
    let entry: Result<_, _> = places.entry(identity);
    let _kept = entry.unwrap().or_insert(place);
}

// The identity that an event brings.
fn identity_in(kind: &EventKind) -> Identity
    ensures { result ≡ identity_in kind.now }
{
    match kind {
        EventKind::Calendar(form) => Identity::Calendar(form.calendar.number()),
        EventKind::Close(form) => Identity::Closure {
            calendar: form.calendar.number(),
            day: form.day,
        },
        EventKind::Class(form) => Identity::Class(form.class.number()),
        EventKind::Dealer(form) => Identity::Dealer(form.dealer.number()),
        EventKind::Household(form) => Identity::Household(form.household.number()),
        EventKind::Account(form) => Identity::Account(form.account.number()),
        EventKind::Order(placed) => reference_of(&placed.order),
        EventKind::Cancel(form) => Identity::Reference {
            account: form.account.number(),
            ref_no: form.ref_no.number(),
        },
        EventKind::Sheet(form) => Identity::Sheet {
            calendar: form.calendar.number(),
            moment: form.moment,
        },
        EventKind::Dividend(form) => Identity::Dividend {
            class: form.class.number(),
            moment: form.moment,
        },
        EventKind::FixPrice(form) => Identity::Fix(form.fix.number()),
        EventKind::FixRate(form) => Identity::Fix(form.fix.number()),
        EventKind::Enter(form) => Identity::Fix(form.fix.number()),
        EventKind::Replace(form) => Identity::Fix(form.fix.number()),
        EventKind::Void(form) => Identity::Fix(form.fix.number()),
    }
}

fn reference_of(order: &Order) -> Identity
    ensures { result ≡ Identity.Reference order.now.account order.now.ref_no }
{
    Identity::Reference {
        account: order.account.number(),
        ref_no: order.ref_no.number(),
    }
}

// The reference that an entered order brings besides.
fn reference_entered(kind: &EventKind) -> Option<Identity>
    ensures { result ≡ reference_entered kind.now }
{
    match kind {
        EventKind::Enter(form) => Some(reference_of(&form.order)),
        _ => None,
    }
}
