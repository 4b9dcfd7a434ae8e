//! The places of the events that bring keys of households and dealers.
ghost use Rattle.std.specs.Prelude.{◌≡◌, ◌≤◌, ◌+◌, ◌++◌, ◌∷◌, [], ℕ, List, None, Some, OnOk};
ghost use Rattle.std.specs.Prelude.{length, drop, replicate, nat_le, if◌then◌else◌};
ghost use Rattle.std.specs.HashMap.{get, spare};
ghost use Rattle.std.specs.Option.{option_or};
ghost use Rattle.std.specs.Cmp.Rules.{hashing};
ghost use Rattle.std.proofs.Common.{rules};
ghost use Rattle.order_book.specs.Brought.{dealer_key_in, household_key_in};
ghost use Rattle.order_book.specs.Indexes.{key_text, place_of_key, same_text, HasKeyRoom};
ghost use Rattle.order_book.specs.Kept.{KeepsKeys};
ghost use Rattle.order_book.specs.declared.keys.KeyText.{KeyText as Text};
ghost use Rattle.register_machine.specs.journal.Journals.{Journal, with_event};

use agent_events::EventKind;
use money_units::NoMemory;
use std::alloc::Global;
use std::collections::HashMap;
use std::hash::{Hash, Hasher};

/// A key of at most 64 bytes, with bytes of 0 behind it.
#[derive(Clone, Copy, PartialEq, Eq)]
pub struct KeyText {
    bytes: [u8; 64],
    len: usize,
}

impl Hash for KeyText {
    ghost hash_input = { λ key. key.bytes ∷ [] };

    ghost respects_eq = { Prim.search (hashing, rules) };

    fn hash<H: Hasher>(&self, state: &mut H) {
        state.write(&self.bytes);
    }
}

/// The place of the first event that brings a key.
#[derive(Drop)]
pub struct Keys {
    places: HashMap<KeyText, usize>,
}

// The key as it is kept.
fn key_text(key: &[u8]) -> KeyText
    requires { length key.now ≤ 64 }
    ensures { result ≡ key_text key.now }
{
    let mut bytes = [0; 64];
    bytes[..key.len()].copy_from_slice(key);
    KeyText {
        bytes,
        len: key.len(),
    }
}

impl Keys {
    pub fn new(alloc: Global) -> Keys
        ensures { (key : List ℕ) → place_of_key result key ≡ None }
    {
        Keys {
            places: HashMap::new(alloc),
        }
    }

    /// The place that is kept; none for what is too long for a key.
    pub fn place(&self, key: &[u8]) -> Option<usize>
        ensures { result ≡ (if nat_le (length key.now) 64 then place_of_key self.now key.now else
            None) }
    {
        if key.len() <= 64 {
            self.places.get(&key_text(key)).copied()
        } else {
            None
        }
    }

    /// Takes the memory for so many events.
    pub fn reserve(&mut self, events: usize) -> Result<(), NoMemory>
        ensures same { (key : List ℕ) → place_of_key self.new key ≡ place_of_key self.old key }
        ensures room { OnOk result (HasKeyRoom self.new events) }
        ensures kept { (n : ℕ) → HasKeyRoom self.old n → HasKeyRoom self.new n }
    {
        self.places.reserve(events)?;
        Ok(())
    }

    /// Takes in the key of the household that an event at this place brings.
    pub fn take_household(&mut self, kind: &EventKind, place: usize)
        requires { HasKeyRoom self.old 1 }
        ensures kept { (journal : Journal) (moment : ℕ) → place ≡ length journal
            → KeepsKeys household_key_in self.old journal
            → KeepsKeys household_key_in self.new
            (with_event journal (record { moment = moment; kind = kind.now })) }
        ensures room { (n : ℕ) → HasKeyRoom self.old (n + 1) → HasKeyRoom self.new n }
    {
        if let EventKind::Household(form) = kind {
            let key = key_text(form.key.as_slice());
            put_first(&mut self.places, key, place);
        }
    }

    /// Takes in the key of the dealer that an event at this place brings.
    pub fn take_dealer(&mut self, kind: &EventKind, place: usize)
        requires { HasKeyRoom self.old 1 }
        ensures kept { (journal : Journal) (moment : ℕ) → place ≡ length journal
            → KeepsKeys dealer_key_in self.old journal
            → KeepsKeys dealer_key_in self.new
            (with_event journal (record { moment = moment; kind = kind.now })) }
        ensures room { (n : ℕ) → HasKeyRoom self.old (n + 1) → HasKeyRoom self.new n }
    {
        if let EventKind::Dealer(form) = kind {
            let key = key_text(form.key.as_slice());
            put_first(&mut self.places, key, place);
        }
    }
}

// Keeps the place, unless one is kept already.
fn put_first(places: &mut HashMap<KeyText, usize>, key: KeyText, place: usize)
    requires { 1 ≤ spare places.old }
    ensures places { (q : Text) → get same_text places.new q
        ≡ option_or (get same_text places.old q) (if same_text key q then Some place else None) }
    ensures room { spare places.old ≤ spare places.new + 1 }
{
    match places.get(&key).copied() {
        Some(_) => {}
        None => {
            let put: Result<_, _> = places.insert(key, place);
            let _before = put.unwrap();
        }
    }
}
