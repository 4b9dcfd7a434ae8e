//! The orders by name, and those of an account one after the other.
ghost use Rattle.std.specs.Prelude.{◌≡◌, ◌≤◌, ◌<◌, ◌+◌, ◌++◌, ◌∷◌, [], ℕ, List, None, Some, OnOk, length, nat_eq, option_and_then, slice_get, if◌then◌else◌, vec_len, vec_capacity};
ghost use Rattle.std.specs.HashMap.{get, spare};
ghost use Rattle.std.specs.Option.{option_or};
ghost use Rattle.std.specs.Hash as fed;
ghost use Rattle.std.specs.Cmp.Rules.{hashing};
ghost use Rattle.std.proofs.Common.{rules};
ghost use Rattle.order_book.specs.HashNumbers.{name_number};
ghost use Rattle.order_book.specs.Orders.{same_name, KeepsNames, HasNameRoom};
ghost use Rattle.order_book.specs.declared.order_index.OrderName.{OrderName as Name};

use crate::hash_numbers::mixed_number;
use crate::room::push_within;
use money_units::NoMemory;
use number_hashing::{NumberMap, number_map};
use std::alloc::Global;
use std::hash::{Hash, Hasher};

/// What an account calls one of its orders.
#[derive(Clone, Copy, PartialEq, Eq)]
pub struct OrderName {
    pub account: u32,
    pub ref_no: u64,
}

impl Hash for OrderName {
    ghost hash_input = { λ name. fed.u64 (name_number name) };

    ghost respects_eq = { Prim.search (hashing, rules) };

    fn hash<H: Hasher>(&self, state: &mut H) {
        state.write_u64(mixed_number(0, self.account, self.ref_no));
    }
}

/// The place of each order by its name, the place of the last order of an account, and for each order the place of the one of
/// the same account before it.
#[derive(Drop)]
pub struct OrderIndex {
    places: NumberMap<OrderName, usize>,
    last: NumberMap<u32, usize>,
    earlier: Vec<Option<usize>>,
}

impl OrderIndex {
    pub fn new(alloc: Global) -> OrderIndex
        ensures { KeepsNames result [] }
    {
        OrderIndex {
            places: number_map(alloc),
            last: number_map(alloc),
            earlier: Vec::new(alloc),
        }
    }

    /// The place of the order of this name.
    pub fn place(&self, name: OrderName) -> Option<usize>
        ensures { result ≡ get same_name self.now.places name }
    {
        self.places.get(&name).copied()
    }

    /// The place of the last order of an account.
    pub fn last(&self, account: u32) -> Option<usize>
        ensures { result ≡ get nat_eq self.now.last account }
    {
        self.last.get(&account).copied()
    }

    /// The place of the order of the same account before the one at a place.
    pub fn earlier(&self, place: usize) -> Option<usize>
        ensures { result ≡ option_and_then (λ found. found)
            (slice_get self.now.earlier.items place) }
    {
        self.earlier.get(place).copied().flatten()
    }

    /// Takes the memory for so many orders.
    pub fn reserve(&mut self, orders: usize) -> Result<(), NoMemory>
        ensures same { (names : List Name) → KeepsNames self.old names → KeepsNames self.new names }
        ensures room { OnOk result (HasNameRoom self.new orders) }
        ensures kept { (n : ℕ) → HasNameRoom self.old n → HasNameRoom self.new n }
    {
        self.places.reserve(orders)?;
        self.last.reserve(orders)?;
        self.earlier.reserve(orders)?;
        Ok(())
    }

    /// Takes in a name behind the others.
    pub fn push(&mut self, name: OrderName, place: usize)
        requires { HasNameRoom self.old 1 }
        ensures kept { (names : List Name) → place ≡ length names → KeepsNames self.old names
            → KeepsNames self.new (names ++ name ∷ []) }
        ensures room { (n : ℕ) → HasNameRoom self.old (n + 1) → HasNameRoom self.new n }
    {
        let before = put_last(&mut self.last, name.account, place);
        push_within(&mut self.earlier, &before);
        put_first(&mut self.places, name, place);
    }
}

// Answers the place before.
fn put_last(last: &mut NumberMap<u32, usize>, account: u32, place: usize) -> Option<usize>
    requires { 1 ≤ spare last.old }
    ensures before { result ≡ get nat_eq last.old account }
    ensures places { (q : ℕ) → get nat_eq last.new q
        ≡ (if nat_eq account q then Some place else get nat_eq last.old q) }
    ensures room { spare last.old ≤ spare last.new + 1 }
{
    let put: Result<_, _> = last.insert(account, place);
    put.unwrap()
}

// Keeps the place, unless one is kept already.
fn put_first(places: &mut NumberMap<OrderName, usize>, name: OrderName, place: usize)
    requires { 1 ≤ spare places.old }
    ensures places { (q : Name) → get same_name places.new q
        ≡ option_or (get same_name places.old q) (if same_name name q then Some place else None) }
    ensures room { spare places.old ≤ spare places.new + 1 }
{
    let entry: Result<_, _> = places.entry(name);
    let _kept = entry.unwrap().or_insert(place);
}
