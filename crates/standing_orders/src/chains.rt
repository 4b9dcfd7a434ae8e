//! The orders of a household one after the other, back from the last one.
ghost use Rattle.std.specs.Prelude.{◌≡◌, ◌≤◌, ◌<◌, ◌+◌, ◌++◌, ◌∷◌, [], ℕ, List, Some, OnOk, length, nat_eq, option_and_then, slice_get, if◌then◌else◌, vec_len, vec_capacity};
ghost use Rattle.std.specs.HashMap.{get, spare};
ghost use Rattle.standing_orders.specs.Chains.{KeepsOwners, HasChainRoom};

use money_units::NoMemory;
use number_hashing::{NumberMap, number_map};
use std::alloc::Global;

/// The household of each order, the place of the last order of a household, and for each order the place of the one of the
/// same household before it.
#[derive(Drop)]
pub struct Chains {
    pub owners: Vec<u32>,
    pub last: NumberMap<u32, usize>,
    pub earlier: Vec<Option<usize>>,
}

impl Chains {
    pub fn new(alloc: Global) -> Chains
        ensures { KeepsOwners result [] }
    {
        Chains {
            owners: Vec::new(alloc),
            last: number_map(alloc),
            earlier: Vec::new(alloc),
        }
    }

    /// The place of the last order of a household.
    pub fn last(&self, household: u32) -> Option<usize>
        ensures { result ≡ get nat_eq self.now.last household }
    {
        self.last.get(&household).copied()
    }

    /// The place of the order of the same household before the one at a place.
    pub fn earlier(&self, place: usize) -> Option<usize>
        ensures { result
            ≡ option_and_then (λ found. found) (slice_get self.now.earlier.items place) }
    {
        self.earlier.get(place).copied().flatten()
    }

    /// Takes the memory for so many orders.
    pub fn reserve(&mut self, orders: usize) -> Result<(), NoMemory>
        ensures same { (owners : List ℕ) → KeepsOwners self.old owners
            → KeepsOwners self.new owners }
        ensures room { OnOk result (HasChainRoom self.new orders) }
        ensures kept { (n : ℕ) → HasChainRoom self.old n → HasChainRoom self.new n }
    {
        self.owners.reserve(orders)?;
        self.last.reserve(orders)?;
        self.earlier.reserve(orders)?;
        Ok(())
    }

    /// Takes in an order of a household behind the others.
    pub fn push(&mut self, household: u32)
        requires { HasChainRoom self.old 1 }
        ensures kept { (owners : List ℕ) → KeepsOwners self.old owners
            → KeepsOwners self.new (owners ++ household ∷ []) }
        ensures room { (n : ℕ) → HasChainRoom self.old (n + 1) → HasChainRoom self.new n }
    {
        let place = self.owners.as_slice().len();
        let before = put_last(&mut self.last, household, place);
        push_within(&mut self.earlier, before);
        push_within(&mut self.owners, household);
    }
}

// Answers the place before.
fn put_last(last: &mut NumberMap<u32, usize>, household: u32, place: usize) -> Option<usize>
    requires { 1 ≤ spare last.old }
    ensures before { result ≡ get nat_eq last.old household }
    ensures places { (q : ℕ) → get nat_eq last.new q
        ≡ (if nat_eq household q then Some place else get nat_eq last.old q) }
    ensures room { spare last.old ≤ spare last.new + 1 }
{
    let put: Result<_, _> = last.insert(household, place);
    put.unwrap()
}

/// Pushes an item for which there is room.
fn push_within<T: Copy>(items: &mut Vec<T>, item: T)
    requires { vec_len items.old < vec_capacity items.old }
    ensures items { items.new.items ≡ items.old.items ++ item ∷ [] }
    ensures len { vec_len items.new ≡ vec_len items.old + 1 }
    ensures capacity { vec_capacity items.old ≤ vec_capacity items.new }
{
    let pushed: Result<_, _> = items.push(item);
    pushed.unwrap();
}
