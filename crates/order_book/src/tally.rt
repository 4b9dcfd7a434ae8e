//! How many there are by a number.
ghost use Rattle.std.specs.Prelude.{◌≡◌, ◌≤◌, ◌<◌, ◌+◌, ◌==◌, ◌^◌, ℕ, OnOk, if◌then◌else◌};
ghost use Rattle.std.specs.HashMap.{get, spare};
ghost use Rattle.order_book.specs.Indexes.{count_of, HasTallyRoom};

use money_units::NoMemory;
use number_hashing::{NumberMap, number_map};
use std::alloc::Global;

/// Counts by a number.
#[derive(Drop)]
pub struct Tally {
    counts: NumberMap<u32, usize>,
}

impl Tally {
    pub fn new(alloc: Global) -> Tally
        ensures { (number : ℕ) → count_of result number ≡ 0 }
    {
        Tally {
            counts: number_map(alloc),
        }
    }

    /// How often the number was counted.
    pub fn count(&self, number: u32) -> usize
        ensures { result ≡ count_of self.now number }
    {
        self.counts.get(&number).copied().unwrap_or(0)
    }

    /// Takes the memory for so many events.
    pub fn reserve(&mut self, events: usize) -> Result<(), NoMemory>
        ensures same { (number : ℕ) → count_of self.new number ≡ count_of self.old number }
        ensures room { OnOk result (HasTallyRoom self.new events) }
        ensures kept { (n : ℕ) → HasTallyRoom self.old n → HasTallyRoom self.new n }
    {
        self.counts.reserve(events)?;
        Ok(())
    }

    /// Counts the number once more.
    pub fn add(&mut self, number: u32)
        requires room { HasTallyRoom self.old 1 }
        requires few { count_of self.old number < 100000000 }
        ensures counts { (other : ℕ)
            → count_of self.new other
            ≡ count_of self.old other + (if number == other then 1 else 0) }
        ensures room { (n : ℕ) → HasTallyRoom self.old (n + 1) → HasTallyRoom self.new n }
    {
        let entry: Result<_, _> = self.counts.entry(number);
        *entry.unwrap().or_insert(0) += 1;
    }
}
