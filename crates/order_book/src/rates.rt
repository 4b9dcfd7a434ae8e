//! The dividend rates that corrections gave last.
ghost use Rattle.std.specs.Prelude.{◌≡◌, ◌≤◌, ◌+◌, ℕ, [], None, Some, OnOk, if◌then◌else◌};
ghost use Rattle.std.specs.HashMap.{get, spare};
ghost use Rattle.std.specs.Hash as fed;
ghost use Rattle.std.specs.Cmp.Rules.{hashing};
ghost use Rattle.std.proofs.Common.{rules};
ghost use Rattle.order_book.specs.HashNumbers.{rate_number};
ghost use Rattle.order_book.specs.Numbers.{fixed_rate, same_rate, HasRateRoom, KeepsRates};
ghost use Rattle.order_book.specs.declared.rates.RateName.{RateName as Name};
ghost use Rattle.register_machine.specs.journal.Journals.{Journal, with_event};

use crate::hash_numbers::mixed_number;
use agent_events::EventKind;
use money_units::{Moment, NoMemory};
use std::alloc::Global;
use std::collections::HashMap;
use std::hash::{Hash, Hasher};

/// A class and a pricing moment.
#[derive(Clone, Copy, PartialEq, Eq)]
pub struct RateName {
    pub class: u32,
    pub moment: Moment,
}

impl Hash for RateName {
    ghost hash_input = { λ name. fed.u64 (rate_number name) };

    ghost respects_eq = { Prim.search (hashing, rules) };

    fn hash<H: Hasher>(&self, state: &mut H) {
        state.write_u64(mixed_number(0, self.class, self.moment.seconds()));
    }
}

/// The rate of the last correction, in millionths of a dollar per share.
#[derive(Drop)]
pub struct FixedRates {
    rates: HashMap<RateName, u64>,
}

impl FixedRates {
    pub fn new(alloc: Global) -> FixedRates
        ensures { KeepsRates result [] }
    {
        FixedRates {
            rates: HashMap::new(alloc),
        }
    }

    /// The rate of the last correction of a class at a pricing moment.
    pub fn rate(&self, name: RateName) -> Option<u64>
        ensures { result ≡ fixed_rate self.now name }
    {
        self.rates.get(&name).copied()
    }

    /// Takes the memory for so many events.
    pub fn reserve(&mut self, events: usize) -> Result<(), NoMemory>
        ensures same { (name : Name) → fixed_rate self.new name ≡ fixed_rate self.old name }
        ensures room { OnOk result (HasRateRoom self.new events) }
        ensures kept { (n : ℕ) → HasRateRoom self.old n → HasRateRoom self.new n }
    {
        self.rates.reserve(events)?;
        Ok(())
    }

    /// Takes in what an event corrects.
    pub fn take(&mut self, kind: &EventKind)
        requires { HasRateRoom self.old 1 }
        ensures kept { (journal : Journal) (moment : ℕ) → KeepsRates self.old journal
            → KeepsRates self.new
            (with_event journal (record { moment = moment; kind = kind.now })) }
        ensures room { (n : ℕ) → HasRateRoom self.old (n + 1) → HasRateRoom self.new n }
    {
        if let EventKind::FixRate(form) = kind {
            let name = RateName {
                class: form.class.number(),
                moment: form.moment,
            };
            put(&mut self.rates, name, form.rate.millionths());
        }
    }
}

// Puts the rate in the place of the one before.
fn put(rates: &mut HashMap<RateName, u64>, name: RateName, rate: u64)
    requires { 1 ≤ spare rates.old }
    ensures rates { (q : Name) → get same_rate rates.new q
        ≡ (if same_rate name q then Some rate else get same_rate rates.old q) }
    ensures room { spare rates.old ≤ spare rates.new + 1 }
{
    let put: Result<_, _> = rates.insert(name, rate);
    let _before = put.unwrap();
}
