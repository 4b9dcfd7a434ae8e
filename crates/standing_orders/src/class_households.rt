//! The households that have named each class in an order.
ghost use Rattle.std.specs.Prelude.{◌≡◌, ◌==◌, ◌&&◌, ◌||◌, ℕ, [], IfOk, OnOk, nat_eq, true};
ghost use Rattle.std.specs.List.{list_any};
ghost use Rattle.std.specs.Set.{is_member};
ghost use Rattle.register_machine.specs.pricing.OrderClasses.{classes_in};
ghost use Rattle.standing_orders.specs.ClassHouseholds.{is_listed, listed_under};

use crate::row_sheet::{class_number, target_number};
use agent_events::Body;
use money_units::NoMemory;
use number_hashing::{NumberMap, NumberSet, number_map, number_set};
use std::alloc::Global;
use std::marker::Model;

/// The households that have named one class, which contracts see as a list.
#[derive(Drop)]
pub struct NamingHouseholds {
    set: NumberSet<u32>,
}

impl Model for NamingHouseholds {
    ghost use Rattle.std.specs.Prelude.{ℕ, List};

    ghost Value = { List ℕ };

    ghost view = { λ households. households.set.keys };
}

impl NamingHouseholds {
    fn new(alloc: Global) -> NamingHouseholds
        ensures { result ≡ [] }
    {
        NamingHouseholds {
            set: number_set(alloc),
        }
    }

    // Lists a household; nothing changes where it is listed.
    fn add(&mut self, household: u32) -> Result<(), NoMemory>
        ensures added { OnOk result ((own : ℕ) → is_member nat_eq self.new own
            ≡ (is_member nat_eq self.old own || household == own)) }
        ensures kept { (own : ℕ) → is_member nat_eq self.old own ≡ true
            → is_member nat_eq self.new own ≡ true }
    {
        self.set.insert(household)?;
        Ok(())
    }

    fn listed(&self, alloc: Global) -> Result<Vec<u32>, NoMemory>
        ensures { IfOk result (λ found. found.items ≡ self.now) }
    {
        let found = listed(alloc, &self.set)?;
        Ok(found)
    }
}

/// By class, the households that have named it in an order, be the order replaced or struck since. So a reader of one class's
/// households needn't look at the others. Contracts see each class with its households.
#[derive(Drop)]
pub struct ClassHouseholds {
    by_class: NumberMap<u32, NamingHouseholds>,
}

impl Model for ClassHouseholds {
    ghost use Rattle.std.specs.Prelude.{ℕ, List};

    ghost Value = { List (ℕ × List ℕ) };

    ghost view = { λ classes. classes.by_class.entries };
}

impl ClassHouseholds {
    /// No household has named a class; it takes no memory yet.
    pub fn new(alloc: Global) -> ClassHouseholds
        ensures { result ≡ [] }
    {
        ClassHouseholds {
            by_class: number_map(alloc),
        }
    }

    /// The households that have named a class, each once, in no order of theirs. It costs a look at each of them.
    pub fn households(&self, alloc: Global, class: u32) -> Result<Vec<u32>, NoMemory>
        ensures { IfOk result (λ found. found.items ≡ listed_under self.now class) }
    {
        match self.by_class.get(&class) {
            Some(households) => {
                let found = households.listed(alloc)?;
                Ok(found)
            }
            None => Ok(Vec::new(alloc)),
        }
    }

    /// Lists a household under the classes that an order of it names, by a look-up for each. What was listed stays, after
    /// `NoMemory` too.
    pub fn note(&mut self, alloc: Global, household: u32, body: &Body) -> Result<(), NoMemory>
        ensures noted { OnOk result ((class other : ℕ) → is_listed self.new class other
            ≡ (is_listed self.old class other
            || (list_any (λ own. own == class) (classes_in body.now) && household == other))) }
        ensures kept { (class other : ℕ) → is_listed self.old class other ≡ true
            → is_listed self.new class other ≡ true }
    {
        put(alloc, &mut self.by_class, class_number(body), household)?;
        match target_number(body) {
            Some(class) => put(alloc, &mut self.by_class, class, household),
            None => Ok(()),
        }
    }
}

// Lists a household under a class.
fn put(
    alloc: Global,
    by_class: &mut NumberMap<u32, NamingHouseholds>,
    class: u32,
    household: u32,
) -> Result<(), NoMemory>
    ensures put { OnOk result ((other own : ℕ) → is_listed by_class.new.entries other own
        ≡ (is_listed by_class.old.entries other own || (class == other && household == own))) }
    ensures kept { (other own : ℕ) → is_listed by_class.old.entries other own ≡ true
        → is_listed by_class.new.entries other own ≡ true }
{
    if let Some(households) = by_class.get_mut(&class) {
        households.add(household)?;
        return Ok(());
    }
    let mut households = NamingHouseholds::new(alloc);
    households.add(household)?;
    by_class.insert(class, households)?;
    Ok(())
}

// The households of a set, in its order.
fn listed(alloc: Global, households: &NumberSet<u32>) -> Result<Vec<u32>, NoMemory>
    ensures { IfOk result (λ found. found.items ≡ households.now.keys) }
{
    let mut found = Vec::with_capacity(alloc, households.len())?;
    for household in households {
        found.push(*household)?;
    }
    Ok(found)
}
