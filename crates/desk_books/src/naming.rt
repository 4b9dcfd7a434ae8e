//! The households that a corrected price or rate of a class can reach: those with a standing order that names the class.
ghost use Rattle.std.specs.Prelude.{◌≡◌, ◌==◌, ◌++◌, ℕ, Contains, IfOk, OnOk, filter, option_to_list, true};
ghost use Rattle.std.specs.List.{list_any};
ghost use Rattle.std.specs.List.Sorted.{IsStrictlyIncreasing};
ghost use Rattle.desk_books.specs.Naming.{AreNaming, is_naming, names_at, names_standing};
ghost use Rattle.register_machine.specs.pricing.CorrectedOrders.{orders_of};
ghost use Rattle.register_machine.specs.pricing.OrderClasses.{classes_in};
ghost use Rattle.standing_orders.specs.ClassHouseholds.{is_listed};

use agent_events::{Body, OrderRow};
use money_units::NoMemory;
use order_book::OrderBook;
use standing_orders::{ClassHouseholds, HouseholdOrders};
use std::alloc::Global;

/// The households, each once and rising, that have an order which stands and names the class, be it the one that an exchange goes
/// to. It looks at the households that have ever named the class and no others, and of each goes back over its orders up to the
/// last such one.
pub fn households_naming(
    alloc: Global,
    book: &OrderBook,
    index: &HouseholdOrders,
    classes: &ClassHouseholds,
    class: u32,
) -> Result<Vec<u32>, NoMemory>
    ensures naming { IfOk result (λ households.
        AreNaming book.now.journal index.now.owners classes.now class households.items) }
    ensures listed { IfOk result (λ households. (household : ℕ)
        → Contains households.items household
        → is_listed classes.now class household ≡ true) }
    ensures rising { IfOk result (λ households. IsStrictlyIncreasing households.items) }
{
    let mut households = classes.households(alloc, class)?;
    keep_naming(&mut households, book, index, class);
    put_each_once(&mut households);
    Ok(households)
}

// Leaves the households that have an order which stands and names the class.
fn keep_naming(households: &mut Vec<u32>, book: &OrderBook, index: &HouseholdOrders, class: u32)
    ensures { households.new.items
        ≡ filter (is_naming class (orders_of book.now.journal) index.now.owners)
        households.old.items }
{
    let rows = book.orders();
    households.retain(|household| is_naming(rows, index, *household, class));
}

// Whether an order of the household stands and names the class, from its last order back.
fn is_naming(rows: &[OrderRow], index: &HouseholdOrders, household: u32, class: u32) -> bool
    ensures { result ≡ is_naming class rows.now index.now.owners household }
{
    let mut at = index.last_order(household);
    'orders: while let Some(place) = at {
        if names_at(rows, place, class) {
            return true;
        }
        at = index.earlier_order(place);
    }
    false
}

pub(crate) fn push_found(found: &mut Vec<u32>, owner: Option<u32>) -> Result<(), NoMemory>
    ensures { OnOk result (found.new.items ≡ found.old.items ++ option_to_list owner) }
{
    match owner {
        Some(owner) => {
            found.push(owner)?;
            Ok(())
        }
        None => Ok(()),
    }
}

fn names_at(rows: &[OrderRow], place: usize, class: u32) -> bool
    ensures { result ≡ names_at class rows.now place }
{
    match rows.get(place) {
        Some(row) => names_standing(row, class),
        None => false,
    }
}

fn names_standing(row: &OrderRow, class: u32) -> bool
    ensures { result ≡ names_standing class row.now }
{
    !row.struck && names_class(&row.order.body, class)
}

fn names_class(body: &Body, class: u32) -> bool
    ensures { result ≡ list_any (λ own. own == class) (classes_in body.now) }
{
    match body {
        Body::Buy { class: own, .. } => own.number() == class,
        Body::Sell { class: own, .. } => own.number() == class,
        Body::SellCash { class: own, .. } => own.number() == class,
        Body::SellAll { class: own } => own.number() == class,
        Body::Exchange { class: own, to, .. } => own.number() == class || to.number() == class,
        Body::ExchangeAll { class: own, to } => own.number() == class || to.number() == class,
        Body::Letter { class: own, .. } => own.number() == class,
        Body::Elect { class: own, .. } => own.number() == class,
    }
}

fn put_each_once(households: &mut Vec<u32>)
    ensures rises { IsStrictlyIncreasing households.new.items }
    ensures keeps { (household : ℕ)
        → Contains households.old.items household → Contains households.new.items household }
    ensures adds_none { (household : ℕ)
        → Contains households.new.items household → Contains households.old.items household }
{
    households.sort_unstable();
    households.dedup();
}
