//! The orders of each household, and those that may wait for a price.
ghost use Rattle.std.specs.Prelude.{◌≡◌, ◌≤◌, ◌<◌, ◌-◌, ◌+◌, ◌++◌, ◌∷◌, [], ℕ, Some, IfOk, OnOk, filter, length, slice_get, take, vec_capacity};
ghost use Rattle.order_book.specs.LastPlaces.{last_place};
ghost use Rattle.register_machine.specs.pricing.CorrectedOrders.{orders_of};
ghost use Rattle.standing_orders.specs.Places.{passes_at, with_place, with_settled, RisesWithin};
ghost use Rattle.standing_orders.specs.Rows.{is_owner, stays, waits};

use crate::chains::Chains;
use crate::waiting::{keep_staying, put_among, settle_among};
use forward_price::PriceBook;
use money_units::NoMemory;
use order_book::OrderBook;
use std::alloc::Global;
use std::marker::Model;

/// The household of each row of a book of orders, by household the chain of its rows back from the last one, and the places of
/// the rows that may wait for a price. Contracts see them with the number of rows that can be begun without more memory.
#[derive(Drop)]
pub struct HouseholdOrders {
    chains: Chains,
    waiting: Vec<usize>,
    spare: usize,
}

impl Model for HouseholdOrders {
    ghost use Rattle.standing_orders.specs.Index.{OrderPlaces};

    ghost Value = { OrderPlaces };

    ghost use Rattle.standing_orders.specs.Kept.{order_places, IsKept};

    ghost view = { order_places };

    ghost invariant = { IsKept };
}

impl HouseholdOrders {
    /// The index of no order, which takes no memory yet.
    pub fn new(alloc: Global) -> HouseholdOrders
        ensures { result ≡ record { owners = []; waiting = []; spare = 0 } }
    {
        HouseholdOrders {
            chains: Chains::new(alloc),
            waiting: Vec::new(alloc),
            spare: 0,
        }
    }

    /// The household of each order in turn.
    pub fn owners(&self) -> &[u32]
        ensures { result.now ≡ self.now.owners }
    {
        self.chains.owners.as_slice()
    }

    /// The places of the orders that may wait for a price, rising.
    pub fn waiting(&self) -> &[usize]
        ensures value { result.now ≡ self.now.waiting }
        ensures rises { RisesWithin 0 (length self.now.owners) self.now.waiting }
    {
        self.waiting.as_slice()
    }

    /// The place of the last order of a household.
    pub fn last_order(&self, household: u32) -> Option<usize>
        ensures { result ≡ last_place (is_owner household) self.now.owners }
    {
        self.chains.last(household)
    }

    /// The place of the last order of the same household before an order.
    pub fn earlier_order(&self, place: usize) -> Option<usize>
        ensures { (owner : ℕ) → slice_get self.now.owners place ≡ Some owner
            → result ≡ last_place (is_owner owner) (take place self.now.owners) }
    {
        self.chains.earlier(place)
    }

    /// Takes the memory that so many orders more need. After `NoMemory` the orders are as before.
    pub fn reserve(&mut self, orders: usize) -> Result<(), NoMemory>
        ensures owners { self.new.owners ≡ self.old.owners }
        ensures waiting { self.new.waiting ≡ self.old.waiting }
        ensures room { OnOk result (orders ≤ self.new.spare) }
        ensures kept { self.old.spare ≤ self.new.spare }
    {
        self.chains.reserve(orders)?;
        reserve_up_to(
            &mut self.waiting,
            self.chains.owners.as_slice().len(),
            orders,
        )?;
        if self.spare < orders {
            self.spare = orders;
        }
        Ok(())
    }

    /// Takes in the order of a household behind the others, which waits for a price: no memory.
    pub fn begin(&mut self, household: u32)
        requires { 1 ≤ self.old.spare }
        ensures owners { self.new.owners ≡ self.old.owners ++ household ∷ [] }
        ensures waiting { self.new.waiting ≡ self.old.waiting ++ length self.old.owners ∷ [] }
        ensures spare { self.new.spare ≡ self.old.spare - 1 }
    {
        let behind = self.chains.owners.as_slice().len();
        self.chains.push(household);
        put_among(&mut self.waiting, behind);
        self.spare -= 1;
    }

    /// Lets an order wait again, as one that was replaced; nothing changes where it waits already. It takes no memory.
    pub fn wait_again(&mut self, place: usize)
        requires { place < length self.old.owners }
        ensures owners { self.new.owners ≡ self.old.owners }
        ensures waiting { self.new.waiting ≡ with_place place self.old.waiting }
        ensures spare { self.new.spare ≡ self.old.spare }
    {
        put_among(&mut self.waiting, place);
    }

    /// Lets the orders go that are struck or that the sheet of this number takes, among those that wait alone and by that sheet
    /// alone. It takes no memory.
    pub fn leave_taken(&mut self, book: &OrderBook, prices: &PriceBook, sheet: u32)
        ensures owners { self.new.owners ≡ self.old.owners }
        ensures waiting { self.new.waiting
            ≡ filter (passes_at (stays sheet prices.now.table.sheets) (orders_of book.now.journal))
            self.old.waiting }
        ensures spare { self.new.spare ≡ self.old.spare }
    {
        keep_staying(&mut self.waiting, book, prices, sheet);
    }

    /// Settles the order at a place, as after it was entered or replaced: it waits on only where it stands and no sheet prices
    /// it, and the others are left as they are. It looks at no other order and takes no memory.
    pub fn settle(&mut self, book: &OrderBook, prices: &PriceBook, place: usize)
        ensures owners { self.new.owners ≡ self.old.owners }
        ensures waiting { self.new.waiting
            ≡ with_settled (waits prices.now.table.sheets) (orders_of book.now.journal) place
            self.old.waiting }
        ensures spare { self.new.spare ≡ self.old.spare }
    {
        settle_among(&mut self.waiting, book, prices, place);
    }
}

// Takes the memory for so many items in all, and so many more.
fn reserve_up_to(places: &mut Vec<usize>, count: usize, more: usize) -> Result<(), NoMemory>
    ensures items { places.new.items ≡ places.old.items }
    ensures room { OnOk result (count + more ≤ vec_capacity places.new) }
    ensures capacity { vec_capacity places.old ≤ vec_capacity places.new }
{
    let all = count.checked_add(more).ok_or(NoMemory)?;
    places.reserve(all.saturating_sub(places.len()))?;
    Ok(())
}
