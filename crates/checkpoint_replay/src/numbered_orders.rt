//! Orders under numbers that never fall: those of a household by their sheets, or those of a sheet by their households.
ghost use Rattle.std.specs.Prelude.{◌≡◌, ◌++◌, ◌∷◌, ◌-◌, ◌<◌, ◌≤◌, [], drop, map, take, length, Contains, IfNone, IfSome, OnErr, OnOk};
ghost use Rattle.checkpoint_replay.specs.NumberedRows.{AreRising, AreUpTo, numbers_met};
ghost use Rattle.checkpoint_replay.specs.Replays.{orders_under};

use crate::places;
use agent_events::Order;
use money_units::{List, NoMemory};
use std::alloc::Global;
use std::marker::Model;

/// Orders under numbers that never fall, so that those under one number stand together.
///
/// Contracts see the list of the orders with their numbers.
#[derive(Debug, Drop)]
pub struct NumberedOrders {
    numbers: Vec<u32>,
    orders: List<Order>,
}

impl Model for NumberedOrders {
    ghost use Rattle.std.specs.Prelude.{List as ListOf};
    ghost use Rattle.checkpoint_replay.specs.NumberedRows.{AreKept, orders_numbered};
    ghost use Rattle.checkpoint_replay.specs.Replays.{NumberedOrder};

    ghost Value = { ListOf NumberedOrder };

    ghost view = { λ rows. orders_numbered rows.numbers.items rows.orders };

    ghost invariant = { λ rows. AreKept rows.numbers.items rows.orders };
}

impl NumberedOrders {
    /// No orders; it takes no memory yet.
    pub fn new(alloc: Global) -> NumberedOrders
        ensures { result ≡ [] }
    {
        NumberedOrders {
            numbers: Vec::new(alloc),
            orders: List::new(alloc),
        }
    }

    /// Appends an order under a number that is at least the last one's; after `NoMemory` the orders are as before.
    pub fn push(&mut self, number: u32, order: Order) -> Result<(), NoMemory>
        requires { AreUpTo number self.old }
        ensures ok { OnOk result (self.new
            ≡ self.old ++ record { number = number; order = order } ∷ []) }
        ensures err { OnErr result (self.new ≡ self.old) }
    {
        self.numbers.reserve(1)?;
        self.orders.push_copy(&order)?;
        let kept: Result<_, _> = self.numbers.push(number);
        kept.unwrap();
        Ok(())
    }

    /// The orders under a number in their turn, by two searches in the numbers.
    pub fn under(&self, number: u32) -> &[Order]
        ensures { result.now ≡ orders_under number self.now }
    {
        let first = places::first_place(&self.numbers, number);
        let behind = places::place_behind(&self.numbers, number);
        part_of(self.orders.as_slice(), first, behind)
    }

    /// The number of the order in a place, and the first place behind it with another number; `None` exactly behind the last
    /// order. A walk from place 0, from each such place to the next, meets each number once.
    pub fn number_from(&self, place: usize) -> Option<(u32, usize)>
        ensures met { IfSome result (λ pair. numbers_met (drop place self.now)
            ≡ pair.0 ∷ numbers_met (drop pair.1 self.now)) }
        ensures behind { IfSome result (λ pair. place < pair.1) }
        ensures within { IfSome result (λ pair. pair.1 ≤ length self.now) }
        ensures end { IfNone result (length self.now ≤ place) }
    {
        let number = *self.numbers.get(place)?;
        Some((number, places::place_behind(&self.numbers, number)))
    }

    /// The number of the last order, which none exceeds; `None` exactly where there is none.
    pub fn last_number(&self) -> Option<u32>
        ensures most { IfSome result (λ number. AreUpTo number self.now) }
        ensures last { IfSome result
            (λ number. Contains (map (λ row. row.number) self.now) number) }
        ensures none { IfNone result (self.now ≡ []) }
    {
        places::last_of(&self.numbers)
    }

    /// How many orders there are.
    pub fn len(&self) -> usize
        ensures len { result ≡ length self.now }
        ensures rising { AreRising self.now }
    {
        self.orders.len()
    }
}

// The orders from one place on to another.
fn part_of(orders: &[Order], first: usize, behind: usize) -> &[Order]
    requires rising { first ≤ behind }
    requires within { behind ≤ length orders.now }
    ensures { result.now ≡ take (behind - first) (drop first orders.now) }
{
    &orders[first..behind]
}
