//! Rows under numbers: in turn, by number, and as orders.
ghost use Rattle.std.specs.Prelude.{◌≡◌, ℕ, filter, map, IfOk, OnOk};
ghost use Rattle.std.specs.List.Sorted.{IsNonDecreasingBy, IsPermutation};
ghost use Rattle.register_machine.specs.replay.Replay.{all_in_turn};
ghost use Rattle.standing_orders.specs.Entries.{is_under, order_of, rows_of};

use agent_events::OrderRow;
use checkpoint_replay::NumberedOrders;
use money_units::NoMemory;
use std::alloc::Global;

/// A row under a number: that of its household, or that of the sheet that prices it.
#[derive(Clone, Copy, Debug)]
pub struct NumberedRow {
    pub number: u32,
    pub row: OrderRow,
}

/// Puts rows that come by place into their turn, by receipt.
pub(crate) fn put_in_turn(entries: &mut Vec<NumberedRow>) -> Result<(), NoMemory>
    ensures turn { OnOk result (rows_of entries.new.items
        ≡ all_in_turn (rows_of entries.old.items)) }
    ensures same { IsPermutation entries.old.items entries.new.items }
{
    entries.sort_by_key(|entry| receipt_of(entry))?;
    Ok(())
}

fn receipt_of(entry: &NumberedRow) -> u64
    ensures { result ≡ entry.now.row.receipt }
{
    entry.row.receipt.seconds()
}

/// Puts those of one number together, by rising number, each number's as they stood.
pub(crate) fn put_by_number(entries: &mut Vec<NumberedRow>) -> Result<(), NoMemory>
    ensures same { OnOk result ((number : ℕ)
        → filter (is_under number) entries.new.items ≡ filter (is_under number) entries.old.items) }
    ensures rising { OnOk result (IsNonDecreasingBy (λ entry. entry.number) entries.new.items) }
{
    entries.sort_by_key(|entry| entry.number)?;
    Ok(())
}

/// The orders under their numbers.
pub(crate) fn orders_of(alloc: Global, entries: &[NumberedRow]) -> Result<NumberedOrders, NoMemory>
    requires { IsNonDecreasingBy (λ entry. entry.number) entries.now }
    ensures { IfOk result (λ orders. orders ≡ map order_of entries.now) }
{
    let mut orders = NumberedOrders::new(alloc);
    for entry in entries {
        orders.push(entry.number, entry.row.order)?;
    }
    Ok(orders)
}
