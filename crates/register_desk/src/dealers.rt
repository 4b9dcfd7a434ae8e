//! The numbers of all dealers.
ghost use Rattle.std.specs.Prelude.{◌≡◌, ◌==◌, ◌≤◌, IfOk, OnOk, false, length, nat_lt, slice_get, true};
ghost use Rattle.std.specs.List.Sorted.{IsPartitionPoint};
ghost use Rattle.std.specs.Option.{option_map_or};
ghost use Rattle.holder_statements.specs.AccountPositions.{AreRising};
ghost use Rattle.register_machine.specs.corrections.Gains.{dealer_numbers_of, in_its_place};

use agent_events::Identifier;
use money_units::NoMemory;
use order_book::OrderBook;
use std::alloc::Global;

/// The numbers of all dealers, by rising number. It goes over the dealers alone.
pub(crate) fn dealer_numbers(alloc: Global, orders: &OrderBook) -> Result<Vec<Identifier>, NoMemory>
    ensures { IfOk result (λ numbers. numbers.items ≡ dealer_numbers_of orders.now.journal) }
{
    let mut numbers = Vec::new(alloc);
    for index in 0..orders.dealers() {
        if let Some(dealer) = orders.dealer_at(index) {
            put_number(&mut numbers, dealer.dealer)?;
        }
    }
    Ok(numbers)
}

// Puts a number in its place, unless it stands there.
fn put_number(numbers: &mut Vec<Identifier>, number: Identifier) -> Result<(), NoMemory>
    requires { AreRising numbers.old.items }
    ensures numbers { OnOk result (numbers.new.items ≡ in_its_place number numbers.old.items) }
    ensures rise { OnOk result (AreRising numbers.new.items) }
{
    let place = place_of(numbers, number);
    if stands_at(numbers, place, number) {
        return Ok(());
    }
    numbers.insert(place, number)?;
    Ok(())
}

// The place of a number: those before it are smaller.
fn place_of(numbers: &[Identifier], number: Identifier) -> usize
    requires { AreRising numbers.now }
    ensures point { IsPartitionPoint (λ other. nat_lt other number ≡ true)
        (λ other. nat_lt other number ≡ false) numbers.now result }
    ensures bound { result ≤ length numbers.now }
{
    numbers.partition_point(|other| other.number() < number.number())
}

fn stands_at(numbers: &[Identifier], place: usize, number: Identifier) -> bool
    ensures { result
        ≡ option_map_or (λ other. other == number) (slice_get numbers.now place) false }
{
    match numbers.get(place) {
        Some(other) => other.number() == number.number(),
        None => false,
    }
}
