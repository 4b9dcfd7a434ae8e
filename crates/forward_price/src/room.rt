//! The memory of a sheet's list: reserved before the sheet, moved into it, and given back by a withdrawal.
ghost use Rattle.std.specs.Prelude.{◌≡◌, ◌≤◌, [], length, max, vec_capacity};

use crate::sheet::Prices;
use money_units::{List, Nav};
use std::mem;

/// Moves the room out, filled with these prices, and leaves an empty one.
pub fn filled(room: &mut Vec<(u32, Nav)>, prices: &[(u32, Nav)]) -> Prices
    requires empty { room.old.items ≡ [] }
    requires fits { length prices.now ≤ vec_capacity room.old }
    ensures value { result ≡ prices.now }
    ensures emptied { room.new.items ≡ [] }
{
    let emptied = Vec::new(*room.allocator());
    let mut items = mem::replace(room, emptied);
    for price in prices {
        items.push_reserved(*price);
    }
    List::from_vec(items)
}

/// Keeps the memory of a list as room where it is more than there is, and answers how many prices there is room for.
pub fn given_back(room: &mut Vec<(u32, Nav)>, spare: usize, prices: Prices) -> usize
    requires empty { room.old.items ≡ [] }
    requires there { spare ≤ vec_capacity room.old }
    ensures spare { result ≡ max spare (length prices) }
    ensures fits { result ≤ vec_capacity room.new }
    ensures emptied { room.new.items ≡ [] }
{
    let count = prices.len();
    if spare < count {
        let mut items = prices.into_vec();
        items.clear();
        *room = items;
        count
    } else {
        spare
    }
}
