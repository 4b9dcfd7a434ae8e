//! The prices of a sheet.
ghost use Rattle.std.specs.Prelude.{◌≡◌, map};
ghost use Rattle.forward_price.specs.PriceTables.{corrected_price};

use money_units::{List, Nav};
use std::alloc::Global;
use std::mem;

/// The prices of a sheet: class and net asset value, item by item.
pub type Prices = List<(u32, Nav)>;

/// Gives a class another net asset value on a list, which keeps its memory.
pub(crate) fn correct(alloc: Global, prices: &mut Prices, class: u32, nav: Nav)
    ensures { prices.new ≡ map (corrected_price class nav) prices.old }
{
    let mut items = mem::replace(prices, List::new(alloc)).into_vec();
    correct_prices(&mut items, class, nav);
    *prices = List::from_vec(items);
}

fn corrected_price(price: (u32, Nav), class: u32, nav: Nav) -> (u32, Nav)
    ensures { result ≡ corrected_price class nav price }
{
    if price.0 == class {
        (price.0, nav)
    } else {
        price
    }
}

fn correct_prices(prices: &mut [(u32, Nav)], class: u32, nav: Nav)
    ensures { prices.new ≡ map (corrected_price class nav) prices.old }
{
    for price in prices.iter_mut() {
        *price = corrected_price(*price, class, nav);
    }
}
