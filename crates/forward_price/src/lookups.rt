//! The look-ups on the list of a sheet.
ghost use Rattle.std.specs.Prelude.{◌≡◌, ◌==◌, find, option_map};
ghost use Rattle.std.specs.List.{list_any, list_all};
ghost use Rattle.forward_price.specs.Sheets.{lists_class, lists_all, nav_on};

use money_units::Nav;

/// Whether a list of classes with their net asset values has this class.
pub fn lists_class(prices: &[(u32, Nav)], class: u32) -> bool
    ensures { result ≡ lists_class prices.now class }
{
    prices.iter().any(|price| price.0 == class)
}

/// Whether a list of classes with their net asset values has all of these classes.
pub fn lists_all(prices: &[(u32, Nav)], classes: &[u32]) -> bool
    ensures { result ≡ lists_all prices.now classes.now }
{
    classes.iter().all(|class| lists_class(prices, *class))
}

/// The net asset value of a class on a list of classes with their net asset values; `None` exactly where the list doesn't
/// have the class. Of a class that is listed twice it is the first.
pub fn nav_on(prices: &[(u32, Nav)], class: u32) -> Option<Nav>
    ensures { result ≡ nav_on prices.now class }
{
    prices
        .iter()
        .find(|price| price.0 == class)
        .map(|price| price.1)
}
