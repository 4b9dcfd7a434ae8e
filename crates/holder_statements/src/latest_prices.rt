//! The latest net asset value of a class.
ghost use Rattle.std.specs.Prelude.{◌≡◌, ◌≤◌};
ghost use Rattle.register_machine.specs.corrections.Gains.{latest_nav};
ghost use Rattle.register_machine.specs.replay.Trades.{nav_of};

use forward_price::{Sheet, nav_on};
use gain_loss_book::latest_sheet;

/// The net asset value of a class in cents on its latest sheet, 0 where it is on none. It reads the sheets from the last one
/// back to the one that lists the class.
pub fn latest_nav(sheets: &[Sheet], class: u32) -> u64
    ensures nav { result ≡ latest_nav sheets.now class }
    ensures within { result ≤ 10000000 }
{
    match latest_sheet(sheets, class) {
        Some(sheet) => nav_of(sheet, class),
        None => 0,
    }
}

// The net asset value of a class on a sheet.
fn nav_of(sheet: &Sheet, class: u32) -> u64
    ensures nav { result ≡ nav_of sheet.now class }
    ensures within { result ≤ 10000000 }
{
    match nav_on(sheet.prices.as_slice(), class) {
        Some(nav) => nav.cents(),
        None => 0,
    }
}
