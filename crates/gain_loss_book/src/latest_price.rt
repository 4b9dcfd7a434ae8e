//! The latest net asset value of a class.
ghost use Rattle.std.specs.Prelude.{◌≡◌, ◌≤◌};
ghost use Rattle.std.specs.Option.{option_copied};
ghost use Rattle.forward_price.specs.PriceTables.{sheets_on_trial};
ghost use Rattle.forward_price.specs.Sheets.{lists_class};
ghost use Rattle.register_machine.specs.corrections.Gains.{latest_nav};
ghost use Rattle.register_machine.specs.journal.Choices.{last_of};

use forward_price::{Patch, PriceBook, Sheet, lists_class};

/// The net asset value of a class on its latest sheet, under a correction on trial; 0 where it is on none.
pub fn latest_nav(prices: &PriceBook, patch: Option<Patch>, class: u32) -> u64
    ensures nav { result ≡ latest_nav (sheets_on_trial patch prices.now.table.sheets) class }
    ensures within { result ≤ 10000000 }
{
    let Some(sheet) = latest_sheet(prices.sheets(), class) else {
        return 0;
    };
    match prices.price(patch, sheet.number, class) {
        Some(nav) => nav.cents(),
        None => 0,
    }
}

/// The latest sheet that lists a class.
pub fn latest_sheet(sheets: &[Sheet], class: u32) -> Option<&Sheet>
    ensures { option_copied result ≡ last_of (λ sheet. lists_class sheet.prices class) sheets.now }
{
    let mut left = sheets.len();
    while left > 0 {
        left -= 1;
        if lists_class(sheets[left].prices.as_slice(), class) {
            return Some(&sheets[left]);
        }
    }
    None
}
