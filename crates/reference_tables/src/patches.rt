//! The patch of a corrected price on trial.
ghost use Rattle.std.specs.Prelude.{◌≡◌, find, ◌==◌};
ghost use Rattle.std.specs.Option.{option_copied};
ghost use Rattle.reference_tables.specs.TablesOfJournals.{patch_on};
ghost use Rattle.register_machine.specs.rules.NamedThings.{lists_at};

use agent_events::FixPriceForm;
use forward_price::{Patch, PriceBook, Sheet, lists_class};
use money_units::Moment;

// Whether a sheet is that of a moment and lists a class.
fn lists_at(sheet: &Sheet, class: u32, moment: Moment) -> bool
    ensures { result ≡ lists_at class moment sheet.now }
{
    sheet.moment == moment && lists_class(sheet.prices.as_slice(), class)
}

/// The first sheet of a moment that lists a class; `None` exactly where there is none. It looks through the moments of all
/// sheets, of which there are 58,560 at most.
pub fn sheet_priced(sheets: &[Sheet], class: u32, moment: Moment) -> Option<&Sheet>
    ensures { option_copied result ≡ find (lists_at class moment) sheets.now }
{
    sheets.iter().find(|sheet| lists_at(sheet, class, moment))
}

/// The patch of a corrected price: that of the sheet which lists the class at its moment; `None` exactly where there is no
/// such sheet. It looks through the moments of all sheets, of which there are 58,560 at most.
pub fn patch_of(prices: &PriceBook, form: &FixPriceForm) -> Option<Patch>
    ensures { result ≡ patch_on prices.now.table.sheets form.now }
{
    match sheet_priced(prices.sheets(), form.class.number(), form.moment) {
        Some(sheet) => Some(Patch {
            class: form.class.number(),
            sheet: sheet.number,
            nav: form.nav,
        }),
        None => None,
    }
}
