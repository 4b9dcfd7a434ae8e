//! The prices of the sheet at hand, in the order in which it lists them.
ghost use Rattle.std.specs.Prelude.{◌≡◌, All, map};
ghost use Rattle.household_fold.specs.Dividends.{price_on_trial};
ghost use Rattle.household_fold.specs.Facts.{FactsFit, IsListed, sheet_at_hand};

use crate::facts::Facts;
use money_units::Nav;

/// The prices of the sheet at hand as they were published: class and net asset value.
pub(crate) fn published_prices<'a>(facts: &'a Facts) -> &'a [(u32, Nav)]
    requires { FactsFit facts.now }
    ensures prices { map (price_on_trial facts.now.patch facts.now.sheet) result.now
        ≡ (sheet_at_hand facts.now).prices }
    ensures listed { All (λ price. IsListed facts.now price.0) result.now }
{
    facts.published().prices.as_slice()
}

/// A published net asset value of a class under the correction on trial.
pub(crate) fn nav_on_trial(facts: &Facts, class: u32, nav: Nav) -> Nav
    ensures { (class, result) ≡ price_on_trial facts.now.patch facts.now.sheet (class, nav) }
{
    match facts.patch {
        Some(patch) => {
            if facts.sheet == patch.sheet && class == patch.class {
                patch.nav
            } else {
                nav
            }
        }
        None => nav,
    }
}
