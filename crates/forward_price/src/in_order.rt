//! The look-ups of prices over sheets whose moments never fall: each costs the logarithm of their number, and the sheets
//! nearest to the moment that don't list what is asked for.
ghost use Rattle.std.specs.Prelude.{◌≡◌, ◌≤◌, ◌<◌, true, false, length, All, Contains, IfNone, IfSome};
ghost use Rattle.std.specs.List.Sorted.{IsPartitionPoint};
ghost use Rattle.std.specs.Option.{option_copied};
ghost use Rattle.forward_price.specs.PriceTables.{NeverFall, next_sheet, sheet_before};
ghost use Rattle.forward_price.specs.Sheets.{lists_all, lists_class};

use crate::lookups::{lists_all, lists_class};
use crate::next_price::{last_among, next_among};
use crate::price_sheet::Sheet;
use money_units::Moment;

// The place of the first sheet that isn't before a moment.
fn place_from(sheets: &[Sheet], moment: Moment) -> usize
    requires { NeverFall sheets.now }
    ensures point { IsPartitionPoint
        (λ s. s.moment < moment) (λ s. moment ≤ s.moment) sheets.now result }
    ensures bound { result ≤ length sheets.now }
{
    sheets.partition_point(|sheet| sheet.moment < moment)
}

// The place of the first sheet after a moment.
fn place_after(sheets: &[Sheet], moment: Moment) -> usize
    requires { NeverFall sheets.now }
    ensures point { IsPartitionPoint
        (λ s. s.moment ≤ moment) (λ s. moment < s.moment) sheets.now result }
    ensures bound { result ≤ length sheets.now }
{
    sheets.partition_point(|sheet| sheet.moment <= moment)
}

fn moment_of(sheet: &Sheet) -> Moment
    ensures { result ≡ sheet.now.moment }
{
    sheet.moment
}

// The first sheet that lists all of these classes.
fn first_with_all<'a>(sheets: &'a [Sheet], asked: &[u32]) -> Option<&'a Sheet>
    ensures some { IfSome result
        (λ s. Contains sheets.now s.now × lists_all s.now.prices asked.now ≡ true) }
    ensures none { IfNone result (All (λ s. lists_all s.prices asked.now ≡ false) sheets.now) }
{
    sheets
        .iter()
        .find(|sheet| lists_all(sheet.prices.as_slice(), asked))
}

// The last sheet that lists a class.
fn last_with(sheets: &[Sheet], class: u32) -> Option<&Sheet>
    ensures some { IfSome result
        (λ s. Contains sheets.now s.now × lists_class s.now.prices class ≡ true) }
    ensures none { IfNone result (All (λ s. lists_class s.prices class ≡ false) sheets.now) }
{
    sheets
        .iter()
        .rev()
        .find(|sheet| lists_class(sheet.prices.as_slice(), class))
}

// The sheet of the next price among sheets after the receipt: no later than the first that lists all the classes.
fn next_behind<'a>(sheets: &'a [Sheet], asked: &[u32], receipt: Moment) -> Option<&'a Sheet>
    requires rise { NeverFall sheets.now }
    requires after { All (λ s. receipt < s.moment) sheets.now }
    ensures { option_copied result ≡ next_sheet sheets.now asked.now receipt }
{
    let first = first_with_all(sheets, asked)?;
    let end = place_after(sheets, moment_of(first));
    next_among(&sheets[..end], asked, receipt)
}

/// The sheet of the next price.
pub fn next_sheet<'a>(sheets: &'a [Sheet], asked: &[u32], receipt: Moment) -> Option<&'a Sheet>
    requires { NeverFall sheets.now }
    ensures { option_copied result ≡ next_sheet sheets.now asked.now receipt }
{
    let start = place_after(sheets, receipt);
    next_behind(&sheets[start..], asked, receipt)
}

// The last sheet that lists a class among sheets before the moment: no earlier than the last in order of publication.
fn last_of(sheets: &[Sheet], class: u32, moment: Moment) -> Option<&Sheet>
    requires rise { NeverFall sheets.now }
    requires before { All (λ s. s.moment < moment) sheets.now }
    ensures { option_copied result ≡ sheet_before sheets.now class moment }
{
    let last = last_with(sheets, class)?;
    let start = place_from(sheets, moment_of(last));
    last_among(&sheets[start..], class, moment)
}

/// The last sheet before a moment that lists a class.
pub fn sheet_before(sheets: &[Sheet], class: u32, moment: Moment) -> Option<&Sheet>
    requires { NeverFall sheets.now }
    ensures { option_copied result ≡ sheet_before sheets.now class moment }
{
    let end = place_from(sheets, moment);
    last_of(&sheets[..end], class, moment)
}
