//! The look-ups of prices over the published sheets.
ghost use Rattle.std.specs.Prelude.{◌≡◌, true, ◌∷◌, ◌==◌, ◌&&◌, nat_le, nat_lt, slice_get, find, fold, option_map, option_and_then, map, All, ◌≤◌};
ghost use Rattle.std.specs.Option.{option_copied};
ghost use Rattle.forward_price.specs.Choices.{found_or_better};
ghost use Rattle.forward_price.specs.PriceTables.{AreNumbered, NeverFall, prices_order, is_earlier, is_later, next_sheet, is_before, sheet_before, sheet_numbered, is_sheet_at, number_at, corrected_price, corrected_sheet, sheets_with_nav, sheets_on_trial, price_on, price_before, with_prices, patched_nav};
ghost use Rattle.forward_price.specs.Sheets.{nav_on};

use crate::in_order;
use crate::lookups::{lists_all, lists_class, nav_on};
use crate::price_sheet::{Patch, Sheet};
use money_units::{Moment, Nav};

fn prices_order(asked: &[u32], receipt: Moment, sheet: &Sheet) -> bool
    ensures { result ≡ prices_order asked.now receipt sheet.now }
{
    receipt < sheet.moment && lists_all(sheet.prices.as_slice(), asked)
}

// The earlier of the sheet found so far and one more.
fn earlier<'a>(found: Option<&'a Sheet>, sheet: &'a Sheet) -> Option<&'a Sheet>
    ensures { option_copied result
        ≡ found_or_better is_earlier (option_copied found.entry) sheet.now }
{
    match found {
        None => Some(sheet),
        Some(found) => {
            if sheet.moment < found.moment {
                Some(sheet)
            } else {
                Some(found)
            }
        }
    }
}

/// The sheet of the next price, by a walk over all sheets.
pub fn next_among<'a>(sheets: &'a [Sheet], asked: &[u32], receipt: Moment) -> Option<&'a Sheet>
    ensures { option_copied result ≡ next_sheet sheets.now asked.now receipt }
{
    let mut found: Option<&Sheet> = None;
    for sheet in sheets {
        if prices_order(asked, receipt, sheet) {
            found = earlier(found, sheet);
        }
    }
    found
}

fn is_before(class: u32, moment: Moment, sheet: &Sheet) -> bool
    ensures { result ≡ is_before class moment sheet.now }
{
    sheet.moment < moment && lists_class(sheet.prices.as_slice(), class)
}

// The later of the sheet found so far and one more.
fn later<'a>(found: Option<&'a Sheet>, sheet: &'a Sheet) -> Option<&'a Sheet>
    ensures { option_copied result
        ≡ found_or_better is_later (option_copied found.entry) sheet.now }
{
    match found {
        None => Some(sheet),
        Some(found) => {
            if found.moment < sheet.moment {
                Some(sheet)
            } else {
                Some(found)
            }
        }
    }
}

/// The last sheet before a moment that lists a class, by a walk over all sheets.
pub fn last_among(sheets: &[Sheet], class: u32, moment: Moment) -> Option<&Sheet>
    ensures { option_copied result ≡ sheet_before sheets.now class moment }
{
    let mut found: Option<&Sheet> = None;
    for sheet in sheets {
        if is_before(class, moment, sheet) {
            found = later(found, sheet);
        }
    }
    found
}

fn sheet_in_place(sheets: &[Sheet], place: usize) -> Option<&Sheet>
    ensures { option_copied result ≡ slice_get sheets.now place }
{
    sheets.get(place)
}

/// The sheet of this number, which stands in its place.
pub fn sheet_numbered(sheets: &[Sheet], number: u32) -> Option<&Sheet>
    requires { AreNumbered sheets.now }
    ensures { option_copied result ≡ sheet_numbered sheets.now number }
{
    if number == 0 {
        return None;
    }
    sheet_in_place(sheets, number as usize - 1)
}

/// Whether the sheet is that of a calendar's pricing moment.
pub fn is_sheet_at(calendar: u32, moment: Moment, sheet: &Sheet) -> bool
    ensures { result ≡ is_sheet_at calendar moment sheet.now }
{
    sheet.calendar == calendar && sheet.moment == moment
}

fn sheet_of(sheets: &[Sheet], calendar: u32, moment: Moment) -> Option<&Sheet>
    ensures { option_copied result ≡ find (is_sheet_at calendar moment) sheets.now }
{
    sheets
        .iter()
        .find(|sheet| is_sheet_at(calendar, moment, sheet))
}

/// The number of the sheet of a pricing moment.
pub fn number_at(sheets: &[Sheet], calendar: u32, moment: Moment) -> Option<u32>
    ensures { result ≡ number_at sheets.now calendar moment }
{
    sheet_of(sheets, calendar, moment).map(|sheet| sheet.number)
}

fn is_named(patch: &Patch, number: u32, class: u32) -> bool
    ensures { result ≡ (number == patch.now.sheet && class == patch.now.class) }
{
    number == patch.sheet && class == patch.class
}

// The net asset value of a class on a sheet under a correction on trial.
fn patched_nav(patch: Option<Patch>, sheet: &Sheet, class: u32) -> Option<Nav>
    ensures { result ≡ patched_nav patch sheet.now class }
{
    let nav = nav_on(sheet.prices.as_slice(), class)?;
    match patch {
        Some(patch) => {
            if is_named(&patch, sheet.number, class) {
                Some(patch.nav)
            } else {
                Some(nav)
            }
        }
        None => Some(nav),
    }
}

/// The net asset value of a class on the sheet of this number, under a correction on trial.
pub fn price(patch: Option<Patch>, sheets: &[Sheet], number: u32, class: u32) -> Option<Nav>
    requires { AreNumbered sheets.now }
    ensures { result ≡ option_and_then (λ sheet. patched_nav patch sheet class)
        (sheet_numbered sheets.now number) }
{
    let sheet = sheet_numbered(sheets, number)?;
    patched_nav(patch, sheet, class)
}

/// The sheet of the next price. It costs a search where no moment falls, and otherwise a walk over all sheets.
pub fn next_sheet<'a>(
    sheets: &'a [Sheet],
    in_order: bool,
    asked: &[u32],
    receipt: Moment,
) -> Option<&'a Sheet>
    requires { in_order ≡ true → NeverFall sheets.now }
    ensures { option_copied result ≡ next_sheet sheets.now asked.now receipt }
{
    if in_order {
        in_order::next_sheet(sheets, asked, receipt)
    } else {
        next_among(sheets, asked, receipt)
    }
}

/// The last sheet before a moment that lists a class. It costs a search where no moment falls, and otherwise a walk over
/// all sheets.
pub fn sheet_before(sheets: &[Sheet], in_order: bool, class: u32, moment: Moment) -> Option<&Sheet>
    requires { in_order ≡ true → NeverFall sheets.now }
    ensures { option_copied result ≡ sheet_before sheets.now class moment }
{
    if in_order {
        in_order::sheet_before(sheets, class, moment)
    } else {
        last_among(sheets, class, moment)
    }
}

/// The net asset value of a class on its last sheet before a moment, under a correction on trial.
pub fn last_before(
    patch: Option<Patch>,
    sheets: &[Sheet],
    in_order: bool,
    class: u32,
    moment: Moment,
) -> Option<Nav>
    requires { in_order ≡ true → NeverFall sheets.now }
    ensures { result ≡ option_and_then (λ sheet. patched_nav patch sheet class)
        (sheet_before sheets.now class moment) }
{
    match sheet_before(sheets, in_order, class, moment) {
        Some(sheet) => patched_nav(patch, sheet, class),
        None => None,
    }
}

fn is_up_to(moment: Moment, sheet: &Sheet) -> bool
    ensures { result ≡ nat_le sheet.now.moment moment }
{
    sheet.moment <= moment
}

fn follows(sheets: &[Sheet], moment: Moment) -> bool
    ensures rising { result ≡ true
        → NeverFall sheets.now
        → All (λ s. s.moment ≤ moment) sheets.now }
    ensures any { All (λ s. s.moment ≤ moment) sheets.now → result ≡ true }
{
    match sheets.last() {
        Some(last) => is_up_to(moment, last),
        None => true,
    }
}

/// Whether the moments of sheets never fall with a sheet of this moment behind them, where it is known whether they do
/// without it: yes for each moment that isn't before any of theirs.
pub fn stays_in_order(in_order: bool, sheets: &[Sheet], moment: Moment) -> bool
    requires { in_order ≡ true → NeverFall sheets.now }
    ensures before { result ≡ true → NeverFall sheets.now }
    ensures last { result ≡ true → All (λ s. s.moment ≤ moment) sheets.now }
    ensures any { in_order ≡ true → All (λ s. s.moment ≤ moment) sheets.now → result ≡ true }
{
    in_order && follows(sheets, moment)
}
