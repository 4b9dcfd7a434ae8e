//! Rows put in their places in the tables by number.
ghost use Rattle.std.specs.Prelude.{◌≡◌, ◌<◌, AllPairs, is_some, length, slice_get, true};
ghost use Rattle.household_fold.specs.Facts.{rate_stands_before};
ghost use Rattle.household_fold.specs.Searches.{if_passes};
ghost use Rattle.reference_tables.specs.Tables.{has_account_number, has_class_number, is_rate_of, with_account, with_dividend, with_fixed_rate, with_terms};

use crate::room::{Room, insert_row, write_row};
use agent_events::{AccountRow, RateRow, Rates};
use class_terms::{Terms, TermsTable};
use household_fold::look_ups::{is_rate_of, place_of_account, place_of_rate, place_of_terms};
use money_units::{List, Moment};

/// The accounts by number.
pub(crate) type Accounts = List<AccountRow>;

// Whether the class stands in a place.
fn has_class_at(terms: &[Terms], place: usize, class: u32) -> bool
    ensures { result ≡ is_some (if_passes (has_class_number class) (slice_get terms.now place)) }
{
    match terms.get(place) {
        Some(row) => row.class() == class,
        None => false,
    }
}

/// Puts the terms of a class in their place, unless it has terms.
pub(crate) fn put_terms(terms: &mut TermsTable, room: Room<Terms>, row: Terms)
    requires rise { AllPairs (λ a b. a.class < b.class) terms.old }
    requires room { length terms.old < room }
    ensures { terms.new ≡ with_terms terms.old row }
{
    let class = row.class();
    let place = place_of_terms(terms.as_slice(), class);
    if !has_class_at(terms.as_slice(), place, class) {
        insert_row(terms, room, place, row);
    }
}

// Whether the account stands in a place.
fn has_account_at(accounts: &[AccountRow], place: usize, account: u32) -> bool
    ensures { result ≡ is_some (if_passes (has_account_number account)
        (slice_get accounts.now place)) }
{
    match accounts.get(place) {
        Some(row) => row.account == account,
        None => false,
    }
}

/// Puts an account in its place, unless it stands there.
pub(crate) fn put_account(accounts: &mut Accounts, room: Room<AccountRow>, row: AccountRow)
    requires rise { AllPairs (λ a b. a.account < b.account) accounts.old }
    requires room { length accounts.old < room }
    ensures { accounts.new ≡ with_account accounts.old row }
{
    let place = place_of_account(accounts.as_slice(), row.account);
    if !has_account_at(accounts.as_slice(), place, row.account) {
        insert_row(accounts, room, place, row);
    }
}

// Whether the class's rate at a moment stands in a place.
fn has_rate_at(rates: &[RateRow], place: usize, class: u32, moment: Moment) -> bool
    ensures { result ≡ is_some (if_passes (is_rate_of class moment) (slice_get rates.now place)) }
{
    match rates.get(place) {
        Some(row) => is_rate_of(row, class, moment),
        None => false,
    }
}

/// Puts the rate of a dividend in its place, unless one stands there.
pub(crate) fn put_dividend(rates: &mut Rates, room: Room<RateRow>, row: RateRow)
    requires rise { AllPairs (λ a b. rate_stands_before b.class b.moment a ≡ true) rates.old }
    requires room { length rates.old < room }
    ensures { rates.new ≡ with_dividend rates.old row }
{
    let place = place_of_rate(rates.as_slice(), row.class, row.moment);
    if !has_rate_at(rates.as_slice(), place, row.class, row.moment) {
        insert_row(rates, room, place, row);
    }
}

/// Puts a corrected rate in its place, in the stead of the one that stands there.
pub(crate) fn put_fixed_rate(rates: &mut Rates, room: Room<RateRow>, row: RateRow)
    requires rise { AllPairs (λ a b. rate_stands_before b.class b.moment a ≡ true) rates.old }
    requires room { length rates.old < room }
    ensures { rates.new ≡ with_fixed_rate rates.old row }
{
    let place = place_of_rate(rates.as_slice(), row.class, row.moment);
    if has_rate_at(rates.as_slice(), place, row.class, row.moment) {
        write_row(rates, room, place, row);
    } else {
        insert_row(rates, room, place, row);
    }
}
