//! Look-ups by search in the tables of the facts, which stand by number, and the places that rows have in them.
ghost use Rattle.std.specs.Prelude.{◌≡◌, ◌<◌, ◌≤◌, ◌==◌, ◌&&◌, AllPairs, false, length, nat_lt, slice_get, true};
ghost use Rattle.std.specs.List.Sorted.{IsPartitionPoint};
ghost use Rattle.std.specs.Option.{option_copied};
ghost use Rattle.household_fold.specs.Facts.{rate_numbered, rate_stands_before, row_numbered, terms_numbered};
ghost use Rattle.household_fold.specs.Searches.{if_passes};

use agent_events::{AccountRow, RateRow};
use class_terms::Terms;
use money_units::Moment;

/// The terms of a class.
pub fn terms_numbered(terms: &[Terms], class: u32) -> Option<&Terms>
    requires { AllPairs (λ a b. a.class < b.class) terms.now }
    ensures { option_copied result ≡ terms_numbered terms.now class }
{
    let place = place_of_terms(terms, class);
    match terms_in_place(terms, place) {
        Some(row) => {
            if row.class() == class {
                Some(row)
            } else {
                None
            }
        }
        None => None,
    }
}

/// The place of the terms of a class, where they stand or belong: the classes before it have smaller numbers.
pub fn place_of_terms(terms: &[Terms], class: u32) -> usize
    requires { AllPairs (λ a b. a.class < b.class) terms.now }
    ensures point { IsPartitionPoint (λ row. nat_lt row.class class ≡ true)
        (λ row. nat_lt row.class class ≡ false) terms.now result }
    ensures found { if_passes (λ row. row.class == class) (slice_get terms.now result)
        ≡ terms_numbered terms.now class }
    ensures bound { result ≤ length terms.now }
{
    terms.partition_point(|row| row.class() < class)
}

fn terms_in_place(terms: &[Terms], place: usize) -> Option<&Terms>
    ensures { option_copied result ≡ slice_get terms.now place }
{
    terms.get(place)
}

/// The row of an account.
pub fn account_numbered(accounts: &[AccountRow], account: u32) -> Option<AccountRow>
    requires { AllPairs (λ a b. a.account < b.account) accounts.now }
    ensures { result ≡ row_numbered accounts.now account }
{
    let place = place_of_account(accounts, account);
    match account_in_place(accounts, place) {
        Some(row) => {
            if row.account == account {
                Some(row)
            } else {
                None
            }
        }
        None => None,
    }
}

/// The place of the row of an account, where it stands or belongs: the accounts before it have smaller numbers.
pub fn place_of_account(accounts: &[AccountRow], account: u32) -> usize
    requires { AllPairs (λ a b. a.account < b.account) accounts.now }
    ensures point { IsPartitionPoint (λ row. nat_lt row.account account ≡ true)
        (λ row. nat_lt row.account account ≡ false) accounts.now result }
    ensures found { if_passes (λ row. row.account == account) (slice_get accounts.now result)
        ≡ row_numbered accounts.now account }
    ensures bound { result ≤ length accounts.now }
{
    accounts.partition_point(|row| row.account < account)
}

fn account_in_place(accounts: &[AccountRow], place: usize) -> Option<AccountRow>
    ensures { result ≡ slice_get accounts.now place }
{
    accounts.get(place).copied()
}

/// The row of a class's rate at a moment.
pub fn rate_numbered(rates: &[RateRow], class: u32, moment: Moment) -> Option<RateRow>
    requires { AllPairs (λ a b. rate_stands_before b.class b.moment a ≡ true) rates.now }
    ensures { result ≡ rate_numbered rates.now class moment }
{
    let place = place_of_rate(rates, class, moment);
    match rate_in_place(rates, place) {
        Some(row) => {
            if is_rate_of(&row, class, moment) {
                Some(row)
            } else {
                None
            }
        }
        None => None,
    }
}

/// The place of the row of a class's rate at a moment, where it stands or belongs: the rates before it are of smaller
/// classes, or of earlier moments.
pub fn place_of_rate(rates: &[RateRow], class: u32, moment: Moment) -> usize
    requires { AllPairs (λ a b. rate_stands_before b.class b.moment a ≡ true) rates.now }
    ensures point { IsPartitionPoint (λ row. rate_stands_before class moment row ≡ true)
        (λ row. rate_stands_before class moment row ≡ false) rates.now result }
    ensures found { if_passes (λ row. row.class == class && row.moment == moment)
        (slice_get rates.now result) ≡ rate_numbered rates.now class moment }
    ensures bound { result ≤ length rates.now }
{
    rates.partition_point(|row| stands_before(row, class, moment))
}

fn rate_in_place(rates: &[RateRow], place: usize) -> Option<RateRow>
    ensures { result ≡ slice_get rates.now place }
{
    rates.get(place).copied()
}

fn stands_before(row: &RateRow, class: u32, moment: Moment) -> bool
    ensures { result ≡ rate_stands_before class moment row.now }
{
    row.class < class || (row.class == class && row.moment.seconds() < moment.seconds())
}

/// Whether the row is of this class's rate at this moment.
pub fn is_rate_of(row: &RateRow, class: u32, moment: Moment) -> bool
    ensures { result ≡ (row.now.class == class && row.now.moment == moment) }
{
    row.class == class && row.moment.seconds() == moment.seconds()
}
