//! The rules and limits of a checkpoint row.
ghost use Rattle.std.specs.Prelude.{◌≡◌, ◌<◌, true, nat_le, IfOk, IfSome, count_by, sum_by};
ghost use Rattle.std.specs.List.{list_all};
ghost use Rattle.state_rows.specs.Rules as rule;

use crate::classes::are_few_classes;
use agent_events::{LetterRow, LotRow, PositionRow, StateRow};
use money_units::NoMemory;
use std::alloc::Global;

// A lot has mils, and a number from 1 to below the next one.
fn is_lot(lot: &LotRow, next_lot: u32) -> bool
    ensures { result ≡ rule.is_lot next_lot lot.now }
{
    1 <= lot.number && lot.number < next_lot && 1 <= mils_of(lot)
}

fn mils_of(lot: &LotRow) -> u128
    ensures value { result ≡ rule.mils_of lot.now }
    ensures small { result < 36893488147419103232 }
{
    lot.loose.0 as u128 + lot.held.0 as u128
}

fn all_lots(lots: &[LotRow], next_lot: u32) -> bool
    ensures { result ≡ list_all (rule.is_lot next_lot) lots.now }
{
    lots.iter().all(|lot| is_lot(lot, next_lot))
}

fn are_numbered(lots: &[LotRow]) -> bool
    ensures { result ≡ rule.are_numbered lots.now }
{
    for i in 1..lots.len() {
        if lots[i].number <= lots[i - 1].number {
            return false;
        }
    }
    true
}

fn free_lots(lots: &[LotRow]) -> usize
    ensures { result ≡ count_by rule.is_free lots.now }
{
    lots.iter().filter(|lot| lot.free).count()
}

fn hold_nothing(lots: &[LotRow]) -> bool
    ensures { result ≡ list_all rule.holds_nothing lots.now }
{
    lots.iter().all(|lot| lot.held.0 == 0)
}

fn mils_fit(lots: &[LotRow]) -> bool
    ensures { result ≡ nat_le (sum_by rule.mils_of lots.now) 1000000000000 }
{
    let mut total = 0;
    for lot in lots {
        total += mils_of(lot);
        if total > 1_000_000_000_000 {
            return false;
        }
    }
    true
}

fn cost_fits(lots: &[LotRow]) -> bool
    ensures { result ≡ nat_le (sum_by rule.cost_of lots.now) 1000000000000000 }
{
    let mut total = 0;
    for lot in lots {
        total += lot.cost.0 as u128;
        if total > 1_000_000_000_000_000 {
            return false;
        }
    }
    true
}

fn are_lots(lots: &[LotRow], next_lot: u32) -> bool
    ensures { result ≡ rule.are_lots next_lot lots.now }
{
    all_lots(lots, next_lot)
        && are_numbered(lots)
        && free_lots(lots) <= 1
        && mils_fit(lots)
        && cost_fits(lots)
}

fn is_letter(letter: &LetterRow) -> bool
    ensures { result ≡ rule.is_letter letter.now }
{
    (1..=1_000_000_000_000).contains(&letter.amount.0)
        && letter.bought.0 < letter.amount.0
        && letter.rate.0 <= 850
        && letter.rest.0 <= 50_000_000_000
        && letter.start <= 1_000_000_000_000_000_000_000
}

fn is_open_letter(letter: &Option<LetterRow>, lots: &[LotRow]) -> bool
    ensures { result ≡ rule.is_open_letter letter.now lots.now }
{
    match letter {
        None => hold_nothing(lots),
        Some(letter) => is_letter(letter),
    }
}

fn is_written(row: &PositionRow) -> bool
    ensures { result ≡ rule.is_written row.now }
{
    (!row.lots.as_slice().is_empty() || row.letter.is_some()) || (row.in_cash || 1 < row.next_lot)
}

fn is_position(row: &PositionRow) -> bool
    ensures { result ≡ rule.is_position row.now }
{
    is_numbered(row)
        && is_written(row)
        && is_open_letter(&row.letter, row.lots.as_slice())
        && are_lots(row.lots.as_slice(), row.next_lot)
}

// The numbers of a position.
fn is_numbered(row: &PositionRow) -> bool
    ensures { result ≡ rule.is_numbered row.now }
{
    1 <= row.account && 1 <= row.class && 1 <= row.next_lot && row.next_lot <= 2_147_483_648
}

fn all_positions(rows: &[PositionRow]) -> bool
    ensures { result ≡ list_all rule.is_position rows.now }
{
    rows.iter().all(|row| is_position(row))
}

fn comes_before(first: &PositionRow, second: &PositionRow) -> bool
    ensures { result ≡ rule.comes_before first.now second.now }
{
    first.account < second.account
        || (first.account == second.account && first.class < second.class)
}

fn are_ordered(rows: &[PositionRow]) -> bool
    ensures { result ≡ rule.are_ordered rows.now }
{
    for i in 1..rows.len() {
        if !comes_before(&rows[i - 1], &rows[i]) {
            return false;
        }
    }
    true
}

// How many accounts there are, each with its positions together.
fn accounts(rows: &[PositionRow]) -> usize
    ensures { result ≡ rule.accounts_after 0 rows.now }
{
    let mut account = 0;
    let mut count = 0;
    for row in rows {
        if row.account != account {
            count += 1;
        }
        account = row.account;
    }
    count
}

fn is_of(row: &PositionRow, account: u32) -> bool
    ensures { result ≡ rule.is_of account row.now }
{
    row.account == account
}

fn loaded_lots(row: &PositionRow) -> usize
    ensures { result ≡ rule.loaded_lots row.now }
{
    row.lots.as_slice().iter().filter(|lot| !lot.free).count()
}

// The lots that aren't free, where the position is the account's.
fn account_lots(row: &PositionRow, account: u32) -> u128
    ensures value { result ≡ rule.account_lots account row.now }
    ensures small { result < 18446744073709551616 }
{
    if is_of(row, account) {
        loaded_lots(row) as u128
    } else {
        0
    }
}

fn few_loaded_lots(rows: &[PositionRow], account: u32) -> bool
    ensures { result ≡ nat_le (sum_by (rule.account_lots account) rows.now) 8192 }
{
    let mut total = 0;
    for row in rows {
        total += account_lots(row, account);
        if total > 8_192 {
            return false;
        }
    }
    true
}

fn is_account(rows: &[PositionRow], account: u32) -> bool
    ensures { result ≡ rule.is_account rows.now account }
{
    few_loaded_lots(rows, account)
}

// Whether the account of a position keeps its limits, after one that does.
fn is_account_after(rows: &[PositionRow], last: Option<u32>, account: u32) -> bool
    requires { IfSome last (λ before. rule.is_account rows.now before ≡ true) }
    ensures { result ≡ rule.is_account rows.now account }
{
    if let Some(before) = last
        && before == account
    {
        return true;
    }
    is_account(rows, account)
}

// An account's positions stand together, so each account is looked at once.
fn all_accounts(rows: &[PositionRow]) -> bool
    ensures { result ≡ list_all (λ row. rule.is_account rows.now row.account) rows.now }
{
    let mut last = None;
    for row in rows {
        if !is_account_after(rows, last, row.account) {
            return false;
        }
        last = Some(row.account);
    }
    true
}

fn are_accounts(rows: &[PositionRow]) -> bool
    ensures { result ≡ rule.are_accounts rows.now }
{
    accounts(rows) <= 64 && all_accounts(rows)
}

/// Whether a state keeps the rules and limits of a row.
pub(crate) fn keeps_rules(alloc: Global, state: &StateRow) -> Result<bool, NoMemory>
    ensures { IfOk result (λ keeps. keeps ≡ rule.keeps_rules state.now) }
{
    let rows = state.positions.as_slice();
    if keeps_own_rules(state) {
        are_few_classes(alloc, rows)
    } else {
        Ok(false)
    }
}

// Whether it does but for the classes of all its positions.
fn keeps_own_rules(state: &StateRow) -> bool
    ensures { result ≡ rule.keeps_own_rules state.now }
{
    1 <= state.household
        && all_positions(state.positions.as_slice())
        && are_ordered(state.positions.as_slice())
        && are_accounts(state.positions.as_slice())
}
