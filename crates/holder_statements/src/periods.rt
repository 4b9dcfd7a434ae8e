//! The trades of a period, found by two searches among trades in the order of their sheets.
ghost use Rattle.std.specs.Prelude.{◌≡◌, ◌++◌, ◌≤◌, ◌&&◌, AllPairs, OnOk, drop, false, filter, length, nat_le, nat_lt, take, true};
ghost use Rattle.std.specs.List.{flat_map};
ghost use Rattle.std.specs.List.Sorted.{IsPartitionPoint};
ghost use Rattle.register_machine.specs.queries.Statement.{is_in_period, trade_line};
ghost use Rattle.holder_statements.specs.Periods.{AreDated, line_in_period};

use crate::trade_lines::add_trade_line;
use agent_events::{StatementForm, Trade};
use fund_calendar::Day;
use money_units::NoMemory;

/// The seconds of a day.
const DAY_SECONDS: u64 = 86_400;

/// Appends the lines of the account's trades that are dated within the period. Beside two searches it reads the trades from
/// three days before the period to three days behind it.
#[tactic(auto, using(crate::proofs::PeriodFacts::lines_in_period))]
pub(crate) fn add_trades(
    out: &mut Vec<u8>,
    trades: &[Trade],
    form: &StatementForm,
) -> Result<(), NoMemory>
    requires { AreDated trades.now }
    ensures { OnOk result
        (out.new.items
        ≡ out.old.items ++ flat_map trade_line (filter (is_in_period form.now) trades.now)) }
{
    let before_end = trades_until(trades, form);
    let within = trades_since(before_end, form);
    add_lines(out, within, form)?;
    Ok(())
}

fn add_lines(out: &mut Vec<u8>, trades: &[Trade], form: &StatementForm) -> Result<(), NoMemory>
    ensures { OnOk result
        (out.new.items ≡ out.old.items ++ flat_map (line_in_period form.now) trades.now) }
{
    for trade in trades {
        add_line_in_period(out, trade, form)?;
    }
    Ok(())
}

fn add_line_in_period(
    out: &mut Vec<u8>,
    trade: &Trade,
    form: &StatementForm,
) -> Result<(), NoMemory>
    ensures { OnOk result (out.new.items ≡ out.old.items ++ line_in_period form.now trade.now) }
{
    if is_in_period(trade, form) {
        add_trade_line(out, trade)?;
    }
    Ok(())
}

/// Whether a trade is of the account and dated within the period.
fn is_in_period(trade: &Trade, form: &StatementForm) -> bool
    ensures { result ≡ is_in_period form.now trade.now }
{
    trade.account == form.account.number() && is_between(&trade.day, &form.first, &form.last)
}

fn is_between(day: &Day, first: &Day, last: &Day) -> bool
    ensures { result ≡ (nat_le first.now day.now && nat_le day.now last.now) }
{
    first.number() <= day.number() && day.number() <= last.number()
}

// The trades before the fourth day behind the period.
fn trades_until<'a>(trades: &'a [Trade], form: &StatementForm) -> &'a [Trade]
    requires { AreDated trades.now }
    ensures period { filter (is_in_period form.now) result.now
        ≡ filter (is_in_period form.now) trades.now }
    ensures dated { AreDated result.now }
{
    let last = day_number(&form.last);
    let end = (last + 4) * DAY_SECONDS;
    front(trades, place_of(trades, end))
}

// The trades from the third day before the period on.
fn trades_since<'a>(trades: &'a [Trade], form: &StatementForm) -> &'a [Trade]
    requires { AreDated trades.now }
    ensures { filter (is_in_period form.now) result.now
        ≡ filter (is_in_period form.now) trades.now }
{
    let first = day_number(&form.first);
    let start = (first * DAY_SECONDS).saturating_sub(3 * DAY_SECONDS);
    rest(trades, place_of(trades, start))
}

// The place of the first trade that isn't before a moment.
fn place_of(trades: &[Trade], seconds: u64) -> usize
    requires { AllPairs (λ earlier later. earlier.moment ≤ later.moment) trades.now }
    ensures point { IsPartitionPoint (λ trade. nat_lt trade.moment seconds ≡ true)
        (λ trade. nat_lt trade.moment seconds ≡ false) trades.now result }
    ensures bound { result ≤ length trades.now }
{
    trades.partition_point(|trade| trade.moment.seconds() < seconds)
}

fn front(trades: &[Trade], place: usize) -> &[Trade]
    requires { place ≤ length trades.now }
    ensures { result.now ≡ take place trades.now }
{
    &trades[..place]
}

fn rest(trades: &[Trade], place: usize) -> &[Trade]
    requires { place ≤ length trades.now }
    ensures { result.now ≡ drop place trades.now }
{
    &trades[place..]
}

fn day_number(day: &Day) -> u64
    ensures value { result ≡ day.now }
    ensures most { result ≤ 84005 }
{
    day.number() as u64
}
