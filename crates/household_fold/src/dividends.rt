//! The dividends of the sheet at hand: each class that has a rate on it pays on all positions in it.
ghost use Rattle.std.specs.Prelude.{◌≡◌, ◌≤◌, ◌+◌, All, OnOk, map};
ghost use Rattle.register_machine.specs.replay.Dividend.{payment_on};
ghost use Rattle.register_machine.specs.replay.Trades.{nav_of, plain_trade};
ghost use Rattle.agent_events.specs.declared.trade.TradeKind.TheVariants.{DividendCash, DividendShares};
ghost use Rattle.register_machine.specs.replay.Positions.{mils_of, position_of};
ghost use Rattle.share_lots.specs.Lots.{cost_total, most_cost, most_mils};
ghost use Rattle.dividend_reinvest.specs.declared.payment.Payment.TheVariants as pays;
ghost use Rattle.household_fold.specs.Dividends.{KeepsLimits, class_known, dividend_known, dividends_known, payment_known, class_known_at_rate};
ghost use Rattle.household_fold.specs.Facts.{FactsFit, IsListed, sheet_at_hand};
ghost use Rattle.household_fold.specs.Numbers.{AreNumbersWithin};

use crate::facts::Facts;
use crate::listed_prices::{nav_on_trial, published_prices};
use crate::made_trades::plain_trade;
use agent_events::{Trade, TradeKind};
use dividend_reinvest::{Payment, pay};
use household_positions::{HouseholdDay, HouseholdRegister, KeptPosition, PositionKey};
use money_units::{Cents, Mils, Nav, NoMemory};
use std::alloc::Global;

/// The most mils of a position.
const MAX_POSITION_MILS: u64 = 1_000_000_000_000;

/// The most cents of cost of a position.
const MAX_POSITION_CENTS: u64 = 1_000_000_000_000_000;

/// The payment on a position at a rate, in millionths of a dollar per share, and a net asset value.
pub(crate) fn payment_on(position: &KeptPosition, rate: u64, nav: Nav) -> Payment
    requires { rate ≤ 1000000000 }
    ensures payment { result ≡ payment_on rate nav position.now }
    ensures limits { KeepsLimits position.now.holding result }
{
    let mils = position.holding().mils();
    let cost = position.holding().cost();
    let room = Mils(MAX_POSITION_MILS - mils.0);
    let cost_room = Cents(MAX_POSITION_CENTS - cost.0);
    pay(mils, rate, nav, position.in_cash(), room, cost_room)
}

/// The payment on the position of an account and class, as it stands.
fn payment_at(
    register: &HouseholdRegister,
    account: u32,
    class: u32,
    rate: u64,
    nav: Nav,
) -> Payment
    requires { rate ≤ 1000000000 }
    ensures payment { result ≡ payment_on rate nav (position_of register.now account class) }
    ensures limits { KeepsLimits (position_of register.now account class).holding result }
{
    match register.find(account, class) {
        Some(position) => payment_on(position, rate, nav),
        None => Payment::Nothing,
    }
}

/// The trade of a dividend in cash.
fn cash_dividend_trade(facts: &Facts, account: u32, class: u32, cash: Cents) -> Trade
    requires { FactsFit facts.now }
    ensures { result ≡ record (plain_trade (sheet_at_hand facts.now) account class DividendCash)
        { cash = cash } }
{
    let mut trade = plain_trade(facts, account, class, TradeKind::DividendCash);
    trade.cash = cash;
    trade
}

/// The trade of a dividend in shares.
fn dividend_trade(facts: &Facts, account: u32, class: u32, cash: Cents, mils: Mils) -> Trade
    requires facts { FactsFit facts.now }
    requires listed { IsListed facts.now class }
    ensures { result ≡ record (plain_trade (sheet_at_hand facts.now) account class DividendShares)
        { price = nav_of (sheet_at_hand facts.now) class; mils = mils; cash = cash } }
{
    let mut trade = plain_trade(facts, account, class, TradeKind::DividendShares);
    trade.price = Cents(facts.nav(class).cents());
    trade.mils = mils;
    trade.cash = cash;
    trade
}

/// Reinvested cents join the free lot of the position of an account and class.
fn reinvest(
    alloc: Global,
    facts: &Facts,
    day: &mut HouseholdDay,
    account: u32,
    class: u32,
    cash: Cents,
    mils: Mils,
) -> Result<(), NoMemory>
    requires facts { FactsFit facts.now }
    requires listed { IsListed facts.now class }
    requires least { 1 ≤ mils }
    requires few_mils { mils_of (position_of day.old.register account class).holding + mils
        ≤ most_mils }
    requires low_cost { cost_total (position_of day.old.register account class).holding + cash
        ≤ most_cost }
    requires lots { AreNumbersWithin
        (payment_known facts.now day.old account class (pays.Shares cash mils)).register }
    ensures { OnOk result (day.new
        ≡ payment_known facts.now day.old account class (pays.Shares cash mils)) }
{
    let trade = dividend_trade(facts, account, class, cash, mils);
    let mut position = day.take_out(alloc, account, class)?;
    position.holding.add(facts.day(), mils, cash, true)?;
    day.close_trade(position, &trade)?;
    Ok(())
}

/// The dividend on the position of an account and class, as it stands when its turn comes.
fn day_after_dividend(
    alloc: Global,
    facts: &Facts,
    day: &mut HouseholdDay,
    account: u32,
    class: u32,
    rate: u64,
    nav: Nav,
) -> Result<(), NoMemory>
    requires facts { FactsFit facts.now }
    requires listed { IsListed facts.now class }
    requires rate { rate ≤ 1000000000 }
    requires lots { AreNumbersWithin
        (dividend_known facts.now rate nav day.old
        (record { account = account; class = class })).register }
    ensures { OnOk result (day.new
        ≡ dividend_known facts.now rate nav day.old (record { account = account; class = class })) }
{
    match payment_at(day.register(), account, class, rate, nav) {
        Payment::Nothing => Ok(()),
        Payment::Cash(cash) => {
            day.add_trade(&cash_dividend_trade(facts, account, class, cash))?;
            Ok(())
        }
        Payment::Shares { cash, mils } => {
            reinvest(alloc, facts, day, account, class, cash, mils)?;
            Ok(())
        }
    }
}

/// The account of a key.
fn account_of(key: &PositionKey) -> u32
    ensures { result ≡ key.now.account }
{
    key.account
}

/// A class pays this rate on all positions in it, by account.
fn day_after_rate(
    alloc: Global,
    facts: &Facts,
    day: &mut HouseholdDay,
    class: u32,
    nav: Nav,
    rate: u64,
) -> Result<(), NoMemory>
    requires facts { FactsFit facts.now }
    requires listed { IsListed facts.now class }
    requires rate { rate ≤ 1000000000 }
    requires lots { AreNumbersWithin
        (class_known_at_rate facts.now rate (class, nav) day.old).register }
    ensures { OnOk result (day.new ≡ class_known_at_rate facts.now rate (class, nav) day.old) }
{
    let keys = day.register().keys_of_class(alloc, class)?;
    for key in keys.as_slice() {
        day_after_dividend(alloc, facts, day, account_of(key), class, rate, nav)?;
    }
    Ok(())
}

/// The dividends of a class by its net asset value, where it has a rate on this sheet.
fn day_after_class(
    alloc: Global,
    facts: &Facts,
    day: &mut HouseholdDay,
    class: u32,
    nav: Nav,
) -> Result<(), NoMemory>
    requires facts { FactsFit facts.now }
    requires listed { IsListed facts.now class }
    requires lots { AreNumbersWithin (class_known facts.now day.old (class, nav)).register }
    ensures { OnOk result (day.new ≡ class_known facts.now day.old (class, nav)) }
{
    let rate = facts.rate(class);
    if rate != 0 {
        day_after_rate(alloc, facts, day, class, nav, rate)?;
    }
    Ok(())
}

/// The dividends of the sheet at hand, by class and then account.
pub(crate) fn day_after_dividends(
    alloc: Global,
    facts: &Facts,
    day: &mut HouseholdDay,
) -> Result<(), NoMemory>
    requires facts { FactsFit facts.now }
    requires lots { AreNumbersWithin (dividends_known facts.now day.old).register }
    ensures { OnOk result (day.new ≡ dividends_known facts.now day.old) }
{
    for (class, nav) in published_prices(facts) {
        day_after_class(alloc, facts, day, *class, nav_on_trial(facts, *class, *nav))?;
    }
    Ok(())
}
