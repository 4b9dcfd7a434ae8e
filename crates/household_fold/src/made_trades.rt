//! Trades on the sheet at hand, before what a step says of them.
ghost use Rattle.std.specs.Prelude.{◌≡◌, unwrap_or};
ghost use Rattle.register_machine.specs.pricing.OrderClasses.{class_of, target_of};
ghost use Rattle.register_machine.specs.replay.Trades.{order_trade, plain_trade};
ghost use Rattle.household_fold.specs.Facts.{FactsFit, sheet_at_hand};

use crate::facts::Facts;
use agent_events::{Body, Order, Outcome, Trade, TradeKind};
use money_units::{Cents, Mils};
use register_machine::{class_of, target_of};

/// A trade of an account and class without an order.
pub(crate) fn plain_trade(facts: &Facts, account: u32, class: u32, kind: TradeKind) -> Trade
    requires { FactsFit facts.now }
    ensures { result ≡ plain_trade (sheet_at_hand facts.now) account class kind }
{
    Trade {
        sheet: facts.number(),
        moment: facts.moment(),
        day: facts.day(),
        account,
        ref_no: 0,
        kind,
        outcome: Outcome::Filled,
        class,
        to_class: 0,
        price: Cents(0),
        mils: Mils(0),
        to_mils: Mils(0),
        cash: Cents(0),
        charge: Cents(0),
    }
}

/// A trade of an order.
pub(crate) fn order_trade(facts: &Facts, order: &Order, kind: TradeKind) -> Trade
    requires { FactsFit facts.now }
    ensures { result ≡ order_trade (sheet_at_hand facts.now) order.now kind }
{
    let mut trade = plain_trade(
        facts,
        order.account.number(),
        class_number(&order.body),
        kind,
    );
    trade.ref_no = order.ref_no.number();
    trade.to_class = target_number(&order.body);
    trade
}

/// The number of an order's class.
pub(crate) fn class_number(body: &Body) -> u32
    ensures { result ≡ class_of body.now }
{
    class_of(body).number()
}

// The number of the class that an exchange goes to, 0 for other orders.
fn target_number(body: &Body) -> u32
    ensures { result ≡ unwrap_or (target_of body.now) 0 }
{
    match target_of(body) {
        Some(to) => to.number(),
        None => 0,
    }
}
