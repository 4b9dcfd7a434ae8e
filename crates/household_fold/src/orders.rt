//! The orders of a household on the sheet at hand, in turn.
ghost use Rattle.std.specs.Prelude.{◌≡◌, OnOk};
ghost use Rattle.register_machine.specs.pricing.OrderClasses.{class_of};
ghost use Rattle.household_fold.specs.Facts.{FactsFit, IsListed};
ghost use Rattle.household_fold.specs.Households.{AreOrdersOf, AreOwned, IsTargetListed, order_known, orders_known};
ghost use Rattle.household_fold.specs.Limits.{AreFew, AreLettersWithin, AreLotsWithin};
ghost use Rattle.household_fold.specs.Numbers.{AreNumbersWithin};

use crate::election::elect;
use crate::exchange::{exchange, exchange_all};
use crate::facts::Facts;
use crate::letters::day_after_letter;
use crate::purchase::day_after_purchase;
use crate::redemption::{redeem, redeem_all, redeem_for};
use agent_events::{Body, Order};
use household_positions::HouseholdDay;
use money_units::{Mils, NoMemory};
use std::alloc::Global;

/// What an order does to the day.
pub(crate) fn follow_order(
    alloc: Global,
    facts: &Facts,
    day: &mut HouseholdDay,
    order: &Order,
) -> Result<(), NoMemory>
    requires facts { FactsFit facts.now }
    requires listed { IsListed facts.now (class_of order.now.body) }
    requires target { IsTargetListed facts.now order.now.body }
    requires few { AreFew day.old.register }
    requires letters { AreLettersWithin day.old.register }
    requires lots { AreLotsWithin (order_known facts.now day.old order.now).register }
    ensures day { OnOk result (day.new ≡ order_known facts.now day.old order.now) }
    ensures letters { OnOk result (AreLettersWithin day.new.register) }
{
    match &order.body {
        Body::Buy { class: _, gross } => day_after_purchase(alloc, facts, day, order, gross)?,
        Body::Sell { class: _, mils } => redeem(alloc, facts, day, order, mils.mils())?,
        Body::SellCash { class: _, amount } => redeem_for(alloc, facts, day, order, amount)?,
        Body::SellAll { class: _ } => redeem_all(alloc, facts, day, order)?,
        Body::Exchange { class: _, to, mils } => {
            exchange(alloc, facts, day, order, to.number(), Mils(mils.mils()))?
        }
        Body::ExchangeAll { class: _, to } => {
            exchange_all(alloc, facts, day, order, to.number())?
        }
        Body::Letter { class: _, amount } => day_after_letter(alloc, facts, day, order, amount)?,
        Body::Elect { class: _, in_cash } => elect(alloc, facts, day, order, *in_cash)?,
    }
    Ok(())
}

/// What the orders do, one after another.
pub(crate) fn follow_orders(
    alloc: Global,
    facts: &Facts,
    day: &mut HouseholdDay,
    household: u32,
    orders: &[Order],
) -> Result<(), NoMemory>
    requires facts { FactsFit facts.now }
    requires orders { AreOrdersOf facts.now household orders.now }
    requires owned { AreOwned facts.now household day.old.register }
    requires letters { AreLettersWithin day.old.register }
    requires lots { AreNumbersWithin (orders_known facts.now orders.now day.old).register }
    ensures day { OnOk result (day.new ≡ orders_known facts.now orders.now day.old) }
    ensures letters { OnOk result (AreLettersWithin day.new.register) }
{
    let _positions = day.register().positions();
    for order in orders {
        follow_order(alloc, facts, day, order)?;
    }
    Ok(())
}
