//! A redemption on the sheet at hand: of so many mils, for an amount, or of all loose shares.
ghost use Rattle.std.specs.Prelude.{◌≡◌, ◌*◌, ◌≤◌, IfOk, OnOk, sum_by};
ghost use Rattle.money_units.specs.Rounding.{half};
ghost use Rattle.share_lots.specs.Lots.{loose_total, most_cost, most_mils};
ghost use Rattle.share_lots.specs.Taking.{after_taking, pieces};
ghost use Rattle.register_machine.specs.pricing.OrderClasses.{class_of};
ghost use Rattle.register_machine.specs.replay.Positions.{position_of};
ghost use Rattle.register_machine.specs.replay.Redemption as spec;
ghost use Rattle.register_machine.specs.replay.Trades.{nav_of};
ghost use Rattle.household_fold.specs.Facts.{FactsFit, IsListed, sheet_at_hand};
ghost use Rattle.household_fold.specs.Redemptions.{charged_known, charged_of, position_of_trade, redeemed_all_known, redeemed_for_known, redeemed_known, sale_known, trade_of_sale};

use crate::facts::Facts;
use crate::made_trades::{class_number, order_trade};
use agent_events::{Amount, Order, Trade, TradeKind, Why};
use contingent_charge::{Charged, charge};
use household_positions::{HeldPosition, HouseholdDay};
use money_units::{Cents, Mils, NoMemory, half};
use share_lots::{Pieces, Position, TakeFault};
use std::alloc::Global;

/// A redemption of so many mils.
pub(crate) fn redeem(
    alloc: Global,
    facts: &Facts,
    day: &mut HouseholdDay,
    order: &Order,
    asked: u64,
) -> Result<(), NoMemory>
    requires facts { FactsFit facts.now }
    requires listed { IsListed facts.now (class_of order.now.body) }
    ensures { OnOk result (day.new ≡ redeemed_known facts.now day.old order.now asked) }
{
    let trade = order_trade(facts, order, TradeKind::Sell);
    match short_of(
        day,
        order.account.number(),
        class_number(&order.body),
        asked,
    ) {
        Some(why) => day.add_unfilled(&trade, why)?,
        None => sell(alloc, facts, day, &trade, asked)?,
    }
    Ok(())
}

/// A redemption for an amount: of the mils that it asks for, by the net asset value.
pub(crate) fn redeem_for(
    alloc: Global,
    facts: &Facts,
    day: &mut HouseholdDay,
    order: &Order,
    amount: &Amount,
) -> Result<(), NoMemory>
    requires facts { FactsFit facts.now }
    requires listed { IsListed facts.now (class_of order.now.body) }
    ensures { OnOk result (day.new ≡ redeemed_for_known facts.now day.old order.now amount.now) }
{
    let asked = mils_for(facts, class_number(&order.body), amount);
    if asked == 0 {
        day.add_unfilled(&order_trade(facts, order, TradeKind::Sell), Why::TooSmall)?;
    } else {
        redeem(alloc, facts, day, order, asked)?;
    }
    Ok(())
}

/// A redemption of all loose shares.
pub(crate) fn redeem_all(
    alloc: Global,
    facts: &Facts,
    day: &mut HouseholdDay,
    order: &Order,
) -> Result<(), NoMemory>
    requires facts { FactsFit facts.now }
    requires listed { IsListed facts.now (class_of order.now.body) }
    ensures { OnOk result (day.new ≡ redeemed_all_known facts.now day.old order.now) }
{
    let loose = day
        .register()
        .loose(order.account.number(), class_number(&order.body));
    redeem(alloc, facts, day, order, loose.0)?;
    Ok(())
}

/// Why so many mils of an account in a class can't be had: more than the loose ones are asked for, or all of none.
pub(crate) fn short_of(day: &HouseholdDay, account: u32, class: u32, asked: u64) -> Option<Why>
    ensures { result ≡ spec.short_of (position_of day.now.register account class).holding asked }
{
    let loose = day.register().loose(account, class);
    if asked == 0 || loose.0 < asked {
        Some(Why::Short(loose))
    } else {
        None
    }
}

/// The mils that an amount asks for, to the nearest.
fn mils_for(facts: &Facts, class: u32, amount: &Amount) -> u64
    requires facts { FactsFit facts.now }
    requires listed { IsListed facts.now class }
    ensures { result ≡ half (1000 * amount.now) (nav_of (sheet_at_hand facts.now) class) }
{
    let nav = facts.nav(class);
    half(1000 * u128::from(amount.cents()), u128::from(nav.cents())) as u64
}

/// Sells loose mils of the position of a trade.
fn sell(
    alloc: Global,
    facts: &Facts,
    day: &mut HouseholdDay,
    trade: &Trade,
    asked: u64,
) -> Result<(), NoMemory>
    requires facts { FactsFit facts.now }
    requires listed { IsListed facts.now trade.now.class }
    requires loose { asked ≤ loose_total (position_of_trade day.old trade.now).holding }
    ensures { OnOk result (day.new ≡ sale_known facts.now day.old trade.now asked) }
{
    let mut position = day.take_out(alloc, trade.account, trade.class)?;
    let sold = take_charged(alloc, facts, &mut position, asked)?;
    let filled = sale_trade(facts, trade, asked, &sold);
    day.close_trade(position, &filled)?;
    Ok(())
}

/// Takes loose mils out of a position, and answers what they bring and what is charged.
fn take_charged(
    alloc: Global,
    facts: &Facts,
    position: &mut HeldPosition,
    asked: u64,
) -> Result<Charged, NoMemory>
    requires facts { FactsFit facts.now }
    requires listed { IsListed facts.now position.old.class }
    requires loose { asked ≤ loose_total position.old.holding }
    ensures left { OnOk result (position.new ≡ spec.position_less position.old asked) }
    ensures charged { IfOk result (λ sold. sold ≡ charged_of facts.now position.old asked) }
{
    let taken = take_loose(alloc, &mut position.holding, asked)?;
    Ok(charge_on(facts, position.class, &taken))
}

/// Takes loose mils out of the lots of a position.
fn take_loose(alloc: Global, holding: &mut Position, asked: u64) -> Result<Pieces, NoMemory>
    requires { asked ≤ loose_total holding.old }
    ensures pieces { IfOk result (λ taken. taken ≡ pieces asked holding.old.lots) }
    ensures left { OnOk result (holding.new ≡ after_taking holding.old asked) }
    ensures few_mils { IfOk result (λ taken. sum_by (λ piece. piece.mils) taken ≤ most_mils) }
    ensures low_cost { IfOk result (λ taken. sum_by (λ piece. piece.cost) taken ≤ most_cost) }
{
    let _mils = holding.mils();
    let _cost = holding.cost();
    match holding.take(alloc, Mils(asked)) {
        Ok(taken) => Ok(taken),
        Err(TakeFault::NoMemory) => Err(NoMemory),
        Err(TakeFault::Short(_)) => unreachable!(),
    }
}

/// What pieces of a class bring on the sheet at hand, and what is charged.
fn charge_on(facts: &Facts, class: u32, taken: &Pieces) -> Charged
    requires facts { FactsFit facts.now }
    requires listed { IsListed facts.now class }
    requires few_mils { sum_by (λ piece. piece.mils) taken.now ≤ most_mils }
    requires low_cost { sum_by (λ piece. piece.cost) taken.now ≤ most_cost }
    ensures { result ≡ charged_known facts.now class taken.now }
{
    let schedule = facts.terms_of(class).deferred();
    charge(
        taken.as_slice(),
        facts.nav(class),
        facts.day(),
        schedule.as_slice(),
    )
}

/// The trade of a redemption that is filled.
fn sale_trade(facts: &Facts, trade: &Trade, asked: u64, sold: &Charged) -> Trade
    requires facts { FactsFit facts.now }
    requires listed { IsListed facts.now trade.now.class }
    ensures { result ≡ trade_of_sale facts.now trade.now asked sold.now }
{
    let mut filled = *trade;
    filled.price = Cents(facts.nav(trade.class).cents());
    filled.mils = Mils(asked);
    filled.cash = sold.value;
    filled.charge = sold.charge;
    filled
}
