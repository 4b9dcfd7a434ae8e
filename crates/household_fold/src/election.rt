//! The election of how dividends are paid.
ghost use Rattle.std.specs.Prelude.{◌≡◌, OnOk, if◌then◌else◌};
ghost use Rattle.agent_events.specs.declared.trade.TradeKind.TheVariants.{ElectCash, ElectShares};
ghost use Rattle.register_machine.specs.replay.DayStep.{day_after_election};
ghost use Rattle.household_fold.specs.Facts.{FactsFit, sheet_at_hand};

use crate::facts::Facts;
use crate::made_trades::{class_number, order_trade};
use agent_events::{Order, TradeKind};
use household_positions::HouseholdDay;
use money_units::NoMemory;
use std::alloc::Global;

/// An account elects its dividends of a class in cash, or else in shares.
pub(crate) fn elect(
    alloc: Global,
    facts: &Facts,
    day: &mut HouseholdDay,
    order: &Order,
    in_cash: bool,
) -> Result<(), NoMemory>
    requires { FactsFit facts.now }
    ensures { OnOk result (day.new
        ≡ day_after_election (sheet_at_hand facts.now) day.old order.now in_cash) }
{
    let mut position = day.take_out(alloc, order.account.number(), class_number(&order.body))?;
    position.in_cash = in_cash;
    let trade = order_trade(facts, order, kind_of(in_cash));
    day.close_trade(position, &trade)?;
    Ok(())
}

fn kind_of(in_cash: bool) -> TradeKind
    ensures { result ≡ (if in_cash then ElectCash else ElectShares) }
{
    if in_cash {
        TradeKind::ElectCash
    } else {
        TradeKind::ElectShares
    }
}
