//! What trades bring to a tally, and what it takes back of them.
ghost use Rattle.std.specs.Prelude.{◌≡◌, ℕ, ◌+◌, ◌*◌, ◌≤◌, ◌^◌, ◌==◌, ◌&&◌, length, OnOk};
ghost use Rattle.agent_events.specs.declared.order.Party.{Party as AnyParty};
ghost use Rattle.register_machine.specs.corrections.Cash.{movements_in, movements_of};
ghost use Rattle.gain_loss_book.specs.Flows.{reverse_flow, with_flow};
ghost use Rattle.gain_loss_book.specs.Movements.{mils_flow_of, trades_mils};
ghost use Rattle.gain_loss_book.specs.Posted.{movements_flow};
ghost use Rattle.gain_loss_book.specs.Tallies.{IsWithin, cash_tallied, mils_tallied};
ghost use Rattle.gain_loss_book.specs.TradeFlows.{AreSmall, IsSmall, cash_of_flows, flow_of_class, flow_of_party, mils_of_flows};

use crate::class_flows::ClassFlows;
use crate::flows::Flow;
use crate::tally::Tally;
use crate::trade_flows::TradeFlows;
use agent_events::{Party, Trade};
use money_units::NoMemory;

impl Tally {
    /// Adds what trades bring, of cash and of shares.
    pub fn bring(&mut self, trades: &[Trade]) -> Result<(), NoMemory>
        requires within { IsWithin self.old (2 ^ 126) }
        requires few { length trades.now ≤ 2 ^ 60 }
        ensures cash { OnOk result ((q : AnyParty) → cash_tallied self.new q
            ≡ with_flow (cash_tallied self.old q) (movements_flow (movements_of trades.now) q)) }
        ensures mils { OnOk result ((q : ℕ) → mils_tallied self.new q
            ≡ with_flow (mils_tallied self.old q) (trades_mils trades.now q)) }
        ensures within { OnOk result ((most : ℕ) → IsWithin self.old most
            → IsWithin self.new (most + length trades.now * 2 ^ 65)) }
    {
        for trade in trades {
            bring_trade(self, trade)?;
        }
        Ok(())
    }

    /// Takes back what trades brought, of cash and of shares.
    pub fn take_back(&mut self, trades: &[Trade]) -> Result<(), NoMemory>
        requires within { IsWithin self.old (2 ^ 126) }
        requires few { length trades.now ≤ 2 ^ 60 }
        ensures cash { OnOk result ((q : AnyParty) → cash_tallied self.new q
            ≡ with_flow (cash_tallied self.old q)
            (reverse_flow (movements_flow (movements_of trades.now) q))) }
        ensures mils { OnOk result ((q : ℕ) → mils_tallied self.new q
            ≡ with_flow (mils_tallied self.old q) (reverse_flow (trades_mils trades.now q))) }
        ensures within { OnOk result ((most : ℕ) → IsWithin self.old most
            → IsWithin self.new (most + length trades.now * 2 ^ 65)) }
    {
        for trade in trades {
            take_trade_back(self, trade)?;
        }
        Ok(())
    }
}

// Adds what a trade brings.
fn bring_trade(tally: &mut Tally, trade: &Trade) -> Result<(), NoMemory>
    requires within { IsWithin tally.old (2 ^ 127) }
    ensures cash { OnOk result ((q : AnyParty) → cash_tallied tally.new q
        ≡ with_flow (cash_tallied tally.old q)
        (movements_flow (movements_in trade.now.outcome trade.now) q)) }
    ensures mils { OnOk result ((q : ℕ) → mils_tallied tally.new q
        ≡ with_flow (mils_tallied tally.old q) (mils_flow_of trade.now q)) }
    ensures within { OnOk result ((most : ℕ) → IsWithin tally.old most
        → IsWithin tally.new (most + 2 ^ 65)) }
{
    add_trade_flows(tally, &TradeFlows::of(trade))?;
    Ok(())
}

// Takes back what a trade brought.
fn take_trade_back(tally: &mut Tally, trade: &Trade) -> Result<(), NoMemory>
    requires within { IsWithin tally.old (2 ^ 127) }
    ensures cash { OnOk result ((q : AnyParty) → cash_tallied tally.new q
        ≡ with_flow (cash_tallied tally.old q)
        (reverse_flow (movements_flow (movements_in trade.now.outcome trade.now) q))) }
    ensures mils { OnOk result ((q : ℕ) → mils_tallied tally.new q
        ≡ with_flow (mils_tallied tally.old q) (reverse_flow (mils_flow_of trade.now q))) }
    ensures within { OnOk result ((most : ℕ) → IsWithin tally.old most
        → IsWithin tally.new (most + 2 ^ 65)) }
{
    add_trade_flows(tally, &TradeFlows::of(trade).reversed())?;
    Ok(())
}

// Adds flows to those of their parties and classes.
fn add_trade_flows(tally: &mut Tally, flows: &TradeFlows) -> Result<(), NoMemory>
    requires within { IsWithin tally.old (2 ^ 127) }
    requires small { AreSmall flows.now }
    ensures cash { OnOk result ((q : AnyParty) → cash_tallied tally.new q
        ≡ with_flow (cash_tallied tally.old q) (cash_of_flows flows.now q)) }
    ensures mils { OnOk result ((q : ℕ) → mils_tallied tally.new q
        ≡ with_flow (mils_tallied tally.old q) (mils_of_flows flows.now q)) }
{
    add_holder(tally, flows.account, flows.holder)?;
    add_class(tally, flows.class, flows.own)?;
    add_class(tally, flows.to_class, flows.other)?;
    add_underwriter(tally, flows.underwriter);
    Ok(())
}

// Adds a flow to that of a holder, where there is one.
fn add_holder(tally: &mut Tally, account: u32, flow: Flow) -> Result<(), NoMemory>
    requires within { IsWithin tally.old (2 ^ 127) }
    requires small { IsSmall flow }
    ensures cash { OnOk result ((q : AnyParty) → cash_tallied tally.new q
        ≡ with_flow (cash_tallied tally.old q) (flow_of_party (AnyParty.Holder account) flow q)) }
    ensures mils { OnOk result ((q : ℕ) → mils_tallied tally.new q ≡ mils_tallied tally.old q) }
    ensures within { OnOk result ((most : ℕ) → IsWithin tally.old most
        → IsWithin tally.new (most + 2 ^ 64)) }
{
    if is_nothing(flow) {
        return Ok(());
    }
    tally.add_cash(Party::Holder(account), flow)?;
    Ok(())
}

// Adds flows to those of a class, where there are any.
fn add_class(tally: &mut Tally, class: u32, flows: ClassFlows) -> Result<(), NoMemory>
    requires within { IsWithin tally.old (2 ^ 127 + 2 ^ 65) }
    requires small_cash { IsSmall flows.cash }
    requires small_mils { IsSmall flows.mils }
    ensures cash { OnOk result ((q : AnyParty) → cash_tallied tally.new q
        ≡ with_flow (cash_tallied tally.old q)
        (flow_of_party (AnyParty.Class class) flows.cash q)) }
    ensures mils { OnOk result ((q : ℕ) → mils_tallied tally.new q
        ≡ with_flow (mils_tallied tally.old q) (flow_of_class class flows.mils q)) }
    ensures within { OnOk result ((most : ℕ) → IsWithin tally.old most
        → IsWithin tally.new (most + 2 ^ 64)) }
{
    if is_nothing(flows.cash) && is_nothing(flows.mils) {
        return Ok(());
    }
    tally.add_class(class, flows)?;
    Ok(())
}

// Adds a flow to that of the underwriter.
fn add_underwriter(tally: &mut Tally, flow: Flow)
    requires within { IsWithin tally.old (2 ^ 127 + 2 ^ 66) }
    requires small { IsSmall flow }
    ensures cash { (q : AnyParty) → cash_tallied tally.new q
        ≡ with_flow (cash_tallied tally.old q) (flow_of_party AnyParty.Underwriter flow q) }
    ensures mils { (q : ℕ) → mils_tallied tally.new q ≡ mils_tallied tally.old q }
{
    tally.underwriter = tally.underwriter.and(flow);
}

// Nothing comes or goes.
fn is_nothing(flow: Flow) -> bool
    ensures { result ≡ (flow.inflow == 0 && flow.outflow == 0) }
{
    flow.inflow == 0 && flow.outflow == 0
}
