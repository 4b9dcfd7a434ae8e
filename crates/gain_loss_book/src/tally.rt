//! The cash of parties and the shares of classes as trades bring them, gathered by party and class.
ghost use Rattle.std.specs.Prelude.{◌≡◌, ℕ, ◌+◌, ◌<◌, ◌≤◌, ◌^◌, ◌==◌, if◌then◌else◌, IfOk, OnOk};
ghost use Rattle.std.specs.HashMap.{spare};
ghost use Rattle.agent_events.specs.declared.order.Party.{Party as AnyParty};
ghost use Rattle.register_machine.specs.corrections.Cash.{same_party};
ghost use Rattle.gain_loss_book.specs.Flows.{flow_at, no_flow, with_flow};
ghost use Rattle.gain_loss_book.specs.Tallies.{IsWithin, cash_tallied, mils_tallied, sorted_flow};

use crate::class_flows::{self, ClassFlows};
use crate::flows::Flow;
use agent_events::Party;
use money_units::NoMemory;
use number_hashing::{NumberMap, number_map};
use std::alloc::Global;
use std::collections::BTreeMap;

/// The cash of each party and the shares of each class, by number.
#[derive(Drop)]
pub struct Tally {
    pub holders: NumberMap<u32, Flow>,
    pub classes: BTreeMap<u32, ClassFlows>,
    pub dealers: BTreeMap<u32, Flow>,
    pub underwriter: Flow,
    pub agent: Flow,
}

impl Tally {
    /// Nothing came or went.
    pub fn new(alloc: Global) -> Tally
        ensures cash { (party : AnyParty) → cash_tallied result party ≡ no_flow }
        ensures mils { (class : ℕ) → mils_tallied result class ≡ no_flow }
        ensures within { IsWithin result 0 }
    {
        Tally {
            holders: number_map(alloc),
            classes: BTreeMap::new(alloc),
            dealers: BTreeMap::new(alloc),
            underwriter: Flow::none(),
            agent: Flow::none(),
        }
    }

    /// Nothing came or went, with room for so many holders.
    pub fn with_room(alloc: Global, holders: usize) -> Result<Tally, NoMemory>
        ensures cash { IfOk result
            (λ tally. (party : AnyParty) → cash_tallied tally party ≡ no_flow) }
        ensures mils { IfOk result (λ tally. (class : ℕ) → mils_tallied tally class ≡ no_flow) }
        ensures within { IfOk result (λ tally. IsWithin tally 0) }
        ensures room { IfOk result (λ tally. holders ≤ spare tally.holders) }
    {
        let mut tally = Tally::new(alloc);
        tally.holders.reserve(holders)?;
        Ok(tally)
    }

    /// Adds a flow of cash to that of a party.
    pub fn add_cash(&mut self, party: Party, flow: Flow) -> Result<(), NoMemory>
        requires inflow { (cash_tallied self.old party).inflow + flow.inflow < 2 ^ 128 }
        requires outflow { (cash_tallied self.old party).outflow + flow.outflow < 2 ^ 128 }
        ensures cash { OnOk result ((q : AnyParty) → cash_tallied self.new q
            ≡ (if same_party party q then with_flow (cash_tallied self.old q) flow
            else cash_tallied self.old q)) }
        ensures mils { OnOk result ((class : ℕ)
            → mils_tallied self.new class ≡ mils_tallied self.old class) }
    {
        match party {
            Party::Holder(account) => {
                add_to_holder(&mut self.holders, account, flow)?;
                Ok(())
            }
            Party::Class(class) => {
                class_flows::add_cash(&mut self.classes, class, flow)?;
                Ok(())
            }
            Party::Dealer(dealer) => {
                add(&mut self.dealers, dealer, flow)?;
                Ok(())
            }
            Party::Underwriter => {
                self.underwriter = self.underwriter.and(flow);
                Ok(())
            }
            Party::Agent => {
                self.agent = self.agent.and(flow);
                Ok(())
            }
        }
    }

    /// Adds flows of cash and of shares to those of a class.
    pub fn add_class(&mut self, class: u32, flows: ClassFlows) -> Result<(), NoMemory>
        requires cash_in { (cash_tallied self.old (AnyParty.Class class)).inflow
            + flows.cash.inflow < 2 ^ 128 }
        requires cash_out { (cash_tallied self.old (AnyParty.Class class)).outflow
            + flows.cash.outflow < 2 ^ 128 }
        requires mils_in { (mils_tallied self.old class).inflow + flows.mils.inflow < 2 ^ 128 }
        requires mils_out { (mils_tallied self.old class).outflow + flows.mils.outflow < 2 ^ 128 }
        ensures cash { OnOk result ((q : AnyParty) → cash_tallied self.new q
            ≡ (if same_party (AnyParty.Class class) q
            then with_flow (cash_tallied self.old q) flows.cash
            else cash_tallied self.old q)) }
        ensures mils { OnOk result ((q : ℕ) → mils_tallied self.new q
            ≡ (if class == q then with_flow (mils_tallied self.old q) flows.mils
            else mils_tallied self.old q)) }
    {
        class_flows::add(&mut self.classes, class, flows)?;
        Ok(())
    }
}

// Adds a flow to that of a holder.
fn add_to_holder(
    holders: &mut NumberMap<u32, Flow>,
    account: u32,
    flow: Flow,
) -> Result<(), NoMemory>
    requires inflow { (flow_at holders.old.entries account).inflow + flow.inflow < 2 ^ 128 }
    requires outflow { (flow_at holders.old.entries account).outflow + flow.outflow < 2 ^ 128 }
    ensures { OnOk result ((q : ℕ) → flow_at holders.new.entries q
        ≡ (if account == q then with_flow (flow_at holders.old.entries q) flow
        else flow_at holders.old.entries q)) }
{
    let own = holders.entry(account)?.or_insert(Flow::none());
    *own = own.and(flow);
    Ok(())
}

// Adds a flow to that of a number.
fn add(rows: &mut BTreeMap<u32, Flow>, number: u32, flow: Flow) -> Result<(), NoMemory>
    requires inflow { (sorted_flow rows.old number).inflow + flow.inflow < 2 ^ 128 }
    requires outflow { (sorted_flow rows.old number).outflow + flow.outflow < 2 ^ 128 }
    ensures { OnOk result ((q : ℕ) → sorted_flow rows.new q
        ≡ (if number == q then with_flow (sorted_flow rows.old q) flow
        else sorted_flow rows.old q)) }
{
    let own = rows.entry(number)?.or_insert(Flow::none());
    *own = own.and(flow);
    Ok(())
}

/// The flow of a number.
pub fn flow_in(rows: &BTreeMap<u32, Flow>, number: u32) -> Flow
    ensures { result ≡ sorted_flow rows.now number }
{
    rows.get(&number).copied().unwrap_or(Flow::none())
}
