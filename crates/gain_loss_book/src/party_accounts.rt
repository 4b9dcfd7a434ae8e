//! The cash of the parties: what each received and paid.
ghost use Rattle.std.specs.Prelude.{◌≡◌, ◌+◌, ◌<◌, ◌≤◌, ◌^◌, if◌then◌else◌, OnOk};
ghost use Rattle.agent_events.specs.declared.order.Party.{Party as AnyParty};
ghost use Rattle.register_machine.specs.corrections.Cash.{same_party};
ghost use Rattle.gain_loss_book.specs.Flows.{no_flow, whole_flow, with_flow};
ghost use Rattle.gain_loss_book.specs.PartyAccounts.{all_flows, flow_in, room_in};

use crate::flows::{Flow, FlowRows};
use agent_events::Party;
use money_units::NoMemory;
use std::alloc::Global;

/// What each party received and paid, in cents, and what all holders did together.
#[derive(Drop)]
pub struct Accounts {
    pub holders: FlowRows,
    pub classes: FlowRows,
    pub dealers: FlowRows,
    pub underwriter: Flow,
    pub agent: Flow,
}

impl Accounts {
    /// No party received or paid anything.
    pub fn new(alloc: Global) -> Accounts
        ensures flows { (party : AnyParty) → flow_in result party ≡ no_flow }
        ensures all { all_flows result ≡ no_flow }
    {
        Accounts {
            holders: FlowRows::new(alloc),
            classes: FlowRows::new(alloc),
            dealers: FlowRows::new(alloc),
            underwriter: Flow::none(),
            agent: Flow::none(),
        }
    }

    /// Makes room for so many rows more of any party. After `NoMemory` no flow is changed.
    pub fn reserve(&mut self, count: usize) -> Result<(), NoMemory>
        ensures ok { OnOk result (count ≤ room_in self.new) }
        ensures room { room_in self.old ≤ room_in self.new }
        ensures flows { (party : AnyParty) → flow_in self.new party ≡ flow_in self.old party }
        ensures holders { whole_flow self.new.holders.rows ≡ whole_flow self.old.holders.rows }
        ensures all { all_flows self.new ≡ all_flows self.old }
    {
        self.holders.reserve(count)?;
        self.classes.reserve(count)?;
        self.dealers.reserve(count)?;
        Ok(())
    }

    /// Adds a flow to that of a party. It takes no memory.
    pub fn add(&mut self, party: Party, flow: Flow)
        requires room { 1 ≤ room_in self.old }
        requires inflow { (all_flows self.old).inflow + flow.inflow < 2 ^ 128 }
        requires outflow { (all_flows self.old).outflow + flow.outflow < 2 ^ 128 }
        ensures flows { (q : AnyParty) → flow_in self.new q
            ≡ (if same_party party q then with_flow (flow_in self.old q) flow
            else flow_in self.old q) }
        ensures all { all_flows self.new ≡ with_flow (all_flows self.old) flow }
        ensures room { room_in self.old ≤ room_in self.new + 1 }
    {
        match party {
            Party::Holder(account) => self.holders.add(account, flow),
            Party::Class(class) => self.classes.add(class, flow),
            Party::Dealer(dealer) => self.dealers.add(dealer, flow),
            Party::Underwriter => self.underwriter = self.underwriter.and(flow),
            Party::Agent => self.agent = self.agent.and(flow),
        }
    }

    /// What a party received and paid.
    pub fn flow(&self, party: Party) -> Flow
        ensures flow { result ≡ flow_in self.now party }
        ensures inflow { result.inflow ≤ (all_flows self.now).inflow }
        ensures outflow { result.outflow ≤ (all_flows self.now).outflow }
    {
        match party {
            Party::Holder(account) => self.holders.flow(account),
            Party::Class(class) => self.classes.flow(class),
            Party::Dealer(dealer) => self.dealers.flow(dealer),
            Party::Underwriter => self.underwriter,
            Party::Agent => self.agent,
        }
    }
}
