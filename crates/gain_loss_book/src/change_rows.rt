//! The rows of a tally: each party and each class that changes, once, in their order.
ghost use Rattle.std.specs.Prelude.{◌≡◌, ℕ, ◌++◌, ◌<◌, ◌^◌, OnOk, IfOk, nat_eq};
ghost use Rattle.std.specs.BTreeMap.{keys};
ghost use Rattle.std.specs.List.{IsDistinct};
ghost use Rattle.std.specs.List.Sorted.{IsStrictlySortedBy};
ghost use Rattle.std.specs.Map.{keys_of};
ghost use Rattle.std.specs.Ordering.{nat_cmp};
ghost use Rattle.agent_events.specs.declared.order.Party.{Party as AnyParty};
ghost use Rattle.gain_loss_book.specs.ClassFlows.{flows_of};
ghost use Rattle.gain_loss_book.specs.ClassGains.{mils_change};
ghost use Rattle.gain_loss_book.specs.Flows.{flow_at, net};
ghost use Rattle.gain_loss_book.specs.Posted.{cash_change};
ghost use Rattle.gain_loss_book.specs.ChangeRows.{cash_row, cash_rows, class_rows, dealer_rows, holder_rows, mils_row, mils_rows, share_rows};
ghost use Rattle.gain_loss_book.specs.Tallies.{IsWithin, cash_tallied, mils_tallied, sorted_flow};

use crate::class_flows::{self, ClassFlows};
use crate::flows::Flow;
use crate::tally::{self, Tally};
use agent_events::{CashChange, Changes, MilsChange, Party};
use money_units::{List, NoMemory};
use number_hashing::NumberMap;
use std::alloc::Global;
use std::collections::BTreeMap;

impl Tally {
    /// What changes by all that the tally took in: the classes whose shares change, by number, and the parties whose cash
    /// changes: each holder, classes and dealers by number, the underwriter and the agent. None that stays the same has a
    /// row.
    pub fn changes(&self, alloc: Global) -> Result<Changes, NoMemory>
        requires { IsWithin self.now (2 ^ 126) }
        ensures cash { IfOk result (λ changes. (party : AnyParty)
            → cash_change changes.cash party ≡ net (cash_tallied self.now party)) }
        ensures mils { IfOk result (λ changes. (class : ℕ)
            → mils_change changes.outstanding class ≡ net (mils_tallied self.now class)) }
        ensures cash_rows { IfOk result (λ changes. changes.cash ≡ cash_rows self.now) }
        ensures mils_rows { IfOk result (λ changes. changes.outstanding ≡ mils_rows self.now) }
    {
        let mut cash = List::new(alloc);
        push_holders(&mut cash, &self.holders)?;
        push_classes(&mut cash, &self.classes)?;
        push_dealers(&mut cash, &self.dealers)?;
        push_cash(&mut cash, Party::Underwriter, self.underwriter)?;
        push_cash(&mut cash, Party::Agent, self.agent)?;
        let mut outstanding = List::new(alloc);
        push_shares(&mut outstanding, &self.classes)?;
        Ok(Changes { outstanding, cash })
    }
}

// Appends the change of a party's cash, where there is one.
fn push_cash(rows: &mut List<CashChange>, party: Party, flow: Flow) -> Result<(), NoMemory>
    requires inflow { flow.inflow < 2 ^ 127 }
    requires outflow { flow.outflow < 2 ^ 127 }
    ensures { OnOk result (rows.new ≡ rows.old ++ cash_row party flow) }
{
    let cents = flow.net();
    if cents == 0 {
        return Ok(());
    }
    rows.push(CashChange { party, cents })?;
    Ok(())
}

fn push_holders(rows: &mut List<CashChange>, holders: &NumberMap<u32, Flow>) -> Result<(), NoMemory>
    requires inflow { (q : ℕ) → (flow_at holders.now.entries q).inflow < 2 ^ 127 }
    requires outflow { (q : ℕ) → (flow_at holders.now.entries q).outflow < 2 ^ 127 }
    ensures rows { OnOk result (rows.new ≡ rows.old ++ holder_rows holders.now.entries) }
    ensures once { OnOk result (IsDistinct nat_eq (keys_of holders.now.entries)) }
{
    for (account, flow) in holders {
        push_cash(rows, Party::Holder(*account), *flow)?;
    }
    Ok(())
}

fn push_classes(
    rows: &mut List<CashChange>,
    classes: &BTreeMap<u32, ClassFlows>,
) -> Result<(), NoMemory>
    requires inflow { (q : ℕ) → (flows_of classes.now q).cash.inflow < 2 ^ 127 }
    requires outflow { (q : ℕ) → (flows_of classes.now q).cash.outflow < 2 ^ 127 }
    ensures rows { OnOk result (rows.new ≡ rows.old ++ class_rows classes.now) }
    ensures rising { OnOk result (IsStrictlySortedBy nat_cmp (keys classes.now)) }
{
    for class in classes.keys() {
        let flows = class_flows::flows_in(classes, *class);
        push_cash(rows, Party::Class(*class), flows.cash)?;
    }
    Ok(())
}

fn push_dealers(rows: &mut List<CashChange>, dealers: &BTreeMap<u32, Flow>) -> Result<(), NoMemory>
    requires inflow { (q : ℕ) → (sorted_flow dealers.now q).inflow < 2 ^ 127 }
    requires outflow { (q : ℕ) → (sorted_flow dealers.now q).outflow < 2 ^ 127 }
    ensures rows { OnOk result (rows.new ≡ rows.old ++ dealer_rows dealers.now) }
    ensures rising { OnOk result (IsStrictlySortedBy nat_cmp (keys dealers.now)) }
{
    for dealer in dealers.keys() {
        push_cash(
            rows,
            Party::Dealer(*dealer),
            tally::flow_in(dealers, *dealer),
        )?;
    }
    Ok(())
}

// Appends the change of a class's shares, where there is one.
fn push_mils(rows: &mut List<MilsChange>, class: u32, flow: Flow) -> Result<(), NoMemory>
    requires inflow { flow.inflow < 2 ^ 127 }
    requires outflow { flow.outflow < 2 ^ 127 }
    ensures { OnOk result (rows.new ≡ rows.old ++ mils_row class flow) }
{
    let mils = flow.net();
    if mils == 0 {
        return Ok(());
    }
    rows.push(MilsChange { class, mils })?;
    Ok(())
}

fn push_shares(
    rows: &mut List<MilsChange>,
    classes: &BTreeMap<u32, ClassFlows>,
) -> Result<(), NoMemory>
    requires inflow { (q : ℕ) → (flows_of classes.now q).mils.inflow < 2 ^ 127 }
    requires outflow { (q : ℕ) → (flows_of classes.now q).mils.outflow < 2 ^ 127 }
    ensures rows { OnOk result (rows.new ≡ rows.old ++ share_rows classes.now) }
    ensures rising { OnOk result (IsStrictlySortedBy nat_cmp (keys classes.now)) }
{
    for class in classes.keys() {
        let flows = class_flows::flows_in(classes, *class);
        push_mils(rows, *class, flows.mils)?;
    }
    Ok(())
}
