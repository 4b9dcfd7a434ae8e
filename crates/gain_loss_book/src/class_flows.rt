//! The cash and the shares of classes, by number, as changes or trades bring them.
ghost use Rattle.std.specs.Prelude.{◌≡◌, ℕ, ◌+◌, ◌<◌, ◌≤◌, ◌^◌, ◌==◌, if◌then◌else◌, OnOk};
ghost use Rattle.gain_loss_book.specs.Flows.{no_flow};
ghost use Rattle.gain_loss_book.specs.ClassFlows.{flows_of, no_flows, with_cash, with_mils};
ghost use Rattle.gain_loss_book.specs.TradeFlows.{with_flows};

use crate::flows::Flow;
use money_units::NoMemory;
use std::collections::BTreeMap;

/// The cash, in cents, and the shares, in mils, that came to a class and went from it.
#[derive(Clone, Copy, Debug, PartialEq, Eq)]
pub struct ClassFlows {
    pub cash: Flow,
    pub mils: Flow,
}

impl ClassFlows {
    /// Nothing came or went.
    pub fn none() -> ClassFlows
        ensures { result ≡ no_flows }
    {
        ClassFlows {
            cash: Flow::none(),
            mils: Flow::none(),
        }
    }

    /// The flows of a class together.
    pub fn and(self, other: ClassFlows) -> ClassFlows
        requires cash_in { self.cash.inflow + other.cash.inflow < 2 ^ 128 }
        requires cash_out { self.cash.outflow + other.cash.outflow < 2 ^ 128 }
        requires mils_in { self.mils.inflow + other.mils.inflow < 2 ^ 128 }
        requires mils_out { self.mils.outflow + other.mils.outflow < 2 ^ 128 }
        ensures { result ≡ with_flows self other }
    {
        ClassFlows {
            cash: self.cash.and(other.cash),
            mils: self.mils.and(other.mils),
        }
    }
}

/// Adds a flow of cash to that of a class.
pub fn add_cash(
    classes: &mut BTreeMap<u32, ClassFlows>,
    class: u32,
    flow: Flow,
) -> Result<(), NoMemory>
    requires inflow { (flows_of classes.old class).cash.inflow + flow.inflow < 2 ^ 128 }
    requires outflow { (flows_of classes.old class).cash.outflow + flow.outflow < 2 ^ 128 }
    ensures { OnOk result ((q : ℕ) → flows_of classes.new q
        ≡ (if class == q then with_cash (flows_of classes.old q) flow
        else flows_of classes.old q)) }
{
    if let Some(own) = classes.get_mut(&class) {
        own.cash = own.cash.and(flow);
        return Ok(());
    }
    let first = ClassFlows {
        cash: Flow::none().and(flow),
        mils: Flow::none(),
    };
    classes.insert(class, first)?;
    Ok(())
}

/// Adds a flow of shares to that of a class.
pub fn add_mils(
    classes: &mut BTreeMap<u32, ClassFlows>,
    class: u32,
    flow: Flow,
) -> Result<(), NoMemory>
    requires inflow { (flows_of classes.old class).mils.inflow + flow.inflow < 2 ^ 128 }
    requires outflow { (flows_of classes.old class).mils.outflow + flow.outflow < 2 ^ 128 }
    ensures { OnOk result ((q : ℕ) → flows_of classes.new q
        ≡ (if class == q then with_mils (flows_of classes.old q) flow
        else flows_of classes.old q)) }
{
    if let Some(own) = classes.get_mut(&class) {
        own.mils = own.mils.and(flow);
        return Ok(());
    }
    let first = ClassFlows {
        cash: Flow::none(),
        mils: Flow::none().and(flow),
    };
    classes.insert(class, first)?;
    Ok(())
}

/// Adds flows of cash and of shares to those of a class.
pub fn add(
    classes: &mut BTreeMap<u32, ClassFlows>,
    class: u32,
    flows: ClassFlows,
) -> Result<(), NoMemory>
    requires cash_in { (flows_of classes.old class).cash.inflow + flows.cash.inflow < 2 ^ 128 }
    requires cash_out { (flows_of classes.old class).cash.outflow + flows.cash.outflow < 2 ^ 128 }
    requires mils_in { (flows_of classes.old class).mils.inflow + flows.mils.inflow < 2 ^ 128 }
    requires mils_out { (flows_of classes.old class).mils.outflow + flows.mils.outflow < 2 ^ 128 }
    ensures { OnOk result ((q : ℕ) → flows_of classes.new q
        ≡ (if class == q then with_flows (flows_of classes.old q) flows
        else flows_of classes.old q)) }
{
    if let Some(own) = classes.get_mut(&class) {
        *own = own.and(flows);
        return Ok(());
    }
    classes.insert(class, ClassFlows::none().and(flows))?;
    Ok(())
}

/// The flows of a class.
pub fn flows_in(classes: &BTreeMap<u32, ClassFlows>, class: u32) -> ClassFlows
    ensures { result ≡ flows_of classes.now class }
{
    classes.get(&class).copied().unwrap_or(ClassFlows::none())
}
