//! The gains and losses of a correction, from what it changes.
ghost use Rattle.std.specs.Prelude.{◌≡◌, ℕ, List, ◌+◌, ◌<◌, ◌≤◌, ◌^◌, filter_map, nat_abs, true, OnOk, IfOk};
ghost use Rattle.std.specs.BTreeMap.{keys};
ghost use Rattle.std.specs.Ordering.{nat_cmp};
ghost use Rattle.std.specs.List.Sorted.{IsStrictlyIncreasing, IsStrictlySortedBy};
ghost use Rattle.agent_events.specs.declared.order.Party.{Party as AnyParty};
ghost use Rattle.forward_price.specs.PriceTables.{sheets_on_trial};
ghost use Rattle.register_machine.specs.corrections.Gains.{gain_by};
ghost use Rattle.gain_loss_book.specs.Flows.{fall, rise};
ghost use Rattle.gain_loss_book.specs.ClassFlows.{flows_of, with_cash, with_mils};
ghost use Rattle.gain_loss_book.specs.Posted.{all_changes, change_flow, changes_flow, most_cash, size_of_cash};
ghost use Rattle.gain_loss_book.specs.ClassGains.{HasChanged, KeepsChange, all_mils, are_numbered, changes_class, class_flows, gain_of_flows, gains_in, mils_change_flow, mils_flow, most_mils, size_of_mils};

use crate::class_flows::{self, ClassFlows};
use crate::flows::Flow;
use crate::latest_price;
use agent_events::{CashChange, Changes, ClassGain, ClassGains, Identifier, MilsChange, Party};
use forward_price::{Patch, PriceBook};
use money_units::{NoMemory, signed_half};
use std::alloc::Global;
use std::collections::BTreeMap;

/// The gain or loss of each class whose cash or outstanding shares a correction changes, by class number: the change of its
/// cash, less the change of its shares at its latest net asset value, as it is after the correction on trial. The value is
/// rounded by its size.
///
/// The classes that are named have numbers from 1 on. For any rising list of classes in which those that change stand, the
/// result is the definition's over that list.
pub fn gains(
    alloc: Global,
    changes: &Changes,
    prices: &PriceBook,
    patch: Option<Patch>,
) -> Result<ClassGains, NoMemory>
    requires cash { size_of_cash changes.now.cash ≤ most_cash }
    requires mils { size_of_mils changes.now.outstanding ≤ most_mils }
    requires numbered { are_numbered changes.now ≡ true }
    ensures { IfOk result (λ gains. (classes : List ℕ) → IsStrictlyIncreasing classes
        → HasChanged classes changes.now
        → gains ≡ gains_in changes.now (sheets_on_trial patch prices.now.table.sheets) classes) }
{
    let classes = gathered(alloc, changes)?;
    let patch = &patch;
    gains_of_classes(alloc, &classes, prices, patch)
}

// The cash and the shares of each class that changes name.
fn gathered(alloc: Global, changes: &Changes) -> Result<BTreeMap<u32, ClassFlows>, NoMemory>
    requires cash { size_of_cash changes.now.cash ≤ most_cash }
    requires mils { size_of_mils changes.now.outstanding ≤ most_mils }
    ensures { IfOk result (λ classes. (q : ℕ) → flows_of classes q ≡ class_flows changes.now q) }
{
    let mut classes = BTreeMap::new(alloc);
    gather_cash(&mut classes, changes.cash.as_slice())?;
    gather_mils(&mut classes, changes.outstanding.as_slice())?;
    Ok(classes)
}

fn gather_cash(
    classes: &mut BTreeMap<u32, ClassFlows>,
    changes: &[CashChange],
) -> Result<(), NoMemory>
    requires inflow { (q : ℕ)
        → (flows_of classes.old q).cash.inflow + (all_changes changes.now).inflow < 2 ^ 128 }
    requires outflow { (q : ℕ)
        → (flows_of classes.old q).cash.outflow + (all_changes changes.now).outflow < 2 ^ 128 }
    ensures { OnOk result ((q : ℕ) → flows_of classes.new q
        ≡ with_cash (flows_of classes.old q) (changes_flow changes.now (AnyParty.Class q))) }
{
    for change in changes {
        gather_cash_change(classes, change)?;
    }
    Ok(())
}

fn gather_cash_change(
    classes: &mut BTreeMap<u32, ClassFlows>,
    change: &CashChange,
) -> Result<(), NoMemory>
    requires inflow { (q : ℕ)
        → (flows_of classes.old q).cash.inflow + rise change.now.cents < 2 ^ 128 }
    requires outflow { (q : ℕ)
        → (flows_of classes.old q).cash.outflow + fall change.now.cents < 2 ^ 128 }
    ensures { OnOk result ((q : ℕ) → flows_of classes.new q
        ≡ with_cash (flows_of classes.old q) (change_flow change.now (AnyParty.Class q))) }
{
    if let Party::Class(class) = change.party {
        class_flows::add_cash(classes, class, Flow::by(change.cents))?;
    }
    Ok(())
}

fn gather_mils(
    classes: &mut BTreeMap<u32, ClassFlows>,
    changes: &[MilsChange],
) -> Result<(), NoMemory>
    requires inflow { (q : ℕ)
        → (flows_of classes.old q).mils.inflow + (all_mils changes.now).inflow < 2 ^ 128 }
    requires outflow { (q : ℕ)
        → (flows_of classes.old q).mils.outflow + (all_mils changes.now).outflow < 2 ^ 128 }
    ensures { OnOk result ((q : ℕ) → flows_of classes.new q
        ≡ with_mils (flows_of classes.old q) (mils_flow changes.now q)) }
{
    for change in changes {
        gather_mils_change(classes, change)?;
    }
    Ok(())
}

fn gather_mils_change(
    classes: &mut BTreeMap<u32, ClassFlows>,
    change: &MilsChange,
) -> Result<(), NoMemory>
    requires inflow { (q : ℕ)
        → (flows_of classes.old q).mils.inflow + rise change.now.mils < 2 ^ 128 }
    requires outflow { (q : ℕ)
        → (flows_of classes.old q).mils.outflow + fall change.now.mils < 2 ^ 128 }
    ensures { OnOk result ((q : ℕ) → flows_of classes.new q
        ≡ with_mils (flows_of classes.old q) (mils_change_flow change.now q)) }
{
    class_flows::add_mils(classes, change.class, Flow::by(change.mils))?;
    Ok(())
}

// The gains of the classes that are gathered, by number.
fn gains_of_classes(
    alloc: Global,
    classes: &BTreeMap<u32, ClassFlows>,
    prices: &PriceBook,
    patch: &Option<Patch>,
) -> Result<ClassGains, NoMemory>
    requires within { (q : ℕ) → KeepsChange (flows_of classes.now q) }
    requires numbered { (q : ℕ) → changes_class (flows_of classes.now q) ≡ true → 1 ≤ q }
    ensures rising { IsStrictlySortedBy nat_cmp (keys classes.now) }
    ensures gains { IfOk result (λ gains. gains
        ≡ filter_map
        (λ q.
        gain_of_flows q (flows_of classes.now q)
        (sheets_on_trial patch.now prices.now.table.sheets)) (keys classes.now)) }
{
    let mut gains = ClassGains::new(alloc);
    for class in classes.keys() {
        let flows = class_flows::flows_in(classes, *class);
        if let Some(gain) = gain_of_class(*class, flows, prices, patch) {
            gains.push(gain)?;
        }
    }
    Ok(gains)
}

// The gain of a class, where its cash or its shares change.
fn gain_of_class(
    class: u32,
    flows: ClassFlows,
    prices: &PriceBook,
    patch: &Option<Patch>,
) -> Option<ClassGain>
    requires within { KeepsChange flows }
    requires numbered { changes_class flows ≡ true → 1 ≤ class }
    ensures { result
        ≡ gain_of_flows class flows (sheets_on_trial patch.now prices.now.table.sheets) }
{
    let cash = flows.cash.net();
    let mils = flows.mils.net();
    if cash == 0 && mils == 0 {
        return None;
    }
    let cents = gain(cash, mils, latest_price::latest_nav(prices, *patch, class));
    let class = Identifier::new(u64::from(class)).unwrap();
    Some(ClassGain { class, cents })
}

// The change of cash, less the value of the change of shares.
fn gain(cash: i128, mils: i128, nav: u64) -> i128
    requires cash { nat_abs cash ≤ most_cash }
    requires mils { nat_abs mils ≤ most_mils }
    requires nav { nav ≤ 10000000 }
    ensures { result ≡ gain_by cash mils nav }
{
    cash - signed_half(mils * i128::from(nav), 1000)
}
