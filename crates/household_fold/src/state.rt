//! The state of a household between two sheets.
ghost use Rattle.std.specs.Prelude.{◌≡◌, ◌==◌, ◌+◌, [], find, length, option_map, option_and_then, true, IfOk};
ghost use Rattle.std.specs.Option.{option_copied};
ghost use Rattle.register_machine.specs.replay.Positions.{is_position, position_of};
ghost use Rattle.household_fold.specs.Facts.{FactsFit};
ghost use Rattle.household_fold.specs.Households.{AreOrdersOf, AreOwned, first_of, household_after, step_known, trades_after};
ghost use Rattle.household_fold.specs.Limits.{AreLettersWithin};
ghost use Rattle.household_fold.specs.Numbers.{AreNumbersWithin};
ghost use Rattle.household_fold.specs.Quiet.{is_quiet_for};

use crate::dividends::day_after_dividends;
use crate::facts::Facts;
use crate::letters::day_after_letter_ends;
use crate::orders::follow_orders;
use crate::quiet::is_quiet;
use crate::steps::Steps;
use agent_events::{Order, Trades};
use household_positions::{HouseholdDay, HouseholdRegister};
use letter_of_intent::Letter;
use money_units::NoMemory;
use share_lots::Position;
use std::alloc::Global;
use std::marker::Model;
use std::sync::ledger::Ledger;

/// The positions of a household as the sheets so far have left them.
#[derive(Drop)]
pub struct HouseholdState {
    household: u32,
    register: HouseholdRegister,
}

impl Model for HouseholdState {
    ghost use Rattle.household_fold.specs.Households.{Household as owned};
    ghost use Rattle.household_fold.specs.Limits.{AreLettersWithin};

    ghost Value = { owned };

    ghost view = { λ state. record { number = state.household; register = state.register } };

    ghost invariant = { λ state. AreLettersWithin state.register };
}

impl HouseholdState {
    /// The state of a household before all sheets.
    pub fn fresh(alloc: Global, household: u32) -> HouseholdState
        ensures { result ≡ record { number = household; register = [] } }
    {
        HouseholdState {
            household,
            register: HouseholdRegister::new(alloc),
        }
    }

    /// The state after the sheet of the facts with these orders in turn, and the trades of the sheet. It is one step; after
    /// `NoMemory` nothing is changed.
    pub fn advance<L: Ledger>(
        &self,
        alloc: Global,
        facts: &Facts,
        orders: &[Order],
        steps: &mut Steps<L>,
    ) -> Result<(HouseholdState, Trades), NoMemory>
        requires facts { FactsFit facts.now }
        requires owned { AreOwned facts.now self.now.number self.now.register }
        requires orders { AreOrdersOf facts.now self.now.number orders.now }
        requires lots { AreNumbersWithin
            (step_known facts.now orders.now self.now.register).register }
        ensures state { IfOk result (λ after. after.0
            ≡ household_after facts.now orders.now self.now) }
        ensures trades { IfOk result (λ after. after.1
            ≡ trades_after facts.now orders.now self.now) }
        ensures owned { IfOk result (λ after. AreOwned facts.now after.0.number after.0.register) }
        ensures step { steps.new ≡ steps.old + 1 }
    {
        steps.tick();
        let register = self.register.copied(alloc)?;
        let (register, trades) = after_sheet(alloc, facts, register, self.household, orders)?;
        Ok((
            HouseholdState {
                household: self.household,
                register,
            },
            trades,
        ))
    }

    /// The same with the state moved on, which copies nothing; after `NoMemory` it is given up.
    pub fn advanced<L: Ledger>(
        self,
        alloc: Global,
        facts: &Facts,
        orders: &[Order],
        steps: &mut Steps<L>,
    ) -> Result<(HouseholdState, Trades), NoMemory>
        requires facts { FactsFit facts.now }
        requires owned { AreOwned facts.now self.number self.register }
        requires orders { AreOrdersOf facts.now self.number orders.now }
        requires lots { AreNumbersWithin (step_known facts.now orders.now self.register).register }
        ensures state { IfOk result (λ after. after.0 ≡ household_after facts.now orders.now self) }
        ensures trades { IfOk result (λ after. after.1 ≡ trades_after facts.now orders.now self) }
        ensures owned { IfOk result (λ after. AreOwned facts.now after.0.number after.0.register) }
        ensures step { steps.new ≡ steps.old + 1 }
    {
        steps.tick();
        let HouseholdState {
            household,
            register,
        } = self;
        let (register, trades) = after_sheet(alloc, facts, register, household, orders)?;
        Ok((
            HouseholdState {
                household,
                register,
            },
            trades,
        ))
    }

    /// The state once more: one allocation, since the lots of its positions are common to both.
    pub fn copied(&self, alloc: Global) -> Result<HouseholdState, NoMemory>
        ensures { IfOk result (λ copy. copy ≡ self.now) }
    {
        let register = self.register.copied(alloc)?;
        Ok(HouseholdState {
            household: self.household,
            register,
        })
    }

    /// Whether there is no order, no payment and no letter that ends on the sheet of the facts; `advance` then changes nothing.
    pub fn is_quiet(&self, facts: &Facts, orders: &[Order]) -> bool
        requires { FactsFit facts.now }
        ensures quiet { result ≡ is_quiet_for facts.now orders.now self.now.register }
        ensures nothing { result ≡ true
            → step_known facts.now orders.now self.now.register ≡ first_of self.now.register }
    {
        is_quiet(facts, &self.register, orders)
    }

    /// Whether nothing is kept of the household.
    pub fn is_fresh(&self) -> bool
        ensures { result ≡ (length self.now.register == 0) }
    {
        self.register.is_empty()
    }

    /// The lots of an account in a class; `None` where no position is kept.
    pub fn position(&self, account: u32, class: u32) -> Option<&Position>
        ensures { option_copied result
            ≡ option_map (λ position. position.holding)
            (find (is_position account class) self.now.register) }
    {
        match self.register.find(account, class) {
            Some(position) => Some(position.holding()),
            None => None,
        }
    }

    /// The open letter of an account in a class.
    pub fn letter(&self, account: u32, class: u32) -> Option<Letter>
        ensures { result ≡ (position_of self.now.register account class).letter }
    {
        self.register.letter(account, class)
    }

    /// Whether an account has its dividends of a class paid in cash.
    pub fn pays_cash(&self, account: u32, class: u32) -> bool
        ensures { result ≡ (position_of self.now.register account class).in_cash }
    {
        self.register.pays_cash(account, class)
    }
}

/// A register after the sheet of the facts, and the trades of the sheet.
fn after_sheet(
    alloc: Global,
    facts: &Facts,
    register: HouseholdRegister,
    household: u32,
    orders: &[Order],
) -> Result<(HouseholdRegister, Trades), NoMemory>
    requires facts { FactsFit facts.now }
    requires owned { AreOwned facts.now household register }
    requires letters { AreLettersWithin register }
    requires orders { AreOrdersOf facts.now household orders.now }
    requires lots { AreNumbersWithin (step_known facts.now orders.now register).register }
    ensures register { IfOk result
        (λ after. after.0 ≡ (step_known facts.now orders.now register).register) }
    ensures trades { IfOk result (λ after. after.1
        ≡ (step_known facts.now orders.now register).trades) }
    ensures letters { IfOk result (λ after. AreLettersWithin after.0) }
    ensures owned { IfOk result (λ after. AreOwned facts.now household after.0) }
{
    let mut day = HouseholdDay::begin(alloc, register);
    day_after_dividends(alloc, facts, &mut day)?;
    day_after_letter_ends(alloc, facts, &mut day)?;
    follow_orders(alloc, facts, &mut day, household, orders)?;
    Ok(day.into_parts())
}
