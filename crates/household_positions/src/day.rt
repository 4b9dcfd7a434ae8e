//! The day that goes on: the register of a household and its trades within one sheet.
ghost use Rattle.std.specs.Prelude.{◌≡◌, [], IfOk, OnOk};
ghost use Rattle.agent_events.specs.declared.trade.Outcome.TheVariants.{Unfilled};
ghost use Rattle.register_machine.specs.replay.Positions.{position_of};
ghost use Rattle.register_machine.specs.replay.Trades.{day_after_trade, with_position, with_trade};
ghost use Rattle.household_positions.specs.Register.{day_without};

use crate::held::HeldPosition;
use crate::register::HouseholdRegister;
use agent_events::{Outcome, Trade, Trades, Why};
use money_units::NoMemory;
use std::alloc::Global;
use std::marker::Model;

/// The register of a household and its trades so far, within one sheet.
#[derive(Debug, Drop)]
pub struct HouseholdDay {
    register: HouseholdRegister,
    trades: Trades,
}

impl Model for HouseholdDay {
    ghost use Rattle.register_machine.specs.replay.Trades.{Day as day};

    ghost Value = { day };

    ghost view = { λ d. record { register = d.register; trades = d.trades } };
}

impl HouseholdDay {
    /// The day that begins with a register, without trades.
    pub fn begin(alloc: Global, register: HouseholdRegister) -> HouseholdDay
        ensures { result ≡ record { register = register; trades = [] } }
    {
        HouseholdDay {
            register,
            trades: Trades::new(alloc),
        }
    }

    /// The register that it leaves, and its trades.
    pub fn into_parts(self) -> (HouseholdRegister, Trades)
        ensures register { result.0 ≡ self.register }
        ensures trades { result.1 ≡ self.trades }
    {
        let HouseholdDay { register, trades } = self;
        (register, trades)
    }

    /// The register as it stands.
    pub fn register(&self) -> &HouseholdRegister
        ensures { result.now ≡ self.now.register }
    {
        &self.register
    }

    /// Takes the position of an account and class out, the fresh one where none stands there.
    pub fn take_out(
        &mut self,
        alloc: Global,
        account: u32,
        class: u32,
    ) -> Result<HeldPosition, NoMemory>
        ensures position { IfOk result (λ position. position
            ≡ position_of self.old.register account class) }
        ensures rest { self.new ≡ day_without account class self.old }
    {
        self.register.take_out(alloc, account, class)
    }

    /// A trade more.
    pub fn add_trade(&mut self, trade: &Trade) -> Result<(), NoMemory>
        ensures { OnOk result (self.new ≡ with_trade self.old trade.now) }
    {
        self.trades.push_copy(trade)?;
        Ok(())
    }

    /// An order that is unfilled, by its trade as if it were filled without effect.
    pub fn add_unfilled(&mut self, trade: &Trade, why: Why) -> Result<(), NoMemory>
        ensures { OnOk result (self.new
            ≡ with_trade self.old (record trade.now { outcome = Unfilled why })) }
    {
        let mut unfilled = *trade;
        unfilled.outcome = Outcome::Unfilled(why);
        self.add_trade(&unfilled)
    }

    /// A position in its place, in the stead of the one that stands there.
    pub fn put_back(&mut self, position: HeldPosition) -> Result<(), NoMemory>
        ensures { OnOk result (self.new ≡ with_position self.old position) }
    {
        self.register.put_back(position)?;
        Ok(())
    }

    /// A trade more, which leaves this position in its place.
    pub fn close_trade(&mut self, position: HeldPosition, trade: &Trade) -> Result<(), NoMemory>
        ensures { OnOk result (self.new ≡ day_after_trade self.old position trade.now) }
    {
        self.register.put_back(position)?;
        self.trades.push_copy(trade)?;
        Ok(())
    }
}
