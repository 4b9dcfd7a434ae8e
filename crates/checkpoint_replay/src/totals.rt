//! The totals of a ledger: the outstanding shares of each class, and the cash of each party by trades.
ghost use Rattle.std.specs.Prelude.{◌≡◌, ◌+◌, ◌+ℤ◌, ◌≤◌, ℕ, OnOk, pos};
ghost use Rattle.agent_events.specs.declared.order.Party.{Party as AnyParty};
ghost use Rattle.checkpoint_replay.specs.Totals.{AreWithinLimits, HasTotalsRoom, cents_held, mils_held};
ghost use Rattle.gain_loss_book.specs.ClassGains.{mils_change};
ghost use Rattle.gain_loss_book.specs.Posted.{cash_change};

use crate::shares::add_shares;
use agent_events::Changes;
use gain_loss_book::{CashBook, FlowRows};
use money_units::NoMemory;
use std::alloc::Global;
use std::marker::Model;

/// The outstanding shares of each class in mils, and the cash of each party in cents.
#[derive(Drop)]
pub struct LedgerTotals {
    shares: FlowRows,
    cash: CashBook,
}

impl Model for LedgerTotals {
    ghost use Rattle.checkpoint_replay.specs.Totals.{KeepsTotals, TotalRows};

    ghost Value = { TotalRows };

    ghost view = { λ totals. record { shares = totals.shares; cash = totals.cash } };

    ghost invariant = { λ totals.
        KeepsTotals (record { shares = totals.shares; cash = totals.cash }) };
}

impl LedgerTotals {
    /// The totals of no trades.
    pub fn new(alloc: Global) -> LedgerTotals
        ensures cash { (party : AnyParty) → cents_held result party ≡ pos 0 }
        ensures mils { (class : ℕ) → mils_held result class ≡ pos 0 }
        ensures count { result.cash.posts ≡ 0 }
    {
        LedgerTotals {
            shares: FlowRows::new(alloc),
            cash: CashBook::new(alloc),
        }
    }

    /// Makes room for changes. After `NoMemory` the totals are as before.
    pub fn reserve(&mut self, changes: &Changes) -> Result<(), NoMemory>
        ensures ok { OnOk result (HasTotalsRoom self.new changes.now) }
        ensures cash { (party : AnyParty)
            → cents_held self.new party ≡ cents_held self.old party }
        ensures mils { (class : ℕ) → mils_held self.new class ≡ mils_held self.old class }
        ensures count { self.new.cash.posts ≡ self.old.cash.posts }
    {
        self.shares.reserve(changes.outstanding.len())?;
        self.cash.reserve(changes, None)?;
        Ok(())
    }

    /// Adds changes. It takes no memory.
    pub fn add(&mut self, changes: &Changes)
        requires room { HasTotalsRoom self.old changes.now }
        requires limits { AreWithinLimits self.old changes.now }
        ensures cash { (party : AnyParty) → cents_held self.new party
            ≡ cents_held self.old party +ℤ cash_change changes.now.cash party }
        ensures mils { (class : ℕ) → mils_held self.new class
            ≡ mils_held self.old class +ℤ mils_change changes.now.outstanding class }
        ensures count { self.new.cash.posts ≡ self.old.cash.posts + 1 }
    {
        add_shares(&mut self.shares, changes.outstanding.as_slice());
        self.cash.post(self.cash.posts(), changes, None);
    }

    /// How many changes were added.
    pub fn count(&self) -> u64
        ensures { result ≡ self.now.cash.posts }
    {
        self.cash.posts()
    }

    /// The outstanding mils of a class.
    pub fn outstanding(&self, class: u32) -> i128
        ensures { result ≡ mils_held self.now class }
    {
        self.shares.flow(class).net()
    }
}
