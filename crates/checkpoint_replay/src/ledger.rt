//! The ledger of all households.
ghost use Rattle.std.specs.Prelude.{All, ◌≡◌, ◌≤◌, ◌+◌, ◌-◌, ◌+ℤ◌, ◌∷◌, ℕ, [], IfOk, OnOk, false, length, nat_eq, pos};
ghost use Rattle.std.specs.Option.{option_copied};
ghost use Rattle.agent_events.specs.declared.order.Party.{Party as AnyParty};
ghost use Rattle.checkpoint_replay.specs.Differences.{AreChangesOf};
ghost use Rattle.checkpoint_replay.specs.Moves.{AreMoves, HasRoomFor, households_of, part_after};
ghost use Rattle.checkpoint_replay.specs.Parts.{first_day, part_in, state_in};
ghost use Rattle.checkpoint_replay.specs.Reopenings.{move_by_replay};
ghost use Rattle.checkpoint_replay.specs.Sheets.{CanAdvance, IsReached, moves_of_sheet};
ghost use Rattle.checkpoint_replay.specs.Tallied.{IsTallied};
ghost use Rattle.checkpoint_replay.specs.Totals.{AreWithinLimits, cents_held, mils_held};
ghost use Rattle.gain_loss_book.specs.ClassGains.{mils_change};
ghost use Rattle.gain_loss_book.specs.Posted.{cash_change};
ghost use Rattle.household_fold.specs.Facts.{FactsFit};
ghost use Rattle.household_fold.specs.Households.{first_of};
ghost use Rattle.checkpoint_replay.specs.Premises.{CanBeReplayed};
ghost use Rattle.checkpoint_replay.specs.Replays.{day_behind, days_behind, orders_under};

use crate::change::{Change, HouseholdMove};
use crate::differences::changes_of_moves;
use crate::numbered_orders::NumberedOrders;
use crate::part::HouseholdPart;
use crate::parts::{put_moves, reserve_moves};
use crate::reopening::{ReplayStart, move_by_replay};
use crate::sheet::moves_of_sheet;
use crate::totals::LedgerTotals;
use agent_events::Trade;
use household_fold::{Facts, HouseholdState, Steps};
use money_units::NoMemory;
use number_hashing::{NumberMap, number_map};
use std::alloc::Global;
use std::marker::Model;
use std::sync::ledger::Ledger as StepLedger;

/// The positions and the trades of each household as the sheets so far have left them.
#[derive(Drop)]
pub struct Ledger {
    parts: NumberMap<u32, HouseholdPart>,
    totals: LedgerTotals,
}

impl Model for Ledger {
    ghost use Rattle.std.specs.HashMap.{spare};
    ghost use Rattle.checkpoint_replay.specs.Parts.{AreParts, Households};

    ghost Value = { Households };

    ghost view = { λ ledger. record {
      parts = ledger.parts.entries;
      room = spare ledger.parts;
      totals = ledger.totals;
    } };

    ghost invariant = { λ ledger. AreParts ledger.parts.entries };
}

impl Ledger {
    /// Nothing is kept of any household, and nothing was installed.
    pub fn new(alloc: Global) -> Ledger
        ensures parts { result.parts ≡ [] }
        ensures cash { (party : AnyParty) → cents_held result.totals party ≡ pos 0 }
        ensures mils { (class : ℕ) → mils_held result.totals class ≡ pos 0 }
        ensures count { result.totals.cash.posts ≡ 0 }
        ensures tallied { IsTallied result }
    {
        Ledger {
            parts: number_map(alloc),
            totals: LedgerTotals::new(alloc),
        }
    }

    /// The state of a household; `None` exactly where nothing is kept of it.
    pub fn state(&self, household: u32) -> Option<&HouseholdState>
        ensures { option_copied result ≡ state_in self.now.parts household }
    {
        match self.parts.get(&household) {
            Some(part) => part.state_unless_fresh(),
            None => None,
        }
    }

    /// The trades of a household in their order.
    pub fn trades(&self, household: u32) -> &[Trade]
        ensures { result.now ≡ (part_in self.now.parts household).trades }
    {
        match self.parts.get(&household) {
            Some(part) => &part.trades,
            None => &[],
        }
    }

    /// Makes room for a change. After `NoMemory` the ledger shows what it showed before.
    pub fn reserve(&mut self, change: &Change) -> Result<(), NoMemory>
        ensures ok { OnOk result (HasRoomFor self.new change.now) }
        ensures same { (household : ℕ) → part_in self.new.parts household
            ≡ part_in self.old.parts household }
        ensures cash { (party : AnyParty) → cents_held self.new.totals party
            ≡ cents_held self.old.totals party }
        ensures mils { (class : ℕ) → mils_held self.new.totals class
            ≡ mils_held self.old.totals class }
        ensures count { self.new.totals.cash.posts ≡ self.old.totals.cash.posts }
        ensures tallied { IsTallied self.old → IsTallied self.new }
    {
        reserve_moves(&mut self.parts, change.moves())?;
        self.totals.reserve(change.changes())?;
        Ok(())
    }

    /// Makes a change part of the ledger. It takes no memory. The change keeps the limits of changes, which `cash_within` and
    /// `shares_within` of `gain_loss_book` test, and fewer than 10^8 were installed.
    pub fn install(&mut self, change: Change)
        requires room { HasRoomFor self.old change }
        requires limits { AreWithinLimits self.old.totals change.changes }
        ensures parts { (household : ℕ) → part_in self.new.parts household
            ≡ part_after change.moves self.old.parts household }
        ensures cash { (party : AnyParty) → cents_held self.new.totals party
            ≡ cents_held self.old.totals party +ℤ cash_change change.changes.cash party }
        ensures mils { (class : ℕ) → mils_held self.new.totals class
            ≡ mils_held self.old.totals class +ℤ mils_change change.changes.outstanding class }
        ensures count { self.new.totals.cash.posts ≡ self.old.totals.cash.posts + 1 }
        ensures tallied { IsTallied self.old
            → AreChangesOf change.changes self.old.parts change.moves → IsTallied self.new }
    {
        self.totals.add(change.changes());
        put_moves(&mut self.parts, change.into_moves());
    }

    /// How many changes were installed, of which there can be 10^8.
    pub fn installs(&self) -> u64
        ensures { result ≡ self.now.totals.cash.posts }
    {
        self.totals.count()
    }

    /// The outstanding mils of a class, loose and held together.
    pub fn outstanding(&self, class: u32) -> i128
        ensures { result ≡ mils_held self.now.totals class }
    {
        self.totals.outstanding(class)
    }

    /// What a sheet makes of all households, by its orders under the numbers of their households: one step for each household
    /// that it doesn't leave alone, and none for another; never more, also where memory is wanted. The ledger stays as it is.
    pub fn advance_all<L: StepLedger>(
        &self,
        alloc: Global,
        facts: &Facts,
        orders: &NumberedOrders,
        steps: &mut Steps<L>,
    ) -> Result<Change, NoMemory>
        requires facts { FactsFit facts.now }
        requires households { CanAdvance facts.now orders.now self.now.parts }
        ensures days { IfOk result (λ change. (household : ℕ)
            → part_after change.moves self.now.parts household
            ≡ day_behind facts.now (orders_under household orders.now)
            (part_in self.now.parts household)) }
        ensures reached { IfOk result (λ change.
            All (IsReached facts.now orders.now self.now.parts) change.moves) }
        ensures differences { IfOk result (λ change.
            AreChangesOf change.changes self.now.parts change.moves) }
        ensures steps { IfOk result (λ change. steps.new ≡ steps.old + length change.moves) }
        ensures most_steps { steps.new ≤ steps.old
            + length (moves_of_sheet facts.now orders.now self.now.parts) }
    {
        let moves = moves_of_sheet(alloc, facts, orders, &self.parts, steps)?;
        let changes = changes_of_moves(alloc, &self.parts, &moves)?;
        Ok(Change::of(moves, changes))
    }

    /// What a replay makes of one household, from the first sheet as far as the sheet at hand, by its orders under the numbers
    /// of their sheets. The new trades stand in the place of all old ones, and no other household is moved. The ledger stays as
    /// it is.
    pub fn reopen<L: StepLedger>(
        &self,
        alloc: Global,
        household: u32,
        facts: &Facts,
        orders: &NumberedOrders,
        steps: &mut Steps<L>,
    ) -> Result<Change, NoMemory>
        requires { CanBeReplayed facts.now household orders.now 0 facts.now.sheet first_day }
        ensures day { IfOk result (λ change. part_after change.moves self.now.parts household
            ≡ days_behind facts.now orders.now 0 facts.now.sheet first_day) }
        ensures others { IfOk result (λ change. (other : ℕ) → nat_eq other household ≡ false
            → part_after change.moves self.now.parts other ≡ part_in self.now.parts other) }
        ensures households { IfOk result (λ change.
            households_of change.moves ≡ household ∷ []) }
        ensures differences { IfOk result (λ change.
            AreChangesOf change.changes self.now.parts change.moves) }
        ensures steps { steps.new ≤ steps.old + facts.now.sheet }
    {
        let start = ReplayStart {
            household,
            state: HouseholdState::fresh(alloc, household),
            sheet: 0,
            kept: 0,
        };
        self.reopen_behind(alloc, start, facts, orders, steps)
    }

    /// The change that these moves make, with what they change of the totals, gathered by party and class once for all of them. The
    /// ledger stays as it is.
    pub fn change_of(&self, alloc: Global, moves: Vec<HouseholdMove>) -> Result<Change, NoMemory>
        requires { AreMoves moves.items }
        ensures moves { IfOk result (λ change. change.moves ≡ moves.items) }
        ensures differences { IfOk result (λ change.
            AreChangesOf change.changes self.now.parts change.moves) }
    {
        let changes = changes_of_moves(alloc, &self.parts, &moves)?;
        Ok(Change::of(moves, changes))
    }

    // The change by the replay of one household from a start on.
    fn reopen_behind<L: StepLedger>(
        &self,
        alloc: Global,
        start: ReplayStart,
        facts: &Facts,
        orders: &NumberedOrders,
        steps: &mut Steps<L>,
    ) -> Result<Change, NoMemory>
        requires begin { start.sheet ≤ facts.now.sheet }
        requires number { start.state.number ≡ start.household }
        requires ready { CanBeReplayed facts.now start.household orders.now start.sheet
            (facts.now.sheet - start.sheet) (first_of start.state.register) }
        ensures moves { IfOk result (λ change. change.moves
            ≡ move_by_replay facts.now orders.now start ∷ []) }
        ensures differences { IfOk result (λ change.
            AreChangesOf change.changes self.now.parts change.moves) }
        ensures steps { steps.new ≤ steps.old + (facts.now.sheet - start.sheet) }
    {
        let change = move_by_replay(alloc, facts, start, orders, steps)?;
        let mut moves = Vec::new(alloc);
        moves.push(change)?;
        self.change_of(alloc, moves)
    }
}
