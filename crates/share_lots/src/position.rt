//! A position: the lots of one account and class, by rank.
ghost use Rattle.std.specs.Prelude.{◌≡◌, [], ◌+◌, ◌≤◌, ◌<◌, ◌⊎◌, ◌==◌, length, sum_by, IfOk, IfErr, OnOk, OnErr};
ghost use Rattle.share_lots.specs.declared.position.TakeFault.TheVariants.{Short, NoMemory};

use crate::adding::{new_lot, ranked_lots};
use crate::lot_list::{cost_total, held_total, mils_total};
use crate::position_lots::PositionLots;
use crate::{Lot, Pieces};
use fund_calendar::Day;
use money_units::{Cents, Mils};
use std::alloc::Global;
use std::error::Error;
use std::fmt;
use std::marker::Model;

/// Why a taking is refused; the position is then as before.
#[derive(Clone, Copy, Debug, PartialEq, Eq)]
pub enum TakeFault {
    /// Fewer mils are loose than were asked for; the value is how many.
    Short(Mils),
    /// There is no memory.
    NoMemory,
}

impl fmt::Display for TakeFault {
    fn fmt<W: fmt::Write>(&self, f: &mut fmt::Formatter<W>) -> fmt::Result {
        match self {
            TakeFault::Short(_) => f.write_str("too few shares are loose"),
            TakeFault::NoMemory => f.write_str("out of memory"),
        }
    }
}

impl Error for TakeFault {}

impl From<money_units::NoMemory> for TakeFault {
    ghost from_gives = { λ _ fault. fault ≡ NoMemory };

    fn from(_error: money_units::NoMemory) -> TakeFault {
        TakeFault::NoMemory
    }
}

/// The lots of one account and class, by rank: the free lot first, then by date and number. Their mils, those that are held
/// and their cost together are kept beside them, so that none is summed up when it is asked for.
#[derive(Debug, Drop)]
pub struct Position {
    lots: PositionLots,
    next_lot: u32,
    mils: u64,
    held: u64,
    cost: u64,
}

impl Model for Position {
    ghost use Rattle.share_lots.specs.Lots.{Holding};
    ghost use Rattle.share_lots.specs.Tally.{IsTallied};
    ghost use Rattle.share_lots.specs.Rows.{lots_in};

    ghost Value = { Holding };

    ghost view = { λ p. record { lots = lots_in p.lots; next_lot = p.next_lot } };

    ghost invariant = { λ p.
        IsTallied (record { lots = lots_in p.lots; next_lot = p.next_lot }) p.mils p.held p.cost };
}

impl Position {
    ghost use Rattle.share_lots.specs.Lots as spec;
    ghost use Rattle.share_lots.specs.Taking as taking;

    /// The position without lots, which takes no memory yet.
    pub fn empty(alloc: Global) -> Position
        ensures { result ≡ record { lots = []; next_lot = 1 } }
    {
        Position {
            lots: PositionLots::none(alloc),
            next_lot: 1,
            mils: 0,
            held: 0,
            cost: 0,
        }
    }

    /// The position with these lots, which are given by number, and with the number of its next lot.
    pub fn from_lots(
        alloc: Global,
        lots: &[Lot],
        next_lot: u32,
    ) -> Result<Position, money_units::NoMemory>
        requires { spec.IsLotList lots.now next_lot }
        ensures { IfOk result (λ p. p ≡ record {
          lots = spec.ranked_lots lots.now;
          next_lot = next_lot;
        }) }
    {
        let lots = ranked_lots(alloc, lots, next_lot)?;
        let mils = mils_total(&lots);
        let held = held_total(&lots);
        let cost = cost_total(&lots);
        Ok(Position {
            lots: PositionLots::of(alloc, lots),
            next_lot,
            mils,
            held,
            cost,
        })
    }

    /// A copy of the lots by rank.
    pub fn copied_lots(&self, alloc: Global) -> Result<Vec<Lot>, money_units::NoMemory>
        ensures { IfOk result (λ lots. lots.items ≡ self.now.lots) }
    {
        self.lots.copied_lots(alloc)
    }

    /// There is no lot.
    pub fn is_empty(&self) -> bool
        ensures empty { result ≡ (length self.now.lots == 0) }
        ensures holding { spec.IsHolding self.now }
    {
        self.mils == 0
    }

    /// The number of the next lot.
    pub fn next_lot(&self) -> u32
        ensures { result ≡ self.now.next_lot }
    {
        self.next_lot
    }

    /// The mils that are loose.
    pub fn loose(&self) -> Mils
        ensures total { result ≡ spec.loose_total self.now }
        ensures bound { result ≤ spec.most_mils }
    {
        Mils(self.mils - self.held)
    }

    /// The mils that are held in escrow.
    pub fn held(&self) -> Mils
        ensures total { result ≡ spec.held_total self.now }
        ensures bound { result ≤ spec.most_mils }
    {
        Mils(self.held)
    }

    /// The mils, loose and held together.
    pub fn mils(&self) -> Mils
        ensures total { result ≡ spec.loose_total self.now + spec.held_total self.now }
        ensures bound { result ≤ spec.most_mils }
    {
        Mils(self.mils)
    }

    /// The cost of loose and held mils.
    pub fn cost(&self) -> Cents
        ensures total { result ≡ spec.cost_total self.now }
        ensures bound { result ≤ spec.most_cost }
    {
        Cents(self.cost)
    }

    /// A copy of the position.
    pub fn copied(&self, alloc: Global) -> Result<Position, money_units::NoMemory>
        ensures { IfOk result (λ copy. copy ≡ self.now) }
    {
        Ok(Position {
            lots: self.lots.copied(alloc)?,
            next_lot: self.next_lot,
            mils: self.mils,
            held: self.held,
            cost: self.cost,
        })
    }

    /// The pieces that a taking of so many mils gives, while nothing is taken.
    pub fn pieces(&self, alloc: Global, mils: Mils) -> Result<Pieces, money_units::NoMemory>
        ensures pieces { IfOk result (λ pieces. pieces ≡ taking.pieces mils self.now.lots) }
        ensures few_mils { IfOk result (λ pieces. sum_by (λ p. p.mils) pieces ≤ spec.most_mils) }
        ensures low_cost { IfOk result (λ pieces. sum_by (λ p. p.cost) pieces ≤ spec.most_cost) }
    {
        let pieces = self.lots.pieces(alloc, mils.0)?;
        Ok(pieces)
    }

    /// Adds mils with their cost, and answers the number of their lot. Free ones join the free lot where there is one,
    /// which keeps its number and date; all else makes a new lot.
    pub fn add(
        &mut self,
        day: Day,
        mils: Mils,
        cost: Cents,
        free: bool,
    ) -> Result<u32, money_units::NoMemory>
        requires positive { 1 ≤ mils }
        requires few_mils { spec.loose_total self.old + spec.held_total self.old + mils
            ≤ spec.most_mils }
        requires low_cost { spec.cost_total self.old + cost ≤ spec.most_cost }
        requires next { (spec.shares_added self.old day mils cost free).holding.next_lot
            ≤ 4294967295 }
        ensures added { IfOk result
            (λ number.
            record { number = number; holding = self.new }
            ≡ spec.shares_added self.old day mils cost free) }
        ensures loose { IfOk result (λ number. spec.HasLoose self.new.lots number mils) }
        ensures mils_grown { OnOk result
            (spec.loose_total self.new + spec.held_total self.new
            ≡ spec.loose_total self.old + spec.held_total self.old + mils) }
        ensures cost_grown { OnOk result
            (spec.cost_total self.new ≡ spec.cost_total self.old + cost) }
        ensures next_after { OnOk result (self.new.next_lot ≤ self.old.next_lot + 1) }
        ensures unchanged { OnErr result (self.new ≡ self.old) }
    {
        match self.lots.lot_joined(free)? {
            Some(number) => {
                self.lots.join(&mils, &cost)?;
                self.mils += mils.0;
                self.cost += cost.0;
                Ok(number)
            }
            None => {
                let number = self.next_lot;
                self.lots.insert(new_lot(number, day, mils, cost, free))?;
                self.next_lot += 1;
                self.mils += mils.0;
                self.cost += cost.0;
                Ok(number)
            }
        }
    }

    /// Keeps loose mils of a lot back in escrow.
    pub fn hold(&mut self, lot: u32, mils: Mils) -> Result<(), money_units::NoMemory>
        requires { spec.HasLoose self.old.lots lot mils }
        ensures held { OnOk result (self.new ≡ spec.hold_mils self.old lot mils) }
        ensures mils_kept { OnOk result
            (sum_by spec.mils self.new.lots ≡ sum_by spec.mils self.old.lots) }
        ensures cost_kept { OnOk result (spec.cost_total self.new ≡ spec.cost_total self.old) }
        ensures unchanged { OnErr result (self.new ≡ self.old) }
    {
        self.lots.hold(lot, mils.0)?;
        self.held = self.lots.held();
        Ok(())
    }

    /// Makes all held mils loose.
    pub fn release(&mut self) -> Result<(), money_units::NoMemory>
        ensures released { OnOk result (self.new ≡ spec.release_all self.old) }
        ensures mils_kept { OnOk result
            (sum_by spec.mils self.new.lots ≡ sum_by spec.mils self.old.lots) }
        ensures cost_kept { OnOk result (spec.cost_total self.new ≡ spec.cost_total self.old) }
        ensures unchanged { OnErr result (self.new ≡ self.old) }
    {
        self.lots.release()?;
        self.held = 0;
        Ok(())
    }

    /// Takes loose mils by rank, and answers a piece for each lot that gives any.
    pub fn take(&mut self, alloc: Global, mils: Mils) -> Result<Pieces, TakeFault>
        ensures relation { OnOk result
            (taking.IsTaking mils self.old.lots (taking.amounts mils self.old.lots)) }
        ensures taken { IfOk result (λ pieces. pieces ≡ taking.pieces mils self.old.lots) }
        ensures rest { OnOk result (self.new ≡ taking.after_taking self.old mils) }
        ensures enough { OnOk result (mils ≤ spec.loose_total self.old) }
        ensures whole { IfOk result (λ pieces. sum_by (λ p. p.mils) pieces ≡ mils) }
        ensures mils_kept { IfOk result
            (λ pieces.
            sum_by (λ p. p.mils) pieces + sum_by spec.mils self.new.lots
            ≡ sum_by spec.mils self.old.lots) }
        ensures cost_kept { IfOk result
            (λ pieces.
            sum_by (λ p. p.cost) pieces + spec.cost_total self.new
            ≡ spec.cost_total self.old) }
        ensures refused { IfErr result
            (λ fault.
            (fault ≡ NoMemory)
            ⊎ ((fault ≡ Short (spec.loose_total self.old))
            × (spec.loose_total self.old < mils))) }
        ensures unchanged { OnErr result (self.new ≡ self.old) }
    {
        let loose = self.mils - self.held;
        if loose < mils.0 {
            return Err(TakeFault::Short(Mils(loose)));
        }
        let pieces = self.lots.own_pieces(alloc, mils.0)?;
        let cost = self.lots.take_off(mils.0)?;
        self.mils -= mils.0;
        self.cost -= cost;
        Ok(pieces)
    }

    /// Takes loose mils by rank whose pieces were looked at before.
    pub fn remove(&mut self, mils: Mils) -> Result<(), money_units::NoMemory>
        requires enough { mils ≤ spec.loose_total self.old }
        ensures rest { OnOk result (self.new ≡ taking.after_taking self.old mils) }
        ensures unchanged { OnErr result (self.new ≡ self.old) }
    {
        let cost = self.lots.take_off(mils.0)?;
        self.mils -= mils.0;
        self.cost -= cost;
        Ok(())
    }

    /// Pays held mils by date and number; each lot keeps the rest of its cost.
    pub fn pay_held(&mut self, mils: Mils) -> Result<(), money_units::NoMemory>
        requires { mils ≤ spec.held_total self.old }
        ensures paid { OnOk result (self.new ≡ taking.after_paying self.old mils) }
        ensures whole { OnOk result (spec.held_total self.new + mils ≡ spec.held_total self.old) }
        ensures loose_kept { OnOk result (spec.loose_total self.new ≡ spec.loose_total self.old) }
        ensures cost_kept { OnOk result
            (sum_by (taking.cost_paid self.old.lots mils) self.old.lots
            + spec.cost_total self.new
            ≡ spec.cost_total self.old) }
        ensures unchanged { OnErr result (self.new ≡ self.old) }
    {
        self.lots.pay(mils.0)?;
        self.mils -= mils.0;
        self.held -= mils.0;
        self.cost = cost_total(&self.lots.front);
        Ok(())
    }
}
