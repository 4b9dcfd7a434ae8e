//! The lots of a position as they stand in memory: most of them in a block that copies of the position have in common, and
//! before and behind it some of its own. A copy takes as much memory as its own lots.
ghost use Rattle.std.specs.Prelude.{◌≡◌, ◌==◌, [], ◌++◌, ◌+◌, ◌≤◌, ◌⊎◌, true, false, length, map, filter, sum_by, All, IfOk, OnOk, OnErr};
ghost use Rattle.std.specs.List.{list_any};
ghost use Rattle.share_lots.specs.Lots as spec;
ghost use Rattle.share_lots.specs.Taking as taking;
ghost use Rattle.share_lots.specs.Rows.{rest_of, lots_in};

use crate::adding::{free_number, insert_lot, join_free};
use crate::escrow::{has_number, hold_back, release_lots};
use crate::lot_list::{held_total, loose_of, loose_total, precede, ranks_before};
use crate::paying::pay_lots;
use crate::shared_block::{SharedBlock, lots_of, pass_lots, shared_block};
use crate::taking::{remove_empty, take_pieces, take_row};
use crate::{Lot, Pieces};
use money_units::{Cents, Mils, NoMemory};
use std::alloc::Global;

/// So many lots of its own has a position before and behind those in common. More of them go into a new block.
const MOST_OWN: usize = 12;

/// The lots of a position by rank.
#[derive(Debug, Drop)]
pub(crate) struct PositionLots {
    pub(crate) front: Vec<Lot>,
    pub(crate) rest: Option<SharedBlock>,
    pub(crate) back: Vec<Lot>,
}

impl PositionLots {
    /// No lots, which take no memory yet.
    pub(crate) fn none(alloc: Global) -> PositionLots
        ensures { lots_in result ≡ [] }
    {
        PositionLots::of(alloc, Vec::new(alloc))
    }

    /// These lots, as lots of its own.
    pub(crate) fn of(alloc: Global, lots: Vec<Lot>) -> PositionLots
        ensures { lots_in result ≡ lots.items }
    {
        PositionLots {
            front: lots,
            rest: None,
            back: Vec::new(alloc),
        }
    }

    /// These lots in a block.
    fn in_block(alloc: Global, lots: Vec<Lot>) -> Result<PositionLots, NoMemory>
        ensures { IfOk result (λ made. lots_in made ≡ lots.items) }
    {
        let block = SharedBlock::of(alloc, lots)?;
        Ok(PositionLots {
            front: Vec::new(alloc),
            rest: Some(block),
            back: Vec::new(alloc),
        })
    }

    /// The lots in common with copies.
    pub(crate) fn rest(&self) -> &[Lot]
        ensures { result.now ≡ rest_of self.now.rest }
    {
        lots_of(&self.rest)
    }

    /// A copy of all lots.
    pub(crate) fn copied_lots(&self, alloc: Global) -> Result<Vec<Lot>, NoMemory>
        ensures { IfOk result (λ all. all.items ≡ lots_in self.now) }
    {
        let lots = self.front.len().saturating_add(self.rest().len());
        let mut all = Vec::with_capacity(alloc, lots.saturating_add(self.back.len()))?;
        all.extend_from_slice(&self.front)?;
        all.extend_from_slice(self.rest())?;
        all.extend_from_slice(&self.back)?;
        Ok(all)
    }

    /// A copy, which has the block in common with these lots.
    pub(crate) fn copied(&self, alloc: Global) -> Result<PositionLots, NoMemory>
        ensures { IfOk result (λ copy. lots_in copy ≡ lots_in self.now) }
    {
        if self.front.len() > MOST_OWN {
            return PositionLots::in_block(alloc, self.copied_lots(alloc)?);
        }
        Ok(PositionLots {
            front: Vec::from_slice(alloc, &self.front)?,
            rest: shared_block(&self.rest)?,
            back: copied_row(alloc, &self.back)?,
        })
    }

    /// Puts all lots into a new block where too many are lots of its own.
    fn make_room(&mut self) -> Result<(), NoMemory>
        ensures { lots_in self.new ≡ lots_in self.old }
    {
        if self.front.len() > MOST_OWN || self.back.len() >= MOST_OWN {
            let alloc = *self.front.allocator();
            let all = self.copied_lots(alloc)?;
            *self = PositionLots::in_block(alloc, all)?;
        }
        Ok(())
    }

    /// Makes all lots its own.
    pub(crate) fn gather(&mut self) -> Result<(), NoMemory>
        ensures kept { lots_in self.new ≡ lots_in self.old }
        ensures front { OnOk result (self.new.front.items ≡ lots_in self.old) }
        ensures rest { OnOk result (rest_of self.new.rest ≡ []) }
        ensures back { OnOk result (self.new.back.items ≡ []) }
    {
        self.front.extend_from_slice(lots_of(&self.rest))?;
        self.rest = None;
        self.front.extend_from_slice(&self.back)?;
        self.back.clear();
        Ok(())
    }

    /// Makes so many of the lots in common its own.
    fn own(&mut self, count: usize) -> Result<(), NoMemory>
        requires { count ≤ length (rest_of self.old.rest) }
        ensures { lots_in self.new ≡ lots_in self.old }
    {
        self.front.extend_from_slice(&lots_of(&self.rest)[..count])?;
        pass_lots(&mut self.rest, count);
        Ok(())
    }

    /// Makes as many lots its own as are asked for loose mils, or all.
    fn own_loose(&mut self, asked: u64) -> Result<(), NoMemory>
        requires { sum_by spec.mils (lots_in self.old) ≤ spec.most_mils }
        ensures kept { lots_in self.new ≡ lots_in self.old }
        ensures enough { OnOk result ((asked ≤ sum_by (λ lot. lot.loose) self.new.front.items)
            ⊎ (rest_of self.new.rest ++ self.new.back.items ≡ [])) }
    {
        let missing = asked.saturating_sub(loose_total(&self.front));
        let count = lots_for(self.rest(), missing);
        self.own(count)?;
        if loose_total(&self.front) < asked {
            self.gather()?;
        }
        Ok(())
    }

    /// Makes the first lot its own.
    fn own_first(&mut self) -> Result<(), NoMemory>
        ensures kept { lots_in self.new ≡ lots_in self.old }
        ensures first { OnOk result ((1 ≤ length self.new.front.items)
            ⊎ (rest_of self.new.rest ++ self.new.back.items ≡ [])) }
    {
        if self.front.is_empty() {
            let count = self.rest().len().min(1);
            self.own(count)?;
        }
        if self.front.is_empty() {
            self.gather()?;
        }
        Ok(())
    }

    /// Makes all lots its own where one of those in common has this number.
    fn own_number(&mut self, number: u32) -> Result<(), NoMemory>
        ensures kept { lots_in self.new ≡ lots_in self.old }
        ensures apart { OnOk result (list_any (λ lot. lot.number == number) (rest_of self.new.rest)
            ≡ false) }
    {
        if has_number(self.rest(), number) {
            self.gather()?;
        }
        Ok(())
    }

    /// A new lot comes in its place by rank.
    pub(crate) fn insert(&mut self, lot: Lot) -> Result<(), NoMemory>
        requires { spec.AreRanked (lots_in self.old) }
        ensures ok { OnOk result (lots_in self.new ≡ spec.lots_with lot (lots_in self.old)) }
        ensures err { OnErr result (lots_in self.new ≡ lots_in self.old) }
    {
        self.make_room()?;
        if lot.free {
            self.insert_free(lot)?;
            return Ok(());
        }
        if self.comes_last(&lot) {
            self.insert_last(lot)?;
            return Ok(());
        }
        self.gather()?;
        insert_lot(&mut self.front, lot)?;
        Ok(())
    }

    /// The lot comes behind all those that stand before the last ones.
    fn comes_last(&self, lot: &Lot) -> bool
        requires { spec.AreRanked (lots_in self.now) }
        ensures { result ≡ true → All (λ other. spec.ranks_before other lot.now ≡ true)
            (self.now.front.items ++ rest_of self.now.rest) }
    {
        self.follows_back(lot) || self.follows_rest(lot)
    }

    /// The lot comes behind the last lot of those that stand last. No lot in common with copies is looked at, which may lie in memory
    /// that was last used long ago.
    fn follows_back(&self, lot: &Lot) -> bool
        requires { spec.AreRanked (lots_in self.now) }
        ensures { result ≡ true → All (λ other. spec.ranks_before other lot.now ≡ true)
            (self.now.front.items ++ rest_of self.now.rest) }
    {
        match self.back.last() {
            Some(last) => ranks_before(last, lot),
            None => false,
        }
    }

    /// The lot comes behind the last lot of those that stand before the last ones.
    fn follows_rest(&self, lot: &Lot) -> bool
        requires { spec.AreRanked (lots_in self.now) }
        ensures { result ≡ true → All (λ other. spec.ranks_before other lot.now ≡ true)
            (self.now.front.items ++ rest_of self.now.rest) }
    {
        precede(&self.front, lot) && precede(self.rest(), lot)
    }

    /// A free lot comes before all.
    fn insert_free(&mut self, lot: Lot) -> Result<(), NoMemory>
        requires ranked { spec.AreRanked (lots_in self.old) }
        requires free { lot.free ≡ true }
        ensures ok { OnOk result (lots_in self.new ≡ spec.lots_with lot (lots_in self.old)) }
        ensures err { OnErr result (lots_in self.new ≡ lots_in self.old) }
    {
        insert_lot(&mut self.front, lot)?;
        Ok(())
    }

    /// A lot comes among the last ones.
    fn insert_last(&mut self, lot: Lot) -> Result<(), NoMemory>
        requires ranked { spec.AreRanked (lots_in self.old) }
        requires last { All (λ other. spec.ranks_before other lot ≡ true)
            (self.old.front.items ++ rest_of self.old.rest) }
        ensures ok { OnOk result (lots_in self.new ≡ spec.lots_with lot (lots_in self.old)) }
        ensures err { OnErr result (lots_in self.new ≡ lots_in self.old) }
    {
        insert_lot(&mut self.back, lot)?;
        Ok(())
    }

    /// The number of the free lot that free mils join, which then stands first among its own.
    pub(crate) fn lot_joined(&mut self, free: bool) -> Result<Option<u32>, NoMemory>
        requires { spec.AreRanked (lots_in self.old) }
        ensures kept { lots_in self.new ≡ lots_in self.old }
        ensures joined { IfOk result (λ number. number ≡ spec.lot_joined (lots_in self.old) free) }
    {
        if !free {
            return Ok(None);
        }
        self.own_first()?;
        Ok(free_number(&self.front))
    }

    /// Mils and cost join the free lot.
    pub(crate) fn join(&mut self, mils: &Mils, cost: &Cents) -> Result<(), NoMemory>
        requires lots { All spec.IsLot (lots_in self.old) }
        requires ranked { spec.AreRanked (lots_in self.old) }
        requires mils { mils.now ≤ spec.most_mils }
        requires cost { cost.now ≤ spec.most_cost }
        ensures ok { OnOk result (lots_in self.new
            ≡ map (spec.join_free mils.now cost.now) (lots_in self.old)) }
        ensures err { OnErr result (lots_in self.new ≡ lots_in self.old) }
    {
        self.own_first()?;
        join_free(&mut self.front, mils, cost);
        Ok(())
    }

    /// Keeps loose mils of the lot with a number back.
    pub(crate) fn hold(&mut self, number: u32, quantity: u64) -> Result<(), NoMemory>
        requires lots { All spec.IsLot (lots_in self.old) }
        requires has { spec.HasLoose (lots_in self.old) number quantity }
        ensures ok { OnOk result (lots_in self.new
            ≡ map (spec.hold_in number quantity) (lots_in self.old)) }
        ensures err { OnErr result (lots_in self.new ≡ lots_in self.old) }
    {
        self.own_number(number)?;
        hold_back(&mut self.front, number, quantity);
        hold_back(&mut self.back, number, quantity);
        Ok(())
    }

    /// Makes the held mils of each lot loose.
    pub(crate) fn release(&mut self) -> Result<(), NoMemory>
        requires { All spec.IsLot (lots_in self.old) }
        ensures ok { OnOk result (lots_in self.new ≡ map spec.release_lot (lots_in self.old)) }
        ensures err { OnErr result (lots_in self.new ≡ lots_in self.old) }
    {
        self.gather()?;
        release_lots(&mut self.front);
        Ok(())
    }

    /// Pays held mils by date and number.
    pub(crate) fn pay(&mut self, asked: u64) -> Result<(), NoMemory>
        requires lots { All spec.IsLot (lots_in self.old) }
        requires ranked { spec.AreRanked (lots_in self.old) }
        requires total { sum_by (λ lot. lot.held) (lots_in self.old) ≤ spec.most_mils }
        ensures ok { OnOk result (lots_in self.new
            ≡ filter taking.has_mils
            (map (taking.lot_paying (lots_in self.old) asked) (lots_in self.old))) }
        ensures whole { OnOk result (self.new.front.items ≡ lots_in self.new) }
        ensures err { OnErr result (lots_in self.new ≡ lots_in self.old) }
    {
        self.gather()?;
        pay_lots(&mut self.front, asked);
        remove_empty(&mut self.front);
        Ok(())
    }

    /// The held mils of the lots.
    pub(crate) fn held(&self) -> u64
        requires { sum_by (λ lot. lot.held) (lots_in self.now) ≤ spec.most_mils }
        ensures { result ≡ sum_by (λ lot. lot.held) (lots_in self.now) }
    {
        held_total(&self.front) + held_total(self.rest()) + held_total(&self.back)
    }

    /// The pieces of a taking, while nothing is taken.
    pub(crate) fn pieces(&self, alloc: Global, asked: u64) -> Result<Pieces, NoMemory>
        requires lots { All spec.IsLot (lots_in self.now) }
        requires mils { sum_by spec.mils (lots_in self.now) ≤ spec.most_mils }
        ensures { IfOk result (λ pieces. pieces ≡ taking.pieces asked (lots_in self.now)) }
    {
        let pieces = take_pieces(Pieces::new(alloc), &self.front, asked)?;
        let left = asked.saturating_sub(loose_total(&self.front));
        let pieces = take_pieces(pieces, self.rest(), left)?;
        let left = left.saturating_sub(loose_total(self.rest()));
        let pieces = take_pieces(pieces, &self.back, left)?;
        Ok(pieces)
    }

    /// The pieces of a taking, whose lots become its own.
    pub(crate) fn own_pieces(&mut self, alloc: Global, asked: u64) -> Result<Pieces, NoMemory>
        requires lots { All spec.IsLot (lots_in self.old) }
        requires mils { sum_by spec.mils (lots_in self.old) ≤ spec.most_mils }
        ensures kept { lots_in self.new ≡ lots_in self.old }
        ensures pieces { IfOk result (λ pieces. pieces ≡ taking.pieces asked (lots_in self.old)) }
    {
        self.own_loose(asked)?;
        let pieces = take_pieces(Pieces::new(alloc), &self.front, asked)?;
        Ok(pieces)
    }

    /// Takes mils by rank, and answers the cost that they had.
    pub(crate) fn take_off(&mut self, asked: u64) -> Result<u64, NoMemory>
        requires lots { All spec.IsLot (lots_in self.old) }
        requires mils { sum_by spec.mils (lots_in self.old) ≤ spec.most_mils }
        requires cost { sum_by (λ lot. lot.cost) (lots_in self.old) ≤ spec.most_cost }
        ensures ok { OnOk result (lots_in self.new
            ≡ filter taking.has_mils (taking.lots_less asked (lots_in self.old))) }
        ensures cost { IfOk result (λ cost. cost + sum_by (λ lot. lot.cost) (lots_in self.new)
            ≡ sum_by (λ lot. lot.cost) (lots_in self.old)) }
        ensures err { OnErr result (lots_in self.new ≡ lots_in self.old) }
    {
        self.own_loose(asked)?;
        let cost = take_row(&mut self.front, asked);
        Ok(cost)
    }
}

/// A copy of lots, with room for the lot that the next order brings.
fn copied_row(alloc: Global, lots: &[Lot]) -> Result<Vec<Lot>, NoMemory>
    ensures { IfOk result (λ copy. copy.items ≡ lots.now) }
{
    let mut copy = Vec::with_capacity(alloc, lots.len() + 1)?;
    copy.extend_from_slice(lots)?;
    Ok(copy)
}

/// How many of the first lots are asked for so many loose mils, or all.
fn lots_for(lots: &[Lot], asked: u64) -> usize
    ensures { result ≤ length lots.now }
{
    let mut left = asked;
    for (place, lot) in lots.iter().enumerate() {
        if left == 0 {
            return place;
        }
        left = left.saturating_sub(loose_of(lot));
    }
    lots.len()
}
