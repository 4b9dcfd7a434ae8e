//! A block of lots that copies of a position have in common. No copy changes what stands in it; each tells how many of its
//! first lots it has passed.
ghost use Rattle.std.specs.Prelude.{◌≡◌, ◌≤◌, length, drop, IfOk};
ghost use Rattle.share_lots.specs.Rows.{rest_of};

use crate::Lot;
use money_units::NoMemory;
use std::alloc::Global;
use std::marker::Model;
use std::rc::Rc;

/// The lots of a block from some place on, which contracts see as the list of them.
#[derive(Debug, Drop)]
pub(crate) struct SharedBlock {
    lots: Rc<Vec<Lot>>,
    passed: usize,
}

impl Model for SharedBlock {
    ghost use Rattle.std.specs.Prelude.{List, ◌≤◌, length, drop};
    ghost use Rattle.share_lots.specs.declared.lot.Lot.{Lot as lot};

    ghost Value = { List lot };

    ghost view = { λ block. drop block.passed block.lots.value.items };

    ghost invariant = { λ block. block.passed ≤ length block.lots.value.items };
}

impl SharedBlock {
    /// A block of these lots.
    pub(crate) fn of(alloc: Global, lots: Vec<Lot>) -> Result<SharedBlock, NoMemory>
        ensures { IfOk result (λ block. block ≡ lots.items) }
    {
        let lots = Rc::new(alloc, lots)?;
        Ok(SharedBlock { lots, passed: 0 })
    }

    /// The lots that aren't passed.
    pub(crate) fn as_slice(&self) -> &[Lot]
        ensures { result.now ≡ self.now }
    {
        &self.lots.as_ref()[self.passed..]
    }

    /// The same block once more.
    pub(crate) fn shared(&self) -> Result<SharedBlock, NoMemory>
        ensures { IfOk result (λ copy. copy ≡ self.now) }
    {
        let lots = self.lots.clone()?;
        Ok(SharedBlock {
            lots,
            passed: self.passed,
        })
    }

    /// Passes so many lots more.
    pub(crate) fn pass(&mut self, count: usize)
        requires { count ≤ length self.old }
        ensures { self.new ≡ drop count self.old }
    {
        self.passed += count;
    }
}

/// The lots of a block, where there is one.
pub(crate) fn lots_of(block: &Option<SharedBlock>) -> &[Lot]
    ensures { result.now ≡ rest_of block.now }
{
    match block {
        Some(block) => block.as_slice(),
        None => &[],
    }
}

/// The same block once more, where there is one.
pub(crate) fn shared_block(block: &Option<SharedBlock>) -> Result<Option<SharedBlock>, NoMemory>
    ensures { IfOk result (λ copy. rest_of copy ≡ rest_of block.now) }
{
    match block {
        Some(block) => Ok(Some(block.shared()?)),
        None => Ok(None),
    }
}

/// Passes so many lots of a block more, where there is one.
pub(crate) fn pass_lots(block: &mut Option<SharedBlock>, count: usize)
    requires { count ≤ length (rest_of block.old) }
    ensures { rest_of block.new ≡ drop count (rest_of block.old) }
{
    if let Some(block) = block {
        block.pass(count);
    }
}
