//! A keeper in memory that never fails.
ghost use Rattle.std.specs.Prelude.{◌≡◌, [], Ok, None, Some, true, length, slice_get, IfOk, OnOk, OnErr, IsOkUnless, if◌then◌else◌};
ghost use Rattle.std.specs.Bool.{OnFalse};
ghost use Rattle.std.proofs.Common.{sym, ◌∙◌};
ghost use Rattle.agent_keeper.specs.Content.{after, empty};
ghost use Rattle.agent_keeper.specs.Memory.{surely_kept};

use crate::batch::Batch;
use crate::fault::KeepFault;
use crate::keeper::Keeper;
use crate::kept::Kept;
use crate::reads::hand_out;
use std::alloc::Global;

/// Keeps rows in memory, and fails at nothing but want of memory. A stop leaves what is kept, as its copy would.
#[derive(Drop)]
pub struct SureKeeper {
    alloc: Global,
    kept: Kept,
}

impl SureKeeper {
    /// An empty keeper, which takes no memory yet.
    pub fn new(alloc: Global) -> SureKeeper
        ensures { surely_kept result ≡ empty }
    {
        SureKeeper {
            alloc,
            kept: Kept::new(alloc),
        }
    }
}

impl Keeper for SureKeeper {
    ghost tells = { λ keeper kept. kept ≡ surely_kept keeper };

    ghost faults = { λ _. 0 };

    ghost moment = { λ _. 0 };

    ghost gave = { λ _ _ _. Unit {0} };

    ghost is_attached = { λ _. true };

    ghost is_honest = { λ _. Unit {0} };

    ghost may_leave = { λ keeper left. left ≡ surely_kept keeper };

    ghost one_content = { λ keeper a b is also. is ∙ sym also };

    ghost honest = { λ _ _ _. tt };

    ghost stop_leaves = { λ keeper kept is. is };

    fn attach(&mut self, _path: &str) -> Result<(), KeepFault>
        ensures answer { result ≡ Ok tt }
        ensures kept { surely_kept self.new ≡ surely_kept self.old }
    {
        Ok(())
    }

    fn len(&mut self) -> Result<u64, KeepFault>
        ensures answer { result ≡ Ok (length (surely_kept self.old).rows) }
        ensures kept { surely_kept self.new ≡ surely_kept self.old }
    {
        Ok(self.kept.len() as u64)
    }

    fn row(&mut self, seq: u64, into: &mut Vec<u8>) -> Result<bool, KeepFault>
        ensures exact { IfOk result (λ found. slice_get (surely_kept self.old).rows seq
            ≡ (if found then Some into.new.items else None)) }
        ensures missing { IfOk result (λ found. OnFalse found (into.new.items ≡ [])) }
        ensures refused { OnErr result (into.new.items ≡ []) }
        ensures never_fails { IsOkUnless result KeepFault.NoMemory }
        ensures kept { surely_kept self.new ≡ surely_kept self.old }
    {
        Ok(hand_out(self.kept.row(seq), into)?)
    }

    fn check(&mut self, household: u32, sheet: u32, into: &mut Vec<u8>) -> Result<bool, KeepFault>
        ensures exact { IfOk result (λ found. (surely_kept self.old).checks household sheet
            ≡ (if found then Some into.new.items else None)) }
        ensures missing { IfOk result (λ found. OnFalse found (into.new.items ≡ [])) }
        ensures refused { OnErr result (into.new.items ≡ []) }
        ensures never_fails { IsOkUnless result KeepFault.NoMemory }
        ensures kept { surely_kept self.new ≡ surely_kept self.old }
    {
        Ok(hand_out(self.kept.check(household, sheet), into)?)
    }

    fn commit(&mut self, _base: u64, batch: &Batch) -> Result<(), KeepFault>
        ensures ok { OnOk result (surely_kept self.new ≡ after batch.now (surely_kept self.old)) }
        ensures err { OnErr result (surely_kept self.new ≡ surely_kept self.old) }
        ensures never_fails { IsOkUnless result KeepFault.NoMemory }
    {
        self.kept.keep(self.alloc, batch)?;
        Ok(())
    }
}
