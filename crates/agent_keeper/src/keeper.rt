//! The contract of a keeper.
ghost use Rattle.std.specs.Prelude.{◌≡◌, ◌⊎◌, ℕ, Bool, false, IsTrue, [], length, slice_get, None, Some, IfOk, OnOk, OnErr, if◌then◌else◌};
ghost use Rattle.std.specs.Bool.{OnFalse};
ghost use Rattle.agent_keeper.specs.Calls.{Answer, length_is, row_is, check_is, Counts, GoesOn, Gives, OnlyReads};
ghost use Rattle.agent_keeper.specs.Content.{Content, after};

use crate::batch::Batch;
use crate::fault::KeepFault;

/// Keeps the rows of the journal, from 0, and the checkpoint rows, each named by a household and a sheet.
///
/// What a keeper keeps is told by its ghost members. A keeper that cannot know what its store holds tells nothing;
/// none tells what is not there. So each clause on content speaks of what is told when the call returns.
pub trait Keeper {
    /// What is kept, where the keeper tells it.
    ghost tells: { Self → Content → Type 0 };

    /// How many calls have failed. The number is one of a `u64`, and stays at the last one.
    ghost faults: { Self → ℕ };

    /// The moment, as a number that does not fall.
    ghost moment: { Self → ℕ };

    /// What a reading call has answered since a moment.
    ghost gave: { Self → ℕ → Answer → Type 0 };

    /// The store is open: an `attach` has answered Ok.
    ghost is_attached: { Self → Bool };

    /// The store has returned what was written so far. Where it has not, nothing is known of what a stop leaves.
    ghost is_honest: { Self → Type 0 };

    /// What may be found after the program stops at this moment.
    ghost may_leave: { Self → Content → Type 0 };

    /// Opens the store at a path. A keeper that is attached stays at its store, whatever the path is.
    fn attach(&mut self, path: &str) -> Result<(), KeepFault>
        ensures attached { OnOk result (IsTrue (is_attached self.new)) }
        ensures stays { IsTrue (is_attached self.old) → IsTrue (is_attached self.new) }

        // What was told is told, or nothing is. A keeper that told nothing may tell what the store holds.
        ensures told { (before now : Content) → tells self.old before → tells self.new now
            → now ≡ before }
        ensures no_other { IsTrue (is_attached self.old) → (now : Content) → tells self.new now
            → tells self.old now }
        ensures speaks { OnOk result (is_honest self.new → (before : Content)
            → tells self.old before → tells self.new before) }

        // A stop leaves no more than before, and of a store that was just opened what it tells.
        ensures stops { is_honest self.new → (left : Content) → may_leave self.new left
            → may_leave self.old left }
        ensures opened { OnOk result (is_attached self.old ≡ false → is_honest self.new
            → (left : Content) → may_leave self.new left → tells self.new left) }
        ensures was_honest { is_honest self.new → is_honest self.old }
        ensures counted { Counts (faults self.old) (faults self.new) result }
        ensures goes_on { GoesOn moment gave self.old self.new };

    /// The number of rows of the journal.
    fn len(&mut self) -> Result<u64, KeepFault>
        requires { IsTrue (is_attached self.old) }
        ensures exact { IfOk result (λ n. (kept : Content) → tells self.new kept
            → n ≡ length kept.rows) }
        ensures given { IfOk result (λ n. Gives moment gave self.old self.new (length_is n)) }
        ensures stays { IsTrue (is_attached self.new) }
        ensures reads { OnlyReads tells may_leave is_honest self.old self.new }
        ensures speaks { OnOk result (is_honest self.new → (kept : Content) → tells self.old kept
            → tells self.new kept) }
        ensures counted { Counts (faults self.old) (faults self.new) result }
        ensures goes_on { GoesOn moment gave self.old self.new };

    /// Reads the row at a place, from 0, and answers whether there is one. `into` then holds its bytes and nothing
    /// else, and is empty after any other answer.
    fn row(&mut self, seq: u64, into: &mut Vec<u8>) -> Result<bool, KeepFault>
        requires { IsTrue (is_attached self.old) }
        ensures exact { IfOk result (λ found. (kept : Content) → tells self.new kept
            → slice_get kept.rows seq ≡ (if found then Some into.new.items else None)) }
        ensures missing { IfOk result (λ found. OnFalse found (into.new.items ≡ [])) }
        ensures refused { OnErr result (into.new.items ≡ []) }
        ensures given { IfOk result (λ found. Gives moment gave self.old self.new
            (row_is seq (if found then Some into.new.items else None))) }
        ensures stays { IsTrue (is_attached self.new) }
        ensures reads { OnlyReads tells may_leave is_honest self.old self.new }
        ensures speaks { OnOk result (is_honest self.new → (kept : Content) → tells self.old kept
            → tells self.new kept) }
        ensures counted { Counts (faults self.old) (faults self.new) result }
        ensures goes_on { GoesOn moment gave self.old self.new };

    /// Reads the checkpoint row of a household at a sheet, and answers whether there is one. `into` then holds its
    /// bytes and nothing else, and is empty after any other answer.
    fn check(&mut self, household: u32, sheet: u32, into: &mut Vec<u8>) -> Result<bool, KeepFault>
        requires { IsTrue (is_attached self.old) }
        ensures exact { IfOk result (λ found. (kept : Content) → tells self.new kept
            → kept.checks household sheet ≡ (if found then Some into.new.items else None)) }
        ensures missing { IfOk result (λ found. OnFalse found (into.new.items ≡ [])) }
        ensures refused { OnErr result (into.new.items ≡ []) }
        ensures given { IfOk result (λ found. Gives moment gave self.old self.new
            (check_is household sheet (if found then Some into.new.items else None))) }
        ensures stays { IsTrue (is_attached self.new) }
        ensures reads { OnlyReads tells may_leave is_honest self.old self.new }
        ensures speaks { OnOk result (is_honest self.new → (kept : Content) → tells self.old kept
            → tells self.new kept) }
        ensures counted { Counts (faults self.old) (faults self.new) result }
        ensures goes_on { GoesOn moment gave self.old self.new };

    /// Makes a batch part of what is kept, all of it or nothing. `base` is the number of rows that are kept.
    fn commit(&mut self, base: u64, batch: &Batch) -> Result<(), KeepFault>
        requires attached { IsTrue (is_attached self.old) }
        requires base { (kept : Content) → tells self.old kept → base ≡ length kept.rows }
        ensures ok { OnOk result ((now : Content) → tells self.new now → (before : Content)
            × tells self.old before × (now ≡ after batch.now before)) }
        ensures err { OnErr result ((now : Content) → tells self.new now → tells self.old now) }
        ensures speaks { OnOk result (is_honest self.new → (before : Content)
            → tells self.old before → tells self.new (after batch.now before)) }

        // After Ok a stop leaves what is told, and after a failed commit perhaps what it was to make.
        ensures stops { OnOk result (is_honest self.new → (left : Content) → may_leave self.new left
            → tells self.new left) }
        ensures torn { OnErr result (is_honest self.new → (left : Content) → may_leave self.new left
            → may_leave self.old left ⊎ ((before : Content) × tells self.old before
            × (left ≡ after batch.now before))) }
        ensures was_honest { is_honest self.new → is_honest self.old }

        ensures stays { IsTrue (is_attached self.new) }
        ensures counted { Counts (faults self.old) (faults self.new) result }
        ensures goes_on { GoesOn moment gave self.old self.new };

    /// A keeper never tells two contents.
    ghost one_content: { (keeper : Self) (a b : Content) → tells keeper a → tells keeper b
        → a ≡ b };

    /// A keeper that tells is one whose store is honest.
    ghost honest: { (keeper : Self) (kept : Content) → tells keeper kept → is_honest keeper };

    /// What is told may be left by a stop.
    ghost stop_leaves: { (keeper : Self) (kept : Content) → tells keeper kept
        → may_leave keeper kept };
}
