//! The least that stands on a keeper: a row is appended and read back.
ghost use Rattle.std.specs.Prelude.{◌≡◌, ◌⊎◌, ◌+◌, ℕ, None, Some, [], ◌∷◌, ◌++◌, length, IfOk, IfNone, IfSome, IsSome, IsErrOf, IsTrue, OnOk, OnErr};
ghost use Rattle.agent_keeper.specs.Calls.{Gives, Rose, row_is};
ghost use Rattle.agent_keeper.specs.Content.{Content};

use crate::batch::Batch;
use crate::fault::KeepFault;
use crate::keeper::Keeper;
use money_units::Bytes;
use std::alloc::Global;

/// Appends a row to the journal of any keeper and reads it back into `into`. It answers the row's number, or none where
/// the keeper, having answered that the row is kept, does not find it; a keeper that tells what it keeps finds it.
pub fn append_row<K: Keeper>(
    alloc: Global,
    keeper: &mut K,
    row: Bytes,
    into: &mut Vec<u8>,
) -> Result<Option<u64>, KeepFault>
    requires { IsTrue (K.is_attached keeper.old) }
    ensures appended { IfOk result (λ _. (now : Content) → K.tells keeper.new now
        → (before : Content) × K.tells keeper.old before × (now.rows ≡ before.rows ++ row ∷ [])) }
    ensures number { IfOk result (λ answer. IfSome answer
        (λ number. (now : Content) → K.tells keeper.new now → length now.rows ≡ number + 1)) }
    ensures read_back { IfOk result (λ number. (now : Content) → K.tells keeper.new now
        → IsSome number) }
    ensures bytes { IfOk result (λ number. (now : Content) → K.tells keeper.new now
        → into.new.items ≡ row) }

    // The row was read again in this call, whatever the keeper tells: what is answered was given.
    ensures given { IfOk result (λ answer. IfSome answer (λ number.
        Gives K.moment K.gave keeper.old keeper.new (row_is number (Some into.new.items)))) }
    ensures missing { IfOk result (λ answer. IfNone answer ((number : ℕ)
        × Gives K.moment K.gave keeper.old keeper.new (row_is number None))) }
    ensures failed { IsErrOf result KeepFault.Failed
        → Rose (K.faults keeper.old) (K.faults keeper.new) }
    ensures stays { IsTrue (K.is_attached keeper.new) }

    // After Ok a stop leaves what is told. After an error it leaves what it might have left before, or one more row.
    ensures stops { OnOk result (K.is_honest keeper.new → (left : Content)
        → K.may_leave keeper.new left → K.tells keeper.new left) }
    ensures torn { OnErr result (K.is_honest keeper.new → (left : Content)
        → K.may_leave keeper.new left
        → K.may_leave keeper.old left ⊎ ((before : Content) × K.tells keeper.old before
        × (left.rows ≡ before.rows ++ row ∷ []))) }
{
    let mut batch = Batch::new(alloc);
    batch.rows.push(row)?;
    let number = keeper.len()?;
    keeper.commit(number, &batch)?;
    let found = keeper.row(number, into)?;
    if found { Ok(Some(number)) } else { Ok(None) }
}
