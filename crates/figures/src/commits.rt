//! Rows of an order's length, committed to a store one by one.
ghost use Rattle.std.specs.Prelude.{◌≡◌, ◌+◌, length, IsTrue, OnOk};
ghost use Rattle.agent_keeper.specs.Content.{Content};

use agent_keeper::{Batch, KeepFault, Keeper};
use money_units::Bytes;
use std::alloc::Global;

/// The row of a purchase has 52 bytes.
const ROW: &[u8] =
    b"\x01\x07\x00\x00\x00\x00\x66\x82\xa8\x50\x00\x00\x00\x65\x00\x00\x00\x00\x00\x00\x00\x01\x00\x00\x00\x00\x00\x66\x82\xa8\x50\x00\x00\x00\x00\x66\x83\x0a\xc0\x01\x00\x00\x00\x0b\x00\x00\x00\x00\x00\x0f\x42\x40";

// Commits one row behind those that are kept, of which there are so many.
fn commit_one<K: Keeper>(alloc: Global, keeper: &mut K, base: u64) -> Result<(), KeepFault>
    requires attached { IsTrue (K.is_attached keeper.old) }
    requires base { (kept : Content) → K.tells keeper.old kept → base ≡ length kept.rows }
    ensures attached { IsTrue (K.is_attached keeper.new) }
    ensures more { OnOk result ((kept : Content) → K.tells keeper.new kept
        → base + 1 ≡ length kept.rows) }
{
    let mut batch = Batch::new(alloc);
    batch.rows.push(Bytes::from_slice(alloc, ROW)?)?;
    keeper.commit(base, &batch)
}

/// Commits so many rows.
pub(crate) fn commit_all<K: Keeper>(
    alloc: Global,
    keeper: &mut K,
    rows: u64,
) -> Result<(), KeepFault>
    requires { IsTrue (K.is_attached keeper.old) }
{
    let first = keeper.len()?;
    for base in first..first.saturating_add(rows) {
        commit_one(alloc, keeper, base)?;
    }
    Ok(())
}
