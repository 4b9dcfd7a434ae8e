//! The keepers in memory: what each call leaves, which calls fail, and copies at a stop.
ghost use Rattle.std.specs.Prelude.{◌≡◌, [], IfOk};
ghost use Rattle.agent_keeper.specs.Memory.{calls_that_fail, calls_made, faults_made};

use crate::batches::{BOTH, FIRST, NOTHING, commit, first_batch, shown, two_commits};
use agent_keeper::{KeepFault, Keeper, MemoryKeeper, SureKeeper, append_row};
use money_units::Bytes;
use std::alloc::Global;
use std::test::Fail;

#[test]
fn both_keepers_keep_two_commits(rt: HostRuntime) -> Result<(), Fail> {
    let alloc = rt.alloc();
    let mut sure = SureKeeper::new(alloc);
    sure.attach("anywhere")?;
    two_commits(alloc, &mut sure)?;
    assert_eq!(rt; shown(alloc, &mut sure)?.as_slice(), BOTH);
    let mut memory = MemoryKeeper::new(alloc, &[])?;
    two_commits(alloc, &mut memory)?;
    assert_eq!(rt; shown(alloc, &mut memory)?.as_slice(), BOTH);
    Ok(())
}

// What is left where one call of two commits fails.
fn left_by(alloc: Global, listed: u64) -> Result<Vec<u8>, KeepFault> {
    let mut keeper = MemoryKeeper::new(alloc, &[listed])?;
    let _told = two_commits(alloc, &mut keeper);
    shown(alloc, &mut keeper)
}

#[test]
fn a_call_that_fails_leaves_the_rows_before_it(rt: HostRuntime) -> Result<(), Fail> {
    let alloc = rt.alloc();
    for (listed, wanted) in [
        (1, NOTHING),
        (2, NOTHING),
        (3, FIRST),
        (4, FIRST),
        (99, BOTH),
    ] {
        assert_eq!(rt; left_by(alloc, listed)?.as_slice(), wanted);
    }
    Ok(())
}

// Which of five calls fail: `attach`, `len`, `row`, `check` and `commit`.
fn failing(alloc: Global, listed: u64) -> Result<[bool; 5], KeepFault> {
    let mut keeper = MemoryKeeper::new(alloc, &[listed])?;
    let batch = first_batch(alloc)?;
    let mut into = Vec::new(alloc);
    Ok([
        keeper.attach("anywhere").is_err(),
        keeper.len().is_err(),
        keeper.row(0, &mut into).is_err(),
        keeper.check(7, 32, &mut into).is_err(),
        keeper.commit(0, &batch).is_err(),
    ])
}

#[test]
fn the_listed_call_fails_and_no_other(rt: HostRuntime) -> Result<(), Fail> {
    for listed in 1..7 {
        let found = failing(rt.alloc(), listed)?;
        assert_eq!(rt;
            found,
            [
                listed == 1,
                listed == 2,
                listed == 3,
                listed == 4,
                listed == 5
            ]
        );
    }
    Ok(())
}

// A copy of a keeper that has made three calls, the last of which failed: the copy counts none.
fn copy_behind_a_fault(alloc: Global, with_last: bool) -> Result<MemoryKeeper, KeepFault>
    ensures fails { IfOk result (λ copy. calls_that_fail copy ≡ []) }
    ensures calls { IfOk result (λ copy. calls_made copy ≡ 0) }
    ensures faults { IfOk result (λ copy. faults_made copy ≡ 0) }
{
    let mut keeper = MemoryKeeper::new(alloc, &[3])?;
    commit(&mut keeper, &first_batch(alloc)?)?;
    let _told = keeper.len();
    Ok(keeper.after_stop(alloc, with_last)?)
}

#[test]
fn a_copy_counts_anew_and_fails_at_no_call(rt: HostRuntime) -> Result<(), Fail> {
    let alloc = rt.alloc();
    for (with_last, rows) in [(false, 0), (true, 1)] {
        let mut copy = copy_behind_a_fault(alloc, with_last)?;
        for _ in 0..3 {
            assert_eq!(rt; copy.len(), Ok(rows));
        }
    }
    Ok(())
}

// What a stop leaves of a copy that has made no commit, which a stop left of a keeper behind two commits.
fn stopped_twice(alloc: Global, first: bool, second: bool) -> Result<Vec<u8>, KeepFault> {
    let mut keeper = MemoryKeeper::new(alloc, &[])?;
    two_commits(alloc, &mut keeper)?;
    let copy = keeper.after_stop(alloc, first)?;
    let mut left = copy.after_stop(alloc, second)?;
    shown(alloc, &mut left)
}

#[test]
fn before_its_first_commit_a_stop_leaves_the_rows_of_a_copy(rt: HostRuntime) -> Result<(), Fail> {
    let alloc = rt.alloc();
    for second in [false, true] {
        assert_eq!(rt; stopped_twice(alloc, false, second)?.as_slice(), FIRST);
        assert_eq!(rt; stopped_twice(alloc, true, second)?.as_slice(), BOTH);
    }
    Ok(())
}

// The numbers of two rows that are appended, and the second as it is read back.
fn appended(alloc: Global) -> Result<(Option<u64>, Option<u64>, Vec<u8>), KeepFault> {
    let mut keeper = MemoryKeeper::new(alloc, &[])?;
    let mut into = Vec::new(alloc);
    let first = append_row(
        alloc,
        &mut keeper,
        Bytes::from_slice(alloc, b"b")?,
        &mut into,
    )?;
    let second = append_row(
        alloc,
        &mut keeper,
        Bytes::from_slice(alloc, b"c")?,
        &mut into,
    )?;
    Ok((first, second, into))
}

#[test]
fn a_row_is_appended_and_read_back(rt: HostRuntime) -> Result<(), Fail> {
    let (first, second, into) = appended(rt.alloc())?;
    assert_eq!(rt; (first, second), (Some(0), Some(1)));
    assert_eq!(rt; into.as_slice(), b"c".as_slice());
    Ok(())
}

#[test]
fn faults_have_their_words(rt: HostRuntime) -> Result<(), Fail> {
    let failed = KeepFault::Failed.to_string(rt.alloc())?;
    assert_eq!(rt; failed.as_str(), "the store failed");
    let no_memory = KeepFault::NoMemory.to_string(rt.alloc())?;
    assert_eq!(rt; no_memory.as_str(), "out of memory");
    Ok(())
}
