//! The keeper over a SQLite file.
ghost use Rattle.std.specs.Prelude.{IsTrue};
ghost use Rattle.sqlite_keeper.specs.Keeper.{has_store};

use crate::batches::{BOTH, FIRST, first_batch, second_batch, shown, two_commits};
use agent_keeper::{KeepFault, Keeper};
use sqlite_keeper::SqliteKeeper;
use std::alloc::Global;
use std::fs;
use std::test::Fail;

// What is done with a keeper once it is opened.
#[derive(Clone, Copy)]
enum Doing<'a> {
    Nothing,
    TwoCommits,
    // It is told another path, and stays at its store.
    Open(&'a str),
    // A commit behind so many rows where there is one row.
    CommitBehind(u64),
}

// Whether the last commit failed.
fn commit_behind(alloc: Global, keeper: &mut SqliteKeeper, base: u64) -> Result<bool, KeepFault>
    requires { IsTrue (has_store keeper.old) }
    ensures { IsTrue (has_store keeper.new) }
{
    keeper.commit(0, &first_batch(alloc)?)?;
    let told = keeper.commit(base, &second_batch(alloc)?);
    Ok(told == Err(KeepFault::Failed))
}

// Whether a last commit failed, and what the keeper shows.
fn done_by(
    alloc: Global,
    keeper: &mut SqliteKeeper,
    path: &str,
    doing: Doing<'_>,
) -> Result<(bool, Vec<u8>), KeepFault> {
    keeper.attach(path)?;
    let mut failed = false;
    match doing {
        Doing::Nothing => {}
        Doing::TwoCommits => two_commits(alloc, keeper)?,
        Doing::Open(other) => keeper.attach(other)?,
        Doing::CommitBehind(base) => failed = commit_behind(alloc, keeper, base)?,
    }
    Ok((failed, shown(alloc, keeper)?))
}

// The same in the file at a path. A keeper over a file is held here alone, where nothing else ends: each end lets go of all that
// the keeper has open.
fn done_in_file(
    rt: HostRuntime,
    path: &str,
    doing: Doing<'_>,
) -> Result<(bool, Vec<u8>), KeepFault> {
    let alloc = rt.alloc();
    let mut keeper = SqliteKeeper::new(rt);
    done_by(alloc, &mut keeper, path, doing)
}

#[test]
fn two_commits_are_found_again(rt: HostRuntime) -> Result<(), Fail> {
    let _ = fs::remove_dir_all(&rt, "two_commits");
    fs::create_dir(&rt, "two_commits")?;
    done_in_file(rt.clone()?, "two_commits/a.db", Doing::TwoCommits)?;
    let again = Doing::Open("two_commits/b.db");
    let (_, found) = done_in_file(rt.clone()?, "two_commits/a.db", again)?;
    assert_eq!(rt; found.as_slice(), BOTH);
    assert!(rt; fs::read(&rt, "two_commits/b.db").is_err());
    fs::remove_dir_all(&rt, "two_commits")?;
    Ok(())
}

// A path of 210 bytes.
const LONG_PATH: &str = "long_path/\
rrrrrrrrrrrrrrrrrrrrrrrrrrrrrrrrrrrrrrrrrrrrrrrrrrrrrrrrrrrrrrrrrrrrrrrrrrrrrrrrrrrrrrrrrrrrrrrrrr\
rrrrrrrrrrrrrrrrrrrrrrrrrrrrrrrrrrrrrrrrrrrrrrrrrrrrrrrrrrrrrrrrrrrrrrrrrrrrrrrrrrrrrrrrrrrrrrrrrrr.db";

#[test]
fn a_long_path_is_opened(rt: HostRuntime) -> Result<(), Fail> {
    let _ = fs::remove_dir_all(&rt, "long_path");
    fs::create_dir(&rt, "long_path")?;
    done_in_file(rt.clone()?, LONG_PATH, Doing::TwoCommits)?;
    let (_, found) = done_in_file(rt.clone()?, LONG_PATH, Doing::Open("long_path/b.db"))?;
    assert_eq!(rt; found.as_slice(), BOTH);
    fs::remove_dir_all(&rt, "long_path")?;
    Ok(())
}

#[test]
fn a_commit_at_another_place_fails_and_leaves_the_rows(rt: HostRuntime) -> Result<(), Fail> {
    for base in [0, 2] {
        let _ = fs::remove_dir_all(&rt, "another_place");
        fs::create_dir(&rt, "another_place")?;
        let doing = Doing::CommitBehind(base);
        let (failed, found) = done_in_file(rt.clone()?, "another_place/a.db", doing)?;
        assert_eq!(rt; (failed, found.as_slice()), (true, FIRST));
        fs::remove_dir_all(&rt, "another_place")?;
    }
    Ok(())
}

// Whether no store is opened at a path.
fn is_refused(rt: HostRuntime, path: &str) -> bool {
    matches!(
        done_in_file(rt, path, Doing::Nothing),
        Err(KeepFault::Failed)
    )
}

#[test]
fn what_is_no_store_is_refused_and_left_alone(rt: HostRuntime) -> Result<(), Fail> {
    let _ = fs::remove_dir_all(&rt, "no_store");
    fs::create_dir(&rt, "no_store")?;
    fs::create_dir(&rt, "no_store/folder")?;
    fs::write(&rt, "no_store/text", "no database")?;
    for path in [
        "no_store/text",
        "no_store/folder",
        "no_store/absent/a.db",
        "",
    ] {
        assert!(rt; is_refused(rt.clone()?, path), "{path}");
    }
    let left = fs::read(&rt, "no_store/text")?;
    assert_eq!(rt; left.as_slice(), b"no database".as_slice());
    fs::remove_dir_all(&rt, "no_store")?;
    Ok(())
}
