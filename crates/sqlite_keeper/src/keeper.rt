//! The keeper over a file.
ghost use Rattle.std.specs.Prelude.{◌≡◌, ◌≢◌, ◌+◌, ◌-◌, ◌^◌, false, true, Err, IsTrue, OnOk, OnErr, length, min};
ghost use Rattle.agent_keeper.specs.Calls.{Counts};
ghost use Rattle.sqlite.specs.Held.{state};
ghost use Rattle.sqlite.specs.State.{HasCleanDisk, Survives};
ghost use Rattle.sqlite_keeper.specs.Commits.{changes_of, MakesAll};
ghost use Rattle.sqlite_keeper.specs.Keeper.{has_store, faults_made};

use crate::commit::commit_batch;
use crate::faults::fault_of;
use crate::reads::{count_rows, find_check, find_row};
use crate::tables::make_tables;
use agent_keeper::{Batch, KeepFault, Keeper};
use sqlite::{Alter, Connection, File, FileStore};

/// An open store. Nobody else writes the file while it is open, so the number of rows is known between calls.
#[derive(Drop)]
struct Store<S: Alter> {
    conn: Connection<S>,
    rows: u64,
}

// Opens the path and makes the two tables where they are missing.
fn open_store(rt: &HostRuntime, path: &str) -> Result<Store<FileStore<File>>, KeepFault> {
    let mut conn = Connection::open(rt, path).map_err(fault_of)?;
    make_tables(&mut conn)?;
    let rows = count_rows(&mut conn)?;
    Ok(Store { conn, rows })
}

impl<S: Alter> Store<S> {
    fn count(&mut self) -> Result<u64, KeepFault> {
        self.rows = count_rows(&mut self.conn)?;
        Ok(self.rows)
    }

    fn commit(&mut self, base: u64, batch: &Batch) -> Result<(), KeepFault>
        ensures base { self.old.rows ≢ base
            → (result ≡ Err KeepFault.Failed) × (self.new ≡ self.old) }
        ensures rows { OnOk result
            (self.new.rows ≡ min (base + length batch.now.rows) (2 ^ 64 - 1)) }
        ensures whole { HasCleanDisk (state S.Store self.new.conn)
            → OnOk result
            (MakesAll (state S.Store) (changes_of base batch.now)
            (record self.old.conn { in_transaction = true }) (state S.Store self.new.conn).committed
            × ((state S.Store self.new.conn).now ≡ (state S.Store self.new.conn).committed)) }
        ensures neither { HasCleanDisk (state S.Store self.new.conn)
            → IsTrue (state S.Store self.new.conn).is_open
            → OnErr result
            (((state S.Store self.new.conn).now ≡ (state S.Store self.old.conn).now)
            × ((state S.Store self.new.conn).committed ≡ (state S.Store self.old.conn).committed)) }
        ensures crash { Survives (state S.Store self.old.conn) (state S.Store self.new.conn)
            (λ trees. (db : _)
            × MakesAll (state S.Store) (changes_of base batch.now)
            (record self.old.conn { in_transaction = true }) db
            × (trees ≡ db.trees)) }
    {
        if self.rows != base {
            return Err(KeepFault::Failed);
        }
        commit_batch(&mut self.conn, base, batch)?;
        self.rows = base.saturating_add(batch.rows.as_slice().len() as u64);
        Ok(())
    }
}

/// Keeps rows in the tables `journal` and `checks` of a SQLite file, each commit as one transaction. Every refusal of
/// the database but want of memory raises its count of faults, and so does an answer that its statements do not give
/// over these tables, or a `base` that is not the number of rows. It tells nothing yet of what the file holds.
#[derive(Drop)]
pub struct SqliteKeeper {
    rt: HostRuntime,
    store: Option<Store<FileStore<File>>>,
    faults: u64,
}

impl SqliteKeeper {
    /// A keeper that has no store until `attach`, which opens the path and makes the two tables where they are missing.
    pub fn new(rt: HostRuntime) -> SqliteKeeper
        ensures store { has_store result ≡ false }
        ensures faults { faults_made result ≡ 0 }
    {
        SqliteKeeper {
            rt,
            store: None,
            faults: 0,
        }
    }

    // Counts an answer that is a fault.
    fn counted<T>(&mut self, answer: Result<T, KeepFault>) -> Result<T, KeepFault>
        ensures same { result ≡ answer }
        ensures counted { Counts (faults_made self.old) (faults_made self.new) result }
        ensures store { self.new.store ≡ self.old.store }
    {
        if matches!(answer, Err(KeepFault::Failed)) {
            self.faults = self.faults.saturating_add(1);
        }
        answer
    }
}

impl Keeper for SqliteKeeper {
    ghost tells = { λ _ _. ⊥ };

    ghost faults = { faults_made };

    ghost moment = { λ _. 0 };

    ghost gave = { λ _ _ _. Unit {0} };

    ghost is_attached = { has_store };

    ghost is_honest = { λ _. ⊥ };

    ghost may_leave = { λ _ _. Unit {0} };

    ghost one_content = { λ _ _ _ told _. absurd told };

    ghost honest = { λ _ _ told. told };

    ghost stop_leaves = { λ _ _ told. absurd told };

    fn attach(&mut self, path: &str) -> Result<(), KeepFault> {
        if self.store.is_some() {
            return Ok(());
        }
        match open_store(&self.rt, path) {
            Ok(store) => {
                self.store = Some(store);
                Ok(())
            }
            Err(fault) => self.counted(Err(fault)),
        }
    }

    fn len(&mut self) -> Result<u64, KeepFault> {
        let answer = match &mut self.store {
            Some(store) => store.count(),
            None => unreachable!(),
        };
        self.counted(answer)
    }

    fn row(&mut self, seq: u64, into: &mut Vec<u8>) -> Result<bool, KeepFault> {
        let answer = match &mut self.store {
            Some(store) => find_row(&mut store.conn, seq, into),
            None => unreachable!(),
        };
        self.counted(answer)
    }

    fn check(&mut self, household: u32, sheet: u32, into: &mut Vec<u8>) -> Result<bool, KeepFault> {
        let answer = match &mut self.store {
            Some(store) => find_check(&mut store.conn, household, sheet, into),
            None => unreachable!(),
        };
        self.counted(answer)
    }

    fn commit(&mut self, base: u64, batch: &Batch) -> Result<(), KeepFault> {
        let answer = match &mut self.store {
            Some(store) => store.commit(base, batch),
            None => unreachable!(),
        };
        self.counted(answer)
    }
}
