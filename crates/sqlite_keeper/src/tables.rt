//! The two tables, and the six statements over them.
use crate::faults::fault_of;
use agent_keeper::KeepFault;
use sqlite::{Alter, Connection};

pub const MAKE_JOURNAL: &str =
    "CREATE TABLE IF NOT EXISTS journal(seq INTEGER PRIMARY KEY, bytes BLOB NOT NULL)";

pub const MAKE_CHECKS: &str =
    "CREATE TABLE IF NOT EXISTS checks(household INTEGER NOT NULL, sheet INTEGER NOT NULL, bytes BLOB NOT NULL, PRIMARY KEY (household, sheet))";

pub const COUNT_ROWS: &str = "SELECT count(*) FROM journal";

pub const READ_ROW: &str = "SELECT bytes FROM journal WHERE seq = ?1";

pub const READ_CHECK: &str = "SELECT bytes FROM checks WHERE household = ?1 AND sheet = ?2";

pub const INSERT_ROW: &str = "INSERT INTO journal (seq, bytes) VALUES (?1, ?2)";

pub const PUT_CHECK: &str =
    "INSERT INTO checks (household, sheet, bytes) VALUES (?1, ?2, ?3) ON CONFLICT (household, sheet) DO UPDATE SET bytes = excluded.bytes";

pub const REMOVE_CHECK: &str = "DELETE FROM checks WHERE household = ?1 AND sheet = ?2";

/// Makes the tables where they are missing.
pub(crate) fn make_tables<S: Alter>(conn: &mut Connection<S>) -> Result<(), KeepFault> {
    conn.execute(MAKE_JOURNAL, &[]).map_err(fault_of)?;
    conn.execute(MAKE_CHECKS, &[]).map_err(fault_of)?;
    Ok(())
}
