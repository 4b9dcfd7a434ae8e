//! A keeper whose rows stand in two tables of a SQLite file.
#![tactic(auto)]

mod commit;
mod faults;
mod keeper;
mod reads;
mod tables;

pub use crate::keeper::SqliteKeeper;
