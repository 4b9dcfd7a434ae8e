//! Laws that make one household's replay by facts the part of the whole replay of a journal, and that say what a ledger and
//! the states kept of households are to a journal. It has no code but laws.
#![tactic(auto)]

pub mod book_laws;
pub mod class_totals;
pub mod correction_laws;
pub mod fact_laws;
pub mod laws;
pub mod part_laws;
pub mod plain_laws;
pub mod replay_parts;
pub mod sheet_laws;
pub mod total_laws;
