//! Laws of the register machine in the trade's words, proved of every journal, request and run, with the lemmas that the
//! crates above cite. It has no code but laws.
#![tactic(auto)]

pub mod answer_laws;
pub mod batch_laws;
pub mod cash_laws;
pub mod household_laws;
pub mod identity_laws;
pub mod journal_laws;
pub mod machine_laws;
pub mod pricing_laws;
pub mod replay_laws;
pub mod replays;
pub mod row_laws;
pub mod trade_laws;
