//! Worked scripts of the register, as laws: the checker computes the machine's lines from a script's bytes. Nothing stands on
//! this crate.
#![tactic(auto)]

pub mod worked_accumulation;
pub mod worked_batches;
pub mod worked_books;
pub mod worked_calendars;
pub mod worked_callers;
pub mod worked_ceilings;
pub mod worked_corrections;
pub mod worked_dividends;
pub mod worked_forms;
pub mod worked_letters;
pub mod worked_limits;
pub mod worked_loads;
pub mod worked_lots;
pub mod worked_members;
pub mod worked_minimums;
pub mod worked_named;
pub mod worked_orders;
pub mod worked_purchases;
pub mod worked_redemptions;
pub mod worked_refusals;
pub mod worked_repeats;
pub mod worked_sheets;
pub mod worked_statements;
pub mod worked_turns;
pub mod worked_views;
