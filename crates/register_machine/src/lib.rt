//! The register machine: the definitions that the register is proved to follow, from the journal to the lines of a script,
//! chapter by chapter (specs/Lib.antt is the reading order). Its laws stand in `register_laws`, its worked scripts in
//! `register_worked`; here stand the law of a register of which nothing happened, and the two functions that
//! read the classes of an order.
#![tactic(auto)]

pub mod laws;
mod order_classes;

pub use crate::order_classes::{class_of, target_of};
