//! The requests of a load, one at a time: a calendar, two classes, households and their accounts,
//! and then day by day an order of every household, the sheet, and on every tenth day a correction.
//! What is drawn is drawn from the load's number alone, so that two loads of one number ask the
//! same.
#![tactic(auto)]

mod day;
mod draws;
pub mod laws;
mod load;
mod numbers;
mod opening;
mod presenting;
mod progress;
mod requests;
mod steps;
pub mod worked;

pub use crate::load::{Load, Sent};
pub use crate::requests::LoadRequests;
