//! What an exchange carries from one class of a family into another: the same shares by date, cost and free mark, in new mils.
#![tactic(auto)]

mod carrying;
pub mod laws;
mod renewing;
pub mod worked;

pub use crate::carrying::{Carried, carry};
