//! The offering price of a load fund's shares, the split of a purchase into shares, proceeds and charge, and the rate that a
//! purchase reaches together with what its household owns.
#![tactic(auto)]

mod accumulation;
pub mod laws;
mod purchase;
pub mod worked;

pub use crate::accumulation::{Holding, bracket, credit, credit_of_holding};
pub use crate::purchase::{Split, buy_split, price_of};
