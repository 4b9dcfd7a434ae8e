//! What a dividend pays on a position, and whether it is paid in cash or reinvested in shares.
#![tactic(auto)]

pub mod laws;
mod payment;
pub mod worked;

pub use crate::payment::{Payment, pay};
