//! A letter of intent: purchases of one class that have the rate of an amount stated ahead, the shares that are held in
//! escrow for it, and what is paid from these where the amount isn't reached within 13 months.
#![tactic(auto)]

pub mod laws;
mod letter;
pub mod worked;

pub use crate::letter::{Letter, Noted, Settlement};
