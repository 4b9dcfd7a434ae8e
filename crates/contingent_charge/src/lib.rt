//! The contingent deferred sales charge of a redemption: the rate by the years since the purchase, and what it takes of the
//! lesser of cost and value.
#![tactic(auto)]

mod charging;
pub mod laws;
mod rates;
pub mod worked;

pub use crate::charging::{Charged, charge};
pub use crate::rates::rate_on;
