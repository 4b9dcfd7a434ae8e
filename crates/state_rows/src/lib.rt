//! The checkpoint row of a household's positions: its one spelling, byte for byte, and what reads it again.
//!
//! The spelling, the rules and the limits are definitions in specs/. Bytes that are no such row are told from those that are.
#![tactic(auto)]

mod classes;
pub mod laws;
mod readers;
mod rows;
mod rules;
pub mod worked;
mod writers;

pub use crate::rows::{decode_state, encode_state};
