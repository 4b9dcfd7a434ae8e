//! The requests of a connection: bytes in whatever pieces they come, and one item after another out of them.
//!
//! What an item is, is said in specs/: `Lines`, `Heads`, then `Stream`. This crate knows no routes: a message waits for its body
//! whatever it asks, and what it asks is read by the crate above.
#![tactic(auto)]

mod fault;
mod head;
mod intake;
pub mod laws;
mod scan;

pub use crate::fault::HttpFault;
pub use crate::head::HeadAt;
pub use crate::intake::{Front, Intake};
