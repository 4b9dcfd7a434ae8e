//! Connections of the desk over HTTP: each request is answered as the register machine does, kept, and then replied to.
#![tactic(auto)]

mod answering;
mod batches;
mod in_turn;
pub mod laws;
mod serving;
mod texts;

pub use crate::in_turn::serve_connections;
pub use crate::serving::{Served, serve_connection};
