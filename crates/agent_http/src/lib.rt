//! HTTP: what a request asks by its route and its body, and replies into bytes.
#![tactic(auto)]

mod bodies;
mod body;
mod bytes;
mod calls;
mod faults;
mod feed;
mod flat;
mod member_names;
mod members;
mod reply_names;
mod routes;
mod shows;
pub mod worked;

pub use crate::bytes::{batch_bytes, reply_bytes};
pub use crate::calls::CallAsk;
pub use crate::faults::fault_bytes;
pub use crate::feed::{Call, Feed, Step};
