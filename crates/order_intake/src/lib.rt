//! Order intake: who calls, whether it was said before, and the verdict on each request.
#![tactic(auto)]

mod admitting;
mod book;
mod fresh;
mod repeats;
mod terms;
mod verdicts;

pub use crate::admitting::{admit, caller_of};
pub use crate::book::Book;
pub use crate::repeats::first_repeated;
pub use agent_events::{Caller, Verdict};
