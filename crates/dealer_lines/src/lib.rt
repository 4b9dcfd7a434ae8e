//! A dealer's lines in order, each answered behind those before it: the orders that earlier lines placed stand beside the
//! book, which stays as it is.
#![tactic(auto)]

mod answering;
mod earlier;
pub mod laws;
mod repeats;
mod rules;
mod verdicts;

pub use crate::answering::{LinesAnswered, answer_lines};
