//! The answers to the items of a script, one after the other, over a store and a sink.
#![tactic(auto)]

mod answering;

pub use crate::answering::{AnswerFault, answer_script};
