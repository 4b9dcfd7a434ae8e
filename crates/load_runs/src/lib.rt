//! A load: the register over a generated book, kept in memory alone, and the summary of what it made.
#![tactic(auto)]

mod answers;
mod laws;
mod load;
mod looks;
mod running;
mod summary;
mod text;

pub use crate::load::load_text;
