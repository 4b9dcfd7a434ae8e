//! The rules of the register: who may ask what, and the first rule that a request breaks, each rule over look-ups that don't grow
//! slow.
#![tactic(auto)]

mod cancels;
mod corrections;
mod days;
mod first_rule;
mod inquiry;
pub mod laws;
mod limits;
mod looks;
mod orders;
mod rights;
mod rules;
mod set_up;

pub use crate::first_rule::{broken_rule, broken_rule_by, due_now, due_of_request};
pub use crate::inquiry::Inquiry;
pub use crate::orders::below_least;
pub use crate::rights::no_right;
pub use crate::rules::refused_when;
