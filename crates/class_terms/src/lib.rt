//! The terms of a share class: its table of front-end loads, its schedule of deferred loads and its minimums.
#![tactic(auto)]

mod checking;
mod faults;
mod form;
pub mod laws;
mod lists;
mod terms;
pub mod worked;

pub use crate::checking::{MAX_BRACKETS, MAX_RATE, MAX_SCHEDULE_ROWS, check};
pub use crate::faults::TermFault;
pub use crate::form::TermsForm;
pub use crate::lists::{Bracket, Brackets, Label, Schedule};
pub use crate::terms::{Terms, TermsTable};
