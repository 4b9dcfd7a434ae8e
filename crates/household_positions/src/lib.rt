//! The positions of one household by account and class, and the day that goes on over them: what a sheet finds, takes out,
//! puts back and writes down.
#![tactic(auto)]

mod day;
mod held;
mod kept;
mod kept_letter;
mod key;
mod places;
mod register;

pub use crate::day::HouseholdDay;
pub use crate::held::HeldPosition;
pub use crate::kept::KeptPosition;
pub use crate::key::{PositionKey, PositionKeys};
pub use crate::register::HouseholdRegister;
