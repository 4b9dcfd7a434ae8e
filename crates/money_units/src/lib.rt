//! The units of a transfer agent: cents, mils, basis points and net asset values, how they are rounded, and how
//! they are written and read.
#![tactic(auto)]

mod byte_texts;
mod faults;
pub mod laws;
mod list;
mod moment;
mod printing;
mod reading;
mod rounding;
mod units;
pub mod worked;

pub use crate::byte_texts::{all_visible, begins, same_bytes};
pub use crate::faults::{NoMemory, TextFault};
pub use crate::list::{Bytes, List};
pub use crate::moment::{MAX_MOMENT_SECONDS, Moment};
pub use crate::printing::{print_cents, print_mils, print_number, print_signed};
pub use crate::reading::{
    is_digits, read_cents, read_mils, read_number, read_rate, value_of_digits,
};
pub use crate::rounding::{ceil_div, half, signed_half};
pub use crate::units::{Bps, Cents, MAX_NAV_CENTS, Mils, Nav};
