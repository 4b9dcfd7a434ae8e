//! Tables by number: a hasher that takes a number of up to eight bytes in one step, and maps and sets that use it.
#![tactic(auto)]

mod hasher;
mod tables;

pub use crate::hasher::NumberHasher;
pub use crate::tables::{NumberMap, NumberSet, number_map, number_set};
