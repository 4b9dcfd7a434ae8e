//! The rows that a state of the register is made of: accounts, orders and rates.
use money_units::{List, Moment};

/// An account with its household, and its dealer or 0 for none.
#[derive(Clone, Copy, Debug, PartialEq, Eq)]
pub struct AccountRow {
    pub account: u32,
    pub household: u32,
    pub dealer: u32,
}

/// The dividend rate of a class at a pricing moment, in millionths of a dollar per share.
#[derive(Clone, Copy, Debug, PartialEq, Eq)]
pub struct RateRow {
    pub class: u32,
    pub moment: Moment,
    pub rate: u64,
}

/// The dividend rates by class and moment.
pub type Rates = List<RateRow>;
