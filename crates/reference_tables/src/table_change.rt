//! What an event changes in the tables, with the memory for it.
use crate::room::Room;
use agent_events::{AccountRow, RateRow};
use class_terms::Terms;

/// The row that an event brings, and the memory in which a table with it fits.
#[derive(Drop)]
pub enum TableChange {
    /// The event changes no table.
    Nothing,
    Class(Terms, Room<Terms>),
    Account(AccountRow, Room<AccountRow>),
    /// The rate of a dividend.
    Dividend(RateRow, Room<RateRow>),
    /// A corrected rate.
    FixedRate(RateRow, Room<RateRow>),
}
