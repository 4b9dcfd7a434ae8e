//! Who holds how much cash, what a correction gains or loses each class, and who pays a loss.
#![tactic(auto)]

mod cash_book;
mod change_rows;
mod class_flows;
mod class_gains;
mod flows;
mod latest_price;
pub mod laws;
mod limits;
mod party_accounts;
mod posting;
mod tally;
mod trade_changes;
mod trade_flows;

pub use crate::cash_book::CashBook;
pub use crate::class_flows::ClassFlows;
pub use crate::class_gains::gains;
pub use crate::flows::{Flow, FlowRows};
pub use crate::latest_price::latest_sheet;
pub use crate::limits::{cash_within, classes_are_numbered, gains_within, shares_within};
pub use crate::party_accounts::Accounts;
pub use crate::posting::Correction;
pub use crate::tally::Tally;
