//! One household over one sheet: what its dividends, letters and orders make of its positions.
#![tactic(auto)]

mod credits;
mod dividends;
mod election;
mod exchange;
mod facts;
pub mod laws;
mod letters;
mod listed_prices;
pub mod look_ups;
mod made_trades;
mod orders;
mod purchase;
mod quiet;
mod reads;
mod redemption;
mod state;
mod steps;

pub use crate::facts::Facts;
pub use crate::state::HouseholdState;
pub use crate::steps::Steps;
pub use agent_events::{Outcome, Trade, TradeKind, Trades, Why};
