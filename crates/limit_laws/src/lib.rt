//! Laws of the limits: how many things a journal has and what a full one answers, the price of each trade, how much each and all of
//! them move, and that changes between two replays stay within what a post may have. It has no code but laws.
#![tactic(auto)]

pub mod count_laws;
pub mod full_laws;
pub mod post_laws;
pub mod price_laws;
pub mod run_laws;
pub mod trade_laws;
