//! The journal of the register as a book of orders: the events in turn, the orders as corrected, and whatever rules, ledger
//! and desk look up in them, over indexes that don't grow slow. To note an event takes no memory: `reserve` takes it before.
#![tactic(auto)]

mod book;
mod hash_numbers;
mod identities;
mod identity;
mod indexes;
mod keys;
mod kinds;
pub mod laws;
mod look_ups;
mod numbers;
mod order_index;
mod orders;
mod purchases;
mod rates;
mod room;
mod tally;
mod trials;

pub use crate::book::OrderBook;
pub use crate::identity::Identity;
pub use crate::purchases::buys_class;
pub use crate::trials::{row_begun, row_on_trial};
