//! What is told of a household and of the books: the statement of an account, what it holds, what became of an order, the
//! shares and the cash of all, and the first reply to an event. Each is exactly the definition's, over one household's state
//! and trades or over the books that are kept.
#![tactic(auto)]

mod account_looks;
mod event_replies;
mod holdings;
mod kept_books;
mod latest_prices;
pub mod lawful_statements;
pub mod laws;
pub mod look_laws;
mod order_traces;
mod periods;
mod sheet_trades;
mod statements;
mod trade_fields;
mod trade_lines;
mod words;

pub use crate::account_looks::show_reply;
pub use crate::event_replies::{event_reply, repeat_reply};
pub use crate::kept_books::{ClassShares, books_reply};
pub use crate::latest_prices::latest_nav;
pub use crate::order_traces::{order_state, trace_reply};
pub use crate::statements::statement;
