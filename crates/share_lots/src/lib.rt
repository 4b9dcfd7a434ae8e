//! What a holder owns of one class, lot by lot: shares by date and cost, those free of a deferred charge, and those held
//! in escrow; and which lots a redemption takes.
#![tactic(auto)]

mod adding;
mod escrow;
pub mod laws;
mod lot;
mod lot_list;
mod paying;
mod pieces;
mod position;
mod position_lots;
mod shared_block;
mod taking;
mod value;
pub mod worked;

pub use lot::{Lot, Piece};
pub use pieces::Pieces;
pub use position::{Position, TakeFault};
pub use value::value_at;
