//! Published sheets of net asset values, and the look-ups that give an order its price.
#![tactic(auto)]

mod correcting;
mod expecting;
mod in_order;
pub mod laws;
mod lookups;
mod next_price;
mod price_book;
mod price_sheet;
mod room;
mod sheet;
pub mod worked;

pub use crate::lookups::{lists_class, nav_on};
pub use crate::price_book::PriceBook;
pub use crate::price_sheet::{NoSheet, Opening, Patch, PublishFault, Sheet};
pub use crate::sheet::Prices;
