//! The orders of each household, one after the other, and the orders that may wait for a price: a sheet takes the waiting ones
//! that it prices, a correction reads one household's alone. To begin an order takes no memory: `reserve` takes it before. And
//! the households that have named each class, which a corrected price or rate asks for.
#![tactic(auto)]

mod chains;
mod class_households;
mod entries;
mod household_orders;
pub mod laws;
mod own_orders;
mod row_sheet;
mod sheet_orders;
mod waiting;
pub mod waiting_laws;

pub use crate::class_households::ClassHouseholds;
pub use crate::household_orders::HouseholdOrders;
pub use crate::own_orders::orders_of_household;
pub use crate::sheet_orders::orders_priced;
