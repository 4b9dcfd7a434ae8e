//! What the desk keeps of a journal, and how an event changes it: what takes memory is made before, and to apply it takes none.
//! A sheet is tried on the books before it is an event, and so is a correction, which tells the first order that it breaks.
#![tactic(auto)]

mod advance;
mod applying;
mod books;
mod breaking;
mod broken;
mod change;
mod correction_trial;
pub mod effect_laws;
mod filled;
mod forgetting;
mod index;
mod keeping;
mod least;
mod moving;
mod naming;
mod noting;
mod posting;
mod preparing;
mod reach;
mod references;
mod reopening;
mod sheet_trial;
mod starts;
mod turns;
pub mod unreached_households;

pub use crate::books::DeskBooks;
pub use crate::change::{EventChange, LedgerChange, OrderChange};
pub use crate::correction_trial::{Tried, try_correction};
pub use crate::index::{household_of, sheets_published};
pub use crate::noting::note_order;
pub use crate::sheet_trial::try_sheet;
