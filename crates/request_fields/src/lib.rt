//! The fields of requests: the form of each field, read once for script records, batch records, JSON members and the parts of a
//! path, and what the fields of each verb ask.
#![tactic(auto)]

mod fault;
mod field_forms;
mod list_forms;
mod order_forms;
mod reading;
mod text_forms;
mod verb_forms;

pub use crate::fault::FormFault;
pub use crate::field_forms::{moment_of, place_of};
pub use crate::order_forms::{is_order, line_asked, order_count};
pub use crate::verb_forms::asked_by;
pub use money_units::same_bytes;
