//! Texts of scripts: the records of comma-separated values, the items that they ask, and replies as texts and lines.
#![tactic(auto)]

mod records;
mod reply_field_texts;
mod reply_lines;
mod reply_texts;
mod rows;
mod script;
pub mod worked;

pub use crate::reply_field_texts::reply_fields;
pub use crate::reply_lines::reply_line;
pub use crate::rows::{Fields, append_line, push_field, records_of, slices_of};
pub use crate::script::ScriptItems;
