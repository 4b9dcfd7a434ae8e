//! The stored row of each event: its one spelling, byte for byte, and what reads it again.
//!
//! The spelling is a definition in specs/, kind by kind: the version, the kind, the moment and the fields, numbers with the
//! high byte first. Bytes that are no event's row are told from those that are.
#![tactic(auto)]

mod fault;
pub mod field_laws;
mod kind_readers;
mod kind_writers;
pub mod laws;
mod list_readers;
mod list_writers;
mod reader;
mod rows;
pub mod worked;
mod writer;

pub use crate::fault::RowFault;
pub use crate::reader::RowReader;
pub use crate::rows::{decode, encode};
pub use crate::writer::RowWriter;
