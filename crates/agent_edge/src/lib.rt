//! Where bytes come from and go to.
//!
//! The program meets the outside through small traits, so that its contracts can speak of what was read and
//! written. A [`Source`] gives bytes and a [`Sink`] takes them. Each may tell its bytes to the proofs, and each
//! counts its faults: a call answers a fault only where that count rose. A [`Door`] hands out connections, one after the
//! other, and counts the faults of its own and those of its connections apart. A [`Clock`] tells moments that never fall.
//!
//! [`MemorySource`] and [`MemorySink`] tell all and fail exactly where they are told to. [`ReaderSource`] and
//! [`WriterSink`] stand over any reader and writer of std and tell what these tell. The standard ones are the
//! trusted edge: they tell nothing, and that their counts rise only where the system failed is std's word.
//!
//! [`MemoryDoor`] and [`MemoryClock`] tell all. [`TcpDoor`] and [`SystemClock`] are the trusted edge too.
#![tactic(auto)]

mod call_counts;
mod clocks;
mod doors;
mod memory_clock;
mod memory_door;
mod memory_link;
mod memory_sink;
mod memory_source;
mod replies;
mod sinks;
mod sources;
mod standard;
mod system_clock;
mod tcp_door;
mod whole;

pub use clocks::Clock;
pub use doors::{Door, DoorFault, LinkFault};
pub use memory_clock::MemoryClock;
pub use memory_door::{Connections, MemoryDoor};
pub use memory_link::MemoryLink;
pub use memory_sink::MemorySink;
pub use memory_source::MemorySource;
pub use replies::write_reply;
pub use sinks::{Sink, SinkFault};
pub use sources::{Source, SourceFault};
pub use standard::{ReaderSource, StdinSource, StdoutSink, WriterSink};
pub use system_clock::SystemClock;
pub use tcp_door::TcpDoor;
pub use whole::{ReadFault, read_up_to, write_whole};
