//! What no run over objects in memory shows of the edge: readers and writers, the system's streams, sockets and clock, the readings
//! of a clock in memory, both keepers in memory call by call, and a store in a SQLite file.
#![tactic(auto)]

#[cfg(test)]
mod batches;
#[cfg(test)]
mod clocks;
#[cfg(test)]
mod doors;
#[cfg(test)]
mod files;
#[cfg(test)]
mod memory;
#[cfg(test)]
mod pieces;
#[cfg(test)]
mod streams;
