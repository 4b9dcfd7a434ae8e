//! What no run of the program shows of its parts: a desk's own calls, copies, checkpoint rows by themselves, lines as they are
//! written, replies that no request brings about, long rows, and the words of the command line. What a run shows is a case of
//! `scenarios`.
#![tactic(auto)]

#[cfg(test)]
mod copies;
#[cfg(test)]
mod copies_of_events;
#[cfg(test)]
mod desks;
#[cfg(test)]
mod lines;
#[cfg(test)]
mod long_rows;
#[cfg(test)]
mod replies;
#[cfg(test)]
mod rows_of_states;
#[cfg(test)]
mod scripts;
#[cfg(test)]
mod words;

use std::process::ExitCode;

/// Nothing: this crate is its tests. It is a program and no library, since nothing stands on it.
fn main(_rt: HostRuntime) -> ExitCode {
    ExitCode::SUCCESS
}
