//! A run of the program `agent` on the words of its command line, over any store, door, clock, input and output: the top call,
//! and the command that the words give.
#![tactic(auto)]

mod applying;
mod command;
mod commands;
mod ends;
mod loading;
mod opening;
mod options;
mod serving;
pub mod worked;

pub use crate::command::{Command, command_of};
pub use crate::commands::run;
pub use crate::ends::{Status, no_memory};
