//! The commands of the program `desk`, on any machine, over any reader and writers.
#![tactic(auto)]

mod asked_words;
mod commands;
mod explained;
mod file_command;
mod file_commands;
mod help;
mod invocation;
mod shown_commands;

pub use commands::{run, start};
