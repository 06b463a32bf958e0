//! The command `replay`, over any reader and writers: its words, and the board of the contest that
//! is read.
#![tactic(auto)]

mod replay_command;
mod replay_text;
mod replay_words;

pub use replay_command::replay;
pub use replay_text::{contest_board, contest_text};
pub use replay_words::ReplayWords;
