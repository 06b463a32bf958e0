//! The command `audit`, over any reader and writers: its words, and the board of the contest that
//! an event feed spells, which is printed or held beside another system's.
#![tactic(auto)]

mod audit_command;
mod audit_words;
mod left_out_line;
mod other_board;

pub use audit_command::audit;
pub use audit_words::AuditWords;
