//! Tested, and not proved: only the reading of its own word has a contract. What is said of a command that
//! was refused (`--explain`), for people: it looks, once the command has ended, at what was refused,
//! and has lines for behind the one that tells of the refusal.
#![tactic(auto)]

mod asked;
mod explain_word;
mod explanation;
mod file_fault;
mod kept;
mod last_line;
mod meanings;
mod named_file;
mod store_fault;
mod store_tables;
mod told;

pub use asked::Asked;
pub use explain_word::take_explain;
pub use explanation::{Ended, explain};
pub use kept::Kept;
pub use last_line::LastLine;
