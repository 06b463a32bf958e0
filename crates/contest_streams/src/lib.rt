//! Streams whose failures are counted: one is read to its end, or written whole.
#![tactic(auto)]

mod counted;
mod input;
mod output;

pub use counted::Counted;
pub use input::{InputFault, RETRIES, read_limited, read_piece};
pub use output::{OutputFault, write_all};
