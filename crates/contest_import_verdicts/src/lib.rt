//! What a file of verdicts adds to a contest.
#![tactic(auto)]

mod imported;
pub mod laws;
mod reading;
mod record;
mod verdicts;

pub use reading::read_verdicts_csv;
