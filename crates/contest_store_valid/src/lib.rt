//! Whether the lists of a contest are a valid contest: one test for each list, each with work that
//! grows little faster than the list.
#![tactic(auto)]

mod accounts;
mod addressees;
mod clarifications;
mod keys;
mod members;
mod named;
mod numbering;
mod proposals;
mod rejudgings;
mod releases;
mod replies;
mod senders;
mod standing;
mod submissions;
mod times;
mod valid;

pub use valid::is_valid;
