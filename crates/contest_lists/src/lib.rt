//! A contest in memory: its lists, and one change of them.
#![tactic(auto)]

mod copies;
mod filling;
mod fixed_changes;
mod indexed_rows;
mod indexed_submissions;
mod lists;
mod on_submission;
mod outcomes;
mod valid_fixed;

pub use copies::{CopyRow, copied_bytes, copied_fixed};
pub use fixed_changes::add_account;
pub use lists::{Lists, push};
pub use on_submission::OnSubmission;
pub use valid_fixed::is_valid_fixed;
