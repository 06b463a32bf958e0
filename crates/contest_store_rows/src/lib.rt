//! The lists of a contest as rows of their tables: the cells of each row, and what a row that was
//! read is.
#![tactic(auto)]

mod cells;
mod clarifications;
pub mod laws;
mod lists;
mod members;
mod proposals;
mod references;
mod rejudgings;
mod releases;
mod submissions;
mod versions;

pub use cells::{cell, id_in, is_row, is_set, name_in, number, number_at, text_at};
pub use clarifications::clarification_cells;
pub use lists::{Listed, read_list};
pub use members::{account_cell, is_ready, member_cells, type_cell};
pub use proposals::proposal_cells;
pub use references::ReplyId;
pub use rejudgings::{read_rejudgings, rejudging_cells, state_number};
pub use releases::release_cells;
pub use submissions::submission_cells;
pub use versions::{VERSION, Version};
