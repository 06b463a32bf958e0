//! The settings, the accounts and the marks of a contest as rows of their tables, and those that
//! rows are; and the lists of a contest that the rows of all its tables are.
#![tactic(auto)]

mod accounts;
mod fixed_part;
mod heads;
mod items;
pub mod laws;
mod loaded_rows;
mod reading;
mod settings;
mod team_items;

pub use accounts::{account_cells, digest_cells};
pub use fixed_part::{is_desk, read_fixed};
pub use heads::{contest_cells, desk_cells, duration_cells, marks_cells};
pub use items::{group_cells, language_cells, problem_cells, type_cells};
pub use loaded_rows::LoadedRows;
pub use reading::read_lists;
pub use team_items::{joined_ids, team_cells, team_name_cells};
