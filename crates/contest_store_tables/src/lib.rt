//! The tables of a contest: what they show, and the statements on them.
#![tactic(auto)]

mod counts;
mod forms;
mod later_table;
mod row_change;
mod schema_test;
mod standing;
mod statements;
mod table_name;
mod tables;
mod texts;

pub use counts::{Counts, one_more};
pub use later_table::LaterTable;
pub use row_change::RowChange;
pub use standing::Standing;
pub use table_name::{ALL_TABLES, LIST_TABLES, TableName};
pub use tables::Tables;
