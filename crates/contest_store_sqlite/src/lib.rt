//! A contest in SQLite tables, with its lists held in memory.
#![tactic(auto)]

mod additions;
mod celless;
mod cells;
mod creation;
mod files;
mod keeper;
mod older;
mod open_error;
mod opening;
mod reads;
mod store;
mod upgrading;

pub use open_error::OpenError;
pub use store::Store;
