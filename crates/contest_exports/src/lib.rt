//! What `export` writes of a contest: its submissions as CSV, one by one while a store is read, and
//! its results as ICPC's systems take them.
#![tactic(auto)]

mod export;
pub mod laws;
mod order;
mod record;
mod results;
mod walk;

pub use export::{ExportFault, submissions_csv};
pub use results::results_tsv;
pub use walk::Walk;
