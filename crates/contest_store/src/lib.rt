//! Where a contest is kept: what any store of one promises, and a store in memory.
#![tactic(auto)]

pub mod laws;
mod memory;
mod scored_lists;
mod scoring;
mod store;
mod store_error;

pub use memory::MemoryStore;
pub use scored_lists::ScoredLists;
pub use store::ContestStore;
pub use store_error::StoreError;
