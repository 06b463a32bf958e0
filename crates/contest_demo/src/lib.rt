//! The demo contest, on which tests and examples stand, for any store.
#![tactic(auto)]

pub mod demo;
mod entries;
mod filling;
pub mod first_schema;
mod rows;
