//! The contest desk: a request or a file in, its answer out, and what it adds to the contest kept.
#![tactic(auto)]

mod added_count;
mod awards;
mod board;
mod desk;
mod found;
mod import;
mod imported;
mod in_memory;
mod item;
mod keep;
pub mod laws;
mod run;
mod serve;
mod standing;

pub use contest_operations::{
    AllowedMethods, Command, ContentType, Endpoint, ExtraField, Offer, Operation, Reading, Reply,
    ReplyBody,
};
pub use contest_requests::{Credential, KeyField, Method, Request};
pub use desk::Desk;
pub use in_memory::{handle_in_memory, run_two_in_memory};
pub use item::{Answer, ImportItem, Item, RequestItem};
