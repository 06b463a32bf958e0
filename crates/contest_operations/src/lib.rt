//! What may be asked of a contest, and what each request comes to, whoever keeps the contest:
//! routes, callers, reads, commands, replies.
#![tactic(auto)]

mod answering;
mod asked;
mod asking;
mod caller;
mod clarify;
mod command;
pub mod laws;
mod offer;
mod operation;
mod outcome;
mod path;
mod post_change;
mod reading;
mod reply;
mod route_table;
mod submit;
mod wish;

pub use answering::{answer, file_needed};
pub use asking::ask;
pub use command::{Command, Posted};
pub use offer::{AllowedMethods, Offer};
pub use operation::{Endpoint, JuryReading, Operation, Reading};
pub use outcome::Outcome;
pub use post_change::ChangeKind;
pub use reply::{ContentType, ExtraField, Reply, ReplyBody};
pub use route_table::routes;
pub use wish::Wish;
