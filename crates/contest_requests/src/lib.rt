//! What a request says: its method and path, its key, and the bodies of what is posted.
#![tactic(auto)]

mod clarification_body;
mod clock_body;
mod extension_body;
mod jury_verdict;
mod rejudging_body;
mod request;
mod submission_body;
mod wanted_ids;

pub use clarification_body::read_clarification;
pub use clock_body::{post_clock, read_clock};
pub use extension_body::read_extension;
pub use jury_verdict::{JuryVerdict, post_verdict};
pub use rejudging_body::{post_rejudging, read_rejudging};
pub use request::{Credential, KeyField, Method, Request};
pub use submission_body::read_submission;
