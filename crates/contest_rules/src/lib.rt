//! What each command adds to a contest, or why it is refused.
#![tactic(auto)]

mod candidates;
mod clarifying;
mod clock_changes;
mod decision;
mod extensions;
mod judged;
pub mod laws;
mod opening;
mod proposing;
mod rejudging;
mod rule_refusal;
mod submitting;
mod verdicts;
mod verifying;
mod wanted_id;

pub use clarifying::{
    NamedClarification, SaidBefore, Sender, WantedAddressee, WantedClarification, clarification_on,
    decide_clarification,
};
pub use clock_changes::{ClockChange, WantedClock, decide_clock, decide_final};
pub use decision::Decision;
pub use extensions::{Extension, WantedExtension, decide_extension};
pub use judged::Judged;
pub use opening::{WantedRejudging, decide_opening};
pub use proposing::{NewVerdict, decide_proposal, release_at_once};
pub use rejudging::{MemberChange, decide_apply, decide_cancel, decide_member};
pub use rule_refusal::RuleRefusal;
pub use submitting::{OwnSoFar, Standing, WantedSubmission, decide_submission, has_key};
pub use verdicts::{NamedVerdict, WantedVerdict, verdict_on};
pub use verifying::decide_verify;
pub use wanted_id::WantedId;
