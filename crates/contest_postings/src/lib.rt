//! What is posted, once its body is read: what its rules decide over a contest's lists, and how
//! that is answered.
#![tactic(auto)]

mod added_rows;
mod changed_rows;
mod changes;
mod clarification;
mod clock;
mod judged;
mod named;
mod opening;
mod own_so_far;
mod posting;
mod proposal;
mod rejudging;
mod submission;
mod verification;

pub use changed_rows::account_named;
pub use changes::{ChangeFixed, FixedChange, MadeChange, WantedChange};
pub use clarification::Clarifying;
pub use clock::{FinalResults, Finalize, SetClock};
pub use opening::{OpenedRejudging, Opening};
pub use own_so_far::keyed_row;
pub use posting::{Done, Posting, carry_out};
pub use proposal::Proposing;
pub use rejudging::{Rejudge, RejudgingChange, RejudgingStep};
pub use submission::Submitting;
pub use verification::Verifying;
