//! What an audience is shown of a contest, and in which order: submissions and their verdicts,
//! clarifications, rejudgings, the scoreboard, the awards.
#![tactic(auto)]

mod awards;
mod cells;
mod clarifications;
mod feed;
mod feed_objects;
mod judgements;
pub mod laws;
mod named;
mod proposals;
mod rejudgings;
mod scoreboard;
mod seen;
mod submissions;

pub use awards::{audience_awards, award_by_id, awards_text};
pub use cells::{board_for, board_found, cells_for};
pub use clarifications::{clarification_by_id, clarifications_text};
pub use feed::{FeedFault, feed_text, write_feed};
pub use judgements::{judgement_by_id, judgements_text};
pub use named::{NumberedRejudging, named_rejudging, named_submission};
pub use proposals::proposals_text;
pub use rejudgings::{rejudging_by_id, rejudgings_text};
pub use scoreboard::{group_scoreboard_text, scoreboard_text};
pub use seen::Seen;
pub use submissions::{compare_submissions, file_place, submission_by_id, submissions_text};
