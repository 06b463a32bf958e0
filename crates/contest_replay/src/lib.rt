//! The contest of a replay: a CSV file that tells of a whole contest, record by record.
#![tactic(auto)]

mod replay;

pub use replay::{ReplayContest, add_any_language, read_replay_csv};
