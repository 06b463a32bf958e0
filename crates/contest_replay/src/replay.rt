//! The contest of a replay: a CSV file that tells of a whole contest, record by record.

mod builder;
mod contest;
mod file;
mod next_record;
mod record;
mod settings_row;
mod submission_row;
mod team_progress;

pub use builder::add_any_language;
pub use contest::ReplayContest;
pub use file::read_replay_csv;
