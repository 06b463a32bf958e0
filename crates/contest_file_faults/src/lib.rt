//! Tested, and not proved: no function here has a contract. What is off in a file that was refused,
//! in words for people: the line, the field, what it holds, and what would be right. The readers of
//! the files are asked themselves, so no rule of a form stands here.
#![tactic(auto)]

mod csv_file;
mod csv_forms;
mod earlier;
mod event_line;
mod faulty_row;
mod feed_forms;
mod field_faults;
mod form;
mod json_file;
mod json_forms;
mod json_lines;
mod off_form;
mod probe;
mod reader;
mod record;
mod replay_forms;
mod report;
mod row_fault;
mod scoreboard;
mod shown;

pub use event_line::{tell_event, tell_no_contest};
pub use faulty_row::{Faulty, tell_imported_row, tell_replay_row};
pub use off_form::{tell_contest, tell_imported_file, tell_replay_file};
pub use report::Report;
pub use scoreboard::tell_scoreboard;
