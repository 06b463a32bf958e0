//! The words that a command of a program is given, what they ask for, and what it tells.
#![tactic(auto)]

mod arguments;
mod asked_board;
mod asked_moment;
mod asked_text;
mod awards_words;
mod board_words;
mod command_error;
mod command_table;
mod command_words;
mod export_words;
mod feed_words;
mod given_words;
mod help;
mod import_words;
mod init_words;
mod output;
mod refusal_line;
mod serve_words;
mod upgrade_words;

pub use arguments::{has_flag, value_in, word_in};
pub use asked_board::{AskedBoard, BoardFormat, Who};
pub use asked_text::AskedText;
pub use awards_words::AwardsWords;
pub use board_words::BoardWords;
pub use command_error::CommandError;
pub use command_table::{CommandTable, WordKind, WordRow, command_of};
pub use command_words::{CommandWords, read_words};
pub use export_words::{ExportFormat, ExportWords};
pub use feed_words::FeedWords;
pub use given_words::{borrowed, refuse_arguments};
pub use help::{asks_help, is_help, show_help};
pub use import_words::ImportWords;
pub use init_words::InitWords;
pub use output::{show, tell};
pub use refusal_line::{LINE, push_number};
pub use serve_words::ServeWords;
pub use upgrade_words::UpgradeWords;
