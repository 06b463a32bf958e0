//! The commands that keep a contest in an SQLite file, on any connection, network, reader and
//! writers.
#![tactic(auto)]

mod added_line;
mod export_command;
mod feed_command;
mod import_command;
mod init_command;
mod listening_line;
mod look;
mod opening;
mod print_command;
mod results_command;
mod serve_command;
mod serving;
mod shown;
mod upgrade_command;

pub use export_command::run_export;
pub use feed_command::run_feed;
pub use import_command::run_import;
pub use init_command::run_init;
pub use opening::open_desk;
pub use print_command::run_print;
pub use results_command::run_results;
pub use serve_command::run_serve;
pub use serving::serve;
pub use upgrade_command::run_upgrade;
