//! What the files of a contest director add to a contest: settings, teams and accounts, and the
//! contest itself as it is set up.
#![tactic(auto)]

mod account_record;
mod account_row;
mod additions;
mod contest_file;
mod contest_members;
mod contest_validity;
mod csv_files;
mod csv_record;
pub mod laws;
mod posted_changes;
mod posted_rows;
mod reading;
mod record_fault;
mod settings_files;
mod settings_objects;
mod standing_accounts;
mod team_record;
mod team_row;
mod teams;

pub use account_record::account_of;
pub use account_row::{AccountRow, NamedRole};
pub use contest_file::read_contest_json;
pub use contest_members::{duration_in, freeze_in, penalty_in};
pub use csv_files::{read_accounts_csv, read_teams_csv};
pub use posted_changes::{NameRow, TokenRow, read_name, read_token};
pub use posted_rows::{read_account, read_team};
pub use reading::read_import;
pub use settings_files::read_settings_json;
pub use settings_objects::ordinal_in;
pub use standing_accounts::{account_addition, has_digest};
pub use team_row::TeamRow;
pub use teams::{named_team, team_addition};
