//! What the crates of tests share: the values, settings and contest that they stand on.
#![tactic(auto)]

mod rehearsal_contest;
mod setting_rows;
mod values;

pub use rehearsal_contest::{
    MEDALS, after, rehearsal, rehearsal_head, rehearsal_settings, verified_rehearsal,
};
pub use setting_rows::SettingRow;
pub use values::{id, moment, name, text_of};
