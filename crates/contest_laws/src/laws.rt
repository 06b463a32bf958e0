//! Laws over any run of requests and imports, by any callers at any moments: functions that do
//! nothing, and whose contracts say what holds of every contest (own).

pub mod boards;
pub mod crashes;
pub mod files;
pub mod ids;
pub mod replays;
pub mod standing;
pub mod verdicts;
