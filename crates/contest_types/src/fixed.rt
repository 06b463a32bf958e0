//! The part of a contest that isn't its lists.
use crate::{Account, Marks, Rows, Settings};

/// The part of a contest that isn't its lists: the settings, the accounts by id, and the marks of
/// the clock.
#[derive(Drop)]
pub struct Fixed {
    /// The settings.
    pub settings: Settings,
    /// The accounts, by the bytes of their ids.
    pub accounts: Rows<Account>,
    /// Start, thaw and final results.
    pub marks: Marks,
}
