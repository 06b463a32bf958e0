//! An object of a feed where it stands.

use contest_types::Id;

/// An object with its id, and the number of the last line that named it, from 1.
#[derive(Drop)]
pub struct Row<T> {
    /// The object's id.
    pub id: Id,
    /// The last line that named it.
    pub line: u64,
    /// What it says beside its id.
    pub object: T,
}
