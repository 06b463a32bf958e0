//! A team as a file tells of it.
use contest_types::{Id, Name, Rows};

/// A team whose groups are told by their ids.
#[derive(Drop)]
pub struct TeamRow {
    /// The team's id.
    pub id: Id,
    /// The team's name.
    pub name: Name,
    /// The ids of its groups.
    pub groups: Rows<Id>,
    /// Whether it is hidden.
    pub hidden: bool,
}
