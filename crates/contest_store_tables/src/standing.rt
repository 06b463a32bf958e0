//! What stands in a database.

use crate::LaterTable;

/// Which tables stand in a database.
#[derive(Clone, Copy, Debug, PartialEq, Eq)]
pub enum Standing {
    /// No table, index or view.
    Bare,
    /// The tables of a desk, and no others.
    Desk,
    /// Of the tables of a desk those that are made before this one, and no others.
    Lacking(LaterTable),
    /// All of the tables of a desk but that of the cells, which was taken out, and no others.
    Celless,
    /// Others.
    Foreign,
}
