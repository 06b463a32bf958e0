//! The tables that were added to the first ones.
ghost use Rattle.std.specs.Prelude.{◌≡◌};
ghost use Rattle.contest_store_tables.specs.Schema.{later_name};

use crate::TableName;

/// A table that desks of the first schema may lack, in the order in which they are made.
#[derive(Clone, Copy, Debug, PartialEq, Eq)]
pub enum LaterTable {
    /// The cells, which the first desks didn't keep.
    Cells,
    /// The clarifications of the second schema.
    Notices,
}

impl LaterTable {
    /// Its name.
    pub fn name(self) -> TableName
        ensures { result ≡ later_name self }
    {
        match self {
            LaterTable::Cells => TableName::Cells,
            LaterTable::Notices => TableName::Notices,
        }
    }
}
