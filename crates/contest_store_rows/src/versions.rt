//! The versions of the schema of a contest's tables.
ghost use Rattle.std.specs.Prelude.{◌≡◌, ◌<◌, ◌^◌};
ghost use Rattle.contest_store_rows.specs.FixedRows.{version_number};

/// A version of the schema.
#[derive(Clone, Copy, PartialEq, Eq)]
pub enum Version {
    /// The first, in which a clarification went to a team or to all.
    First,
    /// The second, in which clarifications stand in a table of their own, the notices.
    Second,
}

/// The version of the tables that are made, and of those that are read.
pub const VERSION: Version = Version::Second;

impl Version {
    /// The version's number, which the tables keep.
    pub fn number(self) -> u64
        ensures number { result ≡ version_number self }
        ensures fits { result < 2 ^ 63 }
    {
        match self {
            Version::First => 1,
            Version::Second => 2,
        }
    }
}
