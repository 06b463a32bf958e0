//! Changes of a row where it stands.

/// Which columns of which row change, and what the statement is given for it: the key of the row,
/// and then the new values in the order of the columns.
#[derive(Clone, Copy, Debug, PartialEq, Eq)]
pub enum RowChange {
    /// The version, in the one row of `Desk`.
    Version,
    /// Start, thaw and finalized, in the one row of `Contest`.
    Marks,
    /// Duration and freeze, in the one row of `Contest`.
    Duration,
    /// The name, in a row of `Items`.
    ItemName,
    /// The digest of the token, in a row of `Accounts`.
    Digest,
    /// The state, in a row of `Rejudgings`.
    RejudgingState,
    /// Type, account and ready, in a row of `Members`.
    MemberState,
    /// Judged, pending, solved and penalties, in a row of `Cells`.
    Cell,
}
