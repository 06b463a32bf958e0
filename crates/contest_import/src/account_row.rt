//! An account as a file tells of it.
use contest_types::{Digest, Id};

/// A role as a file names it.
#[derive(Drop)]
pub enum NamedRole {
    /// It speaks for the team with this id.
    Team(Id),
    /// It judges.
    Judge,
    /// It judges and keeps the clock.
    Admin,
    /// It reads what the jury reads.
    Analyst,
}

/// An account whose team, if it has one, is told by its id.
#[derive(Drop)]
pub struct AccountRow {
    /// The account's id.
    pub id: Id,
    /// The account's role.
    pub role: NamedRole,
    /// The digest of its token.
    pub digest: Digest,
}
