//! Accounts, and what each may do.
use crate::{Digest, Id};

/// What an account is for (Contest Control System Requirements, "Users and Roles"; DOMjudge manual,
/// "Users").
#[derive(Clone, Copy, PartialEq, Eq)]
pub enum Role {
    /// It speaks for the team at this place in the settings, from 0.
    Team(usize),
    /// It judges.
    Judge,
    /// It judges and keeps the clock.
    Admin,
    /// It reads what the jury reads, and posts nothing (own; balloons, presenters, observers).
    Analyst,
}

/// An account. Its token is known by its digest alone.
#[derive(Drop)]
pub struct Account {
    /// The account's id.
    pub id: Id,
    /// What it may do.
    pub role: Role,
    /// The digest of its token.
    pub digest: Digest,
}
