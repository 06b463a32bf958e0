//! Clarifications: what teams ask, and what the jury answers and announces.
use crate::{Id, Moment, Text};

/// Whose clarifications one belongs to. A group's are those that the jury tells its teams; a team's
/// those between that team and the jury, in either direction.
#[derive(Clone, Copy, PartialEq, Eq, Hash)]
pub enum Addressee {
    /// All: the jury tells everyone.
    All,
    /// The group at this place in the settings, from 0: the jury tells each team that is in it.
    Group(usize),
    /// The team at this place in the settings, from 0: it asks the jury, or the jury tells it.
    Team(usize),
}

/// What names a clarification: whose it is, and which of those it is, counted from 1.
#[derive(Clone, Copy, PartialEq, Eq, Hash)]
pub struct Reference {
    /// Whose it is.
    pub addressee: Addressee,
    /// Which of those it is.
    pub number: usize,
}

/// A clarification (Contest API 2023-06, clarifications).
#[derive(Drop)]
pub struct Clarification {
    /// Whose it is.
    pub addressee: Addressee,
    /// Which of those it is, counted from 1 over both directions.
    pub number: usize,
    /// Whether the jury wrote it; else a team did.
    pub from_jury: bool,
    /// The id of the account that wrote it.
    pub account: Id,
    /// The place of the problem that it is about, if it is about one.
    pub problem: Option<usize>,
    /// The clarification that it answers, if it answers one.
    pub reply: Option<Reference>,
    /// What it says.
    pub text: Text,
    /// When it was written.
    pub time: Moment,
    /// The idempotency key that it was posted with, if any.
    pub key: Option<Id>,
}
