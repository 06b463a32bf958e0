//! Rejudgings: sets of submissions that are judged again, and take their new verdicts all at once.
use crate::{Id, Name, Rows};

/// How far a rejudging is (DOMjudge manual, "Rejudging": applied or cancelled).
#[derive(Clone, Copy, PartialEq, Eq)]
pub enum RejudgingState {
    /// The members of the rejudging are being judged.
    Open,
    /// The verdicts of all members were released together.
    Applied,
    /// It was given up, and nothing was released.
    Cancelled,
}

/// How far a member of a rejudging is. A judgement type goes by its place, from 0, an
/// account by its id.
#[derive(Drop)]
pub enum MemberState {
    /// It has no verdict yet.
    Empty,
    /// An account proposed a verdict, which another has to verify.
    Proposed { verdict: usize, account: Id },
    /// The member's verdict stands.
    Ready(usize),
}

/// A submission in a rejudging.
#[derive(Drop)]
pub struct Member {
    /// The place of the submission's team, from 0.
    pub team: usize,
    /// Which of the team's submissions it is, counted from 1.
    pub number: usize,
    /// How far it is.
    pub state: MemberState,
}

/// A rejudging. Rejudgings are numbered from 1, in the order in which they were opened.
#[derive(Drop)]
pub struct Rejudging {
    /// Why it was opened.
    pub reason: Name,
    /// How far it is.
    pub state: RejudgingState,
    /// The rejudging's members, in the order in which they were named.
    pub members: Rows<Member>,
}
