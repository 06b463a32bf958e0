//! Proposed verdicts.
use crate::{Id, Moment};

/// Who proposed a verdict.
#[derive(Drop)]
pub enum Proposer {
    /// The account with this id.
    Account(Id),
    /// A file of verdicts. It stands for the reserved account `import`, which nobody else has.
    Import,
}

/// A verdict that was proposed for a submission. Until it is released nobody but the jury learns of
/// it (DOMjudge manual, "Judging": verification).
#[derive(Drop)]
pub struct Proposal {
    /// The place of the submission's team, from 0.
    pub team: usize,
    /// Which of the team's submissions it is for, counted from 1.
    pub number: usize,
    /// The place of the judgement type, from 0.
    pub verdict: usize,
    /// Who proposed it.
    pub proposer: Proposer,
    /// When it was proposed.
    pub time: Moment,
}
