//! Attempts at a problem, as scoring sees them.
use contest_types::Moment;

/// What a judgement type means to scoring (Contest API 2023-06, judgement-types).
#[derive(Clone, Copy, PartialEq, Eq)]
pub struct Verdict {
    /// Whether it solves the problem.
    pub solving: bool,
    /// Whether it costs penalty time.
    pub penalised: bool,
}

/// One attempt, with the verdict that the caller sees, if any.
#[derive(Clone, Copy, PartialEq, Eq)]
pub struct Attempt {
    /// When it counts as submitted.
    pub time: Moment,
    /// The verdict; none where it is pending for the caller.
    pub verdict: Option<Verdict>,
}
