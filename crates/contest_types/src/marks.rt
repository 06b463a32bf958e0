//! The marks of the contest's clock.
use crate::Moment;

/// The moments that are set by hand (Contest API 2023-06, contest and state objects).
#[derive(Clone, Copy, PartialEq, Eq)]
pub struct Marks {
    /// The start, if it is set.
    pub start: Option<Moment>,
    /// From when on the frozen verdicts are public, if that is set.
    pub thaw: Option<Moment>,
    /// When the results were made final, if they were.
    pub finalized: Option<Moment>,
}
