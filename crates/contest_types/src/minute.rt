//! Whole minutes of contest time.

/// Contest time in whole minutes, rounded down: the unit of scores (Contest Control System
/// Requirements, "Scoring").
#[derive(Clone, Copy, PartialEq, Eq, PartialOrd, Ord)]
pub struct Minute(pub u32);
