//! Who looks at a contest, and in which phase it is.

/// Who looks at a contest.
#[derive(Clone, Copy, PartialEq, Eq)]
pub enum Audience {
    /// Anyone.
    Public,
    /// The team with this number, counted from 1 in the order of import.
    Team(usize),
    /// Judges, administrators and analysts.
    Jury,
}

/// Where a contest stands at a moment.
#[derive(Clone, Copy, PartialEq, Eq)]
pub enum Phase {
    /// The start is unset or still to come.
    Before,
    /// From the start up to the end.
    Running,
    /// At the end and after it.
    Ended,
}
