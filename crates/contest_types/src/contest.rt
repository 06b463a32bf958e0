//! What a contest is set up with before any other setting.
ghost use Rattle.std.specs.Prelude.{◌≡◌, IfOk};

use crate::{Id, Moment, Name, TimeSpan};
use std::alloc::AllocError;

/// The head of a contest: all of its contest object but the marks of the clock (Contest API
/// 2023-06, contest object).
#[derive(PartialEq, Eq, Drop)]
pub struct ContestHead {
    /// The contest's id, which stands in every path under `/contests/`.
    pub id: Id,
    /// The contest's name.
    pub name: Name,
    /// How long it runs: over zero and at most 1000 hours.
    pub duration: TimeSpan,
    /// How long before its end the scoreboard freezes, at most the duration; none: it never does.
    pub freeze: Option<TimeSpan>,
    /// Minutes for each penalised attempt at a solved problem, at most 1000.
    pub penalty_time: u32,
    /// Whether a second judge verifies each verdict before it is released (DOMjudge manual,
    /// "Judging": verification).
    pub verification: bool,
    /// How many places each kind of medal has.
    pub medals: Medals,
}

impl ContestHead {
    /// A copy of the head.
    ///
    /// # Errors
    ///
    /// Want of memory alone.
    pub(crate) fn copied(&self) -> Result<ContestHead, AllocError>
        ensures { IfOk result (λ copy. copy ≡ self.now) }
    {
        Ok(ContestHead {
            id: self.id.clone()?,
            name: self.name.clone()?,
            duration: self.duration,
            freeze: self.freeze,
            penalty_time: self.penalty_time,
            verification: self.verification,
            medals: self.medals,
        })
    }
}

/// How many ranks win each kind of medal, at most 100 each.
#[derive(Clone, Copy, PartialEq, Eq)]
pub struct Medals {
    /// Ranks with a gold medal.
    pub gold: u32,
    /// Ranks after those with a silver medal.
    pub silver: u32,
    /// Ranks after those with a bronze medal.
    pub bronze: u32,
}

/// A contest as it is set up: its head and its start, if that is set.
#[derive(PartialEq, Eq, Drop)]
pub struct Contest {
    /// All but the clock.
    pub head: ContestHead,
    /// The start, if it is set.
    pub start: Option<Moment>,
}
