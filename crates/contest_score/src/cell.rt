//! A cell of the board: what one team's attempts at one problem come to.
ghost use Rattle.std.specs.Prelude.{◌≡◌, ◌≤◌, length};
ghost use Rattle.contest_types.specs.declared.limits.TheConstants.{TEAM_SUBMISSIONS};
ghost use Rattle.contest_score.specs.Scoring.{cell_of_attempts, minute_of, NotBefore};
ghost use Rattle.contest_score.specs.Counting.{cell_with, judged_with, HasRoom};
ghost use Rattle.contest_score.specs.Table.{no_attempts};

use crate::attempt::{Attempt, Verdict};
use contest_types::{Minute, Moment};

/// What one team's attempts at one problem come to (Contest API 2023-06, scoreboard). An attempt
/// counts where no earlier one is seen as solving.
#[derive(Clone, Copy, PartialEq, Eq)]
pub struct Cell {
    /// Counted attempts with a verdict.
    pub judged: u32,
    /// Counted attempts with none.
    pub pending: u32,
    /// The minute of contest time at which the problem was solved, if it is.
    pub solved: Option<Minute>,
    /// Counted attempts with a penalised verdict that doesn't solve.
    pub penalties: u32,
}

impl Cell {
    /// The cell of no attempts.
    pub fn new() -> Cell
        ensures { result ≡ no_attempts }
    {
        Cell {
            judged: 0,
            pending: 0,
            solved: None,
            penalties: 0,
        }
    }
}

/// The cell of attempts that stand by time, none before the start (Contest Control System
/// Requirements, "Scoring"). It takes no memory.
pub fn cell_of(start: Moment, attempts: &[Attempt]) -> Cell
    requires few { length attempts.now ≤ TEAM_SUBMISSIONS }
    requires started { NotBefore start attempts.now }
    ensures { result ≡ cell_of_attempts start attempts.now }
{
    let mut cell = Cell::new();
    for attempt in attempts {
        cell = with_attempt(cell, start, *attempt);
    }
    cell
}

/// A cell with one more attempt after those that it was made of. It takes no memory.
pub fn with_attempt(cell: Cell, start: Moment, attempt: Attempt) -> Cell
    requires { HasRoom cell }
    ensures { result ≡ cell_with start cell attempt }
{
    if cell.solved.is_some() {
        return cell;
    }
    match attempt.verdict {
        None => Cell {
            pending: cell.pending + 1,
            ..cell
        },
        Some(verdict) => with_verdict(cell, minute_of(start, attempt.time), verdict),
    }
}

/// A cell that isn't solved, with one more judged attempt.
fn with_verdict(cell: Cell, minute: Minute, verdict: Verdict) -> Cell
    requires { HasRoom cell }
    ensures { result ≡ judged_with minute cell verdict }
{
    let failed = verdict.penalised && !verdict.solving;
    Cell {
        judged: cell.judged + 1,
        solved: if verdict.solving {
            Some(minute)
        } else {
            cell.solved
        },
        penalties: if failed {
            cell.penalties + 1
        } else {
            cell.penalties
        },
        ..cell
    }
}

/// Contest time in whole minutes, rounded down; 0 before the start.
fn minute_of(start: Moment, time: Moment) -> Minute
    ensures { result ≡ minute_of start time }
{
    let elapsed = time.milliseconds().saturating_sub(start.milliseconds());
    Minute((elapsed / 60_000) as u32)
}
