//! How a team stands: problems solved, total time, last accepted.
ghost use Rattle.std.specs.Prelude.{◌≡◌, ◌≤◌, ◌*◌, ◌^◌, length};
ghost use Rattle.contest_types.specs.declared.limits.TheConstants.{PROBLEMS, PENALTY_MINUTES};
ghost use Rattle.contest_score.specs.Scoring.{score_of_cells, points, later_of};

use crate::cell::Cell;
use contest_types::Minute;

/// How a team stands (Contest API 2023-06, scoreboard).
#[derive(Clone, Copy, PartialEq, Eq)]
pub struct Score {
    /// Problems solved.
    pub solved: u32,
    /// Minutes of the solved problems, with penalty time.
    pub total: u64,
    /// The greatest minute at which a problem was solved, if one was.
    pub last: Option<Minute>,
}

/// The score that a team's cells come to, at so many minutes for each penalised attempt at a solved
/// problem.
pub fn score_of(penalty_time: u32, cells: &[Cell]) -> Score
    requires few { length cells.now ≤ PROBLEMS }
    requires penalty { penalty_time ≤ PENALTY_MINUTES }
    ensures { result ≡ score_of_cells penalty_time cells.now }
{
    let mut solved: u32 = 0;
    let mut total: u64 = 0;
    let mut last: Option<Minute> = None;
    for cell in cells {
        total += points(penalty_time, *cell);
        if let Some(minute) = cell.solved {
            solved += 1;
            last = later(last, minute);
        }
    }
    Score {
        solved,
        total,
        last,
    }
}

/// What a problem adds to the total; an unsolved one adds nothing.
fn points(penalty_time: u32, cell: Cell) -> u64
    requires { penalty_time ≤ PENALTY_MINUTES }
    ensures value { result ≡ points penalty_time cell }
    ensures bound { result ≤ 1001 * 2 ^ 32 }
{
    match cell.solved {
        None => 0,
        Some(minute) => {
            u64::from(minute.0) + u64::from(penalty_time) * u64::from(cell.penalties)
        }
    }
}

/// The later of two minutes.
fn later(last: Option<Minute>, minute: Minute) -> Option<Minute>
    ensures { result ≡ later_of last minute }
{
    match last {
        None => Some(minute),
        Some(before) => {
            if before.0 < minute.0 {
                Some(minute)
            } else {
                Some(before)
            }
        }
    }
}
