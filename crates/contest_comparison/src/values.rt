//! What rows and cells say that are held beside one another.
ghost use Rattle.std.specs.Prelude.{◌≡◌};
ghost use Rattle.contest_comparison.specs.Differences.{cell_values, no_values, row_values};

use contest_score::{Cell, Row};
use contest_types::Minute;

/// What a row says beside its cells (Contest API 2023-06, scoreboard).
#[derive(Clone, Copy, PartialEq, Eq)]
pub struct RowValues {
    /// The rank.
    pub rank: u32,
    /// Problems solved.
    pub solved: u32,
    /// The total time, in minutes.
    pub total: u64,
}

/// What a cell says (Contest API 2023-06, scoreboard).
#[derive(Clone, Copy, PartialEq, Eq)]
pub struct CellValues {
    /// Whether the problem is solved.
    pub solved: bool,
    /// The minute at which it was, if that is said.
    pub time: Option<Minute>,
    /// Attempts with a verdict.
    pub judged: u32,
    /// Attempts with none.
    pub pending: u32,
}

impl RowValues {
    /// What a row of a board says.
    pub(crate) fn of(row: &Row) -> RowValues
        ensures { result ≡ row_values row.now }
    {
        RowValues {
            rank: row.rank,
            solved: row.score.solved,
            total: row.score.total,
        }
    }
}

impl CellValues {
    /// What a cell says of a problem at which nothing was tried.
    pub(crate) fn none() -> CellValues
        ensures { result ≡ no_values }
    {
        CellValues {
            solved: false,
            time: None,
            judged: 0,
            pending: 0,
        }
    }

    /// What a cell of a board says.
    pub(crate) fn of(cell: &Cell) -> CellValues
        ensures { result ≡ cell_values cell.now }
    {
        CellValues {
            solved: cell.solved.is_some(),
            time: cell.solved,
            judged: cell.judged,
            pending: cell.pending,
        }
    }
}
