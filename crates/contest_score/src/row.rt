//! A team's row on the board.
ghost use Rattle.std.specs.Prelude.{◌≡◌, ◌<◌, ◌≤◌, length, slice_get, slice_set};
ghost use Rattle.contest_score.specs.Counting.{HasRoom, cell_with};
ghost use Rattle.contest_score.specs.Table.{cell_or_none};

use crate::attempt::Attempt;
use crate::cell::{Cell, with_attempt};
use crate::score::Score;
use contest_types::Moment;
use std::marker::Model;

/// A team's cells, one for each problem. Contracts see the list of them.
#[derive(Drop)]
pub struct CellRow {
    cells: Vec<Cell>,
}

impl Model for CellRow {
    ghost use Rattle.std.specs.Prelude.{List};
    ghost use Rattle.contest_score.specs.declared.cell.Cell.{Cell};

    ghost Value = { List Cell };

    ghost view = { λ r. r.cells.items };
}

impl CellRow {
    /// The cells of a vector.
    pub fn from_vec(cells: Vec<Cell>) -> CellRow
        ensures { result ≡ cells.items }
    {
        CellRow { cells }
    }

    /// The cells as a slice.
    pub fn as_slice(&self) -> &[Cell]
        ensures { result.now ≡ self.now }
    {
        self.cells.as_slice()
    }

    /// Counts one more attempt at the problem at a place.
    pub(crate) fn count(&mut self, problem: usize, start: Moment, attempt: Attempt)
        requires there { problem < length self.old }
        requires room { HasRoom (cell_or_none (slice_get self.old problem)) }
        requires started { start ≤ attempt.time }
        ensures { self.new ≡ slice_set self.old problem (cell_with start (cell_or_none (slice_get self.old problem)) attempt) }
    {
        self.cells[problem] = with_attempt(self.cells[problem], start, attempt);
    }
}

/// One team's row on the board (Contest API 2023-06, scoreboard).
#[derive(Drop)]
pub struct Row {
    /// The place of the team in the settings, from 0.
    pub team: usize,
    /// One more than the number of teams on the board that are better.
    pub rank: u32,
    /// How the team stands.
    pub score: Score,
    /// The team's cells, in the order of the problems on the board.
    pub cells: CellRow,
}
