//! Cells in plain lists, one for each team.
ghost use Rattle.std.specs.Prelude.{◌≡◌, ◌<◌, ◌≤◌, length, slice_get};
ghost use Rattle.contest_score.specs.Table.{cell_in, cell_or_none};
ghost use Rattle.contest_score.specs.Counting.{HasRoom, cell_with, row_at, with_cell};

use crate::attempt::Attempt;
use crate::cell::Cell;
use crate::cells::Cells;
use crate::row::CellRow;
use contest_types::Moment;
use std::marker::Model;

/// The cells of each team, in plain lists. Contracts see the lists.
#[derive(Drop)]
pub struct PlainCells {
    rows: Vec<CellRow>,
}

impl Model for PlainCells {
    ghost use Rattle.std.specs.Prelude.{List};
    ghost use Rattle.contest_score.specs.declared.cell.Cell.{Cell};

    ghost Value = { List (List Cell) };

    ghost view = { λ t. t.rows.items };
}

impl PlainCells {
    /// The cells of these rows, one row for each team.
    pub fn from_vec(rows: Vec<CellRow>) -> PlainCells
        ensures { result ≡ rows.items }
    {
        PlainCells { rows }
    }

    /// Counts one more attempt of a team at a problem.
    pub(crate) fn count(&mut self, team: usize, problem: usize, start: Moment, attempt: Attempt)
        requires team { team < length self.old }
        requires problem { problem < length (row_at self.old team) }
        requires room { HasRoom (cell_in self.old team problem) }
        requires started { start ≤ attempt.time }
        ensures { self.new ≡ with_cell self.old team problem (cell_with start (cell_in self.old team problem) attempt) }
    {
        self.rows[team].count(problem, start, attempt);
    }
}

impl Cells for PlainCells {
    ghost cells = { cell_in };

    fn cell(&self, team: usize, problem: usize) -> Cell {
        match self.rows.get(team) {
            Some(row) => cell_at(row, problem),
            None => Cell::new(),
        }
    }
}

/// The cell of a row at a place, that of no attempts past its end.
fn cell_at(row: &CellRow, problem: usize) -> Cell
    ensures { result ≡ cell_or_none (slice_get row.now problem) }
{
    match row.as_slice().get(problem) {
        Some(cell) => *cell,
        None => Cell::new(),
    }
}
