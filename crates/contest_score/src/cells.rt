//! The cells of a contest for a caller, however they are kept.
ghost use Rattle.std.specs.Prelude.{◌≡◌, ℕ};
ghost use Rattle.contest_score.specs.declared.cell.Cell.{Cell};

use crate::cell::Cell;

/// Where the cell of each team and problem is to be had.
pub trait Cells {
    /// The cells that the value holds, by the places of team and problem.
    ghost cells: { Self → ℕ → ℕ → Cell };

    /// The cell of a team at a problem, each by its place in the settings, from 0. It takes no
    /// memory.
    fn cell(&self, team: usize, problem: usize) -> Cell
        ensures { result ≡ cells self.now team problem };
}
