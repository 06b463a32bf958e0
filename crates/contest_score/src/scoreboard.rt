//! The board: each shown team with its rank, in order.
ghost use Rattle.std.specs.Prelude.{◌≡◌};

use crate::row::Row;
use contest_types::Rows;
use std::marker::Model;

/// The columns and the rows of a board. Contracts see the list of each.
#[derive(Drop)]
pub struct Board {
    columns: Rows<usize>,
    rows: Rows<Row>,
}

impl Model for Board {
    ghost use Rattle.contest_score.specs.Ranking.{Scoreboard};

    ghost Value = { Scoreboard };

    ghost view = { λ b. record { columns = b.columns; rows = b.rows } };
}

impl Board {
    /// The board of these columns and rows.
    pub fn new(columns: Vec<usize>, rows: Vec<Row>) -> Board
        ensures { result ≡ record { columns = columns.items; rows = rows.items } }
    {
        Board {
            columns: Rows::from_vec(columns),
            rows: Rows::from_vec(rows),
        }
    }

    /// The places of the problems in the settings, from 0, in the order of the columns.
    pub fn columns(&self) -> &[usize]
        ensures { result.now ≡ self.now.columns }
    {
        self.columns.as_slice()
    }

    /// The rows, by rank, then by the team's name, then by its id.
    pub fn rows(&self) -> &[Row]
        ensures { result.now ≡ self.now.rows }
    {
        self.rows.as_slice()
    }
}
