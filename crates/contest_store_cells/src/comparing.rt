//! Whether rows are those of a contest's cells.
ghost use Rattle.std.specs.Prelude.{◌≡◌, ◌↔◌, ◌+◌, ◌<◌, ◌^◌, true, All, IfOk, IsTrue, length, map};
ghost use Rattle.contest_types.specs.State.{ContestState};
ghost use Rattle.contest_types.specs.Valid.{is_valid};
ghost use Rattle.contest_lists.specs.Lists.{loaded};
ghost use Rattle.contest_store_rows.specs.Cells.{same_row};
ghost use Rattle.contest_store_cells.specs.CellRows.{cell_rows};
ghost use Rattle.contest_store_cells.specs.PlacedCells.{placed_row};

use crate::cells::cell_cells;
use crate::listing::placed_cells;
use crate::placed::PlacedCell;
use contest_store::ScoredLists;
use contest_store_rows::is_row;
use contest_types::Settings;
use sqlite::Row;
use std::alloc::{AllocError, Global};

/// Whether rows are exactly those of a contest's cells, in the order of their table. Of lists that
/// are no valid contest nothing is said.
///
/// # Errors
///
/// Want of memory alone.
pub fn are_cells(alloc: Global, rows: &[Row], lists: &ScoredLists) -> Result<bool, AllocError>
    ensures { IfOk result (λ same. (x : ContestState) → is_valid x ≡ true → loaded x ≡ lists.now → (IsTrue same ↔ (rows.now ≡ cell_rows x))) }
{
    let cells = placed_cells(alloc, lists)?;
    Ok(are_rows_of(&lists.lists().fixed().settings, rows, &cells))
}

fn are_rows_of(settings: &Settings, rows: &[Row], cells: &[PlacedCell]) -> bool
    requires { All (λ c. c.team + 1 < 2 ^ 63) cells.now }
    ensures { IsTrue result ↔ (rows.now ≡ map (placed_row settings.now) cells.now) }
{
    rows.len() == cells.len() && are_their_rows(settings, rows, cells)
}

// Whether each row is that of its cell.
fn are_their_rows(settings: &Settings, rows: &[Row], cells: &[PlacedCell]) -> bool
    requires fits { All (λ c. c.team + 1 < 2 ^ 63) cells.now }
    requires many { length rows.now ≡ length cells.now }
    ensures { IsTrue result ↔ (rows.now ≡ map (placed_row settings.now) cells.now) }
{
    for at in 0..cells.len() {
        if !is_its_row(settings, &rows[at], &cells[at]) {
            return false;
        }
    }
    true
}

fn is_its_row(settings: &Settings, row: &Row, cell: &PlacedCell) -> bool
    requires { cell.now.team + 1 < 2 ^ 63 }
    ensures { result ≡ same_row row.now (placed_row settings.now cell.now) }
{
    is_row(
        row,
        &cell_cells(settings, cell.mask, cell.team, cell.problem, cell.cell),
    )
}
