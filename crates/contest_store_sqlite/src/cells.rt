//! The cells of a contest that is opened: they are compared, and filled where there is none.
ghost use Rattle.std.specs.Prelude.{◌≡◌, ◌+◌, ◌<◌, ◌^◌, [], All, map};
ghost use Rattle.contest_store_cells.specs.PlacedCells.{placed_row};
ghost use Rattle.contest_store_tables.specs.Connected.{counts_of, shown_by};
ghost use Rattle.contest_store_tables.specs.Steps.{Full, HasInserted, MakesNone, Step};
ghost use Rattle.contest_store_tables.specs.declared.table_name.TableName.TheVariants.{Cells};
ghost use Rattle.contest_store_sqlite.specs.Settling.{Fillable, HasFilled, HasSettled, Settleable};
ghost use Rattle.contest_store_sqlite.specs.Settling.{Settles, SettlesAny};

use contest_store::{ScoredLists, StoreError};
use contest_store_cells::{PlacedCell, are_cells, cell_cells, placed_cells};
use contest_store_tables::{TableName, Tables};
use contest_types::Settings;
use sqlite::{Alter, Row};
use std::alloc::{AllocError, Global};

/// Whether the cells in the tables are those of these lists, once they are filled where there was
/// none. It is within a transaction.
///
/// # Errors
///
/// `Memory` where a growth was refused; `Fault` where the connection failed for another cause.
pub(crate) fn mend_cells<S: Alter>(
    tables: &mut Tables<S>,
    alloc: Global,
    lists: &ScoredLists,
) -> Result<bool, StoreError>
    ensures { SettlesAny result lists.now (shown_by S.Store tables.old) (shown_by S.Store tables.new) (counts_of tables.old) (counts_of tables.new) }
{
    match tables.load(TableName::Cells) {
        Ok(rows) => settle_rows(tables, alloc, &rows, lists),
        Err(error) => Err(error),
    }
}

fn settle_rows<S: Alter>(
    tables: &mut Tables<S>,
    alloc: Global,
    rows: &[Row],
    lists: &ScoredLists,
) -> Result<bool, StoreError>
    ensures { Settles result lists.now rows.now (shown_by S.Store tables.old) (shown_by S.Store tables.new) (counts_of tables.old) (counts_of tables.new) }
{
    if !rows.is_empty() {
        return compare_cells(tables, alloc, rows, lists);
    }
    match fill_cells(tables, alloc, lists) {
        Ok(()) => Ok(true),
        Err(error) => Err(error),
    }
}

fn compare_cells<S: Alter>(
    tables: &mut Tables<S>,
    alloc: Global,
    rows: &[Row],
    lists: &ScoredLists,
) -> Result<bool, StoreError>
    ensures { Settles result lists.now rows.now (shown_by S.Store tables.old) (shown_by S.Store tables.new) (counts_of tables.old) (counts_of tables.new) }
{
    match are_cells(alloc, rows, lists) {
        Ok(same) => Ok(same),
        Err(AllocError) => Err(tables.out_of_memory()),
    }
}

// Fills a table that has no row.
fn fill_cells<S: Alter>(
    tables: &mut Tables<S>,
    alloc: Global,
    lists: &ScoredLists,
) -> Result<(), StoreError>
    ensures { Step result (shown_by S.Store tables.old) (shown_by S.Store tables.new) (counts_of tables.old) (counts_of tables.new) (Settleable lists.now []) (HasSettled lists.now)
        (MakesNone (shown_by S.Store tables.old) (Settleable lists.now [])) }
{
    match placed_cells(alloc, lists) {
        Ok(cells) => insert_cells(tables, &lists.lists().fixed().settings, &cells),
        Err(AllocError) => Err(tables.out_of_memory()),
    }
}

fn insert_cells<S: Alter>(
    tables: &mut Tables<S>,
    settings: &Settings,
    cells: &[PlacedCell],
) -> Result<(), StoreError>
    requires { All (λ c. c.team + 1 < 2 ^ 63) cells.now }
    ensures { Step result (shown_by S.Store tables.old) (shown_by S.Store tables.new) (counts_of tables.old) (counts_of tables.new) (Fillable (map (placed_row settings.now) cells.now)) (HasFilled (map (placed_row settings.now) cells.now))
        (MakesNone (shown_by S.Store tables.old) (Fillable (map (placed_row settings.now) cells.now))) }
{
    for at in 0..cells.len() {
        match insert_cell(tables, settings, &cells[at]) {
            Ok(()) => {}
            Err(error) => return Err(error),
        }
    }
    Ok(())
}

fn insert_cell<S: Alter>(
    tables: &mut Tables<S>,
    settings: &Settings,
    cell: &PlacedCell,
) -> Result<(), StoreError>
    requires { cell.now.team + 1 < 2 ^ 63 }
    ensures { Step result (shown_by S.Store tables.old) (shown_by S.Store tables.new) (counts_of tables.old) (counts_of tables.new) Full (HasInserted Cells (placed_row settings.now cell.now))
        (MakesNone (shown_by S.Store tables.old) Full) }
{
    tables.insert(
        TableName::Cells,
        &cell_cells(settings, cell.mask, cell.team, cell.problem, cell.cell),
    )
}
