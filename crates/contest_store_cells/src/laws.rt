//! Laws of the rows of cells: functions that do nothing.
ghost use Rattle.contest_store_cells.specs.CellLaws.{OthersKeepCells};

/// No change but a submission and a release changes a cell of a valid contest.
pub fn others_keep_cells()
    ensures { OthersKeepCells }
{}
