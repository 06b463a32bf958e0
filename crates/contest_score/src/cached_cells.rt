//! The cells of a contest that are kept while it goes on, under either mask.
ghost use Rattle.std.specs.Prelude.{◌≡◌, ◌<◌, ℕ, ◌==◌, ◌&&◌, None, Some, OnOk, OnErr, if◌then◌else◌};
ghost use Rattle.std.specs.Prelude.{is_some, get_or, length};
ghost use Rattle.contest_score.specs.CachedCells.{cached_at, cell_by, cell_cached, cell_in};

use crate::cell::Cell;
use crate::cells::Cells;
use contest_types::{Audience, Marks, Mask, Moment, mask_for};
use std::alloc::{AllocError, Global};

/// What a team's attempts at a problem come to, under either mask.
#[derive(Clone, Copy)]
pub struct MaskedCell {
    /// By the verdicts on submissions from before the freeze.
    pub held: Cell,
    /// By all verdicts.
    pub full: Cell,
}

impl MaskedCell {
    /// The cell under a mask.
    pub fn under(&self, mask: Mask) -> Cell
        ensures { result ≡ cell_by mask self.now }
    {
        match mask {
            Mask::Held => self.held,
            Mask::Full => self.full,
        }
    }
}

/// A team's cells, each at the place of its problem.
type CellRow = Vec<Option<MaskedCell>>;

/// The cells of each team at each problem that it has a submission at.
#[derive(Drop)]
pub struct CachedCells {
    /// Each team's, at the place of the team.
    pub rows: Vec<CellRow>,
}

impl CachedCells {
    /// No cells.
    pub fn new(alloc: Global) -> CachedCells
        ensures { (team problem : ℕ) → cached_at result team problem ≡ None }
    {
        CachedCells {
            rows: Vec::new(alloc),
        }
    }

    /// Whether a team's cell at a problem is here.
    pub fn has(&self, team: usize, problem: usize) -> bool
        ensures { result ≡ is_some (cached_at self.now team problem) }
    {
        self.at(team, problem).is_some()
    }

    /// A team's cell at a problem under a mask: that of no attempts where none is here.
    pub fn cell(&self, mask: Mask, team: usize, problem: usize) -> Cell
        ensures { result ≡ cell_cached self.now mask team problem }
    {
        match self.at(team, problem) {
            Some(cell) => cell.under(mask),
            None => Cell::new(),
        }
    }

    fn at(&self, team: usize, problem: usize) -> Option<MaskedCell>
        ensures { result ≡ cached_at self.now team problem }
    {
        *self.rows.get(team)?.get(problem)?
    }

    /// Puts a team's cell at a problem in place of the one that is here, if one is.
    ///
    /// # Errors
    ///
    /// Want of memory alone. Each cell is then as before.
    pub fn put(
        &mut self,
        alloc: Global,
        team: usize,
        problem: usize,
        cell: MaskedCell,
    ) -> Result<(), AllocError>
        ensures ok { OnOk result ((t p : ℕ) → cached_at self.new t p ≡ (if (team == t) && (problem == p) then Some cell else cached_at self.old t p)) }
        ensures err { OnErr result ((t p : ℕ) → cached_at self.new t p ≡ cached_at self.old t p) }
    {
        make_row(alloc, &mut self.rows, team)?;
        put_in(&mut self.rows[team], problem, cell)
    }
}

// Makes rows until the team at this place has one; they have no cells.
fn make_row(alloc: Global, rows: &mut Vec<CellRow>, team: usize) -> Result<(), AllocError>
    ensures row { OnOk result (team < length rows.new.items) }
    ensures same { (t p : ℕ) → cell_in rows.new.items t p ≡ cell_in rows.old.items t p }
{
    for _ in rows.len()..=team {
        rows.push(Vec::new(alloc))?;
    }
    Ok(())
}

// Puts a cell in a row at the place of its problem.
fn put_in(row: &mut CellRow, problem: usize, cell: MaskedCell) -> Result<(), AllocError>
    ensures ok { OnOk result ((p : ℕ) → get_or row.new.items p None ≡ (if problem == p then Some cell else get_or row.old.items p None)) }
    ensures err { OnErr result ((p : ℕ) → get_or row.new.items p None ≡ get_or row.old.items p None) }
{
    lengthen(row, problem)?;
    row[problem] = Some(cell);
    Ok(())
}

// Lengthens a row until the problem at this place has a place in it.
fn lengthen(row: &mut CellRow, problem: usize) -> Result<(), AllocError>
    ensures place { OnOk result (problem < length row.new.items) }
    ensures same { (p : ℕ) → get_or row.new.items p None ≡ get_or row.old.items p None }
{
    for _ in row.len()..=problem {
        row.push(None)?;
    }
    Ok(())
}

/// The cells as an audience sees them at a moment.
#[derive(Clone, Copy)]
pub struct SeenCells<'a> {
    /// The cells under either mask.
    pub cells: &'a CachedCells,
    /// When the contest starts, is thawed and is finalized.
    pub marks: &'a Marks,
    /// Who looks.
    pub audience: Audience,
    /// When.
    pub now: Moment,
}

impl Cells for SeenCells<'_> {
    ghost use Rattle.contest_score.specs.CachedCells.{cells_seen};

    ghost cells = { cells_seen };

    fn cell(&self, team: usize, problem: usize) -> Cell {
        let mask = mask_for(self.audience, self.marks, self.now, team);
        self.cells.cell(mask, team, problem)
    }
}
