//! The cells of a contest, listed in the order of their table.
ghost use Rattle.std.specs.Prelude.{◌≡◌, ℕ, ◌+◌, ◌<◌, ◌^◌, ◌++◌, true, All, IfOk, OnOk, [], ◌∷◌};
ghost use Rattle.std.specs.Prelude.{map, if◌then◌else◌};
ghost use Rattle.contest_types.specs.State.{ContestState};
ghost use Rattle.contest_types.specs.Valid.{is_valid};
ghost use Rattle.contest_lists.specs.Lists.{loaded};
ghost use Rattle.contest_score.specs.CachedCells.{cell_cached};
ghost use Rattle.contest_score.specs.ScoringLaws.{is_at};
ghost use Rattle.contest_store_cells.specs.CellRows.{cell_rows};
ghost use Rattle.contest_store_cells.specs.Listing.{cell_at, cells_at, first_places, is_seen};
ghost use Rattle.contest_store_cells.specs.Listing.{place_of};
ghost use Rattle.contest_store_cells.specs.PlacedCells.{placed_row};

use crate::placed::{PlacedCell, sort};
use contest_score::CachedCells;
use contest_store::ScoredLists;
use contest_types::{Mask, Submission};
use std::alloc::{AllocError, Global};
use std::collections::HashSet;

/// The places of teams and of problems, each pair once.
type Places = HashSet<(usize, usize)>;

/// The cells of a contest in the order of their table, in one pass over the submissions. Those by
/// teams that aren't in the settings are left out; a valid contest has none.
///
/// # Errors
///
/// Want of memory alone.
pub fn placed_cells(alloc: Global, lists: &ScoredLists) -> Result<Vec<PlacedCell>, AllocError>
    ensures rows { IfOk result (λ cells. (x : ContestState) → is_valid x ≡ true → loaded x ≡ lists.now → map (placed_row lists.now.fixed.settings) cells.items ≡ cell_rows x) }
    ensures fits { IfOk result (λ cells. All (λ c. c.team + 1 < 2 ^ 63) cells.items) }
{
    let rows = lists.lists();
    let settings = &rows.fixed().settings;
    let places = first_places(alloc, settings.teams().len(), rows.submissions())?;
    let mut cells = cells_at(alloc, lists.cells(), &places)?;
    sort(settings, &mut cells);
    Ok(cells)
}

// Where the first submissions are, in their order. A team that isn't there has none.
fn first_places(
    alloc: Global,
    teams: usize,
    submissions: &[Submission],
) -> Result<Vec<(usize, usize)>, AllocError>
    ensures { IfOk result (λ places. places.items ≡ first_places teams submissions.now) }
{
    let mut seen = HashSet::new(alloc);
    let mut places = Vec::new(alloc);
    for submission in submissions {
        if submission.team < teams {
            take_first(&mut seen, &mut places, submission)?;
        }
    }
    Ok(places)
}

// Takes in where a submission is, unless an earlier one is there.
fn take_first(
    seen: &mut Places,
    places: &mut Vec<(usize, usize)>,
    submission: &Submission,
) -> Result<(), AllocError>
    ensures seen { OnOk result ((t p : ℕ) → is_seen seen.new t p ≡ (if is_at t p submission.now then true else is_seen seen.old t p)) }
    ensures places { OnOk result (places.new.items ≡ places.old.items ++ (if is_seen seen.old submission.now.team submission.now.problem then [] else place_of submission.now ∷ [])) }
{
    let place = (submission.team, submission.problem);
    if seen.insert(place)? {
        places.push(place)?;
    }
    Ok(())
}

// The cells at these places under either mask.
fn cells_at(
    alloc: Global,
    kept: &CachedCells,
    places: &[(usize, usize)],
) -> Result<Vec<PlacedCell>, AllocError>
    ensures { IfOk result (λ cells. cells.items ≡ cells_at (cell_cached kept.now) places.now) }
{
    let mut cells = Vec::new(alloc);
    push_cells(&mut cells, kept, Mask::Held, places)?;
    push_cells(&mut cells, kept, Mask::Full, places)?;
    Ok(cells)
}

// Pushes those under one mask.
fn push_cells(
    cells: &mut Vec<PlacedCell>,
    kept: &CachedCells,
    mask: Mask,
    places: &[(usize, usize)],
) -> Result<(), AllocError>
    ensures { OnOk result (cells.new.items ≡ cells.old.items ++ map (cell_at (cell_cached kept.now) mask) places.now) }
{
    for (team, problem) in places {
        cells.push(cell_at(kept, mask, *team, *problem))?;
    }
    Ok(())
}

fn cell_at(kept: &CachedCells, mask: Mask, team: usize, problem: usize) -> PlacedCell
    ensures { result ≡ cell_at (cell_cached kept.now) mask (team, problem) }
{
    PlacedCell {
        mask,
        team,
        problem,
        cell: kept.cell(mask, team, problem),
    }
}
