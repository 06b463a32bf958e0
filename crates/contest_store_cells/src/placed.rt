//! A cell of a contest with its place, and the order of the table.
ghost use Rattle.std.specs.Prelude.{◌≡◌};
ghost use Rattle.std.specs.Cmp.Lexicographic.{slice_cmp};
ghost use Rattle.std.specs.List.Sorted.{IsPermutation, IsSorted};
ghost use Rattle.std.specs.Ordering.{nat_cmp};
ghost use Rattle.contest_types.specs.ProblemPlaces.{problem_id_at};
ghost use Rattle.contest_store_cells.specs.PlacedCells.{placed_cmp};

use crate::cells::mask_number;
use contest_score::Cell;
use contest_types::{Mask, Settings};
use std::cmp::Ordering;

/// What a team's attempts at a problem come to under a mask.
#[derive(Clone, Copy)]
pub struct PlacedCell {
    /// Which verdicts are counted.
    pub mask: Mask,
    /// The place of the team in the settings, from 0.
    pub team: usize,
    /// The place of the problem in the settings, from 0.
    pub problem: usize,
    /// What the attempts come to.
    pub cell: Cell,
}

/// Sorts cells: the first row of their table stands first.
pub(crate) fn sort(settings: &Settings, cells: &mut Vec<PlacedCell>)
    ensures permutation { IsPermutation cells.old.items cells.new.items }
    ensures sorted { IsSorted (placed_cmp settings.now) cells.new.items }
{
    cells.sort_unstable_by(|a, b| compare(settings, a, b));
}

// By mask, team and the problem's id.
fn compare(settings: &Settings, a: &PlacedCell, b: &PlacedCell) -> Ordering
    ensures { result ≡ placed_cmp settings.now a.now b.now }
{
    let masks = mask_number(a.mask).cmp(&mask_number(b.mask));
    match masks.then(a.team.cmp(&b.team)) {
        Ordering::Equal => compare_ids(settings, a.problem, b.problem),
        Ordering::Less => Ordering::Less,
        Ordering::Greater => Ordering::Greater,
    }
}

fn compare_ids(settings: &Settings, a: usize, b: usize) -> Ordering
    ensures { result ≡ slice_cmp nat_cmp (problem_id_at settings.now.problems a) (problem_id_at settings.now.problems b) }
{
    settings.problem_id(a).cmp(settings.problem_id(b))
}
