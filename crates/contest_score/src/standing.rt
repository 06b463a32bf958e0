//! How the shown teams stand.
ghost use Rattle.std.specs.Prelude.{◌≡◌, ◌≤◌, length, IfOk, map, All, slice_get};
ghost use Rattle.std.specs.List.Sorted.{IsPermutation, IsSorted};
ghost use Rattle.std.specs.Ordering.{is_eq};
ghost use Rattle.contest_types.specs.Setup.{IsValid};
ghost use Rattle.contest_types.specs.declared.limits.TheConstants.{PROBLEMS, PENALTY_MINUTES};
ghost use Rattle.contest_score.specs.Scoring.{score_of_cells};
ghost use Rattle.contest_score.specs.Ranking.{problem_order, shown_teams, last_minute, score_cmp};
ghost use Rattle.contest_score.specs.Keys.{TellsTeam, standing_cmp};

use crate::cells::Cells;
use crate::row::CellRow;
use crate::score::{Score, score_of};
use crate::shown::Shown;
use contest_types::{Settings, Team};
use std::alloc::{AllocError, Global};
use std::cmp::Ordering;

/// A shown team's cells and score, and what decides between equal scores: its name, and then its
/// id.
#[derive(Drop)]
pub struct Standing<'a> {
    pub place: usize,
    pub score: Score,
    pub cells: CellRow,
    pub name: &'a str,
    pub id: &'a str,
}

/// A team's cells, of the problems in this order.
fn cells_of_team<C: Cells>(
    alloc: Global,
    cells: &C,
    order: &[usize],
    team: usize,
) -> Result<CellRow, AllocError>
    ensures { IfOk result (λ r. r ≡ map (C.cells cells.now team) order.now) }
{
    let mut row = Vec::new(alloc);
    for problem in order {
        row.push(cells.cell(team, *problem))?;
    }
    Ok(CellRow::from_vec(row))
}

/// The minutes of penalty time, within their limit.
fn penalty_time(settings: &Settings) -> u32
    ensures value { result ≡ settings.now.head.penalty_time }
    ensures bound { result ≤ PENALTY_MINUTES }
{
    settings.head().penalty_time
}

/// How a team with these cells stands.
fn score_of_row(settings: &Settings, row: &CellRow) -> Score
    requires { length row.now ≤ PROBLEMS }
    ensures { result ≡ score_of_cells settings.now.head.penalty_time row.now }
{
    score_of(penalty_time(settings), row.as_slice())
}

/// The standing of the team at a place.
fn standing_of<'a, C: Cells>(
    alloc: Global,
    settings: &Settings,
    cells: &C,
    order: &[usize],
    place: usize,
    team: &'a Team,
) -> Result<Standing<'a>, AllocError>
    requires few { length order.now ≤ PROBLEMS }
    requires order { order.now ≡ problem_order settings.now }
    requires there { slice_get settings.now.teams place ≡ Some team.now }
    ensures place { IfOk result (λ k. k.place ≡ place) }
    ensures told { IfOk result (TellsTeam settings.now (C.cells cells.now)) }
{
    let row = cells_of_team(alloc, cells, order, place)?;
    Ok(Standing {
        place,
        score: score_of_row(settings, &row),
        cells: row,
        name: team.name.as_str(),
        id: team.id.as_str(),
    })
}

/// How the shown teams stand, in the settings' order.
pub fn standings<'a, C: Cells, S: Shown>(
    alloc: Global,
    settings: &'a Settings,
    shown: &S,
    cells: &C,
    order: &[usize],
) -> Result<Vec<Standing<'a>>, AllocError>
    requires few { length order.now ≤ PROBLEMS }
    requires order { order.now ≡ problem_order settings.now }
    ensures valid { IsValid settings.now }
    ensures places { IfOk result (λ v. map (λ k. k.place) v.items ≡ shown_teams settings.now (S.is_shown shown.now)) }
    ensures told { IfOk result (λ v. All (TellsTeam settings.now (C.cells cells.now)) v.items) }
{
    let mut standings = Vec::new(alloc);
    for (place, team) in settings.teams().iter().enumerate() {
        if shown.is_shown(place) {
            standings.push(standing_of(alloc, settings, cells, order, place, team)?)?;
        }
    }
    Ok(standings)
}

fn last_of(score: Score) -> u32
    ensures { result ≡ last_minute score }
{
    match score.last {
        None => 0,
        Some(minute) => minute.0,
    }
}

/// The better of two scores is less.
fn compare_scores(a: Score, b: Score) -> Ordering
    ensures { result ≡ score_cmp a b }
{
    let solved = b.solved.cmp(&a.solved);
    let last = last_of(a).cmp(&last_of(b));
    solved.then(a.total.cmp(&b.total).then(last))
}

/// Whether two scores share a rank.
pub fn ties(a: Score, b: Score) -> bool
    ensures { result ≡ is_eq (score_cmp a b) }
{
    compare_scores(a, b).is_eq()
}

/// The standing that stands first on the board is less.
fn compare(a: &Standing, b: &Standing) -> Ordering
    ensures { result ≡ standing_cmp a.now b.now }
{
    match compare_scores(a.score, b.score) {
        Ordering::Equal => a.name.cmp(b.name).then(a.id.cmp(b.id)),
        Ordering::Less => Ordering::Less,
        Ordering::Greater => Ordering::Greater,
    }
}

/// Sorts standings: the first on the board stands first.
pub fn sort(standings: &mut Vec<Standing>)
    ensures permutation { IsPermutation standings.old.items standings.new.items }
    ensures sorted { IsSorted standing_cmp standings.new.items }
{
    standings.sort_unstable_by(|a, b| compare(a, b));
}
