//! The board over the cells that any source holds.
ghost use Rattle.std.specs.Prelude.{◌≡◌, ◌<◌, ◌≤◌, [], length, IfOk, IfErr};
ghost use Rattle.contest_types.specs.declared.limits.TheConstants.{TEAMS};
ghost use Rattle.contest_score.specs.Ranking.{board_of, is_on_board};
ghost use Rattle.contest_score.specs.Keys.{next_rank, ranked};

use crate::cells::Cells;
use crate::row::Row;
use crate::score::Score;
use crate::scoreboard::Board;
use crate::shown::{BoardTeams, Shown};
use crate::standing::{Standing, sort, standings, ties};
use contest_types::{Refusal, Settings, problem_order};
use std::alloc::{AllocError, Global};

/// The rank of a score below these rows, which are all that are better or tie.
fn next_rank(rows: &[Row], score: Score) -> u32
    requires { length rows.now < TEAMS }
    ensures { result ≡ next_rank rows.now score }
{
    match rows.last() {
        Some(above) if ties(above.score, score) => above.rank,
        _ => rows.len() as u32 + 1,
    }
}

/// The rows of standings in order, each with its rank.
fn rows_of(alloc: Global, standings: Vec<Standing>) -> Result<Vec<Row>, AllocError>
    requires { length standings.items ≤ TEAMS }
    ensures { IfOk result (λ v. v.items ≡ ranked [] standings.entry.items) }
{
    let mut rows = Vec::new(alloc);
    for standing in standings {
        let rank = next_rank(&rows, standing.score);
        rows.push(Row {
            team: standing.place,
            rank,
            score: standing.score,
            cells: standing.cells,
        })?;
    }
    Ok(rows)
}

/// The board of the shown teams, ranked among each other.
fn board_of<C: Cells, S: Shown>(
    alloc: Global,
    settings: &Settings,
    shown: &S,
    cells: &C,
) -> Result<Board, AllocError>
    ensures { IfOk result (λ b. b ≡ board_of settings.now (S.is_shown shown.now) (C.cells cells.now)) }
{
    let columns = problem_order(alloc, settings)?;
    let mut teams = standings(alloc, settings, shown, cells, &columns)?;
    sort(&mut teams);
    let rows = rows_of(alloc, teams)?;
    Ok(Board::new(columns, rows))
}

/// The board over the cells that any source holds: every team that isn't hidden, by rank, then by
/// name, then by id. More solved is better, then less total time, then an earlier last accepted
/// minute; equal teams share a rank, and the next one counts them all (Contest Control System
/// Requirements, "Scoring"). The columns are the problems by ordinal, and then by id.
///
/// The board of a group, whose place in the settings is given, from 0, has its teams alone, which
/// are ranked among each other (own).
///
/// # Errors
///
/// Want of memory alone.
pub fn board<C: Cells>(
    alloc: Global,
    settings: &Settings,
    group: Option<usize>,
    cells: &C,
) -> Result<Board, Refusal>
    ensures board { IfOk result (λ b. b ≡ board_of settings.now (is_on_board settings.now group) (C.cells cells.now)) }
    ensures err { IfErr result (λ e. e ≡ Refusal.Memory) }
{
    let teams = BoardTeams { settings, group };
    let board = board_of(alloc, settings, &teams, cells)?;
    Ok(board)
}
