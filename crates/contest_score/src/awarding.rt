//! The awards of a contest, by its board and its solves.
ghost use Rattle.std.specs.Prelude.{◌≡◌, IfOk, IfErr};
ghost use Rattle.contest_score.specs.Awards.{awards_of};

use crate::award_list::{Awards, add};
use crate::first_solves::add_first_to_solve;
use crate::group_awards::add_group_winners;
use crate::ranked_awards::{add_medals, winner};
use crate::scoreboard::Board;
use crate::solve::Solve;
use contest_types::{Refusal, Settings};
use std::alloc::{AllocError, Global};

fn all_awards(
    alloc: Global,
    settings: &Settings,
    board: &Board,
    solves: &[Solve],
) -> Result<Awards, AllocError>
    ensures { IfOk result (λ w. w ≡ awards_of settings.now board.now.rows solves.now) }
{
    let rows = board.rows();
    let mut awards = Awards::new(alloc);
    add(&mut awards, winner(alloc, rows)?)?;
    add_medals(alloc, settings, rows, &mut awards)?;
    add_first_to_solve(alloc, settings, rows, solves, &mut awards)?;
    add_group_winners(alloc, settings, rows, &mut awards)?;
    Ok(awards)
}

/// The awards of a board and of the solves of its teams (Contest API 2023-06, awards). They go to
/// teams that solved a problem:
///
/// - `winner`: those of rank 1;
/// - `gold-medal`, `silver-medal`, `bronze-medal`: so many ranks each, one kind after the other, so
///   that a tie over the last gold rank leaves fewer ranks for silver (the standard leaves this
///   open);
/// - `first-to-solve-<problem id>`: those whose solve is the earliest, to the millisecond;
/// - `group-winner-<group id>`: the group's teams of least rank.
///
/// They stand in this order, the problems as on the board and the groups by id. The teams of each
/// stand in the order of the board. An award that no team has isn't listed. The board, the solves
/// or both may be empty.
///
/// # Errors
///
/// Want of memory alone.
pub fn awards(
    alloc: Global,
    settings: &Settings,
    board: &Board,
    solves: &[Solve],
) -> Result<Awards, Refusal>
    ensures awards { IfOk result (λ w. w ≡ awards_of settings.now board.now.rows solves.now) }
    ensures err { IfErr result (λ e. e ≡ Refusal.Memory) }
{
    let awards = all_awards(alloc, settings, board, solves)?;
    Ok(awards)
}
