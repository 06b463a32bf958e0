//! The board that an audience sees, made of the cells that are kept.
ghost use Rattle.std.specs.Prelude.{◌≡◌, IfOk};
ghost use Rattle.contest_types.specs.Masks.{is_audience};
ghost use Rattle.contest_types.specs.State.{ContestState};
ghost use Rattle.contest_score.specs.CachedCells.{cells_seen};
ghost use Rattle.contest_score.specs.Contest.{seen_board, seen_cell};
ghost use Rattle.contest_view.specs.Scoreboards.{board_found, has_group};
ghost use Rattle.contest_view.specs.SeenLists.{Shows};

use crate::Seen;
use contest_score::{Board, SeenCells, board};
use contest_types::{Audience, Refusal, Settings};
use std::alloc::{AllocError, Global};

/// The cells that an audience sees. It takes no memory.
pub fn cells_for<'a>(seen: &Seen<'a>) -> SeenCells<'a>
    ensures { (x : ContestState) → Shows seen.entry.now x → cells_seen result ≡ seen_cell seen.entry.now.audience seen.entry.now.now x }
{
    SeenCells {
        cells: seen.cells,
        marks: &seen.lists.fixed().marks,
        audience: seen.audience,
        now: seen.now,
    }
}

/// The board that an audience sees: the whole one, or that of the group at a place in the settings,
/// from 0.
///
/// # Errors
///
/// Want of memory alone.
pub fn board_for(alloc: Global, seen: &Seen<'_>, group: Option<usize>) -> Result<Board, AllocError>
    ensures { (x : ContestState) → Shows seen.entry.now x → IfOk result (λ b. b ≡ seen_board seen.entry.now.audience seen.entry.now.now group x) }
{
    let cells = cells_for(seen);
    let settings = &seen.lists.fixed().settings;
    match board(alloc, settings, group, &cells) {
        Ok(board) => Ok(board),
        Err(Refusal::Memory) => Err(AllocError),
        Err(_) => unreachable!(),
    }
}

/// The board that an audience sees, the whole one or that of the group at a place, from 0, if it is
/// there: a team may not be, nor the group.
///
/// # Errors
///
/// Want of memory alone.
pub fn board_found(
    alloc: Global,
    seen: &Seen<'_>,
    group: Option<usize>,
) -> Result<Option<Board>, AllocError>
    ensures { (x : ContestState) → Shows seen.entry.now x → IfOk result (λ o. o ≡ board_found seen.entry.now.audience seen.entry.now.now group x) }
{
    let settings = &seen.lists.fixed().settings;
    if is_audience(settings, seen.audience) && has_group(settings, group) {
        let board = board_for(alloc, seen, group)?;
        Ok(Some(board))
    } else {
        Ok(None)
    }
}

/// Whether an audience is there: a team may not be.
pub(crate) fn is_audience(settings: &Settings, audience: Audience) -> bool
    ensures { result ≡ is_audience settings.now audience }
{
    match audience {
        Audience::Public | Audience::Jury => true,
        Audience::Team(number) => 0 < number && number <= settings.teams().len(),
    }
}

// Whether a group is there, where one is given.
fn has_group(settings: &Settings, group: Option<usize>) -> bool
    ensures { result ≡ has_group settings.now group }
{
    match group {
        Some(group) => group < settings.groups().len(),
        None => true,
    }
}
