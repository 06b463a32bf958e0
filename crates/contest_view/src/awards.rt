//! The awards that an audience is shown: as a list, as they are served, and one by its id.
ghost use Rattle.std.specs.Prelude.{◌≡◌, IfOk, option_map};
ghost use Rattle.serde_json.specs.Written.{compact_text};
ghost use Rattle.contest_types.specs.State.{ContestState};
ghost use Rattle.contest_types.specs.declared.audience.Audience.TheVariants.{Jury};
ghost use Rattle.contest_score.specs.Awards.{awards_of, shown_awards};
ghost use Rattle.contest_score.specs.Contest.{board_for, solves_of};
ghost use Rattle.contest_view.specs.Awards.{audience_awards, award_found, awards_data};
ghost use Rattle.contest_view.specs.SeenLists.{Shows};

use crate::Seen;
use crate::cells::{board_for, is_audience};
use contest_objects::{AwardObject, Collection, CollectionObject, Whole, get_whole, list_whole};
use contest_score::{Award, Awards, Solve, awards, can_be_scored, contest_solves, shows_awards};
use contest_types::{Audience, Refusal, Rows, Settings};
use std::alloc::{AllocError, Global};

/// The awards that an audience is shown (Contest API 2023-06, awards): those of the jury's board,
/// to the jury once results are final, to everybody else once it is thawed too, or if there is no
/// freeze moment (own). Until then there are none.
///
/// # Errors
///
/// Want of memory alone.
pub(crate) fn awards_for(alloc: Global, seen: &Seen<'_>) -> Result<Awards, AllocError>
    ensures { (x : ContestState) → Shows seen.entry.now x → IfOk result (λ w. w ≡ shown_awards seen.entry.now.audience seen.entry.now.now x) }
{
    if shows_awards(seen.audience, seen.lists.fixed(), seen.now) {
        final_awards(alloc, seen)
    } else {
        Ok(Rows::new(alloc))
    }
}

/// The awards that an audience is shown, if it is there: a team may not be.
///
/// # Errors
///
/// Want of memory alone.
pub fn audience_awards(alloc: Global, seen: &Seen<'_>) -> Result<Option<Awards>, AllocError>
    ensures { (x : ContestState) → Shows seen.entry.now x → IfOk result (λ o. o ≡ audience_awards seen.entry.now.audience seen.entry.now.now x) }
{
    if is_audience(&seen.lists.fixed().settings, seen.audience) {
        let awards = awards_for(alloc, seen)?;
        Ok(Some(awards))
    } else {
        Ok(None)
    }
}

// The awards of the jury's board, whoever looks.
fn final_awards(alloc: Global, seen: &Seen<'_>) -> Result<Awards, AllocError>
    ensures { (x : ContestState) → Shows seen.entry.now x → IfOk result (λ w. w ≡ awards_of x.fixed.settings (board_for Jury seen.entry.now.now None x) (solves_of x)) }
{
    let jury = Seen {
        lists: seen.lists,
        cells: seen.cells,
        audience: Audience::Jury,
        now: seen.now,
    };
    let board = board_for(alloc, &jury, None)?;
    let solves = solves_for(alloc, seen)?;
    match awards(alloc, &seen.lists.fixed().settings, &board, &solves) {
        Ok(awards) => Ok(awards),
        Err(Refusal::Memory) => Err(AllocError),
        Err(_) => unreachable!(),
    }
}

// The solves of a contest. Lists that can't be scored, which no valid contest has, give none.
fn solves_for(alloc: Global, seen: &Seen<'_>) -> Result<Vec<Solve>, AllocError>
    ensures { (x : ContestState) → Shows seen.entry.now x → IfOk result (λ v. v.items ≡ solves_of x) }
{
    let lists = seen.lists;
    if can_be_scored(lists.fixed(), lists.submissions(), lists.releases()) {
        contest_solves(alloc, lists.fixed(), lists.submissions(), lists.releases())
    } else {
        Ok(Vec::new(alloc))
    }
}

/// Awards as they are served: all that are given.
#[derive(Clone, Copy)]
pub(crate) struct ServedAwards<'a> {
    pub settings: &'a Settings,
}

impl<'a> Collection for ServedAwards<'a> {
    ghost use Rattle.std.specs.Prelude.{Some, codes};
    ghost use Rattle.contest_view.specs.Awards.{item_of};

    type Row = Award;

    ghost item = { λ c row. Some (item_of c.settings.now row) };

    ghost name = { codes "awards" };

    fn object<'r>(&'r self, row: &'r Award) -> Option<CollectionObject<'r>> {
        let object = AwardObject {
            settings: self.settings,
            id: row.id.as_str(),
            citation: row.citation.as_str(),
            teams: row.teams.as_slice(),
        };
        Some(CollectionObject::Award(object))
    }
}

impl<'a> Whole for ServedAwards<'a> {
    ghost use Rattle.std.specs.Prelude.{refl};
    ghost use Rattle.contest_view.specs.Awards.{item_of};

    ghost whole = { λ c. item_of c.settings.now };

    ghost all = { λ c row. refl };
}

/// The text of the array of the awards that an audience is shown, in their order (Contest API 2023-06, awards).
///
/// # Errors
///
/// Want of memory alone.
pub fn awards_text(alloc: Global, seen: &Seen<'_>) -> Result<Vec<u8>, AllocError>
    ensures { (x : ContestState) → Shows seen.entry.now x → IfOk result (λ text. text.items ≡ compact_text (awards_data seen.entry.now.audience seen.entry.now.now x)) }
{
    let awards = awards_for(alloc, seen)?;
    let settings = &seen.lists.fixed().settings;
    let text = list_whole(alloc, &ServedAwards { settings }, awards.as_slice())?;
    Ok(text)
}

/// The text of the award with an id, byte for byte, if the audience is shown it: one that isn't shown yet is as
/// one that isn't there. An award's id may be longer than an id.
///
/// # Errors
///
/// Want of memory alone.
pub fn award_by_id(alloc: Global, seen: &Seen<'_>, id: &[u8]) -> Result<Option<Vec<u8>>, AllocError>
    ensures { (x : ContestState) → Shows seen.entry.now x → IfOk result (λ found. option_map (λ text. text.items) found ≡ option_map compact_text (award_found seen.entry.now.audience seen.entry.now.now x id.now)) }
{
    let awards = awards_for(alloc, seen)?;
    let settings = &seen.lists.fixed().settings;
    let found = get_whole(alloc, &ServedAwards { settings }, awards.as_slice(), id)?;
    Ok(found)
}
