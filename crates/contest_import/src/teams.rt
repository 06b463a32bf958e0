//! Teams that files tell of, as rows.
ghost use Rattle.std.specs.Prelude.{◌≡◌, Ok, IfOk, IfErr};
ghost use Rattle.contest_types.specs.Additions.{IsFaultOf};
ghost use Rattle.contest_types.specs.SetupAdditions.{team_addition};
ghost use Rattle.contest_import.specs.Teams.{group_places, named_team, team_of, team_or_malformed};

use crate::TeamRow;
use crate::record_fault::MALFORMED;
use contest_files::are_different;
use contest_lists::copied_fixed;
use contest_types::{Cause, Entry, Fixed, Id, Identified, RowFault, Rows, Settings, Team};
use std::alloc::{AllocError, Global};

/// The row of a team that a record tells of, if it tells of one.
///
/// # Errors
///
/// A record that tells of none, or names a group twice (`Malformed`), a group that isn't there
/// (`UnknownReference`), or want of memory.
pub(crate) fn team_or_malformed(
    alloc: Global,
    settings: &Settings,
    told: Option<TeamRow>,
) -> Result<Entry, RowFault>
    ensures ok { IfOk result (λ row. team_or_malformed settings.now told ≡ Ok row) }
    ensures err { IfErr result (λ e. IsFaultOf e (team_or_malformed settings.now told)) }
{
    match told {
        Some(team) => {
            if are_different(alloc, team.groups.as_slice())? {
                team_of(alloc, settings, team)
            } else {
                Err(MALFORMED)
            }
        }
        None => Err(MALFORMED),
    }
}

fn team_of(alloc: Global, settings: &Settings, team: TeamRow) -> Result<Entry, RowFault>
    ensures ok { IfOk result (λ row. team_of settings.now team ≡ Ok row) }
    ensures err { IfErr result (λ e. IsFaultOf e (team_of settings.now team)) }
{
    match named_team(alloc, settings, team)? {
        Some(team) => Ok(Entry::NewTeam(team)),
        None => Err(RowFault::Fault(Cause::UnknownReference)),
    }
}

/// The team that is told of, if its groups are there.
///
/// # Errors
///
/// Want of memory alone.
pub fn named_team(
    alloc: Global,
    settings: &Settings,
    team: TeamRow,
) -> Result<Option<Team>, AllocError>
    ensures { IfOk result (λ found. found ≡ named_team settings.now team) }
{
    let Some(groups) = group_places(alloc, settings, team.groups.as_slice())? else {
        return Ok(None);
    };
    Ok(Some(Team {
        id: team.id,
        name: team.name,
        groups,
        hidden: team.hidden,
    }))
}

/// Whether a team is added to those that stand: where an equal one stands it adds nothing.
///
/// # Errors
///
/// A group that isn't there (`UnknownReference`), other content under the team's id (`KeyReused`),
/// 500 teams standing (`TableFull`), or want of memory.
pub fn team_addition(alloc: Global, fixed: &Fixed, team: &Team) -> Result<bool, RowFault>
    ensures ok { IfOk result (λ added. team_addition fixed.now.settings team.now ≡ Ok added) }
    ensures err { IfErr result (λ e. IsFaultOf e (team_addition fixed.now.settings team.now)) }
{
    let mut fixed = copied_fixed(alloc, fixed)?;
    fixed.settings.add_team(alloc, team.copied(alloc)?)
}

// The places of the groups with these ids, if all are there.
fn group_places(
    alloc: Global,
    settings: &Settings,
    ids: &[Id],
) -> Result<Option<Rows<usize>>, AllocError>
    ensures { IfOk result (λ found. found ≡ group_places settings.now ids.now) }
{
    let mut places = Rows::new(alloc);
    for id in ids {
        match settings.group_place(id.as_bytes()) {
            Some(place) => places.push(place)?,
            None => return Ok(None),
        }
    }
    Ok(Some(places))
}
