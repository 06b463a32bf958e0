//! Teams as rows, and the teams that rows add.
ghost use Rattle.std.specs.Prelude.{◌≡◌, ◌<◌, ◌^◌, ◌==◌, ◌∷◌, [], Some, None, true, false, IfOk};
ghost use Rattle.std.specs.Prelude.{IfSome, OnOk, ◌++◌, length, string_bytes};
ghost use Rattle.std.specs.List.{position};
ghost use Rattle.std.specs.Option.{option_map_or};
ghost use Rattle.sqlite_value.specs.Order.{column};
ghost use Rattle.contest_types.specs.Words.{words};
ghost use Rattle.contest_store_rows.specs.Cells.{lent, same_row, text_of};
ghost use Rattle.contest_store_rows.specs.FixedRows.{item_row, joined_ids, team_row};
ghost use Rattle.contest_store_reading.specs.Items.{groups_in, groups_named, spaced_ids};
ghost use Rattle.contest_store_reading.specs.Items.{team_name_row, team_said, with_team_in};

use crate::items::{Item, item_cells};
use contest_store_rows::{id_in, is_row, is_set, name_in, number, text_at};
use contest_types::{Name, RowFault, Rows, Settings, Team};
use sqlite::Row;
use sqlite::types::ValueRef;
use std::alloc::{AllocError, Global};

// The places of the groups whose ids stand in a text, one space between each two.
fn groups_in(
    alloc: Global,
    settings: &Settings,
    text: &[u8],
) -> Result<Option<Rows<usize>>, AllocError>
    ensures { IfOk result (λ found. found ≡ groups_in settings.now text.now) }
{
    if text.is_empty() {
        return Ok(Some(Rows::new(alloc)));
    }
    groups_named(alloc, settings, text)
}

fn groups_named(
    alloc: Global,
    settings: &Settings,
    text: &[u8],
) -> Result<Option<Rows<usize>>, AllocError>
    ensures { IfOk result (λ found. found ≡ groups_named settings.now text.now) }
{
    let mut groups = Rows::new(alloc);
    let mut rest = Some(text);
    while let Some(text) = rest {
        let (id, more) = cut(text);
        match settings.group_place(id) {
            Some(place) => groups.push(place)?,
            None => return Ok(None),
        }
        rest = more;
    }
    Ok(Some(groups))
}

// The text before the first space, and the one after it.
#[tactic(auto, using(contest_types::proofs::WordLemmas::cut_there, contest_types::proofs::WordLemmas::cut_nowhere))]
fn cut(text: &[u8]) -> (&[u8], Option<&[u8]>)
    ensures parts { words text.now ≡ result.0.now ∷ option_map_or (λ rest. words rest.now) result.1 [] }
    ensures shorter { IfSome result.1 (λ rest. length rest.now < length text.now) }
{
    match space_at(text) {
        Some(at) => (text.split_at(at).0, Some(text.split_at(at + 1).1)),
        None => (text, None),
    }
}

fn space_at(text: &[u8]) -> Option<usize>
    ensures place { result ≡ position (λ c. c == 32) text.now }
    ensures within { IfSome result (λ at. at < length text.now) }
{
    text.iter().position(|byte| *byte == b' ')
}

fn team_said(alloc: Global, settings: &Settings, row: &Row) -> Result<Option<Team>, AllocError>
    ensures { IfOk result (λ found. found ≡ team_said settings.now row.now) }
{
    let Some(groups) = groups_in(alloc, settings, text_at(row, 8))? else {
        return Ok(None);
    };
    let Some(id) = id_in(alloc, row, 2)? else {
        return Ok(None);
    };
    let Some(name) = name_in(alloc, row, 3)? else {
        return Ok(None);
    };
    Ok(Some(Team {
        id,
        name,
        groups,
        hidden: is_set(row, 6),
    }))
}

/// The ids of groups, joined by one space.
///
/// # Errors
///
/// Want of memory alone.
#[tactic(auto, using(crate::proofs::WordLemmas::joined_first))]
pub fn joined_ids(
    alloc: Global,
    settings: &Settings,
    groups: &[usize],
) -> Result<String, AllocError>
    ensures { IfOk result (λ text. string_bytes text ≡ joined_ids settings.now groups.now) }
{
    match groups.split_first() {
        Some((first, others)) => {
            let mut text = String::from_str(alloc, settings.group_id(*first))?;
            push_ids(&mut text, settings, others)?;
            Ok(text)
        }
        None => Ok(String::new(alloc)),
    }
}

// Each after a space.
fn push_ids(text: &mut String, settings: &Settings, groups: &[usize]) -> Result<(), AllocError>
    ensures { OnOk result (string_bytes text.new ≡ string_bytes text.old ++ spaced_ids settings.now groups.now) }
{
    for group in groups {
        text.push_str(" ")?;
        text.push_str(settings.group_id(*group))?;
    }
    Ok(())
}

/// The cells of the row of a team, which is the one with this number, from 1; `joined_ids` gives
/// the ids of its groups.
pub fn team_cells<'a>(number: u64, group_ids: &'a str, team: &'a Team) -> [ValueRef<'a>; 9]
    requires { number < 2 ^ 63 }
    ensures { lent result ≡ item_row 4 number team.now.id team.now.name [] 0 team.now.hidden false group_ids.now }
{
    item_cells(&Item {
        kind: 4,
        number,
        id: team.id.as_str(),
        name: team.name.as_str(),
        label: "",
        ordinal: 0,
        flag_a: team.hidden,
        flag_b: false,
        group_ids,
    })
}

/// The name of a team as a cell, after those of the kind and the number of its row.
pub fn team_name_cells<'a>(row: u64, name: &'a Name) -> [ValueRef<'a>; 3]
    requires { row < 2 ^ 63 }
    ensures { lent result ≡ team_name_row row name.now }
{
    [
        number(4),
        number(row),
        ValueRef::Text(name.as_str().as_bytes()),
    ]
}

/// Adds the team that a row is, and answers whether it is the next one's.
///
/// # Errors
///
/// Want of memory alone.
pub fn add_team_in(alloc: Global, settings: &mut Settings, row: &Row) -> Result<bool, AllocError>
    ensures added { IfOk result (λ added. added ≡ true → with_team_in settings.old row.now ≡ Some settings.new) }
    ensures other { IfOk result (λ added. added ≡ false → with_team_in settings.old row.now ≡ None) }
{
    let Some(team) = team_said(alloc, settings, row)? else {
        return Ok(false);
    };
    let next = settings.teams().len() as u64 + 1;
    if !is_team_row(alloc, settings, next, row, &team)? {
        return Ok(false);
    }
    match settings.add_team(alloc, team) {
        Ok(added) => Ok(added),
        Err(RowFault::Fault(_)) => Ok(false),
        Err(RowFault::Memory) => Err(AllocError),
    }
}

fn is_team_row(
    alloc: Global,
    settings: &Settings,
    number: u64,
    row: &Row,
    team: &Team,
) -> Result<bool, AllocError>
    requires { number < 2 ^ 63 }
    ensures { IfOk result (λ same. same ≡ same_row row.now (team_row settings.now number team.now)) }
{
    let group_ids = joined_ids(alloc, settings, team.groups.as_slice())?;
    Ok(is_row(row, &team_cells(number, &group_ids, team)))
}
