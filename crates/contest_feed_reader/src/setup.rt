//! The settings that a feed spells.
ghost use Rattle.std.specs.Prelude.{◌≡◌, ◌≤◌, ◌∷◌, [], true, Ok, IfErr, IfOk, OnOk, length, map};
ghost use Rattle.std.specs.List.{list_any};
ghost use Rattle.contest_types.specs.Places.{are_different};
ghost use Rattle.contest_types.specs.Setup.{is_valid_head};
ghost use Rattle.contest_types.specs.SetupAdditions.{problem_addition, team_addition};
ghost use Rattle.contest_types.specs.SetupAdditions.{type_addition, with_problem, with_team};
ghost use Rattle.contest_types.specs.SetupAdditions.{with_type};
ghost use Rattle.contest_types.specs.declared.limits.TheConstants.{JUDGEMENT_TYPES, PROBLEMS};
ghost use Rattle.contest_types.specs.declared.limits.TheConstants.{TEAMS};
ghost use Rattle.contest_replay.specs.ReplayLists.{any_language};
ghost use Rattle.contest_feed_reader.specs.EndedFeeds.{Fits, tables_of};
ghost use Rattle.contest_feed_reader.specs.FeedContests.{hides, is_hidden, problem_of, settings_of};
ghost use Rattle.contest_feed_reader.specs.FeedContests.{team_of, type_of};
ghost use Rattle.contest_feed_reader.specs.References.{ids_of};

use crate::contest_object::ContestObject;
use crate::feed_rows::FeedRows;
use crate::objects::{FeedGroup, FeedProblem, FeedTeam, FeedType};
use crate::row::Row;
use contest_replay::add_any_language;
use contest_types::{ContestHead, Id, JudgementType, Problem, RowFault, Settings, Team};
use std::alloc::{AllocError, Global};

/// The settings of a contest: no groups, and the one language of a replay.
///
/// # Errors
///
/// Want of memory alone.
pub(crate) fn settings_of(
    alloc: Global,
    contest: &Row<ContestObject>,
    rows: &FeedRows,
) -> Result<Settings, AllocError>
    requires { Fits rows.now }
    ensures { IfOk result (λ s. s ≡ settings_of contest.now (tables_of rows.now)) }
{
    let head = contest.object.head(&contest.id)?;
    let mut settings = empty_settings(alloc, head);
    match add_all(alloc, &mut settings, rows) {
        Ok(()) => Ok(settings),
        Err(_) => Err(AllocError),
    }
}

fn empty_settings(alloc: Global, head: ContestHead) -> Settings
    requires { is_valid_head head ≡ true }
    ensures { result ≡ record { head = head; types = []; languages = []; problems = []; groups = []; teams = [] } }
{
    match Settings::new(alloc, head) {
        Ok(settings) => settings,
        Err(_) => unreachable!(),
    }
}

// Adds all to settings in which nothing stands yet.
fn add_all(alloc: Global, settings: &mut Settings, rows: &FeedRows) -> Result<(), RowFault>
    requires fits { Fits rows.now }
    requires empty { settings.old ≡ record { head = settings.old.head; types = []; languages = []; problems = []; groups = []; teams = [] } }
    ensures ok { OnOk result (settings.new ≡ record {
      head = settings.old.head;
      types = map type_of rows.now.types.items;
      languages = any_language ∷ [];
      problems = map problem_of rows.now.problems.items;
      groups = [];
      teams = map (team_of rows.now.groups.items) rows.now.teams.items;
    }) }
    ensures err { IfErr result (λ e. e ≡ RowFault.Memory) }
{
    add_any_language(alloc, settings)?;
    add_types(alloc, settings, &rows.types)?;
    add_problems(alloc, settings, &rows.problems)?;
    add_teams(alloc, settings, &rows.groups, &rows.teams)
}

fn add_types(alloc: Global, settings: &mut Settings, rows: &[Row<FeedType>]) -> Result<(), RowFault>
    requires none { settings.old.types ≡ [] }
    requires few { length rows.now ≤ JUDGEMENT_TYPES }
    requires different { are_different (ids_of rows.now) ≡ true }
    ensures ok { OnOk result (settings.new ≡ record settings.old { types = map type_of rows.now }) }
    ensures err { IfErr result (λ e. e ≡ RowFault.Memory) }
{
    for row in rows {
        add_type(alloc, settings, row)?;
    }
    Ok(())
}

fn add_type(alloc: Global, settings: &mut Settings, row: &Row<FeedType>) -> Result<(), RowFault>
    requires { type_addition settings.old (type_of row.now) ≡ Ok true }
    ensures ok { OnOk result (settings.new ≡ with_type true settings.old (type_of row.now)) }
    ensures err { IfErr result (λ e. e ≡ RowFault.Memory) }
{
    let judgement_type = type_of(row)?;
    settings.add_judgement_type(alloc, judgement_type)?;
    Ok(())
}

fn type_of(row: &Row<FeedType>) -> Result<JudgementType, AllocError>
    ensures { IfOk result (λ t. t ≡ type_of row.now) }
{
    let object = &row.object;
    Ok(JudgementType::new(
        row.id.clone()?,
        object.name.clone()?,
        object.solved,
        object.penalty,
    ))
}

fn add_problems(
    alloc: Global,
    settings: &mut Settings,
    rows: &[Row<FeedProblem>],
) -> Result<(), RowFault>
    requires none { settings.old.problems ≡ [] }
    requires few { length rows.now ≤ PROBLEMS }
    requires different { are_different (ids_of rows.now) ≡ true }
    requires labels { are_different (map (λ row. row.object.label) rows.now) ≡ true }
    ensures ok { OnOk result (settings.new ≡ record settings.old { problems = map problem_of rows.now }) }
    ensures err { IfErr result (λ e. e ≡ RowFault.Memory) }
{
    for row in rows {
        add_problem(alloc, settings, row)?;
    }
    Ok(())
}

fn add_problem(
    alloc: Global,
    settings: &mut Settings,
    row: &Row<FeedProblem>,
) -> Result<(), RowFault>
    requires { problem_addition settings.old (problem_of row.now) ≡ Ok true }
    ensures ok { OnOk result (settings.new ≡ with_problem true settings.old (problem_of row.now)) }
    ensures err { IfErr result (λ e. e ≡ RowFault.Memory) }
{
    let problem = problem_of(row)?;
    settings.add_problem(alloc, problem)?;
    Ok(())
}

fn problem_of(row: &Row<FeedProblem>) -> Result<Problem, AllocError>
    ensures { IfOk result (λ p. p ≡ problem_of row.now) }
{
    let object = &row.object;
    Ok(Problem::new(
        row.id.clone()?,
        object.label.clone()?,
        object.name.clone()?,
        object.ordinal,
    ))
}

fn add_teams(
    alloc: Global,
    settings: &mut Settings,
    groups: &[Row<FeedGroup>],
    rows: &[Row<FeedTeam>],
) -> Result<(), RowFault>
    requires none { settings.old.teams ≡ [] }
    requires few { length rows.now ≤ TEAMS }
    requires different { are_different (ids_of rows.now) ≡ true }
    ensures ok { OnOk result (settings.new ≡ record settings.old { teams = map (team_of groups.now) rows.now }) }
    ensures err { IfErr result (λ e. e ≡ RowFault.Memory) }
{
    for row in rows {
        add_team(alloc, settings, groups, row)?;
    }
    Ok(())
}

fn add_team(
    alloc: Global,
    settings: &mut Settings,
    groups: &[Row<FeedGroup>],
    row: &Row<FeedTeam>,
) -> Result<(), RowFault>
    requires { team_addition settings.old (team_of groups.now row.now) ≡ Ok true }
    ensures ok { OnOk result (settings.new ≡ with_team true settings.old (team_of groups.now row.now)) }
    ensures err { IfErr result (λ e. e ≡ RowFault.Memory) }
{
    let team = team_of(alloc, groups, row)?;
    settings.add_team(alloc, team)?;
    Ok(())
}

fn team_of(
    alloc: Global,
    groups: &[Row<FeedGroup>],
    row: &Row<FeedTeam>,
) -> Result<Team, AllocError>
    ensures { IfOk result (λ t. t ≡ team_of groups.now row.now) }
{
    let mut team = Team::new(alloc, row.id.clone()?, row.object.name.clone()?);
    team.hidden = is_hidden(groups, &row.object);
    Ok(team)
}

// Whether a team says that it is hidden, or one of its groups does.
fn is_hidden(groups: &[Row<FeedGroup>], team: &FeedTeam) -> bool
    ensures { result ≡ is_hidden groups.now team.now }
{
    team.hidden || any_hides(groups, team.groups.as_slice())
}

// Whether one of the groups with these ids does.
fn any_hides(groups: &[Row<FeedGroup>], ids: &[Id]) -> bool
    ensures { result ≡ list_any (hides groups.now) ids.now }
{
    ids.iter().any(|id| hides(groups, id))
}

// Whether the group with this id stands, and hides its teams.
fn hides(groups: &[Row<FeedGroup>], id: &Id) -> bool
    ensures { result ≡ hides groups.now id.now }
{
    groups
        .iter()
        .any(|group| group.id == *id && group.object.hidden)
}
