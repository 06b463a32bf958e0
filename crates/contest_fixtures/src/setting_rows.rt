//! Rows of a contest's settings, as tables of tests have them.

use contest_types::{
    Cause, Group, Id, JudgementType, Language, Name, Problem, RowFault, Rows, Settings, Team,
};
use std::alloc::Global;
use std::test::Fail;

/// A row of a contest's settings.
#[derive(Clone, Copy)]
pub enum SettingRow {
    /// A judgement type's id, which is its name as well, and whether it solves and is penalised.
    Type(&'static str, bool, bool),
    /// A language's id, which is its name as well, and whether it requires an entry point.
    Language(&'static str, bool),
    /// A problem's id, its label, which is its name as well, and its ordinal.
    Problem(&'static str, &'static str, u16),
    /// A group's id and its name.
    Group(&'static str, &'static str),
    /// A team's id, its name, the place of its group if it has one, and whether it is hidden.
    Team(&'static str, &'static str, Option<usize>, bool),
}

fn row_id(alloc: Global, text: &str) -> Result<Id, RowFault> {
    match Id::parse(alloc, text) {
        Ok(Some(id)) => Ok(id),
        Ok(None) => Err(RowFault::Fault(Cause::Malformed)),
        Err(_) => Err(RowFault::Memory),
    }
}

fn row_name(alloc: Global, text: &str) -> Result<Name, RowFault> {
    match Name::parse(alloc, text) {
        Ok(Some(name)) => Ok(name),
        Ok(None) => Err(RowFault::Fault(Cause::Malformed)),
        Err(_) => Err(RowFault::Memory),
    }
}

fn judgement_type(
    alloc: Global,
    id: &str,
    solved: bool,
    penalty: bool,
) -> Result<JudgementType, RowFault> {
    let name = row_name(alloc, id)?;
    Ok(JudgementType::new(row_id(alloc, id)?, name, solved, penalty))
}

fn language(alloc: Global, id: &str, entry_point_required: bool) -> Result<Language, RowFault> {
    let mut language = Language::new(row_id(alloc, id)?, row_name(alloc, id)?);
    language.entry_point_required = entry_point_required;
    Ok(language)
}

fn problem(alloc: Global, id: &str, label: &str, ordinal: u16) -> Result<Problem, RowFault> {
    let name = row_name(alloc, label)?;
    Ok(Problem::new(row_id(alloc, id)?, row_name(alloc, label)?, name, ordinal))
}

fn group(alloc: Global, id: &str, name: &str) -> Result<Group, RowFault> {
    Ok(Group::new(row_id(alloc, id)?, row_name(alloc, name)?))
}

fn groups(alloc: Global, group: Option<usize>) -> Result<Rows<usize>, RowFault> {
    let mut groups = Rows::new(alloc);
    if let Some(place) = group {
        groups.push(place)?;
    }
    Ok(groups)
}

fn team(
    alloc: Global,
    id: &str,
    name: &str,
    group: Option<usize>,
    hidden: bool,
) -> Result<Team, RowFault> {
    let mut team = Team::new(alloc, row_id(alloc, id)?, row_name(alloc, name)?);
    team.groups = groups(alloc, group)?;
    team.hidden = hidden;
    Ok(team)
}

fn add_row(alloc: Global, settings: &mut Settings, row: SettingRow) -> Result<bool, RowFault> {
    match row {
        SettingRow::Type(id, solved, penalty) => {
            settings.add_judgement_type(alloc, judgement_type(alloc, id, solved, penalty)?)
        }
        SettingRow::Language(id, entry_point_required) => {
            settings.add_language(alloc, language(alloc, id, entry_point_required)?)
        }
        SettingRow::Problem(id, label, ordinal) => {
            settings.add_problem(alloc, problem(alloc, id, label, ordinal)?)
        }
        SettingRow::Group(id, name) => settings.add_group(alloc, group(alloc, id, name)?),
        SettingRow::Team(id, name, group, hidden) => {
            settings.add_team(alloc, team(alloc, id, name, group, hidden)?)
        }
    }
}

/// Adds rows, none of which may be refused.
pub fn fill(alloc: Global, settings: &mut Settings, rows: &[SettingRow]) -> Result<(), Fail> {
    for row in rows {
        let _ = add_row(alloc, settings, *row)?;
    }
    Ok(())
}
