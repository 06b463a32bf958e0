//! The settings as rows, and the settings that rows are.
ghost use Rattle.std.specs.Prelude.{◌≡◌, ◌<◌, ◌^◌, Some, None, true, false, IfOk};
ghost use Rattle.contest_store_rows.specs.Cells.{lent};
ghost use Rattle.contest_store_rows.specs.FixedRows.{group_row, item_row, language_row};
ghost use Rattle.contest_store_rows.specs.FixedRows.{problem_row, type_row};
ghost use Rattle.contest_store_reading.specs.Items.{group_said, language_said, problem_said};
ghost use Rattle.contest_store_reading.specs.Items.{type_said, with_group_in, with_language_in};
ghost use Rattle.contest_store_reading.specs.Items.{with_problem_in, with_type_in};

use contest_store_rows::{id_in, is_row, is_set, name_in, number, number_at};
use contest_types::{Group, JudgementType, Language, Problem, RowFault, Settings};
use sqlite::Row;
use sqlite::types::{ToSql, ValueRef};
use std::alloc::{AllocError, Global};

/// What the rows of all kinds of settings have; what a kind has no use for is 0 or empty.
#[derive(Clone, Copy)]
pub struct Item<'a> {
    pub kind: u64,
    pub number: u64,
    pub id: &'a str,
    pub name: &'a str,
    pub label: &'a str,
    pub ordinal: u64,
    pub flag_a: bool,
    pub flag_b: bool,
    pub group_ids: &'a str,
}

/// The cells of such a row.
pub fn item_cells<'a>(item: &Item<'a>) -> [ValueRef<'a>; 9]
    requires kind { item.now.kind < 2 ^ 63 }
    requires row { item.now.number < 2 ^ 63 }
    requires ordinal { item.now.ordinal < 2 ^ 63 }
    ensures { lent result ≡ item_row item.now.kind item.now.number item.now.id.now item.now.name.now item.now.label.now item.now.ordinal item.now.flag_a item.now.flag_b item.now.group_ids.now }
{
    [
        number(item.kind),
        number(item.number),
        ValueRef::Text(item.id.as_bytes()),
        ValueRef::Text(item.name.as_bytes()),
        ValueRef::Text(item.label.as_bytes()),
        number(item.ordinal),
        item.flag_a.to_sql(),
        item.flag_b.to_sql(),
        ValueRef::Text(item.group_ids.as_bytes()),
    ]
}

/// The cells of the row of a judgement type, which is one with this number, from 1.
pub fn type_cells(number: u64, row: &JudgementType) -> [ValueRef<'_>; 9]
    requires { number < 2 ^ 63 }
    ensures { lent result ≡ type_row number row.now }
{
    item_cells(&Item {
        kind: 0,
        number,
        id: row.id.as_str(),
        name: row.name.as_str(),
        label: "",
        ordinal: 0,
        flag_a: row.solved,
        flag_b: row.penalty,
        group_ids: "",
    })
}

fn type_said(alloc: Global, row: &Row) -> Result<Option<JudgementType>, AllocError>
    ensures { IfOk result (λ found. found ≡ type_said row.now) }
{
    let Some(id) = id_in(alloc, row, 2)? else {
        return Ok(None);
    };
    let Some(name) = name_in(alloc, row, 3)? else {
        return Ok(None);
    };
    Ok(Some(JudgementType {
        id,
        name,
        solved: is_set(row, 6),
        penalty: is_set(row, 7),
    }))
}

/// The cells of the row of a language, which is one with this number, from 1.
pub fn language_cells(number: u64, row: &Language) -> [ValueRef<'_>; 9]
    requires { number < 2 ^ 63 }
    ensures { lent result ≡ language_row number row.now }
{
    item_cells(&Item {
        kind: 1,
        number,
        id: row.id.as_str(),
        name: row.name.as_str(),
        label: "",
        ordinal: 0,
        flag_a: row.entry_point_required,
        flag_b: false,
        group_ids: "",
    })
}

/// The cells of the row of a group, which is one with this number, from 1.
pub fn group_cells(number: u64, row: &Group) -> [ValueRef<'_>; 9]
    requires { number < 2 ^ 63 }
    ensures { lent result ≡ group_row number row.now }
{
    item_cells(&Item {
        kind: 2,
        number,
        id: row.id.as_str(),
        name: row.name.as_str(),
        label: "",
        ordinal: 0,
        flag_a: false,
        flag_b: false,
        group_ids: "",
    })
}

/// The cells of the row of a problem, which is one with this number, from 1.
pub fn problem_cells(number: u64, row: &Problem) -> [ValueRef<'_>; 9]
    requires { number < 2 ^ 63 }
    ensures { lent result ≡ problem_row number row.now }
{
    item_cells(&Item {
        kind: 3,
        number,
        id: row.id.as_str(),
        name: row.name.as_str(),
        label: row.label.as_str(),
        ordinal: u64::from(row.ordinal),
        flag_a: false,
        flag_b: false,
        group_ids: "",
    })
}

fn language_said(alloc: Global, row: &Row) -> Result<Option<Language>, AllocError>
    ensures { IfOk result (λ found. found ≡ language_said row.now) }
{
    let Some(id) = id_in(alloc, row, 2)? else {
        return Ok(None);
    };
    let Some(name) = name_in(alloc, row, 3)? else {
        return Ok(None);
    };
    Ok(Some(Language {
        id,
        name,
        entry_point_required: is_set(row, 6),
    }))
}

fn group_said(alloc: Global, row: &Row) -> Result<Option<Group>, AllocError>
    ensures { IfOk result (λ found. found ≡ group_said row.now) }
{
    let Some(id) = id_in(alloc, row, 2)? else {
        return Ok(None);
    };
    let Some(name) = name_in(alloc, row, 3)? else {
        return Ok(None);
    };
    Ok(Some(Group { id, name }))
}

fn problem_said(alloc: Global, row: &Row) -> Result<Option<Problem>, AllocError>
    ensures { IfOk result (λ found. found ≡ problem_said row.now) }
{
    let Ok(ordinal) = u16::try_from(number_at(row, 5)) else {
        return Ok(None);
    };
    let Some(id) = id_in(alloc, row, 2)? else {
        return Ok(None);
    };
    let Some(name) = name_in(alloc, row, 3)? else {
        return Ok(None);
    };
    let Some(label) = name_in(alloc, row, 4)? else {
        return Ok(None);
    };
    Ok(Some(Problem {
        id,
        label,
        name,
        ordinal,
    }))
}

/// Adds the judgement type that a row is, and answers whether it is the next one's.
///
/// # Errors
///
/// Want of memory alone.
pub fn add_type_in(alloc: Global, settings: &mut Settings, row: &Row) -> Result<bool, AllocError>
    ensures added { IfOk result (λ added. added ≡ true → with_type_in settings.old row.now ≡ Some settings.new) }
    ensures other { IfOk result (λ added. added ≡ false → with_type_in settings.old row.now ≡ None) }
{
    let Some(judgement_type) = type_said(alloc, row)? else {
        return Ok(false);
    };
    let next = settings.judgement_types().len() as u64 + 1;
    if !is_row(row, &type_cells(next, &judgement_type)) {
        return Ok(false);
    }
    match settings.add_judgement_type(alloc, judgement_type) {
        Ok(added) => Ok(added),
        Err(RowFault::Fault(_)) => Ok(false),
        Err(RowFault::Memory) => Err(AllocError),
    }
}

/// Adds the language that a row is, and answers whether it is the next one's.
///
/// # Errors
///
/// Want of memory alone.
pub fn add_language_in(
    alloc: Global,
    settings: &mut Settings,
    row: &Row,
) -> Result<bool, AllocError>
    ensures added { IfOk result (λ added. added ≡ true → with_language_in settings.old row.now ≡ Some settings.new) }
    ensures other { IfOk result (λ added. added ≡ false → with_language_in settings.old row.now ≡ None) }
{
    let Some(language) = language_said(alloc, row)? else {
        return Ok(false);
    };
    let next = settings.languages().len() as u64 + 1;
    if !is_row(row, &language_cells(next, &language)) {
        return Ok(false);
    }
    match settings.add_language(alloc, language) {
        Ok(added) => Ok(added),
        Err(RowFault::Fault(_)) => Ok(false),
        Err(RowFault::Memory) => Err(AllocError),
    }
}

/// Adds the group that a row is, and answers whether it is the next one's.
///
/// # Errors
///
/// Want of memory alone.
pub fn add_group_in(alloc: Global, settings: &mut Settings, row: &Row) -> Result<bool, AllocError>
    ensures added { IfOk result (λ added. added ≡ true → with_group_in settings.old row.now ≡ Some settings.new) }
    ensures other { IfOk result (λ added. added ≡ false → with_group_in settings.old row.now ≡ None) }
{
    let Some(group) = group_said(alloc, row)? else {
        return Ok(false);
    };
    let next = settings.groups().len() as u64 + 1;
    if !is_row(row, &group_cells(next, &group)) {
        return Ok(false);
    }
    match settings.add_group(alloc, group) {
        Ok(added) => Ok(added),
        Err(RowFault::Fault(_)) => Ok(false),
        Err(RowFault::Memory) => Err(AllocError),
    }
}

/// Adds the problem that a row is, and answers whether it is the next one's.
///
/// # Errors
///
/// Want of memory alone.
pub fn add_problem_in(alloc: Global, settings: &mut Settings, row: &Row) -> Result<bool, AllocError>
    ensures added { IfOk result (λ added. added ≡ true → with_problem_in settings.old row.now ≡ Some settings.new) }
    ensures other { IfOk result (λ added. added ≡ false → with_problem_in settings.old row.now ≡ None) }
{
    let Some(problem) = problem_said(alloc, row)? else {
        return Ok(false);
    };
    let next = settings.problems().len() as u64 + 1;
    if !is_row(row, &problem_cells(next, &problem)) {
        return Ok(false);
    }
    match settings.add_problem(alloc, problem) {
        Ok(added) => Ok(added),
        Err(RowFault::Fault(_)) => Ok(false),
        Err(RowFault::Memory) => Err(AllocError),
    }
}
