//! The rows that the objects of settings files say.
ghost use Rattle.std.specs.Prelude.{◌≡◌, [], Ok, IfOk, IfErr, codes};
ghost use Rattle.contest_types.specs.Additions.{IsFaultOf};
ghost use Rattle.contest_files.specs.JsonMembers.{number_in, or_usual, present_in};
ghost use Rattle.contest_files.specs.IdArrays.{ids_in};
ghost use Rattle.contest_import.specs.SettingsObjects.{group_in, language_in, object_row};
ghost use Rattle.contest_import.specs.SettingsObjects.{or_malformed, problem_in, team_in, type_in};
ghost use Rattle.serde_json.specs.View.{view};

use crate::TeamRow;
use crate::record_fault::{MALFORMED, memory_of};
use crate::teams::team_or_malformed;
use contest_files::{flag_in, flag_or_false, id_member, ids_in, name_in, number_in, present_in};
use contest_types::{
    Entry, Fixed, Group, Id, JudgementType, Language, Problem, Refusal, RowFault, Rows,
    SettingsKind,
};
use serde_json::Value;
use std::alloc::Global;

/// The row that an object of a settings file says.
///
/// # Errors
///
/// An object that says none (`Malformed`), a team whose groups aren't there (`UnknownReference`),
/// or want of memory.
pub(crate) fn object_row(
    alloc: Global,
    kind: SettingsKind,
    fixed: &Fixed,
    object: &Value,
) -> Result<Entry, RowFault>
    ensures ok { IfOk result (λ row. object_row kind fixed.now (view object.now) ≡ Ok row) }
    ensures err { IfErr result (λ e. IsFaultOf e (object_row kind fixed.now (view object.now))) }
{
    match kind {
        SettingsKind::JudgementTypes => or_malformed(type_in(alloc, object)),
        SettingsKind::Languages => or_malformed(language_in(alloc, object)),
        SettingsKind::Problems => or_malformed(problem_in(alloc, object)),
        SettingsKind::Groups => or_malformed(group_in(alloc, object)),
        SettingsKind::Teams => match team_in(alloc, object) {
            Ok(told) => team_or_malformed(alloc, &fixed.settings, told),
            Err(refusal) => Err(memory_of(refusal)),
        },
    }
}

// A row that was read, or off its form.
fn or_malformed(read: Result<Option<Entry>, Refusal>) -> Result<Entry, RowFault>
    requires { IfErr read (λ e. e ≡ Refusal.Memory) }
    ensures ok { IfOk result (λ row. IfOk read (λ found. or_malformed found ≡ Ok row)) }
    ensures err { IfErr result (λ e. IfOk read (λ found. IsFaultOf e (or_malformed found))) }
    ensures memory { IfErr read (λ _. IfOk result (λ _. ⊥) × IfErr result (λ e. e ≡ RowFault.Memory)) }
{
    match read {
        Ok(Some(row)) => Ok(row),
        Ok(None) => Err(MALFORMED),
        Err(refusal) => Err(memory_of(refusal)),
    }
}

// A judgement type: id, name, solved and penalty.
fn type_in(alloc: Global, object: &Value) -> Result<Option<Entry>, Refusal>
    ensures value { IfOk result (λ found. found ≡ type_in (view object.now)) }
    ensures err { IfErr result (λ e. e ≡ Refusal.Memory) }
{
    let Some(id) = id_member(alloc, object, "id")? else {
        return Ok(None);
    };
    let Some(name) = name_in(alloc, object, "name")? else {
        return Ok(None);
    };
    let Some(solved) = flag_in(object, "solved") else {
        return Ok(None);
    };
    let Some(penalty) = flag_or_false(object, "penalty") else {
        return Ok(None);
    };
    Ok(Some(Entry::NewType(JudgementType {
        id,
        name,
        solved,
        penalty,
    })))
}

// A language: id, name and entry_point_required.
fn language_in(alloc: Global, object: &Value) -> Result<Option<Entry>, Refusal>
    ensures value { IfOk result (λ found. found ≡ language_in (view object.now)) }
    ensures err { IfErr result (λ e. e ≡ Refusal.Memory) }
{
    let Some(id) = id_member(alloc, object, "id")? else {
        return Ok(None);
    };
    let Some(name) = name_in(alloc, object, "name")? else {
        return Ok(None);
    };
    let Some(entry_point_required) = flag_or_false(object, "entry_point_required") else {
        return Ok(None);
    };
    Ok(Some(Entry::NewLanguage(Language {
        id,
        name,
        entry_point_required,
    })))
}

// A problem: id, label, name and ordinal.
fn problem_in(alloc: Global, object: &Value) -> Result<Option<Entry>, Refusal>
    ensures value { IfOk result (λ found. found ≡ problem_in (view object.now)) }
    ensures err { IfErr result (λ e. e ≡ Refusal.Memory) }
{
    let Some(id) = id_member(alloc, object, "id")? else {
        return Ok(None);
    };
    let Some(label) = name_in(alloc, object, "label")? else {
        return Ok(None);
    };
    let Some(name) = name_in(alloc, object, "name")? else {
        return Ok(None);
    };
    let Some(ordinal) = ordinal_in(object) else {
        return Ok(None);
    };
    Ok(Some(Entry::NewProblem(Problem {
        id,
        label,
        name,
        ordinal,
    })))
}

/// A problem's ordinal, if a member is one.
#[tactic(auto, using(crate::proofs::ObjectLemmas::number_within))]
pub fn ordinal_in(object: &Value) -> Option<u16>
    ensures { result ≡ number_in 65_535 (codes "ordinal") (view object.now) }
{
    match number_in(object, "ordinal", 65_535) {
        Some(ordinal) => Some(ordinal as u16),
        None => None,
    }
}

// A group: id and name.
fn group_in(alloc: Global, object: &Value) -> Result<Option<Entry>, Refusal>
    ensures value { IfOk result (λ found. found ≡ group_in (view object.now)) }
    ensures err { IfErr result (λ e. e ≡ Refusal.Memory) }
{
    let Some(id) = id_member(alloc, object, "id")? else {
        return Ok(None);
    };
    let Some(name) = name_in(alloc, object, "name")? else {
        return Ok(None);
    };
    Ok(Some(Entry::NewGroup(Group { id, name })))
}

/// A team: id, name, group_ids and hidden.
pub(crate) fn team_in(alloc: Global, object: &Value) -> Result<Option<TeamRow>, Refusal>
    ensures value { IfOk result (λ found. found ≡ team_in (view object.now)) }
    ensures err { IfErr result (λ e. e ≡ Refusal.Memory) }
{
    let Some(id) = id_member(alloc, object, "id")? else {
        return Ok(None);
    };
    let Some(name) = name_in(alloc, object, "name")? else {
        return Ok(None);
    };
    let Some(groups) = group_ids_in(alloc, object)? else {
        return Ok(None);
    };
    let Some(hidden) = flag_or_false(object, "hidden") else {
        return Ok(None);
    };
    Ok(Some(TeamRow {
        id,
        name,
        groups,
        hidden,
    }))
}

// The ids of a team's groups; none where group_ids isn't there.
fn group_ids_in(alloc: Global, object: &Value) -> Result<Option<Rows<Id>>, Refusal>
    ensures value { IfOk result (λ found. found ≡ or_usual [] ids_in (present_in (codes "group_ids") (view object.now))) }
    ensures err { IfErr result (λ e. e ≡ Refusal.Memory) }
{
    match present_in(object, "group_ids") {
        Some(member) => ids_in(alloc, member),
        None => Ok(Some(Rows::new(alloc))),
    }
}
