//! Rows from texts that are of their form.
ghost use Rattle.std.specs.Prelude.{◌≡◌, IfOk, IsTrue};
ghost use Rattle.contest_types.specs.IdText.{IsId};
ghost use Rattle.contest_demo.specs.Demo.{new_account, new_language, new_problem, new_team};
ghost use Rattle.contest_demo.specs.Demo.{new_type};
ghost use Rattle.contest_demo.specs.Texts.{is_printed_name};

use contest_types::{
    Account, Digest, Entry, Id, JudgementType, Language, Name, Problem, Role, Team,
};
use sha2::{Digest as _, Sha256};
use std::alloc::{AllocError, Global};

/// # Errors
///
/// Want of memory alone, as of all that follows.
pub(crate) fn id(alloc: Global, text: &str) -> Result<Id, AllocError>
    requires { IsId text.now }
    ensures { IfOk result (λ id. id ≡ text.now) }
{
    match Id::parse(alloc, text) {
        Ok(Some(id)) => Ok(id),
        Ok(None) => unreachable!(),
        Err(_) => Err(AllocError),
    }
}

#[tactic(auto, using(crate::proofs::NameLemmas::printed_names))]
pub(crate) fn name(alloc: Global, text: &str) -> Result<Name, AllocError>
    requires { IsTrue (is_printed_name text.now) }
    ensures { IfOk result (λ name. name ≡ text.now) }
{
    match Name::parse(alloc, text) {
        Ok(Some(name)) => Ok(name),
        Ok(None) => unreachable!(),
        Err(_) => Err(AllocError),
    }
}

pub(crate) fn judgement_type(
    alloc: Global,
    id_text: &str,
    name_text: &str,
    solved: bool,
    penalty: bool,
) -> Result<Entry, AllocError>
    requires id { IsId id_text.now }
    requires name { IsTrue (is_printed_name name_text.now) }
    ensures { IfOk result (λ entry. entry ≡ new_type id_text.now name_text.now solved penalty) }
{
    let id = id(alloc, id_text)?;
    let name = name(alloc, name_text)?;
    Ok(Entry::NewType(JudgementType::new(id, name, solved, penalty)))
}

pub(crate) fn language(
    alloc: Global,
    id_text: &str,
    name_text: &str,
    entry_point_required: bool,
) -> Result<Entry, AllocError>
    requires id { IsId id_text.now }
    requires name { IsTrue (is_printed_name name_text.now) }
    ensures { IfOk result (λ entry. entry ≡ new_language id_text.now name_text.now entry_point_required) }
{
    let mut language = Language::new(id(alloc, id_text)?, name(alloc, name_text)?);
    language.entry_point_required = entry_point_required;
    Ok(Entry::NewLanguage(language))
}

pub(crate) fn problem(
    alloc: Global,
    id_text: &str,
    label_text: &str,
    name_text: &str,
    ordinal: u16,
) -> Result<Entry, AllocError>
    requires id { IsId id_text.now }
    requires label { IsTrue (is_printed_name label_text.now) }
    requires name { IsTrue (is_printed_name name_text.now) }
    ensures { IfOk result (λ entry. entry ≡ new_problem id_text.now label_text.now name_text.now ordinal) }
{
    let id = id(alloc, id_text)?;
    let label = name(alloc, label_text)?;
    let name = name(alloc, name_text)?;
    Ok(Entry::NewProblem(Problem::new(id, label, name, ordinal)))
}

pub(crate) fn team(
    alloc: Global,
    id_text: &str,
    name_text: &str,
    hidden: bool,
) -> Result<Entry, AllocError>
    requires id { IsId id_text.now }
    requires name { IsTrue (is_printed_name name_text.now) }
    ensures { IfOk result (λ entry. entry ≡ new_team id_text.now name_text.now hidden) }
{
    let mut team = Team::new(alloc, id(alloc, id_text)?, name(alloc, name_text)?);
    team.hidden = hidden;
    Ok(Entry::NewTeam(team))
}

pub(crate) fn account(
    alloc: Global,
    id_text: &str,
    role: Role,
    token: &str,
) -> Result<Entry, AllocError>
    requires { IsId id_text.now }
    ensures { IfOk result (λ entry. entry ≡ new_account id_text.now role token.now) }
{
    Ok(Entry::NewAccount(Account {
        id: id(alloc, id_text)?,
        role,
        digest: Digest::new(Sha256::digest(token.as_bytes())),
    }))
}
