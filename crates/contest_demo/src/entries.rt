//! The entries of the demo contest.
ghost use Rattle.std.specs.Prelude.{◌≡◌, ◌++◌, IfOk, OnOk, take};
ghost use Rattle.contest_demo.specs.Demo as demo;

use crate::rows::{account, judgement_type, language, problem, team};
use contest_types::{Entry, Role};
use std::alloc::{AllocError, Global};

/// All of them, with the first so many teams and problems.
///
/// # Errors
///
/// Want of memory alone.
pub(crate) fn demo_entries(
    alloc: Global,
    teams: usize,
    problems: usize,
) -> Result<Vec<Entry>, AllocError>
    ensures { IfOk result (λ entries. entries.items ≡ demo.demo_entries teams problems) }
{
    let mut entries = Vec::new(alloc);
    add_entries(alloc, &mut entries, teams, problems)?;
    Ok(entries)
}

fn add_entries(
    alloc: Global,
    entries: &mut Vec<Entry>,
    teams: usize,
    problems: usize,
) -> Result<(), AllocError>
    ensures { OnOk result (entries.new.items ≡ entries.old.items ++ demo.demo_entries teams problems) }
{
    add_judgement_types(alloc, entries)?;
    add_languages(alloc, entries)?;
    add_first(entries, all_problems(alloc)?, problems)?;
    add_first(entries, all_teams(alloc)?, teams)?;
    add_first(entries, team_accounts(alloc)?, teams)?;
    add_jury_accounts(alloc, entries)
}

fn add_first(entries: &mut Vec<Entry>, more: Vec<Entry>, count: usize) -> Result<(), AllocError>
    ensures { OnOk result (entries.new.items ≡ entries.old.items ++ take count more.items) }
{
    let mut more = more;
    more.truncate(count);
    entries.append(&mut more)?;
    Ok(())
}

fn add_judgement_types(alloc: Global, entries: &mut Vec<Entry>) -> Result<(), AllocError>
    ensures { OnOk result (entries.new.items ≡ entries.old.items ++ demo.judgement_types) }
{
    entries.push(judgement_type(alloc, "AC", "correct", true, false)?)?;
    entries.push(judgement_type(alloc, "WA", "wrong answer", false, true)?)?;
    entries.push(judgement_type(alloc, "CE", "compile error", false, false)?)?;
    Ok(())
}

fn add_languages(alloc: Global, entries: &mut Vec<Entry>) -> Result<(), AllocError>
    ensures { OnOk result (entries.new.items ≡ entries.old.items ++ demo.languages) }
{
    entries.push(language(alloc, "cpp", "C++", false)?)?;
    entries.push(language(alloc, "java", "Java", true)?)?;
    Ok(())
}

fn all_problems(alloc: Global) -> Result<Vec<Entry>, AllocError>
    ensures { IfOk result (λ entries. entries.items ≡ demo.problems) }
{
    let mut entries = Vec::new(alloc);
    entries.push(problem(alloc, "a", "A", "Apples", 0)?)?;
    entries.push(problem(alloc, "b", "B", "Bridges", 1)?)?;
    Ok(entries)
}

fn all_teams(alloc: Global) -> Result<Vec<Entry>, AllocError>
    ensures { IfOk result (λ entries. entries.items ≡ demo.teams) }
{
    let mut entries = Vec::new(alloc);
    entries.push(team(alloc, "t1", "Alpha", false)?)?;
    entries.push(team(alloc, "t2", "Beta", false)?)?;
    entries.push(team(alloc, "t3", "Gamma", false)?)?;
    entries.push(team(alloc, "t9", "Staff", true)?)?;
    Ok(entries)
}

fn team_accounts(alloc: Global) -> Result<Vec<Entry>, AllocError>
    ensures { IfOk result (λ entries. entries.items ≡ demo.team_accounts) }
{
    let mut entries = Vec::new(alloc);
    entries.push(account(alloc, "a1", Role::Team(0), "token-a1")?)?;
    entries.push(account(alloc, "a2", Role::Team(1), "token-a2")?)?;
    entries.push(account(alloc, "a3", Role::Team(2), "token-a3")?)?;
    entries.push(account(alloc, "a9", Role::Team(3), "token-a9")?)?;
    Ok(entries)
}

fn add_jury_accounts(alloc: Global, entries: &mut Vec<Entry>) -> Result<(), AllocError>
    ensures { OnOk result (entries.new.items ≡ entries.old.items ++ demo.jury_accounts) }
{
    entries.push(account(alloc, "j1", Role::Judge, "token-j1")?)?;
    entries.push(account(alloc, "j2", Role::Judge, "token-j2")?)?;
    entries.push(account(alloc, "adm", Role::Admin, "token-adm")?)?;
    Ok(())
}
