//! Changes of the settings, the accounts and the marks.
ghost use Rattle.std.specs.Prelude.{◌≡◌, ◌++◌, ◌∷◌, [], true, false, Bool, Ok, Result, IfOk, IfErr};
ghost use Rattle.std.specs.Prelude.{OnOk, filter, if◌then◌else◌};
ghost use Rattle.std.specs.Str.{bytes_eq};
ghost use Rattle.contest_types.specs.Accounts.{comes_before, with_account};
ghost use Rattle.contest_types.specs.Addable.{is_addable, is_added};
ghost use Rattle.contest_types.specs.Additions.{IsFaultOf};
ghost use Rattle.contest_types.specs.State.{ContestState, add, with_digest};
ghost use Rattle.contest_types.specs.declared.refusal.Cause.{Cause as TheCause};
ghost use Rattle.contest_lists.specs.RowsAdded.{HasSameSettings, is_setting_or_mark};

use crate::copies::{CopyRow, copied_fixed};
use crate::outcomes::value_if;
use contest_types::{Account, Digest, Entry, Fixed, Id, Identified, RowFault, Rows};
use std::alloc::{AllocError, Global};
use std::mem::replace;
use std::rc::Rc;

/// The settings, the accounts and the marks as a change that may be made leaves them: they are
/// shared, so it is made in a copy.
///
/// # Errors
///
/// Want of memory alone.
pub fn changed_fixed(alloc: Global, fixed: &Fixed, entry: &Entry) -> Result<Rc<Fixed>, AllocError>
    ensures changed { IfOk result (λ changed. (x : ContestState) → x.fixed ≡ fixed.now → is_addable x entry.now ≡ true → changed.value ≡ (add x entry.now).fixed) }
    ensures same { IfOk result (λ changed. is_setting_or_mark entry.now ≡ false → HasSameSettings fixed.now changed.value) }
{
    shared(alloc, changed(alloc, copied_fixed(alloc, fixed)?, entry)?)
}

fn changed(alloc: Global, fixed: Fixed, entry: &Entry) -> Result<Fixed, AllocError>
    ensures changed { IfOk result (λ changed. (x : ContestState) → x.fixed ≡ fixed → is_addable x entry.now ≡ true → changed ≡ (add x entry.now).fixed) }
    ensures same { IfOk result (λ changed. is_setting_or_mark entry.now ≡ false → HasSameSettings fixed changed) }
{
    let mut fixed = fixed;
    let changed = change(alloc, &mut fixed, entry);
    value_if(changed, fixed)
}

fn shared(alloc: Global, fixed: Fixed) -> Result<Rc<Fixed>, AllocError>
    ensures { IfOk result (λ shared. shared.value ≡ fixed) }
{
    Ok(Rc::new(alloc, fixed)?)
}

// Rows of what isn't the fixed part change nothing of it.
fn change(alloc: Global, fixed: &mut Fixed, entry: &Entry) -> Result<(), AllocError>
    ensures changed { OnOk result ((x : ContestState) → x.fixed ≡ fixed.old → is_addable x entry.now ≡ true → fixed.new ≡ (add x entry.now).fixed) }
    ensures same { OnOk result (is_setting_or_mark entry.now ≡ false → HasSameSettings fixed.old fixed.new) }
{
    let settings = &mut fixed.settings;
    match entry {
        Entry::NewType(row) => added(settings.add_judgement_type(alloc, row.copied(alloc)?)),
        Entry::NewLanguage(row) => added(settings.add_language(alloc, row.copied(alloc)?)),
        Entry::NewProblem(row) => added(settings.add_problem(alloc, row.copied(alloc)?)),
        Entry::NewGroup(row) => added(settings.add_group(alloc, row.copied(alloc)?)),
        Entry::NewTeam(row) => added(settings.add_team(alloc, row.copied(alloc)?)),
        Entry::NewAccount(row) => add_account(alloc, &mut fixed.accounts, row.copied(alloc)?),
        Entry::SetStart(start) => {
            fixed.marks.start = *start;
            Ok(())
        }
        Entry::SetThaw(thaw) => {
            fixed.marks.thaw = Some(*thaw);
            Ok(())
        }
        Entry::SetFinalized(finalized) => {
            fixed.marks.finalized = Some(*finalized);
            Ok(())
        }
        Entry::SetDuration(duration, freeze) => {
            let _ = settings.set_duration(*duration, *freeze);
            Ok(())
        }
        Entry::SetTeamName(team, name) => {
            settings.set_team_name(*team, name.clone()?);
            Ok(())
        }
        Entry::SetDigest(id, digest) => set_digest(alloc, &mut fixed.accounts, id, *digest),
        _ => Ok(()),
    }
}

// What came of a row: one that may be added is added, unless memory was refused.
fn added(outcome: Result<bool, RowFault>) -> Result<(), AllocError>
    ensures { OnOk result ((answer : Result Bool TheCause) → is_added answer ≡ true → IfOk outcome (λ done. answer ≡ Ok done) → IfErr outcome (λ e. IsFaultOf e answer) → outcome ≡ Ok true) }
{
    match outcome {
        Err(RowFault::Memory) => Err(AllocError),
        Ok(_) | Err(RowFault::Fault(_)) => Ok(()),
    }
}

// Gives the account with an id another token.
fn set_digest(
    alloc: Global,
    accounts: &mut Rows<Account>,
    id: &Id,
    digest: Digest,
) -> Result<(), AllocError>
    ensures { OnOk result (accounts.new ≡ with_digest accounts.old id.now digest) }
{
    let others = replace(accounts, Rows::new(alloc)).into_vec();
    *accounts = Rows::from_vec(all_given(alloc, others, id, digest)?);
    Ok(())
}

fn all_given(
    alloc: Global,
    accounts: Vec<Account>,
    id: &Id,
    digest: Digest,
) -> Result<Vec<Account>, AllocError>
    ensures { IfOk result (λ all. all.items ≡ with_digest accounts.items id.now digest) }
{
    let mut all = Vec::new(alloc);
    for account in accounts {
        all.push(given(account, id, digest))?;
    }
    Ok(all)
}

// The account, with another token if it has the id.
fn given(account: Account, id: &Id, digest: Digest) -> Account
    ensures { result ≡ (if bytes_eq account.id id.now then record account { digest = digest } else account) }
{
    let mut account = account;
    if account.id == *id {
        account.digest = digest;
    }
    account
}

/// Adds an account at the place that its id has.
///
/// # Errors
///
/// Want of memory alone. The accounts are of no use any more then.
pub fn add_account(
    alloc: Global,
    accounts: &mut Rows<Account>,
    account: Account,
) -> Result<(), AllocError>
    ensures { OnOk result (accounts.new ≡ with_account accounts.old account) }
{
    let mut lower = Vec::new(alloc);
    let mut higher = Vec::new(alloc);
    let others = replace(accounts, Rows::new(alloc)).into_vec();
    part(others, &account, &mut lower, &mut higher)?;
    lower.push(account)?;
    lower.append(&mut higher)?;
    *accounts = Rows::from_vec(lower);
    Ok(())
}

// Those that come before an account, and those that come after it.
fn part(
    others: Vec<Account>,
    account: &Account,
    lower: &mut Vec<Account>,
    higher: &mut Vec<Account>,
) -> Result<(), AllocError>
    ensures lower { OnOk result (lower.new.items ≡ lower.old.items ++ filter (λ b. comes_before b account.now) others.items) }
    ensures higher { OnOk result (higher.new.items ≡ higher.old.items ++ filter (λ b. comes_before account.now b) others.items) }
{
    for other in others {
        put(other, account, lower, higher)?;
    }
    Ok(())
}

fn put(
    other: Account,
    account: &Account,
    lower: &mut Vec<Account>,
    higher: &mut Vec<Account>,
) -> Result<(), AllocError>
    ensures lower { OnOk result (lower.new.items ≡ lower.old.items ++ filter (λ b. comes_before b account.now) (other ∷ [])) }
    ensures higher { OnOk result (higher.new.items ≡ higher.old.items ++ filter (λ b. comes_before account.now b) (other ∷ [])) }
{
    if comes_before(&other, account) {
        lower.push(other)?;
    } else if comes_before(account, &other) {
        higher.push(other)?;
    }
    Ok(())
}

fn comes_before(a: &Account, b: &Account) -> bool
    ensures { result ≡ comes_before a.now b.now }
{
    a.id.cmp(&b.id).is_lt()
}
