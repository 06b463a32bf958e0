//! An account or a team that an administrator adds.
ghost use Rattle.std.specs.Prelude.{◌≡◌, Ok, Err, IfOk, IfErr};
ghost use Rattle.contest_import.specs.CsvFiles.{account_of};
ghost use Rattle.contest_import.specs.Teams.{named_team};
ghost use Rattle.contest_postings.specs.PostChanges.{account_added, is_over, made_as, refusal_for};
ghost use Rattle.contest_postings.specs.PostChanges.{ruled_row, team_added};

use crate::changes::{FixedChange, MadeChange};
use contest_import::{
    AccountRow, TeamRow, account_addition, account_of, named_team, team_addition,
};
use contest_rules::RuleRefusal;
use contest_types::{Cause, Fixed, Moment, Phase, RowFault, phase};
use std::alloc::{AllocError, Global};

/// What becomes of an account that is to be added: at any time, and one that stands is no change.
///
/// # Errors
///
/// A team that isn't there, other content under its id, its token held by another account, or too
/// many accounts.
pub(crate) fn add_account(fixed: &Fixed, wanted: AccountRow) -> Result<MadeChange, RuleRefusal>
    ensures { result ≡ account_added fixed.now (account_of fixed.now.settings wanted) }
{
    let Some(account) = account_of(&fixed.settings, wanted) else {
        return Err(RuleRefusal::UnknownReference);
    };
    let added = account_addition(&fixed.settings, fixed.accounts.as_slice(), &account);
    made_as(FixedChange::Account(account), ruled_row(false, added))
}

/// What becomes of a team that is to be added: one that stands is no change, at any time.
///
/// # Errors
///
/// Want of memory alone. It is refused for a group that isn't there, for other content under its id,
/// after the end or beside final results, and where there are too many teams.
pub(crate) fn add_team(
    alloc: Global,
    fixed: &Fixed,
    wanted: TeamRow,
    now: Moment,
) -> Result<Result<MadeChange, RuleRefusal>, AllocError>
    ensures { IfOk result (λ done. done ≡ team_added fixed.now now (named_team fixed.now.settings wanted)) }
{
    let Some(team) = named_team(alloc, &fixed.settings, wanted)? else {
        return Ok(Err(RuleRefusal::UnknownReference));
    };
    let added = cause_of(team_addition(alloc, fixed, &team))?;
    Ok(made_as(
        FixedChange::Team(team),
        ruled_row(is_over(fixed, now), added),
    ))
}

// Why a row isn't added, unless it is for want of memory.
fn cause_of(added: Result<bool, RowFault>) -> Result<Result<bool, Cause>, AllocError>
    ensures { IfOk result (λ ruled. (IfOk ruled (λ is_new. added ≡ Ok is_new)) × (IfErr ruled (λ cause. added ≡ Err (RowFault.Fault cause)))) }
{
    match added {
        Ok(is_new) => Ok(Ok(is_new)),
        Err(RowFault::Fault(cause)) => Ok(Err(cause)),
        Err(RowFault::Memory) => Err(AllocError),
    }
}

/// The change, if the rules allow it.
pub(crate) fn made_as(
    change: FixedChange,
    ruled: Result<bool, RuleRefusal>,
) -> Result<MadeChange, RuleRefusal>
    ensures { result ≡ made_as change ruled }
{
    match ruled {
        Ok(is_new) => Ok(MadeChange { change, is_new }),
        Err(refusal) => Err(refusal),
    }
}

// Whether the contest has ended, or a moment of final results is set.
fn is_over(fixed: &Fixed, now: Moment) -> bool
    ensures { result ≡ is_over fixed.now now }
{
    let marks = &fixed.marks;
    phase(marks, &fixed.settings, now) == Phase::Ended || marks.finalized.is_some()
}

fn ruled_row(over: bool, added: Result<bool, Cause>) -> Result<bool, RuleRefusal>
    ensures { result ≡ ruled_row over added }
{
    match added {
        Ok(is_new) if is_new && over => Err(RuleRefusal::NotOpen),
        Ok(is_new) => Ok(is_new),
        Err(Cause::TableFull) if over => Err(RuleRefusal::NotOpen),
        Err(cause) => Err(refusal_for(cause)),
    }
}

// The refusal of a command for what refuses a row.
fn refusal_for(cause: Cause) -> RuleRefusal
    ensures { result ≡ refusal_for cause }
{
    match cause {
        Cause::Malformed => RuleRefusal::Malformed,
        Cause::UnknownReference => RuleRefusal::UnknownReference,
        Cause::KeyReused => RuleRefusal::KeyReused,
        Cause::TableFull => RuleRefusal::TeamLimit,
        Cause::AlreadyReleased => RuleRefusal::AlreadyReleased,
        Cause::NotOpen => RuleRefusal::NotOpen,
    }
}
