//! A token, a team's name or a duration that an administrator changes.
ghost use Rattle.std.specs.Prelude.{◌≡◌, IfOk};
ghost use Rattle.std.specs.Option.{option_map};
ghost use Rattle.contest_types.specs.Accounts.{account_named};
ghost use Rattle.contest_postings.specs.PostChanges.{extension_made, name_set, team_named, token_ruled};
ghost use Rattle.contest_postings.specs.PostChanges.{token_set};

use crate::added_rows::made_as;
use crate::changes::{FixedChange, MadeChange};
use contest_import::{NameRow, TokenRow, has_digest};
use contest_lists::CopyRow;
use contest_rules::{RuleRefusal, WantedExtension, decide_extension};
use contest_types::{Account, Digest, Fixed, Identified, Moment, Submission};
use std::alloc::{AllocError, Global};

/// What becomes of another token of an account: the one that it has is no change.
///
/// # Errors
///
/// Want of memory alone. It is refused for an account that isn't there, and for a token that another
/// account has.
pub(crate) fn set_token(
    alloc: Global,
    fixed: &Fixed,
    wanted: TokenRow,
) -> Result<Result<MadeChange, RuleRefusal>, AllocError>
    ensures { IfOk result (λ done. done ≡ token_set fixed.now wanted (account_named fixed.now.accounts wanted.id)) }
{
    let accounts = fixed.accounts.as_slice();
    let Some(account) = account_named(accounts, wanted.id.as_bytes()) else {
        return Ok(Err(RuleRefusal::UnknownReference));
    };
    let ruled = token_ruled(accounts, account, &wanted.digest);
    let account = account.copied(alloc)?;
    Ok(made_as(FixedChange::Token(account, wanted.digest), ruled))
}

/// The account with an id, if there is one.
pub fn account_named<'a>(accounts: &'a [Account], id: &[u8]) -> Option<&'a Account>
    ensures { option_map (λ a. a.now) result ≡ account_named accounts.now id.now }
{
    accounts.iter().find(|account| account.id.as_bytes() == id)
}

fn token_ruled(
    accounts: &[Account],
    account: &Account,
    digest: &Digest,
) -> Result<bool, RuleRefusal>
    ensures { result ≡ token_ruled accounts.now account.now digest.now }
{
    if account.digest.as_bytes() == digest.as_bytes() {
        Ok(false)
    } else if has_digest(accounts, digest) {
        Err(RuleRefusal::KeyReused)
    } else {
        Ok(true)
    }
}

/// What becomes of another name of a team: the one that it has is no change.
///
/// # Errors
///
/// Want of memory alone. It is refused for a team that isn't there.
pub(crate) fn set_name(
    alloc: Global,
    fixed: &Fixed,
    wanted: NameRow,
) -> Result<Result<MadeChange, RuleRefusal>, AllocError>
    ensures { IfOk result (λ done. done ≡ name_set wanted.name (team_named fixed.now.settings wanted.team)) }
{
    let Some(place) = fixed.settings.team_place(wanted.team.as_bytes()) else {
        return Ok(Err(RuleRefusal::UnknownReference));
    };
    let mut team = fixed.settings.teams()[place].copied(alloc)?;
    let is_new = team.name != wanted.name;
    team.name = wanted.name;
    let change = FixedChange::Name(place, team);
    Ok(Ok(MadeChange { change, is_new }))
}

/// What becomes of an extension, over the contest's submissions.
///
/// # Errors
///
/// Those of `decide_extension`.
pub(crate) fn extend(
    fixed: &Fixed,
    submissions: &[Submission],
    wanted: WantedExtension,
    now: Moment,
) -> Result<MadeChange, RuleRefusal>
    ensures { result ≡ extension_made fixed.now submissions.now now wanted }
{
    match decide_extension(fixed, submissions, &wanted, now) {
        Ok(extension) => Ok(MadeChange {
            change: FixedChange::Extension(extension.duration, extension.freeze),
            is_new: extension.is_new,
        }),
        Err(refusal) => Err(refusal),
    }
}
