//! An administrator posts a change of the settings or the accounts.
ghost use Rattle.std.specs.Prelude.{◌≡◌, ◌⊎◌, true, None, Some, Ok, Err, IfOk, IfErr};
ghost use Rattle.contest_operations.specs.PostedChanges.{change_in, posted_change};

use contest_import::{read_account, read_name, read_team, read_token};
use contest_postings::WantedChange;
use contest_requests::read_extension;
use contest_types::Refusal;
use std::alloc::Global;

/// What an administrator changes (own).
#[derive(Clone, Copy)]
pub enum ChangeKind {
    /// An account is added.
    Account,
    /// A team is added, until the contest has ended.
    Team,
    /// An account gets another token.
    Token,
    /// A team gets another name.
    Name,
    /// The contest gets more time.
    Extension,
}

/// The change that a body says, if an administrator posts it.
///
/// # Errors
///
/// `RoleForbids`, then `Malformed` where the body is off its form; else want of memory.
pub fn post_change(
    alloc: Global,
    kind: ChangeKind,
    is_admin: bool,
    body: &[u8],
) -> Result<WantedChange, Refusal>
    ensures ok { IfOk result (λ w. posted_change is_admin (change_in kind body.now) ≡ Ok w) }
    ensures err { IfErr result (λ e. (e ≡ Refusal.Memory) ⊎ (posted_change is_admin (change_in kind body.now) ≡ Err e)) }
    ensures forbids { IfErr result (λ e. e ≡ Refusal.Memory → is_admin ≡ true) }
{
    if is_admin {
        read_change(alloc, kind, body)
    } else {
        Err(Refusal::RoleForbids)
    }
}

fn read_change(alloc: Global, kind: ChangeKind, body: &[u8]) -> Result<WantedChange, Refusal>
    ensures ok { IfOk result (λ w. change_in kind body.now ≡ Some w) }
    ensures err { IfErr result (λ e. (e ≡ Refusal.Memory) ⊎ ((e ≡ Refusal.Malformed) × (change_in kind body.now ≡ None))) }
{
    match kind {
        ChangeKind::Account => Ok(WantedChange::Account(read_account(alloc, body)?)),
        ChangeKind::Team => Ok(WantedChange::Team(read_team(alloc, body)?)),
        ChangeKind::Token => Ok(WantedChange::Token(read_token(alloc, body)?)),
        ChangeKind::Name => Ok(WantedChange::Name(read_name(alloc, body)?)),
        ChangeKind::Extension => Ok(WantedChange::Extension(read_extension(alloc, body)?)),
    }
}
