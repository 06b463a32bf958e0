//! What a request asks of the desk.
ghost use Rattle.std.specs.Prelude.{◌≡◌, ◌⊎◌, ◌+◌, ◌<◌, ◌^◌, Ok, Err, true, IfOk, IfErr, IfSome};
ghost use Rattle.std.specs.Prelude.{OnErr};
ghost use Rattle.contest_types.specs.State.{ContestState};
ghost use Rattle.contest_types.specs.Valid.{is_valid};
ghost use Rattle.contest_operations.specs.Callers.{team_of};
ghost use Rattle.contest_operations.specs.Routes.{routes};
ghost use Rattle.contest_operations.specs.Replies.{IsOrdinary};
ghost use Rattle.contest_operations.specs.Step.{may_take_memory, wish_or_reply};
ghost use Rattle.contest_operations.specs.Wishes.{may_read, named_by, takes_memory, unread_refusal};
ghost use Rattle.contest_operations.specs.Wishes.{wish_of, wish_to_read};

use crate::Reply;
use crate::asked::asked;
use crate::caller::{Caller, account_of, audience_of, caller_of, reads_all};
use crate::command::post;
use crate::offer::Offer;
use crate::operation::{Operation, Reading};
use crate::wish::Wish;
use contest_lists::copied_bytes;
use contest_requests::{Credential, Request};
use contest_types::{Fixed, Refusal, Rows};
use matchit::Router;
use std::alloc::{AllocError, Global};

/// What a request wishes, or the reply that refuses it: route, method, token, role and body are
/// read in this order, and nothing of the contest but its fixed part.
///
/// # Errors
///
/// Want of memory alone.
pub fn ask(
    alloc: Global,
    table: &Router<Offer>,
    fixed: &Fixed,
    credential: &Credential,
    request: Request,
) -> Result<Result<Wish, Reply>, AllocError>
    requires { table.now ≡ routes }
    ensures wish { (x : ContestState) → is_valid x ≡ true → x.fixed ≡ fixed.now → IfOk result (λ wish. wish ≡ wish_or_reply fixed.now credential.now request) }
    ensures ordinary { IfOk result (λ wish. IfErr wish IsOrdinary) }
    ensures memory { OnErr result (may_take_memory fixed.now credential.now request ≡ true) }
{
    let contest = fixed.settings.head().id.as_bytes();
    let operation = match asked(table, contest, request.path.as_slice(), request.method) {
        Ok(operation) => operation,
        Err(reply) => return Ok(Err(reply)),
    };
    let Some(caller) = caller_of(fixed, credential) else {
        return Ok(Err(Reply::refused(Refusal::UnknownToken)));
    };
    match wish_of(alloc, fixed, &caller, operation, request) {
        Ok(wish) => Ok(Ok(wish)),
        Err(Refusal::Memory) => Err(AllocError),
        Err(refusal) => Ok(Err(Reply::refused(refusal))),
    }
}

// What a caller wishes by an operation.
fn wish_of(
    alloc: Global,
    fixed: &Fixed,
    caller: &Caller<'_>,
    operation: Operation,
    request: Request,
) -> Result<Wish, Refusal>
    ensures ok { IfSome (team_of caller.now) (λ team. team + 1 < 2 ^ 64) → IfOk result (λ wish. wish_of fixed.now caller.now operation request ≡ Ok wish) }
    ensures err { IfErr result (λ e. (e ≡ Refusal.Memory) ⊎ (wish_of fixed.now caller.now operation request ≡ Err e)) }
    ensures memory { IfErr result (λ e. e ≡ Refusal.Memory → takes_memory caller.now operation ≡ true) }
{
    match operation {
        Operation::Read(reading) => wish_to_read(alloc, caller, reading, request.path),
        Operation::Do(command) => Ok(Wish::Do(post(alloc, fixed, caller, command, request)?)),
    }
}

// What a caller wishes that reads.
fn wish_to_read(
    alloc: Global,
    caller: &Caller<'_>,
    reading: Reading,
    path: Rows<u8>,
) -> Result<Wish, Refusal>
    ensures ok { IfSome (team_of caller.now) (λ team. team + 1 < 2 ^ 64) → IfOk result (λ wish. wish_to_read caller.now reading path ≡ Ok wish) }
    ensures err { IfErr result (λ e. (e ≡ Refusal.Memory) ⊎ (wish_to_read caller.now reading path ≡ Err e)) }
    ensures memory { IfErr result (λ e. e ≡ Refusal.Memory → may_read caller.now reading ≡ true) }
{
    if may_read(caller, reading) {
        let named = named_by(alloc, caller, reading, path)?;
        Ok(Wish::Read(reading, audience_of(caller), named))
    } else {
        Err(unread_refusal(reading))
    }
}

// What is named: by the path, or, of the caller's own account, by its id.
fn named_by(
    alloc: Global,
    caller: &Caller<'_>,
    reading: Reading,
    path: Rows<u8>,
) -> Result<Rows<u8>, AllocError>
    ensures { IfOk result (λ named. named ≡ named_by caller.now reading path) }
{
    match reading {
        Reading::Account => match account_of(caller) {
            Some(account) => copied_bytes(alloc, account.id.as_bytes()),
            None => Ok(path),
        },
        _ => Ok(path),
    }
}

fn unread_refusal(reading: Reading) -> Refusal
    ensures { result ≡ unread_refusal reading }
{
    match reading {
        Reading::Account => Refusal::NotFound,
        _ => Refusal::RoleForbids,
    }
}

// Whether a caller may read.
fn may_read(caller: &Caller<'_>, reading: Reading) -> bool
    ensures { result ≡ may_read caller.now reading }
{
    match reading {
        Reading::Jury(_) => reads_all(caller),
        Reading::Account => account_of(caller).is_some(),
        _ => true,
    }
}
