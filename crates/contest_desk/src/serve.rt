//! One request served, whoever keeps the contest: what is read, what that is answered, and what is
//! kept.
ghost use Rattle.std.specs.Prelude.{◌≡◌, IfOk, IsTrue, true};
ghost use Rattle.contest_store.specs.Keeping.{Reads};
ghost use Rattle.contest_types.specs.Addable.{are_addable};
ghost use Rattle.contest_postings.specs.OwnSubmissions.{file_at};
ghost use Rattle.contest_operations.specs.Routes.{routes};
ghost use Rattle.contest_desk.specs.Serving.{IsReady, IsSettled, Keeps, Serves};
ghost use Rattle.contest_operations.specs.Replies.{IsOrdinary};
ghost use Rattle.contest_operations.specs.Step.{may_take_memory, outcome};
ghost use Rattle.contest_operations.specs.Wishes.{IsSound, wish_outcome};

use crate::keep::keep;
use contest_operations::{Offer, Outcome, Reply, Wish, answer, ask, file_needed};
use contest_requests::{Credential, Request};
use contest_store::{ContestStore, StoreError};
use contest_types::{Moment, Rows};
use matchit::Router;
use std::alloc::Global;

/// Serves one request. Refusals come in the order route, method, token, role, body, references,
/// domain.
///
/// # Errors
///
/// An error of the store, or want of memory. Every other refusal is a reply.
pub fn serve<S: ContestStore>(
    alloc: Global,
    store: &mut S,
    table: &Router<Offer>,
    now: Moment,
    credential: &Credential,
    request: Request,
) -> Result<Reply, StoreError>
    requires table { table.now ≡ routes }
    requires settled { IsSettled (S.kept store.old) }
    ensures reply { (S.kept store.new).is_clean → IfOk result (λ reply. reply ≡ (outcome (S.kept store.old).contest now credential.now request).reply) }
    ensures ordinary { IfOk result IsOrdinary }
    ensures leaves { Serves result (S.kept store.old) (S.kept store.new) (λ x. outcome x now credential.now request)
        ((S.kept store.new).is_clean → may_take_memory (S.kept store.old).contest.fixed credential.now request ≡ true) }
{
    store.load(alloc)?;
    match ask(alloc, table, store.lists().fixed(), credential, request)? {
        Ok(wish) => carry_out(alloc, store, now, wish),
        Err(reply) => Ok(reply),
    }
}

// What a wish comes to.
fn carry_out<S: ContestStore>(
    alloc: Global,
    store: &mut S,
    now: Moment,
    wish: Wish,
) -> Result<Reply, StoreError>
    requires loaded { IsTrue (S.kept store.old).is_loaded }
    requires ready { (S.kept store.old).is_clean → IsReady (S.kept store.old) }
    requires sound { (S.kept store.old).is_clean → IsSound (S.kept store.old).contest.fixed wish }
    ensures reply { (S.kept store.new).is_clean → IfOk result (λ reply. reply ≡ (wish_outcome now wish (S.kept store.old).contest).reply) }
    ensures ordinary { IfOk result IsOrdinary }
    ensures leaves { Serves result (S.kept store.old) (S.kept store.new) (wish_outcome now wish) (Unit {0}) }
{
    let needed = file_needed(&wish, store.lists());
    let file = file_at(alloc, store, needed)?;
    let outcome = answer(alloc, store.lists(), store.cells(), now, wish, file)?;
    conclude(alloc, store, outcome)
}

// What is added is kept, and then answered.
fn conclude<S: ContestStore>(
    alloc: Global,
    store: &mut S,
    outcome: Outcome,
) -> Result<Reply, StoreError>
    requires loaded { IsTrue (S.kept store.old).is_loaded }
    requires up { (S.kept store.old).is_clean → IsTrue (S.kept store.old).is_open }
    requires settled { (S.kept store.old).is_clean → (S.kept store.old).contest ≡ (S.kept store.old).committed }
    requires addable { (S.kept store.old).is_clean → are_addable (S.kept store.old).contest outcome.entries ≡ true }
    ensures reply { IfOk result (λ reply. reply ≡ outcome.reply) }
    ensures leaves { Keeps result (S.kept store.old) (S.kept store.new) outcome.entries ⊥ }
{
    keep(alloc, store, outcome.entries)?;
    Ok(outcome.reply)
}

// The file of a submission by the place of its team, from 0, and its number, from 1.
fn file_at<S: ContestStore>(
    alloc: Global,
    store: &mut S,
    needed: Option<(usize, usize)>,
) -> Result<Option<Rows<u8>>, StoreError>
    requires ready { (S.kept store.old).is_clean → IsReady (S.kept store.old) }
    ensures value { (S.kept store.new).is_clean → IfOk result (λ file. file ≡ file_at (S.kept store.old).contest needed) }
    ensures leaves { Reads result (S.kept store.old) (S.kept store.new) }
{
    match needed {
        Some((team, number)) => store.file(alloc, team, number),
        None => Ok(None),
    }
}
