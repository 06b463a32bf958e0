//! What the contracts of a desk say where a contest is kept in memory: no premise about a store is
//! left.
ghost use Rattle.std.specs.Prelude.{◌≡◌, ◌≢◌, true, List, IfOk};
ghost use Rattle.contest_types.specs.Alike.{Alike, MayBeHeld};
ghost use Rattle.contest_types.specs.State.{ContestState};
ghost use Rattle.contest_types.specs.Valid.{is_valid};
ghost use Rattle.contest_types.specs.declared.audience.Audience.{Audience as TheAudience};
ghost use Rattle.contest_types.specs.declared.audience.Audience.TheVariants.{Jury};
ghost use Rattle.contest_store.specs.InMemory.{contest_of};
ghost use Rattle.contest_operations.specs.Laws.{HasSight};
ghost use Rattle.contest_operations.specs.Replies.{IsStoreReply};
ghost use Rattle.contest_operations.specs.Step.{step};
ghost use Rattle.contest_desk.specs.TwoRuns.{Turn, AreAlikeTurns, first_items, first_answers};
ghost use Rattle.contest_desk.specs.TwoRuns.{first_told, second_items, second_answers, second_told};

use crate::{Answer, Desk, Item};
use contest_operations::Reply;
use contest_requests::{Credential, Request};
use contest_store::MemoryStore;
use contest_types::Moment;
use std::alloc::{AllocError, Global};

/// Answers a request as `Desk::handle` does.
pub fn handle_in_memory(
    desk: &mut Desk<MemoryStore>,
    alloc: Global,
    now: Moment,
    credential: Credential,
    request: Request,
) -> Reply
    ensures reply { ¬ IsStoreReply result → result ≡ (step (contest_of desk.old) now credential request).0 }
    ensures contest { ¬ IsStoreReply result → contest_of desk.new ≡ (step (contest_of desk.old) now credential request).1 }
    ensures unchanged { IsStoreReply result → contest_of desk.new ≡ contest_of desk.old }
    ensures isolated { ¬ IsStoreReply result → (a : TheAudience) (y : ContestState) → HasSight (contest_of desk.old).fixed credential a
        → MayBeHeld a now (contest_of desk.old) → is_valid y ≡ true → Alike a (contest_of desk.old) y
        → (result ≡ (step y now credential request).0) × Alike a (contest_of desk.new) (step y now credential request).1 }
{
    desk.handle(alloc, now, credential, request)
}

/// Lets two desks run, each its own requests and imports. Where their contests agree on what an
/// audience may learn, and the items go by such turns as `runs_alike` says, the audience is
/// answered alike by both, and they agree on it afterwards.
///
/// # Errors
///
/// Want of memory alone, before a desk's first item.
pub fn run_two_in_memory(
    alloc: Global,
    first: &mut Desk<MemoryStore>,
    second: &mut Desk<MemoryStore>,
    items: Vec<Item>,
    others: Vec<Item>,
) -> Result<(Vec<Answer>, Vec<Answer>), AllocError>
    ensures alike { IfOk result (λ answers. (a : TheAudience) (turns : List Turn) → a ≢ Jury → Alike a (contest_of first.old) (contest_of second.old)
        → first_items turns ≡ items.items → first_answers turns ≡ answers.0.items → second_items turns ≡ others.items → second_answers turns ≡ answers.1.items
        → AreAlikeTurns a (contest_of first.old) (contest_of second.old) turns
        → (first_told turns ≡ second_told turns) × Alike a (contest_of first.new) (contest_of second.new)) }
{
    first.stays_settled();
    second.stays_settled();
    let answers = first.run(alloc, items)?;
    let other_answers = second.run(alloc, others)?;
    Ok((answers, other_answers))
}
