//! The desk of a contest.
ghost use Rattle.std.specs.Prelude.{◌≡◌, ◌⊎◌, ◌≤◌, true, IfErr, IfOk, IsFalse, IsTrue};
ghost use Rattle.contest_types.specs.Alike.{Alike, MayBeHeld};
ghost use Rattle.contest_types.specs.State.{ContestState};
ghost use Rattle.contest_types.specs.Valid.{is_valid};
ghost use Rattle.contest_streams.specs.Streams.{Failed};
ghost use Rattle.contest_types.specs.declared.audience.Audience.{Audience as TheAudience};
ghost use Rattle.contest_operations.specs.Replies.{refused, IsStoreReply};
ghost use Rattle.contest_operations.specs.Laws.{HasSight};
ghost use Rattle.contest_desk.specs.Doing.{DoesOrFails};
ghost use Rattle.contest_desk.specs.Serving.{IsSettled};
ghost use Rattle.contest_operations.specs.Step.{may_take_memory, outcome, step};

use crate::serve::serve;
use contest_operations::{Offer, Reply, routes};
use contest_requests::{Credential, Request};
use contest_store::ContestStore;
use contest_types::{Moment, Refusal};
use matchit::Router;
use std::alloc::{AllocError, Global};
use std::marker::Model;

/// The desk of a contest, whoever keeps the contest. Contracts see what keeps it.
#[derive(Drop)]
pub struct Desk<S: ContestStore> {
    pub(crate) store: S,
    table: Router<Offer>,
}

impl<S: ContestStore> Model for Desk<S> {
    ghost use Rattle.std.specs.Prelude.{◌≡◌};
    ghost use Rattle.contest_operations.specs.Routes.{routes};
    ghost use Rattle.contest_desk.specs.Serving.{IsSettled};

    ghost Value = { S };

    ghost view = { λ d. d.store };

    ghost invariant = { λ d. IsSettled (S.kept d.store) × (d.table ≡ routes) };
}

impl<S: ContestStore> Desk<S> {
    /// The desk of a contest that is kept. While the store is open and read right, no change may
    /// stand that isn't committed, and the contest must be valid.
    ///
    /// # Errors
    ///
    /// Want of memory alone. What keeps the contest is given back.
    pub fn new(alloc: Global, store: S) -> Result<Desk<S>, (Refusal, S)>
        requires { IsSettled (S.kept store) }
        ensures ok { IfOk result (λ desk. desk ≡ store) }
        ensures err { IfErr result (λ e. (e.0 ≡ Refusal.Memory) × (e.1 ≡ store)) }
    {
        match routes(alloc) {
            Ok(table) => Ok(Desk { store, table }),
            Err(AllocError) => Err((Refusal::Memory, store)),
        }
    }

    /// What keeps the contest.
    pub fn into_store(self) -> S
        ensures store { result ≡ self }
        ensures settled { IsSettled (S.kept result) }
    {
        self.store
    }

    /// It does nothing: its contract says that the contest is valid, and that no change stands
    /// which isn't committed, while the store is open and read right.
    pub fn stays_settled(&self)
        ensures { IsSettled (S.kept self.now) }
    {
        let _ = &self.store;
    }

    /// Answers a request at a moment, and keeps what it adds by one commit. Refusals come in the
    /// order route, method, token, role, body, references, domain.
    ///
    /// The reply and the contest afterwards are what one step of the machine gives; where the store
    /// fails or a growth is refused the reply says so and, while the store is open, the contest is
    /// as before. The store is shut only if what lies under it failed meanwhile. Until the thaw the
    /// reply is the same over every contest that is alike for the caller.
    pub fn handle(
        &mut self,
        alloc: Global,
        now: Moment,
        credential: Credential,
        request: Request,
    ) -> Reply
        ensures reply { (S.kept self.new).is_clean → ¬ IsStoreReply result → result ≡ (step (S.kept self.old).contest now credential request).0 }
        ensures isolated { (S.kept self.new).is_clean → ¬ IsStoreReply result → (a : TheAudience) (y : ContestState) → HasSight (S.kept self.old).contest.fixed credential a
            → MayBeHeld a now (S.kept self.old).contest → is_valid y ≡ true → Alike a (S.kept self.old).contest y
            → (result ≡ (step y now credential request).0) × Alike a (S.kept self.new).contest (step y now credential request).1 }
        ensures leaves { DoesOrFails (S.kept self.old) (S.kept self.new) (step (S.kept self.old).contest now credential request).1
            (outcome (S.kept self.old).contest now credential request).entries (IsStoreReply result) (result ≡ refused Refusal.StoreFault) }
        ensures memory { (S.kept self.new).is_clean → result ≡ refused Refusal.Memory
            → Failed (S.kept self.old).refusals (S.kept self.new).refusals ⊎ (may_take_memory (S.kept self.old).contest.fixed credential request ≡ true) }
    {
        match serve(
            alloc,
            &mut self.store,
            &self.table,
            now,
            &credential,
            request,
        ) {
            Ok(reply) => reply,
            Err(error) => Reply::refused(error.refusal()),
        }
    }
}
