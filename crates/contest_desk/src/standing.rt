//! The settings and the marks that stand.
ghost use Rattle.std.specs.Prelude.{◌≡◌, IfOk, Result};
ghost use Rattle.contest_types.specs.Setup.{Setup};
ghost use Rattle.contest_types.specs.declared.marks.Marks.{Marks as TheMarks};
ghost use Rattle.contest_store.specs.declared.store_error.StoreError.{StoreError as TheStoreError};
ghost use Rattle.contest_desk.specs.Serving.{IsSettled, OnlyReads, refused_as};

use crate::Desk;
use contest_store::{ContestStore, StoreError};
use contest_types::{Marks, Refusal, Settings};
use std::alloc::Global;

// Copies of the settings and the marks.
fn standing<S: ContestStore>(alloc: Global, store: &mut S) -> Result<(Settings, Marks), StoreError>
    requires { IsSettled (S.kept store.old) }
    ensures value { (S.kept store.new).is_clean → IfOk result (λ v. v ≡ ((S.kept store.old).contest.fixed.settings, (S.kept store.old).contest.fixed.marks)) }
    ensures leaves { OnlyReads result (S.kept store.old) (S.kept store.new) }
{
    store.load(alloc)?;
    let fixed = store.lists().fixed();
    Ok((fixed.settings.copied(alloc)?, fixed.marks))
}

impl<S: ContestStore> Desk<S> {
    /// The settings and the marks that stand, for who shows what isn't asked for by a request. The
    /// contest stays as it is.
    ///
    /// # Errors
    ///
    /// `StoreFault` where the store failed, which counts it, and `Memory` where a growth was
    /// refused.
    pub fn fixed(&mut self, alloc: Global) -> Result<(Settings, Marks), Refusal>
        ensures value { (S.kept self.new).is_clean → IfOk result (λ v. v ≡ ((S.kept self.old).contest.fixed.settings, (S.kept self.old).contest.fixed.marks)) }
        ensures leaves { (r : Result (Setup × TheMarks) TheStoreError) × (result ≡ refused_as r) × OnlyReads r (S.kept self.old) (S.kept self.new) }
    {
        match standing(alloc, &mut self.store) {
            Ok(fixed) => Ok(fixed),
            Err(error) => Err(error.refusal()),
        }
    }
}
