//! The awards that an audience is shown.
ghost use Rattle.std.specs.Prelude.{◌≡◌, Err, IfOk, List, None, Option, Result, Some};
ghost use Rattle.contest_score.specs.declared.award.Award.{Award as TheAward};
ghost use Rattle.contest_store.specs.declared.store_error.StoreError.{StoreError as TheStoreError};
ghost use Rattle.contest_view.specs.Awards.{audience_awards};
ghost use Rattle.contest_desk.specs.Boards.{found_told};
ghost use Rattle.contest_desk.specs.Serving.{IsSettled, OnlyReads};

use crate::Desk;
use crate::found::found_told;
use contest_score::Awards;
use contest_store::{ContestStore, StoreError};
use contest_types::{Audience, Moment, Refusal};
use contest_view::{Seen, audience_awards};
use std::alloc::Global;

// Those that are shown, if there is such an audience.
fn shown<S: ContestStore>(
    alloc: Global,
    store: &mut S,
    now: Moment,
    audience: Audience,
) -> Result<Option<Awards>, StoreError>
    requires { IsSettled (S.kept store.old) }
    ensures value { (S.kept store.new).is_clean → IfOk result (λ o. o ≡ audience_awards audience now (S.kept store.old).contest) }
    ensures leaves { OnlyReads result (S.kept store.old) (S.kept store.new) }
{
    store.load(alloc)?;
    let seen = Seen {
        lists: store.lists(),
        cells: store.cells(),
        audience,
        now,
    };
    let awards = audience_awards(alloc, &seen)?;
    Ok(awards)
}

impl<S: ContestStore> Desk<S> {
    /// The awards that an audience is shown at a moment, none until then. The contest stays as it
    /// is.
    ///
    /// # Errors
    ///
    /// `NotFound` for a team that isn't there, `StoreFault` where the store failed, which counts
    /// it, and `Memory` where a growth was refused.
    pub fn awards(
        &mut self,
        alloc: Global,
        now: Moment,
        audience: Audience,
    ) -> Result<Awards, Refusal>
        ensures awards { (S.kept self.new).is_clean → IfOk result (λ awards. audience_awards audience now (S.kept self.old).contest ≡ Some awards) }
        ensures missing { (S.kept self.new).is_clean → result ≡ Err Refusal.NotFound → audience_awards audience now (S.kept self.old).contest ≡ None }
        ensures leaves { (r : Result (Option (List TheAward)) TheStoreError) × (result ≡ found_told r) × OnlyReads r (S.kept self.old) (S.kept self.new) }
    {
        found_told(shown(alloc, &mut self.store, now, audience))
    }
}
