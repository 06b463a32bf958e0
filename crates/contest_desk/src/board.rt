//! The boards that an audience sees: the whole one, and those of groups.
ghost use Rattle.std.specs.Prelude.{◌≡◌, Err, IfOk, Option, Result, Some, None};
ghost use Rattle.contest_score.specs.Ranking.{Scoreboard};
ghost use Rattle.contest_store.specs.declared.store_error.StoreError.{StoreError as TheStoreError};
ghost use Rattle.contest_view.specs.Scoreboards.{board_found};
ghost use Rattle.contest_desk.specs.Serving.{IsSettled, OnlyReads};
ghost use Rattle.contest_desk.specs.Boards.{found_told};

use crate::Desk;
use crate::found::found_told;
use contest_score::Board;
use contest_store::{ContestStore, StoreError};
use contest_types::{Audience, Moment, Refusal};
use contest_view::{Seen, board_found};
use std::alloc::Global;

// The board, if there is such an audience and such a group.
fn found<S: ContestStore>(
    alloc: Global,
    store: &mut S,
    now: Moment,
    audience: Audience,
    group: Option<usize>,
) -> Result<Option<Board>, StoreError>
    requires { IsSettled (S.kept store.old) }
    ensures value { (S.kept store.new).is_clean → IfOk result (λ o. o ≡ board_found audience now group (S.kept store.old).contest) }
    ensures leaves { OnlyReads result (S.kept store.old) (S.kept store.new) }
{
    store.load(alloc)?;
    let seen = Seen {
        lists: store.lists(),
        cells: store.cells(),
        audience,
        now,
    };
    let found = board_found(alloc, &seen, group)?;
    Ok(found)
}

impl<S: ContestStore> Desk<S> {
    /// The board that an audience sees at a moment. The contest stays as it is.
    ///
    /// # Errors
    ///
    /// `NotFound` for a team that isn't there, `StoreFault` where the store failed, which counts
    /// it, and `Memory` where a growth was refused.
    pub fn board(
        &mut self,
        alloc: Global,
        now: Moment,
        audience: Audience,
    ) -> Result<Board, Refusal>
        ensures board { (S.kept self.new).is_clean → IfOk result (λ b. board_found audience now None (S.kept self.old).contest ≡ Some b) }
        ensures missing { (S.kept self.new).is_clean → result ≡ Err Refusal.NotFound → board_found audience now None (S.kept self.old).contest ≡ None }
        ensures leaves { (r : Result (Option Scoreboard) TheStoreError) × (result ≡ found_told r) × OnlyReads r (S.kept self.old) (S.kept self.new) }
    {
        self.board_of(alloc, now, audience, None)
    }

    /// The board of the group at a place in the settings, from 0, as an audience sees it at a
    /// moment: its teams alone, ranked among each other (own). The contest stays as it is.
    ///
    /// # Errors
    ///
    /// `NotFound` for a team or a group that isn't there, `StoreFault` where the store failed,
    /// which counts it, and `Memory` where a growth was refused.
    pub fn group_board(
        &mut self,
        alloc: Global,
        now: Moment,
        audience: Audience,
        group: usize,
    ) -> Result<Board, Refusal>
        ensures board { (S.kept self.new).is_clean → IfOk result (λ b. board_found audience now (Some group) (S.kept self.old).contest ≡ Some b) }
        ensures missing { (S.kept self.new).is_clean → result ≡ Err Refusal.NotFound → board_found audience now (Some group) (S.kept self.old).contest ≡ None }
        ensures leaves { (r : Result (Option Scoreboard) TheStoreError) × (result ≡ found_told r) × OnlyReads r (S.kept self.old) (S.kept self.new) }
    {
        self.board_of(alloc, now, audience, Some(group))
    }

    // The whole board, or that of a group.
    fn board_of(
        &mut self,
        alloc: Global,
        now: Moment,
        audience: Audience,
        group: Option<usize>,
    ) -> Result<Board, Refusal>
        ensures board { (S.kept self.new).is_clean → IfOk result (λ b. board_found audience now group (S.kept self.old).contest ≡ Some b) }
        ensures missing { (S.kept self.new).is_clean → result ≡ Err Refusal.NotFound → board_found audience now group (S.kept self.old).contest ≡ None }
        ensures leaves { (r : Result (Option Scoreboard) TheStoreError) × (result ≡ found_told r) × OnlyReads r (S.kept self.old) (S.kept self.new) }
    {
        found_told(found(alloc, &mut self.store, now, audience, group))
    }
}
