//! What any store of a contest promises.
ghost use Rattle.std.specs.Prelude.{◌≡◌, true, Option, Some, IsTrue, IfOk, OnOk};
ghost use Rattle.contest_types.specs.State.{ContestState, add};
ghost use Rattle.contest_types.specs.Addable.{is_addable};
ghost use Rattle.contest_types.specs.Loads.{file_of};
ghost use Rattle.contest_types.specs.Valid.{is_valid};
ghost use Rattle.contest_score.specs.CachedCells.{cell_cached};
ghost use Rattle.contest_score.specs.Contest.{contest_cell};
ghost use Rattle.contest_store.specs.Keeping.{Kept, Reads, Adds, Commits, LeavesOnly};
ghost use Rattle.contest_lists.specs.Lists.{loaded};

use crate::StoreError;
use contest_lists::Lists;
use contest_score::CachedCells;
use contest_types::{Entry, Rows};
use std::alloc::Global;

/// A contest, whoever keeps it. Changes stand in one transaction until `commit`.
///
/// An `Err` of a call leaves no change that wasn't committed. A store that a fault has shut stays
/// shut. It is shut only if what lies under it failed.
///
/// # Errors
///
/// `Fault` where what lies under the store failed, and `Memory` where a growth was refused. Each is
/// counted.
pub trait ContestStore {
    /// All that contracts see of it.
    ghost kept: { Self → Kept };

    /// Reads the lists, where they aren't in memory.
    fn load(&mut self, alloc: Global) -> Result<(), StoreError>
        ensures leaves { Reads result (kept self.old) (kept self.new) }
        ensures loaded { OnOk result (IsTrue (kept self.new).is_loaded) };

    /// The lists, with the changes that aren't committed yet.
    fn lists(&self) -> &Lists
        requires { IsTrue (kept self.now).is_loaded }
        ensures { (kept self.now).is_clean → result.now ≡ loaded (kept self.now).contest };

    /// The cells that these lists come to, for each team and problem with a submission under either
    /// mask.
    fn cells(&self) -> &CachedCells
        requires { IsTrue (kept self.now).is_loaded }
        ensures { (kept self.now).is_clean → is_valid (kept self.now).contest ≡ true → cell_cached result.now ≡ (λ mask. contest_cell mask (kept self.now).contest) };

    /// The file of the submission with a number, from 1, of the team at a place, from 0; none where
    /// there is no such submission.
    fn file(
        &mut self,
        alloc: Global,
        team: usize,
        number: usize,
    ) -> Result<Option<Rows<u8>>, StoreError>
        ensures value { (kept self.new).is_clean → IfOk result (λ found. found ≡ file_of (kept self.old).contest team number) }
        ensures leaves { Reads result (kept self.old) (kept self.new) };

    /// Ends the transaction that a read began, where no change stands that wasn't committed. Every
    /// store promises that the contest is as before. Each store says for itself whether a
    /// transaction is open afterwards.
    fn rest(&mut self) -> Result<(), StoreError>
        requires { (kept self.old).is_clean → IsTrue (kept self.old).is_open → (kept self.old).contest ≡ (kept self.old).committed }
        ensures { Reads result (kept self.old) (kept self.new) };

    /// Makes one change, which may be made.
    fn append(&mut self, alloc: Global, entry: Entry) -> Result<(), StoreError>
        requires loaded { IsTrue (kept self.old).is_loaded }
        requires addable { (kept self.old).is_clean → is_addable (kept self.old).contest entry ≡ true }
        ensures { Adds result (kept self.old) (kept self.new) (add (kept self.old).contest entry) };

    /// Keeps all changes that were made since the last commit. Without one the contest stays as it
    /// is.
    fn commit(&mut self) -> Result<(), StoreError>
        requires { IsTrue (kept self.old).is_loaded }
        ensures { Commits result (kept self.old) (kept self.new) (kept self.old).contest };

    /// While it is open a crash leaves the last commit, and no other.
    ghost settled: { (s : Self) → (kept s).is_clean → IsTrue (kept s).is_open → LeavesOnly (kept s).may_leave (kept s).committed };

    /// A crash leaves something, also once a fault has shut the store.
    ghost survives: { (s : Self) → (kept s).is_clean → ∥ ((c : Option ContestState) × (kept s).may_leave c) ∥₁ };
}
