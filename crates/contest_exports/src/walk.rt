//! A walk over the submissions of a contest.
ghost use Rattle.std.specs.Prelude.{◌≡◌, true, IfOk, IsTrue, OnErr, OnOk, find, length, map};
ghost use Rattle.std.specs.Prelude.{slice_get};
ghost use Rattle.std.specs.Option.{option_map};
ghost use Rattle.contest_types.specs.Loads.{file_of, without_file};
ghost use Rattle.contest_types.specs.State.{ContestState};
ghost use Rattle.contest_types.specs.Valid.{is_valid};
ghost use Rattle.contest_lists.specs.Lists.{loaded};
ghost use Rattle.contest_desk.specs.Serving.{IsReady, IsSettled, OnlyReads};
ghost use Rattle.contest_exports.specs.Walks.{IsOver, all_in_order, given_by, has_numbers};
ghost use Rattle.contest_exports.specs.Walks.{numbers_of, order_in, stepped};

use crate::order::{Numbers, order_of};
use contest_lists::{CopyRow, Lists};
use contest_store::{ContestStore, StoreError};
use contest_types::{Rows, Submission};
use std::alloc::{AllocError, Global};

/// The submissions of a contest, one at a time, by time, team id and number (Contest API 2023-06,
/// submissions): those that were given are a front of the list, and at the end all of it. One file
/// is in memory at a time. A step that has read calls `ContestStore::rest`. Only the store in
/// SQLite tables promises that no transaction is open after it (`Store::rest` of
/// contest_store_sqlite).
#[derive(Drop)]
pub struct Walk {
    // which submissions, in their order
    pub(crate) order: Vec<Numbers>,
    // how many of them were given
    pub(crate) given: usize,
}

impl Walk {
    /// Begins a walk over the contest that a store keeps.
    ///
    /// # Errors
    ///
    /// An error of the store, or want of memory. The contest is as before.
    pub fn begin<S: ContestStore>(alloc: Global, store: &mut S) -> Result<Walk, StoreError>
        requires { IsSettled (S.kept store.old) }
        ensures over { (S.kept store.new).is_clean → IfOk result (λ walk. IsOver walk (S.kept store.old).contest) }
        ensures first { IfOk result (λ walk. given_by walk ≡ 0) }
        ensures loaded { OnOk result (IsTrue (S.kept store.new).is_loaded) }
        ensures leaves { OnlyReads result (S.kept store.old) (S.kept store.new) }
    {
        match read_order(alloc, store) {
            Ok(order) => match store.rest() {
                Ok(()) => Ok(Walk { order, given: 0 }),
                Err(error) => Err(error),
            },
            Err(error) => Err(error),
        }
    }

    /// How many submissions it gives.
    pub fn len(&self) -> usize
        ensures { result ≡ length (order_in self.now) }
    {
        self.order.len()
    }

    /// The next submission, with its file; none once all were given.
    ///
    /// # Errors
    ///
    /// An error of the store, or want of memory. The contest and the walk are as before.
    pub fn next<S: ContestStore>(
        &mut self,
        alloc: Global,
        store: &mut S,
    ) -> Result<Option<Submission>, StoreError>
        requires loaded { IsTrue (S.kept store.old).is_loaded }
        requires ready { (S.kept store.old).is_clean → IsReady (S.kept store.old) }
        requires over { (S.kept store.old).is_clean → IsOver self.old (S.kept store.old).contest }
        ensures given { (S.kept store.new).is_clean → IfOk result (λ found. found ≡ slice_get (all_in_order (S.kept store.old).contest) (given_by self.old)) }
        ensures order { order_in self.new ≡ order_in self.old }
        ensures counts { OnOk result (given_by self.new ≡ stepped (length (order_in self.old)) (given_by self.old)) }
        ensures err { OnErr result (self.new ≡ self.old) }
        ensures leaves { OnlyReads result (S.kept store.old) (S.kept store.new) }
    {
        if self.given >= self.order.len() {
            return Ok(None);
        }
        match read_row(alloc, store, self.order[self.given]) {
            Ok(row) => {
                self.given += 1;
                Ok(row)
            }
            Err(error) => Err(error),
        }
    }
}

fn read_order<S: ContestStore>(alloc: Global, store: &mut S) -> Result<Vec<Numbers>, StoreError>
    requires { IsSettled (S.kept store.old) }
    ensures order { (S.kept store.new).is_clean → IfOk result (λ order. order.items ≡ map numbers_of (all_in_order (S.kept store.old).contest)) }
    ensures loaded { OnOk result (IsTrue (S.kept store.new).is_loaded) }
    ensures leaves { OnlyReads result (S.kept store.old) (S.kept store.new) }
{
    store.load(alloc)?;
    let order = order_of(alloc, store.lists())?;
    Ok(order)
}

// The submission with these numbers, with its file.
fn read_row<S: ContestStore>(
    alloc: Global,
    store: &mut S,
    numbers: Numbers,
) -> Result<Option<Submission>, StoreError>
    requires loaded { IsTrue (S.kept store.old).is_loaded }
    requires ready { (S.kept store.old).is_clean → IsReady (S.kept store.old) }
    ensures row { (S.kept store.new).is_clean → IfOk result (λ found. found ≡ find (has_numbers numbers) (S.kept store.old).contest.submissions) }
    ensures leaves { OnlyReads result (S.kept store.old) (S.kept store.new) }
{
    let file = read_file(alloc, store, numbers)?;
    let row = row_in(alloc, store.lists(), numbers, file)?;
    Ok(row)
}

// The file of the submission with these numbers. `ContestStore::rest` is called afterwards.
fn read_file<S: ContestStore>(
    alloc: Global,
    store: &mut S,
    numbers: Numbers,
) -> Result<Option<Rows<u8>>, StoreError>
    requires loaded { IsTrue (S.kept store.old).is_loaded }
    requires ready { (S.kept store.old).is_clean → IsReady (S.kept store.old) }
    ensures file { (S.kept store.new).is_clean → IfOk result (λ found. found ≡ file_of (S.kept store.old).contest numbers.0 numbers.1) }
    ensures loaded { OnOk result (IsTrue (S.kept store.new).is_loaded) }
    ensures leaves { OnlyReads result (S.kept store.old) (S.kept store.new) }
{
    let (team, number) = numbers;
    match store.file(alloc, team, number) {
        Ok(file) => match store.rest() {
            Ok(()) => Ok(file),
            Err(error) => Err(error),
        },
        Err(error) => Err(error),
    }
}

// The submission with these numbers, from the lists, with its file.
fn row_in(
    alloc: Global,
    lists: &Lists,
    numbers: Numbers,
    file: Option<Rows<u8>>,
) -> Result<Option<Submission>, AllocError>
    ensures { (x : ContestState) → is_valid x ≡ true → lists.now ≡ loaded x → file ≡ file_of x numbers.0 numbers.1 → IfOk result (λ found. found ≡ find (has_numbers numbers) x.submissions) }
{
    match (submission_at(lists, numbers), file) {
        (Some(submission), Some(file)) => {
            let mut row = submission.copied(alloc)?;
            row.file = file;
            Ok(Some(row))
        }
        _ => Ok(None),
    }
}

fn submission_at(lists: &Lists, numbers: Numbers) -> Option<&Submission>
    ensures { (x : ContestState) → is_valid x ≡ true → lists.now ≡ loaded x
        → option_map (λ s. s.now) result ≡ option_map without_file (find (has_numbers numbers) x.submissions) }
{
    let (team, number) = numbers;
    lists.submission_of(team, number.checked_sub(1)?)
}
