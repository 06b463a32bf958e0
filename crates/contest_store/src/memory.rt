//! A contest in memory: for tests of what stands above a store.
ghost use Rattle.std.specs.Prelude.{◌≡◌, ◌==◌, ◌&&◌, ◌++◌, IfOk, IsTrue, OnOk, OnErr, [], None};
ghost use Rattle.std.specs.Prelude.{Some, true, false, find, map, option_map};
ghost use Rattle.std.specs.Option.{option_to_list};
ghost use Rattle.contest_lists.specs.Lists.{filed, unfiled, with_submissions};
ghost use Rattle.contest_store.specs.InMemory.{committed_of, contest_of, counted, failed, gone_on};
ghost use Rattle.contest_store.specs.InMemory.{is_due, lists_of, refused, rolled_back};
ghost use Rattle.contest_store.specs.InMemory.{submission_in};
ghost use Rattle.contest_types.specs.Addable.{is_addable};
ghost use Rattle.contest_types.specs.Loads.{file_of, without_file};
ghost use Rattle.contest_types.specs.State.{add};
ghost use Rattle.contest_streams.specs.Streams.{one_more};

use crate::{ContestStore, ScoredLists, StoreError};
use contest_lists::{CopyRow, Lists, copied_bytes, push};
use contest_score::CachedCells;
use contest_types::{Entry, Fixed, Rows, Submission};
use std::alloc::{AllocError, Global};
use std::marker::Model;
use std::rc::Rc;

/// A contest in memory. A call can be made to fail, to see what its callers do then.
#[derive(Drop)]
pub struct MemoryStore {
    // with their files
    submissions: Vec<Submission>,
    // how many of them are committed
    kept: usize,
    committed: ScoredLists,
    // with what was added since the last commit, if anything was
    pending: Option<ScoredLists>,
    faults: u64,
    refusals: u64,
    commits: u64,
    calls_left: Option<u32>,
}

impl Model for MemoryStore {
    ghost use Rattle.std.specs.Prelude.{option_map};
    ghost use Rattle.contest_store.specs.InMemory.{AreFiled, Stored, latest};

    ghost Value = { Stored };

    ghost view = { λ m. record {
      submissions = m.submissions.items;
      kept = m.kept;
      committed = m.committed;
      pending = m.pending;
      faults = m.faults;
      refusals = m.refusals;
      commits = m.commits;
      calls_left = m.calls_left;
    } };

    ghost invariant = { λ m. AreFiled m.submissions.items m.kept m.committed (latest m.committed m.pending) };
}

impl MemoryStore {
    /// A contest with no rows.
    pub fn new(alloc: Global, fixed: Rc<Fixed>) -> MemoryStore
        ensures contest { contest_of result ≡ with_submissions fixed.value [] }
        ensures committed { committed_of result ≡ with_submissions fixed.value [] }
        ensures faults { result.faults ≡ 0 }
        ensures going_on { result.calls_left ≡ None }
    {
        MemoryStore {
            submissions: Vec::new(alloc),
            kept: 0,
            committed: ScoredLists::empty(alloc, fixed),
            pending: None,
            faults: 0,
            refusals: 0,
            commits: 0,
            calls_left: None,
        }
    }

    /// Lets so many more calls go on, and the one after them fail: no other call faults.
    pub fn fail_after(&mut self, calls: u32)
        ensures { self.new ≡ record self.old { calls_left = Some calls } }
    {
        self.calls_left = Some(calls);
    }

    /// How many calls failed for another cause than memory.
    pub fn faults(&self) -> u64
        ensures { result ≡ self.now.faults }
    {
        self.faults
    }

    /// How many calls were refused memory.
    pub fn refusals(&self) -> u64
        ensures { result ≡ self.now.refusals }
    {
        self.refusals
    }

    /// How many commits were answered.
    pub fn commits(&self) -> u64
        ensures { result ≡ self.now.commits }
    {
        self.commits
    }
}

impl MemoryStore {
    // Whether this call fails: it is counted then, and no change stands.
    fn fails(&mut self) -> bool
        ensures due { result ≡ is_due self.old.calls_left }
        ensures fails { IsTrue result → self.new ≡ failed self.old }
        ensures goes_on { result ≡ false → self.new ≡ gone_on self.old }
    {
        match self.calls_left {
            Some(0) => {
                self.calls_left = None;
                self.count();
                self.roll_back();
                true
            }
            Some(calls) => {
                self.calls_left = Some(calls - 1);
                false
            }
            None => false,
        }
    }

    fn count(&mut self)
        ensures { self.new ≡ counted self.old }
    {
        self.faults = one_more(self.faults);
    }

    fn roll_back(&mut self)
        ensures { self.new ≡ rolled_back self.old }
    {
        self.pending = None;
        self.submissions.truncate(self.kept);
    }

    // Want of memory: it is counted, and no change stands.
    fn refuse(&mut self) -> StoreError
        ensures error { result ≡ StoreError.Memory }
        ensures refused { self.new ≡ refused self.old }
    {
        self.refusals = one_more(self.refusals);
        self.roll_back();
        StoreError::Memory
    }

    // The lists with what was added since the last commit.
    fn latest(&self) -> &ScoredLists
        ensures lists { result.now ≡ lists_of self.now }
        ensures filed { (lists_of self.now).submissions ≡ map without_file self.now.submissions }
    {
        match &self.pending {
            Some(pending) => pending,
            None => &self.committed,
        }
    }

    // The file of a team's submission with this number.
    fn copied_file(
        &self,
        alloc: Global,
        team: usize,
        number: usize,
    ) -> Result<Option<Rows<u8>>, AllocError>
        ensures { IfOk result (λ found. found ≡ file_of (contest_of self.now) team number) }
    {
        match with_number(&self.submissions, team, number) {
            Some(submission) => Ok(Some(copied_bytes(alloc, submission.file.as_slice())?)),
            None => Ok(None),
        }
    }

    // Makes a change, which may be made. Where memory is refused nothing is changed.
    fn add(&mut self, alloc: Global, entry: &Entry) -> Result<(), AllocError>
        requires { is_addable (contest_of self.old) entry.now ≡ true }
        ensures ok { OnOk result (contest_of self.new ≡ add (contest_of self.old) entry.now) }
        ensures kept { OnOk result (committed_of self.new ≡ committed_of self.old) }
        ensures counts { OnOk result ((self.new.faults ≡ self.old.faults) × (self.new.refusals ≡ self.old.refusals) × (self.new.commits ≡ self.old.commits)) }
        ensures left { OnOk result (self.new.calls_left ≡ self.old.calls_left) }
        ensures err { OnErr result (self.new ≡ self.old) }
    {
        let next = self.latest().copied(alloc)?;
        self.put(alloc, next, entry)
    }

    // Puts these lists, with one change, in place of the latest.
    fn put(&mut self, alloc: Global, next: ScoredLists, entry: &Entry) -> Result<(), AllocError>
        requires latest { next ≡ lists_of self.old }
        requires addable { is_addable (contest_of self.old) entry.now ≡ true }
        ensures ok { OnOk result (contest_of self.new ≡ add (contest_of self.old) entry.now) }
        ensures kept { OnOk result (committed_of self.new ≡ committed_of self.old) }
        ensures counts { OnOk result ((self.new.faults ≡ self.old.faults) × (self.new.refusals ≡ self.old.refusals) × (self.new.commits ≡ self.old.commits)) }
        ensures left { OnOk result (self.new.calls_left ≡ self.old.calls_left) }
        ensures err { OnErr result (self.new ≡ self.old) }
    {
        let next = changed(alloc, &mut self.submissions, next, entry)?;
        self.pending = Some(next);
        Ok(())
    }
}

impl ContestStore for MemoryStore {
    ghost use Rattle.std.specs.Prelude.{refl};
    ghost use Rattle.contest_store.specs.InMemory.{FaultsIf, kept_of, left_after};
    ghost use Rattle.contest_store.specs.Keeping.{Adds, Commits, Reads};

    ghost kept = { kept_of };

    ghost settled = { λ s clean up. (refl, λ c left. left) };

    ghost survives = { λ s clean. ∣ (_, refl) ∣₁ };

    // Beyond what any store promises, each call says when it faults, and how many more go on then.
    fn load(&mut self, _alloc: Global) -> Result<(), StoreError>
        ensures leaves { Reads result (kept_of self.old) (kept_of self.new) }
        ensures loaded { OnOk result (IsTrue (kept_of self.new).is_loaded) }
        ensures faults { FaultsIf (is_due self.old.calls_left) result }
        ensures left { self.new.calls_left ≡ left_after self.old.calls_left }
    {
        if self.fails() {
            return Err(StoreError::Fault);
        }
        Ok(())
    }

    fn lists(&self) -> &Lists {
        self.latest().lists()
    }

    fn cells(&self) -> &CachedCells {
        self.latest().cells()
    }

    fn file(
        &mut self,
        alloc: Global,
        team: usize,
        number: usize,
    ) -> Result<Option<Rows<u8>>, StoreError>
        ensures value { (kept_of self.new).is_clean → IfOk result (λ found. found ≡ file_of (kept_of self.old).contest team number) }
        ensures leaves { Reads result (kept_of self.old) (kept_of self.new) }
        ensures faults { FaultsIf (is_due self.old.calls_left) result }
        ensures left { self.new.calls_left ≡ left_after self.old.calls_left }
    {
        if self.fails() {
            return Err(StoreError::Fault);
        }
        match self.copied_file(alloc, team, number) {
            Ok(file) => Ok(file),
            Err(AllocError) => Err(self.refuse()),
        }
    }

    fn rest(&mut self) -> Result<(), StoreError>
        ensures leaves { Reads result (kept_of self.old) (kept_of self.new) }
        ensures faults { FaultsIf (is_due self.old.calls_left) result }
        ensures left { self.new.calls_left ≡ left_after self.old.calls_left }
    {
        if self.fails() {
            return Err(StoreError::Fault);
        }
        Ok(())
    }

    // The entry is dropped by name: where it ends at a return, each of its kinds is a step of the
    // proof.
    fn append(&mut self, alloc: Global, entry: Entry) -> Result<(), StoreError>
        requires loaded { IsTrue (kept_of self.old).is_loaded }
        requires addable { (kept_of self.old).is_clean → is_addable (kept_of self.old).contest entry ≡ true }
        ensures leaves { Adds result (kept_of self.old) (kept_of self.new) (add (kept_of self.old).contest entry) }
        ensures faults { FaultsIf (is_due self.old.calls_left) result }
        ensures left { self.new.calls_left ≡ left_after self.old.calls_left }
    {
        if self.fails() {
            drop(entry);
            return Err(StoreError::Fault);
        }
        let added = self.add(alloc, &entry);
        drop(entry);
        match added {
            Ok(()) => Ok(()),
            Err(AllocError) => Err(self.refuse()),
        }
    }

    fn commit(&mut self) -> Result<(), StoreError>
        requires { IsTrue (kept_of self.old).is_loaded }
        ensures leaves { Commits result (kept_of self.old) (kept_of self.new) (kept_of self.old).contest }
        ensures faults { FaultsIf (is_due self.old.calls_left) result }
        ensures left { self.new.calls_left ≡ left_after self.old.calls_left }
    {
        if self.fails() {
            return Err(StoreError::Fault);
        }
        if let Some(pending) = self.pending.take() {
            self.committed = pending;
        }
        self.kept = self.submissions.len();
        self.commits = one_more(self.commits);
        Ok(())
    }
}

fn one_more(count: u64) -> u64
    ensures { result ≡ one_more count }
{
    if count < u64::MAX { count + 1 } else { count }
}

// The lists with one change, which is made to the submissions with their files too.
fn changed(
    alloc: Global,
    submissions: &mut Vec<Submission>,
    lists: ScoredLists,
    entry: &Entry,
) -> Result<ScoredLists, AllocError>
    requires { is_addable (filed submissions.old.items lists) entry.now ≡ true }
    ensures lists { IfOk result (λ next. next ≡ add lists (unfiled entry.now)) }
    ensures submissions { OnOk result (submissions.new.items ≡ submissions.old.items ++ option_to_list (submission_in entry.now)) }
    ensures err { OnErr result (submissions.new.items ≡ submissions.old.items) }
{
    let next = lists.add(alloc, entry)?;
    match file(alloc, submissions, entry) {
        Ok(()) => Ok(next),
        Err(error) => {
            drop(next);
            Err(error)
        }
    }
}

// Puts a submission that is new at the end, with its file.
fn file(alloc: Global, submissions: &mut Vec<Submission>, entry: &Entry) -> Result<(), AllocError>
    ensures submissions { OnOk result (submissions.new.items ≡ submissions.old.items ++ option_to_list (submission_in entry.now)) }
    ensures err { OnErr result (submissions.new.items ≡ submissions.old.items) }
{
    match entry {
        Entry::NewSubmission(submission) => push(submissions, submission.copied(alloc)?),
        _ => Ok(()),
    }
}

fn with_number(submissions: &[Submission], team: usize, number: usize) -> Option<&Submission>
    ensures { option_map (λ s. s.now) result ≡ find (λ s. (s.team == team) && (s.number == number)) submissions.now }
{
    submissions.iter().find(|submission| submission.team == team && submission.number == number)
}
