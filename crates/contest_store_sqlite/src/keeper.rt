//! The tables of a contest, with the lists that were read from them.
//!
//! 1. Lists that are held are those that the tables show, changes that aren't committed yet among
//!    them (`IsWhole`: each call asks for it and leaves it so).
//! 2. What fails leaves no lists and no change that wasn't committed; the next load reads the lists
//!    again (`fail`, clause `dropped`).
//! 3. A change is made in the tables, in the lists and in the cells, or nowhere (`append`, clause
//!    `leaves`).
//! 4. A commit without a change asks nothing of the connection (`commit`, clause `nothing`).
ghost use Rattle.std.specs.Prelude.{◌≡◌, IfOk, IsTrue, Ok, OnErr, OnOk, false, is_ok, is_some};
ghost use Rattle.std.specs.Prelude.{Some, None, true};
ghost use Rattle.sqlite.specs.State.{HasCleanDisk};
ghost use Rattle.contest_store.specs.Keeping.{Reads, Adds, Commits};
ghost use Rattle.contest_types.specs.Addable.{is_addable};
ghost use Rattle.contest_types.specs.Loads.{file_of};
ghost use Rattle.contest_types.specs.State.{add};
ghost use Rattle.contest_streams.specs.Streams.{one_more};
ghost use Rattle.contest_store_tables.specs.Connected.{shown_by};
ghost use Rattle.contest_store_sqlite.specs.Keepers.{keeps, IsWhole};

use crate::additions::add_everywhere;
use crate::files::load_file;
use crate::reads::load_lists;
use contest_store::{ScoredLists, StoreError};
use contest_store_tables::{Tables, one_more};
use contest_types::{Entry, Rows};
use sqlite::Alter;
use std::alloc::Global;

/// A failure drops the lists, and the next load reads them again.
#[derive(Drop)]
pub(crate) struct Keeper<S: Alter> {
    pub(crate) tables: Tables<S>,
    pub(crate) held: Option<ScoredLists>,
    /// Whether a change was made since the last commit.
    pub(crate) is_changed: bool,
    pub(crate) commits: u64,
}

impl<S: Alter> Keeper<S> {
    // What failed leaves no lists in memory, and no change.
    fn fail(&mut self, error: StoreError) -> StoreError
        ensures error { result ≡ error }
        ensures dropped { self.new ≡ record self.old { held = None; is_changed = false } }
    {
        self.held = None;
        self.is_changed = false;
        error
    }

    pub(crate) fn load(&mut self, alloc: Global) -> Result<(), StoreError>
        requires { IsWhole S.Store self.old }
        ensures whole { IsWhole S.Store self.new }
        ensures leaves { Reads result (keeps S.Store self.old) (keeps S.Store self.new) }
        ensures loaded { OnOk result (IsTrue (is_some self.new.held)) }
        ensures unchanged { OnOk result (self.new.is_changed ≡ self.old.is_changed) }
        ensures undone { OnErr result (self.new.is_changed ≡ false) }
    {
        if self.held.is_some() {
            return Ok(());
        }
        match load_lists(&mut self.tables, alloc) {
            Ok(lists) => {
                self.held = Some(lists);
                Ok(())
            }
            Err(error) => Err(self.fail(error)),
        }
    }

    pub(crate) fn file(
        &mut self,
        alloc: Global,
        team: usize,
        number: usize,
    ) -> Result<Option<Rows<u8>>, StoreError>
        requires { IsWhole S.Store self.old }
        ensures whole { IsWhole S.Store self.new }
        ensures value { (keeps S.Store self.new).is_clean → IfOk result (λ found. found ≡ file_of (keeps S.Store self.old).contest team number) }
        ensures leaves { Reads result (keeps S.Store self.old) (keeps S.Store self.new) }
        ensures unchanged { OnOk result (self.new.is_changed ≡ self.old.is_changed) }
        ensures undone { OnErr result (self.new.is_changed ≡ false) }
    {
        match load_file(&mut self.tables, alloc, team, number) {
            Ok(file) => Ok(file),
            Err(error) => Err(self.fail(error)),
        }
    }

    /// Ends the transaction, where no change stands that wasn't committed.
    pub(crate) fn rest(&mut self) -> Result<(), StoreError>
        requires whole { IsWhole S.Store self.old }
        requires settled { (keeps S.Store self.old).is_clean → IsTrue (keeps S.Store self.old).is_open → (keeps S.Store self.old).contest ≡ (keeps S.Store self.old).committed }
        ensures whole { IsWhole S.Store self.new }
        ensures leaves { Reads result (keeps S.Store self.old) (keeps S.Store self.new) }
        ensures rest { HasCleanDisk (shown_by S.Store self.new.tables) → (shown_by S.Store self.new.tables).in_transaction ≡ false }
        ensures committed { self.new.is_changed ≡ false }
    {
        match self.tables.commit() {
            Ok(()) => {
                self.is_changed = false;
                Ok(())
            }
            Err(error) => Err(self.fail(error)),
        }
    }

    pub(crate) fn append(&mut self, alloc: Global, entry: &Entry) -> Result<(), StoreError>
        requires whole { IsWhole S.Store self.old }
        requires loaded { IsTrue (is_some self.old.held) }
        requires addable { (keeps S.Store self.old).is_clean → is_addable (keeps S.Store self.old).contest entry.now ≡ true }
        ensures whole { IsWhole S.Store self.new }
        ensures leaves { Adds result (keeps S.Store self.old) (keeps S.Store self.new) (add (keeps S.Store self.old).contest entry.now) }
        ensures changed { self.new.is_changed ≡ is_ok result }
    {
        match self.held.take() {
            Some(lists) => match add_everywhere(&mut self.tables, alloc, lists, entry) {
                Ok(changed) => {
                    self.held = Some(changed);
                    self.is_changed = true;
                    Ok(())
                }
                Err(error) => Err(self.fail(error)),
            },
            None => unreachable!(),
        }
    }

    /// Commits the changes. Where there is none, nothing is asked of the connection.
    pub(crate) fn commit(&mut self) -> Result<(), StoreError>
        requires whole { IsWhole S.Store self.old }
        requires loaded { IsTrue (is_some self.old.held) }
        ensures whole { IsWhole S.Store self.new }
        ensures leaves { Commits result (keeps S.Store self.old) (keeps S.Store self.new) (keeps S.Store self.old).contest }
        ensures committed { self.new.is_changed ≡ false }
        ensures nothing { self.old.is_changed ≡ false → (result ≡ Ok tt) × (self.new ≡ record self.old { commits = one_more self.old.commits }) }
    {
        if self.is_changed {
            return self.commit_changes();
        }
        self.commits = one_more(self.commits);
        Ok(())
    }

    fn commit_changes(&mut self) -> Result<(), StoreError>
        requires whole { IsWhole S.Store self.old }
        requires loaded { IsTrue (is_some self.old.held) }
        ensures whole { IsWhole S.Store self.new }
        ensures leaves { Commits result (keeps S.Store self.old) (keeps S.Store self.new) (keeps S.Store self.old).contest }
        ensures committed { self.new.is_changed ≡ false }
    {
        match self.tables.commit() {
            Ok(()) => {
                self.is_changed = false;
                self.commits = one_more(self.commits);
                Ok(())
            }
            Err(error) => Err(self.fail(error)),
        }
    }
}
