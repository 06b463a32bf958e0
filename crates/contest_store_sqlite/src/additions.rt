//! A change of a contest, in its tables and in its lists.
ghost use Rattle.std.specs.Prelude.{◌≡◌, IfOk, true};
ghost use Rattle.contest_lists.specs.Lists.{loaded};
ghost use Rattle.contest_types.specs.Addable.{is_addable};
ghost use Rattle.contest_types.specs.State.{ContestState, add};
ghost use Rattle.contest_store_tables.specs.Connected.{shown_by, counts_of};
ghost use Rattle.contest_store_tables.specs.Steps.{Call, Step, MakesNone};
ghost use Rattle.contest_store_changes.specs.Additions.{Admits, HasAdded};
ghost use Rattle.contest_store_changes.specs.CellSteps.{HasScored, Scores};
ghost use Rattle.contest_store_sqlite.specs.Steps.{MayAdd};

use contest_store::{ScoredLists, StoreError};
use contest_store_changes::{is_of_kinds, keep_cells, write_entry};
use contest_store_tables::Tables;
use contest_types::Entry;
use sqlite::Alter;
use std::alloc::{AllocError, Global};

/// The lists with one change, which is made in the tables too, and in their cells, in a
/// transaction, which is begun where there is none.
///
/// # Errors
///
/// `Memory` where a growth was refused, and `Fault` where the connection failed for another cause.
/// No change stands then that wasn't committed.
pub(crate) fn add_everywhere<S: Alter>(
    tables: &mut Tables<S>,
    alloc: Global,
    lists: ScoredLists,
    entry: &Entry,
) -> Result<ScoredLists, StoreError>
    ensures lists { (x : ContestState) → loaded x ≡ lists → is_addable x entry.now ≡ true → IfOk result (λ changed. changed ≡ loaded (add x entry.now)) }
    ensures call { Call result (shown_by S.Store tables.old) (shown_by S.Store tables.new) (counts_of tables.old) (counts_of tables.new) (MayAdd lists entry.now) (HasAdded lists entry.now)
        (MakesNone (shown_by S.Store tables.old) (MayAdd lists entry.now)) }
{
    match tables.begin() {
        Ok(()) => add_within(tables, alloc, lists, entry),
        Err(error) => {
            drop(lists);
            Err(error)
        }
    }
}

fn add_within<S: Alter>(
    tables: &mut Tables<S>,
    alloc: Global,
    lists: ScoredLists,
    entry: &Entry,
) -> Result<ScoredLists, StoreError>
    ensures lists { (x : ContestState) → loaded x ≡ lists → is_addable x entry.now ≡ true → IfOk result (λ changed. changed ≡ loaded (add x entry.now)) }
    ensures step { Step result (shown_by S.Store tables.old) (shown_by S.Store tables.new) (counts_of tables.old) (counts_of tables.new) (Admits lists entry.now) (HasAdded lists entry.now)
        (MakesNone (shown_by S.Store tables.old) (Admits lists entry.now)) }
{
    is_of_kinds(entry);
    match write_entry(tables, alloc, lists.lists(), entry) {
        Ok(()) => match lists.add(alloc, entry) {
            Ok(changed) => keep_scored(tables, changed, entry),
            Err(AllocError) => Err(tables.out_of_memory()),
        },
        Err(error) => {
            drop(lists);
            Err(error)
        }
    }
}

// The lists with a change, whose cells are written in the tables after its rows.
fn keep_scored<S: Alter>(
    tables: &mut Tables<S>,
    lists: ScoredLists,
    entry: &Entry,
) -> Result<ScoredLists, StoreError>
    ensures lists { IfOk result (λ kept. kept ≡ lists) }
    ensures step { Step result (shown_by S.Store tables.old) (shown_by S.Store tables.new) (counts_of tables.old) (counts_of tables.new) (Scores lists entry.now) (HasScored entry.now)
        (MakesNone (shown_by S.Store tables.old) (Scores lists entry.now)) }
{
    match keep_cells(tables, &lists, entry) {
        Ok(()) => Ok(lists),
        Err(error) => {
            drop(lists);
            Err(error)
        }
    }
}
