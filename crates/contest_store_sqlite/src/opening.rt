//! The contest whose lists the tables of a connection show, where it is a valid one, and its cells.
ghost use Rattle.std.specs.Prelude.{◌≡◌, IfErr, IfOk, IfSome, IsTrue, OnOk, Some, false, true};
ghost use Rattle.sqlite.specs.State.{HasCleanDisk, Survives};
ghost use Rattle.contest_store_reading.specs.Spelling.{lists_in_version};
ghost use Rattle.contest_store_tables.specs.Connected.{shown_by, counts_of};
ghost use Rattle.contest_store_tables.specs.Numbered.{IsNumbered};
ghost use Rattle.contest_store_tables.specs.Steps.{Call, Content, Full, Holds, IsLive, MakesNone};
ghost use Rattle.contest_store_tables.specs.Steps.{Showing, Step, Within};
ghost use Rattle.contest_store_tables.specs.Tables.{TableRows};
ghost use Rattle.contest_store_changes.specs.ContestTables.{loaded_tables};
ghost use Rattle.contest_store_sqlite.specs.Creation.{KeepsLists};
ghost use Rattle.contest_store_sqlite.specs.Loading.{AllRise, AreChecked};
ghost use Rattle.contest_store_sqlite.specs.Opening.{IsOfFirst, IsRead, TellsFirst};
ghost use Rattle.contest_store_sqlite.specs.Settling.{Keeps, MakesRight, MakesRightOfTables};
ghost use Rattle.contest_store_sqlite.specs.Settling.{ReadsTables};
ghost use Rattle.contest_store_rows.specs.declared.versions.TheConstants.{VERSION};
ghost use Rattle.contest_store_sqlite.specs.Steps.{HoldsDesk};

use crate::celless::read_celless;
use crate::cells::mend_cells;
use crate::older::older_error;
use crate::open_error::OpenError;
use crate::reads::read_within;
use contest_lists::Lists;
use contest_store::{ScoredLists, StoreError};
use contest_store_changes::are_of_kinds;
use contest_store_rows::{VERSION, Version};
use contest_store_tables::{Standing, Tables};
use contest_store_valid::is_valid;
use sqlite::Alter;
use std::alloc::{AllocError, Global};

/// The lists of the valid contest whose lists the tables show, outside of a transaction. Its cells
/// are right then, and committed: where none was there, or not even their table, they are filled.
/// No transaction is left.
///
/// # Errors
///
/// `OldSchema` where the tables are those of the first schema. `Memory` where a growth was refused.
/// `Fault` where the connection failed for another cause, where a transaction stands already, where
/// the tables aren't a desk's, where they show no valid contest, or where there are cells that
/// aren't those of its lists.
pub(crate) fn read_desk<S: Alter>(
    tables: &mut Tables<S>,
    alloc: Global,
) -> Result<ScoredLists, OpenError>
    requires { IsNumbered (shown_by S.Store tables.old) }
    ensures read { HasCleanDisk (shown_by S.Store tables.new) → IfOk result (IsRead (shown_by S.Store tables.old) (shown_by S.Store tables.new)) }
    ensures counts { OnOk result (counts_of tables.new ≡ counts_of tables.old) }
    ensures rest { HasCleanDisk (shown_by S.Store tables.new) → OnOk result ((shown_by S.Store tables.new).in_transaction ≡ false) }
    ensures first { HasCleanDisk (shown_by S.Store tables.new) → IfErr result (λ e. e ≡ OpenError.OldSchema → IsTrue (shown_by S.Store tables.old).is_open → IsOfFirst (shown_by S.Store tables.old)) }
    ensures told { HasCleanDisk (shown_by S.Store tables.new) → IfErr result (λ e. IsTrue (shown_by S.Store tables.old).is_open → (shown_by S.Store tables.old).in_transaction ≡ false → IsOfFirst (shown_by S.Store tables.old)
        → TellsFirst e (counts_of tables.old) (counts_of tables.new)) }
    ensures survives { KeepsLists (shown_by S.Store tables.old) (shown_by S.Store tables.new) }
{
    if tables.is_in_transaction() {
        return Err(OpenError::Store(StoreError::Fault));
    }
    match tables.standing() {
        Standing::Desk => match read_tables(tables, alloc) {
            Ok(lists) => Ok(lists),
            Err(error) => Err(OpenError::Store(error)),
        },
        Standing::Celless => match read_celless(tables, alloc) {
            Ok(lists) => Ok(lists),
            Err(error) => Err(OpenError::Store(error)),
        },
        Standing::Lacking(table) => Err(older_error(tables, table)),
        Standing::Bare | Standing::Foreign => Err(OpenError::Store(StoreError::Fault)),
    }
}

/// The same of the tables of a desk. Where they show no valid contest, no call failed.
pub(crate) fn read_tables<S: Alter>(
    tables: &mut Tables<S>,
    alloc: Global,
) -> Result<ScoredLists, StoreError>
    ensures read { ReadsTables Showing result (shown_by S.Store tables.old) (shown_by S.Store tables.new) }
    ensures up { HasCleanDisk (shown_by S.Store tables.new) → IsLive (shown_by S.Store tables.old) → OnOk result (IsTrue (shown_by S.Store tables.old).is_open) }
    ensures counts { OnOk result (counts_of tables.new ≡ counts_of tables.old) }
    ensures rest { HasCleanDisk (shown_by S.Store tables.new) → OnOk result ((shown_by S.Store tables.new).in_transaction ≡ false) }
    ensures survives { Survives (shown_by S.Store tables.old) (shown_by S.Store tables.new) (MakesRightOfTables Showing (shown_by S.Store tables.old)) }
{
    match begin_and_read(tables, alloc) {
        Ok(found) => match found {
            Some(lists) => keep_mended(tables, alloc, lists),
            None => {
                tables.roll_back();
                Err(StoreError::Fault)
            }
        },
        Err(error) => Err(error),
    }
}

/// The lists, whose cells are right and committed.
pub(crate) fn keep_mended<S: Alter>(
    tables: &mut Tables<S>,
    alloc: Global,
    lists: ScoredLists,
) -> Result<ScoredLists, StoreError>
    ensures lists { IfOk result (λ kept. kept ≡ lists) }
    ensures keeps { Keeps result lists (shown_by S.Store tables.old) (shown_by S.Store tables.new) }
    ensures counts { OnOk result (counts_of tables.new ≡ counts_of tables.old) }
    ensures rest { HasCleanDisk (shown_by S.Store tables.new) → OnOk result ((shown_by S.Store tables.new).in_transaction ≡ false) }
    ensures survives { Survives (shown_by S.Store tables.old) (shown_by S.Store tables.new) (MakesRight lists (shown_by S.Store tables.old)) }
{
    match mend_and_commit(tables, alloc, &lists) {
        Ok(()) => Ok(lists),
        Err(error) => {
            drop(lists);
            Err(error)
        }
    }
}

/// Settles the cells of these lists, and commits. Where there are other cells, no call failed.
pub(crate) fn mend_and_commit<S: Alter>(
    tables: &mut Tables<S>,
    alloc: Global,
    lists: &ScoredLists,
) -> Result<(), StoreError>
    ensures keeps { Keeps result lists.now (shown_by S.Store tables.old) (shown_by S.Store tables.new) }
    ensures counts { OnOk result (counts_of tables.new ≡ counts_of tables.old) }
    ensures rest { HasCleanDisk (shown_by S.Store tables.new) → OnOk result ((shown_by S.Store tables.new).in_transaction ≡ false) }
    ensures survives { Survives (shown_by S.Store tables.old) (shown_by S.Store tables.new) (MakesRight lists.now (shown_by S.Store tables.old)) }
{
    match mend_cells(tables, alloc, lists) {
        Ok(true) => tables.commit(),
        Ok(false) => {
            tables.roll_back();
            Err(StoreError::Fault)
        }
        Err(error) => Err(error),
    }
}

// Begins a transaction, and gives the lists, if they are a valid contest's. No file of theirs is too large, since
// none is read then.
fn begin_and_read<S: Alter>(
    tables: &mut Tables<S>,
    alloc: Global,
) -> Result<Option<ScoredLists>, StoreError>
    ensures lists { HasCleanDisk (shown_by S.Store tables.new) → (now : TableRows) (kept : Content) → Holds (shown_by S.Store tables.old) (Showing now) kept → AllRise now → IfOk result (λ found. IfSome found (λ lists. lists_in_version VERSION (loaded_tables now) ≡ Some lists)) }
    ensures checked { IfOk result (λ found. IfSome found AreChecked) }
    ensures call { Call result (shown_by S.Store tables.old) (shown_by S.Store tables.new) (counts_of tables.old) (counts_of tables.new) HoldsDesk Full (MakesNone (shown_by S.Store tables.old) HoldsDesk) }
{
    match tables.begin() {
        Ok(()) => read_valid_within(tables, alloc, VERSION),
        Err(error) => Err(error),
    }
}

/// The lists that the tables show in a version of the schema, within a transaction, if they are a
/// valid contest's.
pub(crate) fn read_valid_within<S: Alter>(
    tables: &mut Tables<S>,
    alloc: Global,
    version: Version,
) -> Result<Option<ScoredLists>, StoreError>
    ensures lists { HasCleanDisk (shown_by S.Store tables.new) → (now : TableRows) (kept : Content) → Within (shown_by S.Store tables.old) (Showing now) kept → AllRise now → IfOk result (λ found. IfSome found (λ lists. lists_in_version version (loaded_tables now) ≡ Some lists)) }
    ensures checked { IfOk result (λ found. IfSome found AreChecked) }
    ensures step { Step result (shown_by S.Store tables.old) (shown_by S.Store tables.new) (counts_of tables.old) (counts_of tables.new) Full Full (MakesNone (shown_by S.Store tables.old) Full) }
{
    match read_within(tables, alloc, version) {
        Ok(found) => check_valid(tables, alloc, found),
        Err(error) => Err(error),
    }
}

/// Lists that were found within a transaction, if they are a valid contest's.
pub(crate) fn check_valid<S: Alter>(
    tables: &mut Tables<S>,
    alloc: Global,
    found: Option<ScoredLists>,
) -> Result<Option<ScoredLists>, StoreError>
    ensures lists { IfOk result (λ kept. IfSome kept (λ lists. found ≡ Some lists)) }
    ensures checked { IfOk result (λ kept. IfSome kept AreChecked) }
    ensures step { Step result (shown_by S.Store tables.old) (shown_by S.Store tables.new) (counts_of tables.old) (counts_of tables.new) Full Full (MakesNone (shown_by S.Store tables.old) Full) }
{
    match found {
        Some(lists) => match are_checked(alloc, lists.lists()) {
            Ok(true) => Ok(Some(lists)),
            Ok(false) => Ok(None),
            Err(AllocError) => Err(tables.out_of_memory()),
        },
        None => Ok(None),
    }
}

// Whether lists that were read pass all tests. Whatever they are, they are of their kinds.
fn are_checked(alloc: Global, lists: &Lists) -> Result<bool, AllocError>
    ensures { IfOk result (λ checked. checked ≡ true → AreChecked lists.now) }
{
    are_of_kinds(lists);
    is_valid(alloc, lists)
}
