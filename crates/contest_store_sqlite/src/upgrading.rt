//! Tables of the first schema are upgraded to that of today.
ghost use Rattle.std.specs.Prelude.{◌≡◌, IfOk, IfSome, IsTrue, OnOk, Some, false, true};
ghost use Rattle.sqlite.specs.State.{HasCleanDisk, Survives};
ghost use Rattle.contest_types.specs.State.{ContestState};
ghost use Rattle.contest_store_reading.specs.Spelling.{lists_in_version};
ghost use Rattle.contest_store_rows.specs.declared.versions.Version.TheVariants.{First};
ghost use Rattle.contest_store_tables.specs.Connected.{shown_by, counts_of};
ghost use Rattle.contest_store_tables.specs.Numbered.{IsNumbered};
ghost use Rattle.contest_store_tables.specs.Steps.{Call, Content, Holds, IsLive, Lacking};
ghost use Rattle.contest_store_tables.specs.Steps.{MakesNone};
ghost use Rattle.contest_store_tables.specs.Tables.{TableRows};
ghost use Rattle.contest_store_changes.specs.ContestTables.{loaded_tables};
ghost use Rattle.contest_store_sqlite.specs.Loading.{AllRise, AreChecked};
ghost use Rattle.contest_store_sqlite.specs.Opening.{IsRead};
ghost use Rattle.contest_store_sqlite.specs.Steps.{HasAll, HoldsLacking};
ghost use Rattle.contest_store_sqlite.specs.Upgrading.{IsUpgraded, KeepsUpgraded, MakesMoved};
ghost use Rattle.contest_store_sqlite.specs.Upgrading.{MakesUpgraded, MovesUp, UpgradesTables};

use crate::celless::read_celless;
use crate::older::begin_whole;
use crate::opening::{mend_and_commit, read_tables, read_valid_within};
use contest_store::{ScoredLists, StoreError};
use contest_store_changes::upgrade;
use contest_store_rows::Version;
use contest_store_tables::{LaterTable, Standing, Tables};
use sqlite::Alter;
use std::alloc::Global;

/// Whether the tables were upgraded, outside of a transaction: those of the first schema are, in
/// one commit; those of today are only read, and their cells are filled where none was there.
///
/// # Errors
///
/// `Memory` where a growth was refused. `Fault` where the connection failed for another cause,
/// where a transaction stands already, where the tables are of neither schema, where they show no
/// valid contest, or where there are cells that aren't those of its lists.
pub(crate) fn upgrade_desk<S: Alter>(
    tables: &mut Tables<S>,
    alloc: Global,
) -> Result<bool, StoreError>
    requires { IsNumbered (shown_by S.Store tables.old) }
    ensures moved { HasCleanDisk (shown_by S.Store tables.new) → IfOk result (λ moved. moved ≡ true → IsUpgraded (shown_by S.Store tables.old) (shown_by S.Store tables.new)) }
    ensures stood { HasCleanDisk (shown_by S.Store tables.new) → IfOk result (λ moved. moved ≡ false → (lists : ContestState) × IsRead (shown_by S.Store tables.old) (shown_by S.Store tables.new) lists) }
    ensures rest { HasCleanDisk (shown_by S.Store tables.new) → OnOk result ((shown_by S.Store tables.new).in_transaction ≡ false) }
    ensures survives { KeepsUpgraded (shown_by S.Store tables.old) (shown_by S.Store tables.new) }
{
    if tables.is_in_transaction() {
        return Err(StoreError::Fault);
    }
    match tables.standing() {
        Standing::Desk => match read_tables(tables, alloc) {
            Ok(lists) => {
                drop(lists);
                Ok(false)
            }
            Err(error) => Err(error),
        },
        Standing::Celless => match read_celless(tables, alloc) {
            Ok(lists) => {
                drop(lists);
                Ok(false)
            }
            Err(error) => Err(error),
        },
        Standing::Lacking(table) => match upgrade_tables(tables, alloc, table) {
            Ok(()) => Ok(true),
            Err(error) => Err(error),
        },
        Standing::Bare | Standing::Foreign => Err(StoreError::Fault),
    }
}

// Where the tables show no valid contest in the first schema, no call failed.
fn upgrade_tables<S: Alter>(
    tables: &mut Tables<S>,
    alloc: Global,
    table: LaterTable,
) -> Result<(), StoreError>
    ensures upgraded { UpgradesTables result table (shown_by S.Store tables.old) (shown_by S.Store tables.new) }
    ensures up { HasCleanDisk (shown_by S.Store tables.new) → IsLive (shown_by S.Store tables.old) → OnOk result (IsTrue (shown_by S.Store tables.old).is_open) }
    ensures rest { HasCleanDisk (shown_by S.Store tables.new) → OnOk result ((shown_by S.Store tables.new).in_transaction ≡ false) }
    ensures survives { Survives (shown_by S.Store tables.old) (shown_by S.Store tables.new) (MakesUpgraded table (shown_by S.Store tables.old)) }
{
    match find_first(tables, alloc, table) {
        Ok(found) => match found {
            Some(lists) => move_up(tables, alloc, lists),
            None => {
                tables.roll_back();
                Err(StoreError::Fault)
            }
        },
        Err(error) => Err(error),
    }
}

// The lists that the tables show in the first schema, if they are a valid contest's, in a
// transaction in which all tables of today stand.
fn find_first<S: Alter>(
    tables: &mut Tables<S>,
    alloc: Global,
    table: LaterTable,
) -> Result<Option<ScoredLists>, StoreError>
    ensures lists { HasCleanDisk (shown_by S.Store tables.new) → (now : TableRows) (kept : Content) → Holds (shown_by S.Store tables.old) (Lacking table now) kept → AllRise now → IfOk result (λ found. IfSome found (λ lists. lists_in_version First (loaded_tables now) ≡ Some lists)) }
    ensures checked { IfOk result (λ found. IfSome found AreChecked) }
    ensures call { Call result (shown_by S.Store tables.old) (shown_by S.Store tables.new) (counts_of tables.old) (counts_of tables.new) (HoldsLacking table) (HasAll table) (MakesNone (shown_by S.Store tables.old) (HoldsLacking table)) }
{
    match begin_whole(tables, table) {
        Ok(()) => read_valid_within(tables, alloc, Version::First),
        Err(error) => Err(error),
    }
}

// What stood in the first schema stands in that of today, with right cells, and is committed.
fn move_up<S: Alter>(
    tables: &mut Tables<S>,
    alloc: Global,
    lists: ScoredLists,
) -> Result<(), StoreError>
    ensures moves { MovesUp result lists (shown_by S.Store tables.old) (shown_by S.Store tables.new) }
    ensures rest { HasCleanDisk (shown_by S.Store tables.new) → OnOk result ((shown_by S.Store tables.new).in_transaction ≡ false) }
    ensures survives { Survives (shown_by S.Store tables.old) (shown_by S.Store tables.new) (MakesMoved lists (shown_by S.Store tables.old)) }
{
    let done = move_lists(tables, alloc, &lists);
    drop(lists);
    done
}

fn move_lists<S: Alter>(
    tables: &mut Tables<S>,
    alloc: Global,
    lists: &ScoredLists,
) -> Result<(), StoreError>
    ensures moves { MovesUp result lists.now (shown_by S.Store tables.old) (shown_by S.Store tables.new) }
    ensures rest { HasCleanDisk (shown_by S.Store tables.new) → OnOk result ((shown_by S.Store tables.new).in_transaction ≡ false) }
    ensures survives { Survives (shown_by S.Store tables.old) (shown_by S.Store tables.new) (MakesMoved lists.now (shown_by S.Store tables.old)) }
{
    match upgrade(tables, lists.lists()) {
        Ok(()) => mend_and_commit(tables, alloc, lists),
        Err(error) => Err(error),
    }
}
