//! Tables of a desk that lacks some: those are made in a transaction, so that all statements are
//! understood.
//!
//! 1. What lacks tables is of the first schema or of no known one, and is told so
//!    (`older_error`).
//! 2. The tables that are made to ask that are undone: nothing of them is committed
//!    (`older_error`, clause `survives`).
//! 3. All that lack are made in one transaction, in the order in which a desk makes them
//!    (`begin_whole`, `make_both`).
ghost use Rattle.std.specs.Prelude.{◌≡◌, IfOk, IsTrue, false, true};
ghost use Rattle.sqlite.specs.Effect.{IsDatabase};
ghost use Rattle.sqlite.specs.State.{HasCleanDisk, Survives};
ghost use Rattle.contest_store_reading.specs.FixedParts.{is_desk};
ghost use Rattle.contest_store_rows.specs.declared.versions.Version.TheVariants.{First};
ghost use Rattle.contest_store_tables.specs.Connected.{IsAtRest, IsLacking, shown_by, counts_of};
ghost use Rattle.contest_store_tables.specs.Numbered.{IsNumbered};
ghost use Rattle.contest_store_tables.specs.Steps.{Call, Content, Full, FullLacking, Holds};
ghost use Rattle.contest_store_tables.specs.Steps.{Lacking, MakesNone, Rises, Showing, Step};
ghost use Rattle.contest_store_tables.specs.Steps.{Within};
ghost use Rattle.contest_store_tables.specs.Tables.{TableRows};
ghost use Rattle.contest_store_tables.specs.declared.later_table.LaterTable.TheVariants.{Cells};
ghost use Rattle.contest_store_tables.specs.declared.table_name.TableName.TheVariants.{Desk};
ghost use Rattle.contest_store_sqlite.specs.Opening.{IsOfFirst, TellsFirst};
ghost use Rattle.contest_store_sqlite.specs.Steps.{HasAll, HoldsLacking};

use crate::open_error::OpenError;
use contest_store::StoreError;
use contest_store_reading::is_desk;
use contest_store_rows::Version;
use contest_store_tables::{LaterTable, TableName, Tables};
use sqlite::Alter;

/// Why the tables of a desk that lacks this one aren't opened: they are of the first schema, or of
/// no known one.
pub(crate) fn older_error<S: Alter>(tables: &mut Tables<S>, table: LaterTable) -> OpenError
    requires numbered { IsNumbered (shown_by S.Store tables.old) }
    requires lacks { IsLacking table (shown_by S.Store tables.old) }
    requires outside { (shown_by S.Store tables.old).in_transaction ≡ false }
    requires rest { IsTrue (shown_by S.Store tables.old).is_open → IsAtRest (shown_by S.Store tables.old) }
    requires sound { IsTrue (shown_by S.Store tables.old).is_open → IsDatabase (shown_by S.Store tables.old).now }
    ensures first { HasCleanDisk (shown_by S.Store tables.new) → result ≡ OpenError.OldSchema → IsTrue (shown_by S.Store tables.old).is_open → IsOfFirst (shown_by S.Store tables.old) }
    ensures told { HasCleanDisk (shown_by S.Store tables.new) → IsTrue (shown_by S.Store tables.old).is_open → IsOfFirst (shown_by S.Store tables.old) → TellsFirst result (counts_of tables.old) (counts_of tables.new) }
    ensures survives { Survives (shown_by S.Store tables.old) (shown_by S.Store tables.new) (λ _. ⊥) }
{
    match begin_older(tables, table) {
        Ok(is_first) => {
            tables.roll_back();
            version_error(is_first)
        }
        Err(error) => OpenError::Store(error),
    }
}

fn version_error(is_first: bool) -> OpenError
    ensures first { result ≡ OpenError.OldSchema → is_first ≡ true }
    ensures told { is_first ≡ true → result ≡ OpenError.OldSchema }
{
    if is_first {
        OpenError::OldSchema
    } else {
        OpenError::Store(StoreError::Fault)
    }
}

// Whether the tables are of the first schema.
fn begin_older<S: Alter>(tables: &mut Tables<S>, table: LaterTable) -> Result<bool, StoreError>
    ensures first { HasCleanDisk (shown_by S.Store tables.new) → (rows : TableRows) (kept : Content) → Holds (shown_by S.Store tables.old) (Lacking table rows) kept → Rises Desk (rows Desk) → IfOk result (λ first. first ≡ is_desk First (rows Desk)) }
    ensures call { Call result (shown_by S.Store tables.old) (shown_by S.Store tables.new) (counts_of tables.old) (counts_of tables.new) (HoldsLacking table) (HasAll table) (MakesNone (shown_by S.Store tables.old) (HoldsLacking table)) }
{
    match begin_whole(tables, table) {
        Ok(()) => is_first(tables),
        Err(error) => Err(error),
    }
}

fn is_first<S: Alter>(tables: &mut Tables<S>) -> Result<bool, StoreError>
    ensures first { HasCleanDisk (shown_by S.Store tables.new) → (rows : TableRows) (kept : Content) → Within (shown_by S.Store tables.old) (Showing rows) kept → Rises Desk (rows Desk) → IfOk result (λ first. first ≡ is_desk First (rows Desk)) }
    ensures step { Step result (shown_by S.Store tables.old) (shown_by S.Store tables.new) (counts_of tables.old) (counts_of tables.new) Full Full (MakesNone (shown_by S.Store tables.old) Full) }
{
    match tables.load(TableName::Desk) {
        Ok(rows) => Ok(is_desk(Version::First, &rows)),
        Err(error) => Err(error),
    }
}

/// Begins a transaction, and makes this table and those after it.
pub(crate) fn begin_whole<S: Alter>(
    tables: &mut Tables<S>,
    table: LaterTable,
) -> Result<(), StoreError>
    ensures { Call result (shown_by S.Store tables.old) (shown_by S.Store tables.new) (counts_of tables.old) (counts_of tables.new) (HoldsLacking table) (HasAll table) (MakesNone (shown_by S.Store tables.old) (HoldsLacking table)) }
{
    match tables.begin() {
        Ok(()) => make_whole(tables, table),
        Err(error) => Err(error),
    }
}

fn make_whole<S: Alter>(tables: &mut Tables<S>, table: LaterTable) -> Result<(), StoreError>
    ensures { Step result (shown_by S.Store tables.old) (shown_by S.Store tables.new) (counts_of tables.old) (counts_of tables.new) (FullLacking table) (HasAll table) (MakesNone (shown_by S.Store tables.old) (FullLacking table)) }
{
    match table {
        LaterTable::Cells => make_both(tables),
        LaterTable::Notices => tables.make_later(LaterTable::Notices),
    }
}

/// Makes the tables of the cells and of the notices, which a desk's first tables lack, within a
/// transaction.
pub(crate) fn make_both<S: Alter>(tables: &mut Tables<S>) -> Result<(), StoreError>
    ensures { Step result (shown_by S.Store tables.old) (shown_by S.Store tables.new) (counts_of tables.old) (counts_of tables.new) (FullLacking Cells) (HasAll Cells) (MakesNone (shown_by S.Store tables.old) (FullLacking Cells)) }
{
    match tables.make_later(LaterTable::Cells) {
        Ok(()) => tables.make_later(LaterTable::Notices),
        Err(error) => Err(error),
    }
}
