//! One row of a change in its table, within a transaction.
ghost use Rattle.std.specs.Prelude.{◌≡◌, length};
ghost use Rattle.contest_types.specs.State.{ContestState};
ghost use Rattle.contest_types.specs.declared.entry.Entry.{Entry};
ghost use Rattle.contest_store_rows.specs.Cells.{lent};
ghost use Rattle.contest_store_tables.specs.Connected.{shown_by, counts_of};
ghost use Rattle.contest_store_tables.specs.Changes.{change_width};
ghost use Rattle.contest_store_tables.specs.Statements.{insert_width};
ghost use Rattle.contest_store_tables.specs.Steps.{MakesNone, Step};
ghost use Rattle.contest_store_changes.specs.Additions.{Admits, Appends, HasListed};
ghost use Rattle.contest_store_changes.specs.EntryRows.{IsGiven, IsRowIfAdmitted, headed};

use contest_store::StoreError;
use contest_store_tables::{RowChange, TableName, Tables};
use sqlite::Alter;
use sqlite::types::ValueRef;

/// Inserts the row of what is new. If no contest admits that, it may be any row.
pub(crate) fn insert_row<S: Alter>(
    tables: &mut Tables<S>,
    table: TableName,
    row: &[ValueRef<'_>],
) -> Result<(), StoreError>
    requires { length row.now ≡ insert_width table }
    ensures { (lists : ContestState) (e : Entry) → IsRowIfAdmitted lists e table (lent row.now)
        → Step result (shown_by S.Store tables.old) (shown_by S.Store tables.new) (counts_of tables.old) (counts_of tables.new) (Admits lists e) (HasListed lists (headed e)) (MakesNone (shown_by S.Store tables.old) (Admits lists e)) }
{
    tables.insert(table, row)
}

/// Changes a row that stands: its key is given, and then the new values.
pub(crate) fn change_row<S: Alter>(
    tables: &mut Tables<S>,
    change: RowChange,
    given: &[ValueRef<'_>],
) -> Result<(), StoreError>
    requires { length given.now ≡ change_width change }
    ensures { (lists : ContestState) (e : Entry) → IsGiven lists e change (lent given.now)
        → Appends result (shown_by S.Store tables.old) (shown_by S.Store tables.new) (counts_of tables.old) (counts_of tables.new) lists e }
{
    tables.change(change, given)
}
