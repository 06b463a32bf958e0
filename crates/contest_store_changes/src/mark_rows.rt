//! The marks of the clock, which stand in the contest's own row.
ghost use Rattle.std.specs.Prelude.{◌≡◌};
ghost use Rattle.contest_types.specs.declared.entry.Entry.TheVariants.{SetStart, SetThaw};
ghost use Rattle.contest_types.specs.declared.entry.Entry.TheVariants.{SetFinalized};
ghost use Rattle.contest_store_tables.specs.Connected.{shown_by, counts_of};
ghost use Rattle.contest_store_changes.specs.Additions.{Appends};

use crate::one_row::change_row;
use contest_lists::Lists;
use contest_store::StoreError;
use contest_store_reading::marks_cells;
use contest_store_tables::{RowChange, Tables};
use contest_types::{Marks, Moment};
use sqlite::Alter;

pub(crate) fn set_start<S: Alter>(
    tables: &mut Tables<S>,
    lists: &Lists,
    start: Option<Moment>,
) -> Result<(), StoreError>
    ensures { Appends result (shown_by S.Store tables.old) (shown_by S.Store tables.new) (counts_of tables.old) (counts_of tables.new) lists.now (SetStart start) }
{
    let marks = Marks {
        start,
        ..lists.fixed().marks
    };
    change_row(tables, RowChange::Marks, &marks_cells(marks))
}

pub(crate) fn set_thaw<S: Alter>(
    tables: &mut Tables<S>,
    lists: &Lists,
    thaw: Moment,
) -> Result<(), StoreError>
    ensures { Appends result (shown_by S.Store tables.old) (shown_by S.Store tables.new) (counts_of tables.old) (counts_of tables.new) lists.now (SetThaw thaw) }
{
    let marks = Marks {
        thaw: Some(thaw),
        ..lists.fixed().marks
    };
    change_row(tables, RowChange::Marks, &marks_cells(marks))
}

pub(crate) fn set_finalized<S: Alter>(
    tables: &mut Tables<S>,
    lists: &Lists,
    finalized: Moment,
) -> Result<(), StoreError>
    ensures { Appends result (shown_by S.Store tables.old) (shown_by S.Store tables.new) (counts_of tables.old) (counts_of tables.new) lists.now (SetFinalized finalized) }
{
    let marks = Marks {
        finalized: Some(finalized),
        ..lists.fixed().marks
    };
    change_row(tables, RowChange::Marks, &marks_cells(marks))
}
