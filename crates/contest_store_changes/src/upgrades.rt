//! Tables of the first schema become those of today: the clarifications go into the table of today.
ghost use Rattle.std.specs.Prelude.{◌<◌, ◌+◌, ◌^◌, length};
ghost use Rattle.contest_store_tables.specs.Connected.{shown_by, counts_of};
ghost use Rattle.contest_store_tables.specs.Steps.{Full, MakesNone, Step};
ghost use Rattle.contest_store_changes.specs.UpgradeSteps.{HasLeft, HasMoved, HasNotice};
ghost use Rattle.contest_store_changes.specs.UpgradeSteps.{HasUpgraded, HasVersion, ShowsFirst};
ghost use Rattle.contest_store_changes.specs.UpgradeSteps.{ShowsNoticeless};

use crate::list_rows::clarification_fits;
use contest_lists::Lists;
use contest_store::StoreError;
use contest_store_reading::desk_cells;
use contest_store_rows::{ReplyId, VERSION, clarification_cells};
use contest_store_tables::{RowChange, TableName, Tables};
use contest_types::{Clarification, Settings};
use sqlite::Alter;
use sqlite::types::ValueRef;

/// Makes the tables of the first schema, which show a contest with these lists, those of today,
/// within a transaction. The cells stay.
///
/// # Errors
///
/// `Memory` where a growth was refused; `Fault` where the connection failed for another cause.
pub fn upgrade<S: Alter>(tables: &mut Tables<S>, lists: &Lists) -> Result<(), StoreError>
    ensures { Step result (shown_by S.Store tables.old) (shown_by S.Store tables.new) (counts_of tables.old) (counts_of tables.new) (ShowsFirst lists.now) (HasUpgraded lists.now)
        (MakesNone (shown_by S.Store tables.old) (ShowsFirst lists.now)) }
{
    match insert_notices(tables, lists) {
        Ok(()) => leave_first(tables),
        Err(error) => Err(error),
    }
}

/// Inserts the clarifications of these lists in their order into the table of today, which has no
/// row, within a transaction.
///
/// # Errors
///
/// `Memory` where a growth was refused; `Fault` where the connection failed for another cause.
pub fn insert_notices<S: Alter>(tables: &mut Tables<S>, lists: &Lists) -> Result<(), StoreError>
    ensures { Step result (shown_by S.Store tables.old) (shown_by S.Store tables.new) (counts_of tables.old) (counts_of tables.new) (ShowsNoticeless lists.now)
        (HasMoved lists.now (length lists.now.clarifications)) (MakesNone (shown_by S.Store tables.old) (ShowsNoticeless lists.now)) }
{
    let clarifications = lists.clarifications();
    for place in 0..clarifications.len() {
        let settings = &lists.fixed().settings;
        match insert_notice(tables, settings, place, &clarifications[place]) {
            Ok(()) => {}
            Err(error) => return Err(error),
        }
    }
    Ok(())
}

// The clarification at a place, from 0.
fn insert_notice<S: Alter>(
    tables: &mut Tables<S>,
    settings: &Settings,
    place: usize,
    clarification: &Clarification,
) -> Result<(), StoreError>
    requires { place + 1 < 2 ^ 63 }
    ensures { Step result (shown_by S.Store tables.old) (shown_by S.Store tables.new) (counts_of tables.old) (counts_of tables.new) Full
        (HasNotice settings.now place clarification.now) (MakesNone (shown_by S.Store tables.old) Full) }
{
    if !clarification_fits(clarification) {
        return tables.insert(TableName::Notices, &[ValueRef::Null; 11]);
    }
    let reply = ReplyId::of(clarification.reply);
    tables.insert(
        TableName::Notices,
        &clarification_cells(settings, place as u64 + 1, clarification, &reply),
    )
}

// Takes the rows out of the table of the first schema, and sets the version.
fn leave_first<S: Alter>(tables: &mut Tables<S>) -> Result<(), StoreError>
    ensures { Step result (shown_by S.Store tables.old) (shown_by S.Store tables.new) (counts_of tables.old) (counts_of tables.new) Full HasLeft (MakesNone (shown_by S.Store tables.old) Full) }
{
    match tables.clear_clarifications() {
        Ok(()) => set_version(tables),
        Err(error) => Err(error),
    }
}

fn set_version<S: Alter>(tables: &mut Tables<S>) -> Result<(), StoreError>
    ensures { Step result (shown_by S.Store tables.old) (shown_by S.Store tables.new) (counts_of tables.old) (counts_of tables.new) Full HasVersion (MakesNone (shown_by S.Store tables.old) Full) }
{
    tables.change(RowChange::Version, &desk_cells(VERSION))
}
