//! A new team, whose row has its number and the ids of its groups.
ghost use Rattle.contest_types.specs.declared.entry.Entry.TheVariants.{NewTeam};
ghost use Rattle.contest_store_tables.specs.Connected.{shown_by, counts_of};
ghost use Rattle.contest_store_changes.specs.Additions.{Appends};

use crate::one_row::insert_row;
use contest_lists::Lists;
use contest_store::StoreError;
use contest_store_reading::{joined_ids, team_cells};
use contest_store_tables::{TableName, Tables};
use contest_types::Team;
use sqlite::Alter;
use std::alloc::Global;

/// Want of memory may be for the ids of the team's groups, too.
pub(crate) fn insert_team<S: Alter>(
    tables: &mut Tables<S>,
    alloc: Global,
    lists: &Lists,
    team: &Team,
) -> Result<(), StoreError>
    ensures { Appends result (shown_by S.Store tables.old) (shown_by S.Store tables.new) (counts_of tables.old) (counts_of tables.new) lists.now (NewTeam team.now) }
{
    let settings = &lists.fixed().settings;
    let row = settings.teams().len();
    match joined_ids(alloc, settings, team.groups.as_slice()) {
        Ok(group_ids) => insert_row(
            tables,
            TableName::Items,
            &team_cells(row as u64 + 1, &group_ids, team),
        ),
        Err(_) => Err(tables.out_of_memory()),
    }
}
