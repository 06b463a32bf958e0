//! The duration, the name of a team and the token of an account, which change in rows that stand.
ghost use Rattle.contest_types.specs.declared.entry.Entry.TheVariants.{SetDuration, SetTeamName};
ghost use Rattle.contest_types.specs.declared.entry.Entry.TheVariants.{SetDigest};
ghost use Rattle.contest_store_tables.specs.Connected.{shown_by, counts_of};
ghost use Rattle.contest_store_changes.specs.Additions.{Appends};

use crate::list_rows::fits;
use crate::one_row::change_row;
use contest_lists::Lists;
use contest_store::StoreError;
use contest_store_reading::{digest_cells, duration_cells, team_name_cells};
use contest_store_tables::{RowChange, Tables};
use contest_types::{Digest, Id, Name, TimeSpan};
use sqlite::Alter;

pub(crate) fn set_duration<S: Alter>(
    tables: &mut Tables<S>,
    lists: &Lists,
    duration: TimeSpan,
    freeze: Option<TimeSpan>,
) -> Result<(), StoreError>
    ensures { Appends result (shown_by S.Store tables.old) (shown_by S.Store tables.new) (counts_of tables.old) (counts_of tables.new) lists.now (SetDuration duration freeze) }
{
    change_row(
        tables,
        RowChange::Duration,
        &duration_cells(duration, freeze),
    )
}

/// The team is that at a place, from 0.
pub(crate) fn set_team_name<S: Alter>(
    tables: &mut Tables<S>,
    lists: &Lists,
    team: usize,
    name: &Name,
) -> Result<(), StoreError>
    ensures { Appends result (shown_by S.Store tables.old) (shown_by S.Store tables.new) (counts_of tables.old) (counts_of tables.new) lists.now (SetTeamName team name.now) }
{
    // no team has a number that is too large for a cell
    if !fits(team) {
        return Ok(());
    }
    change_row(
        tables,
        RowChange::ItemName,
        &team_name_cells(team as u64 + 1, name),
    )
}

/// The account is that with an id.
pub(crate) fn set_digest<S: Alter>(
    tables: &mut Tables<S>,
    lists: &Lists,
    id: &Id,
    digest: &Digest,
) -> Result<(), StoreError>
    ensures { Appends result (shown_by S.Store tables.old) (shown_by S.Store tables.new) (counts_of tables.old) (counts_of tables.new) lists.now (SetDigest id.now digest.now) }
{
    change_row(tables, RowChange::Digest, &digest_cells(id, digest))
}
