//! Rejudgings with their members, and the states of both.
ghost use Rattle.std.specs.Prelude.{◌≡◌, ◌<◌, ◌+◌, ◌^◌, length, []};
ghost use Rattle.contest_store_rows.specs.Cells.{lent};
ghost use Rattle.contest_types.specs.declared.entry.Entry.TheVariants.{NewRejudging, SetMember};
ghost use Rattle.contest_types.specs.declared.entry.Entry.TheVariants.{SetRejudging};
ghost use Rattle.contest_store_rows.specs.ListRows.{member_row};
ghost use Rattle.contest_store_tables.specs.Connected.{shown_by, counts_of};
ghost use Rattle.contest_store_tables.specs.Steps.{Full, HasInserted, MakesNone, Step};
ghost use Rattle.contest_store_tables.specs.declared.table_name.TableName.TheVariants.{Members};
ghost use Rattle.contest_store_changes.specs.Additions.{Admits, Appends, HasListed, HasMember};
ghost use Rattle.contest_store_changes.specs.Laws.{with_members, member_state_given, state_given};

use crate::list_rows::{both_fit, fits};
use crate::one_row::{change_row, insert_row};
use contest_lists::Lists;
use contest_store::StoreError;
use contest_store_rows::{
    account_cell, is_ready, member_cells, number, rejudging_cells, state_number, type_cell,
};
use contest_store_tables::{RowChange, TableName, Tables};
use contest_types::{Member, MemberState, Rejudging, RejudgingState, Settings};
use sqlite::Alter;
use sqlite::types::ValueRef;

/// The rejudging, and then its members in their order.
pub(crate) fn insert_rejudging<S: Alter>(
    tables: &mut Tables<S>,
    lists: &Lists,
    rejudging: &Rejudging,
) -> Result<(), StoreError>
    ensures { Appends result (shown_by S.Store tables.old) (shown_by S.Store tables.new) (counts_of tables.old) (counts_of tables.new) lists.now (NewRejudging rejudging.now) }
{
    match insert_head(tables, lists, rejudging) {
        Ok(()) => {}
        Err(error) => return Err(error),
    }
    let members = rejudging.members.as_slice();
    for place in 0..members.len() {
        match insert_member(tables, lists, place, &members[place]) {
            Ok(()) => {}
            Err(error) => return Err(error),
        }
    }
    Ok(())
}

// The rejudging without its members.
fn insert_head<S: Alter>(
    tables: &mut Tables<S>,
    lists: &Lists,
    rejudging: &Rejudging,
) -> Result<(), StoreError>
    ensures { Step result (shown_by S.Store tables.old) (shown_by S.Store tables.new) (counts_of tables.old) (counts_of tables.new) (Admits lists.now (NewRejudging rejudging.now))
        (HasListed lists.now (NewRejudging (with_members rejudging.now []))) (MakesNone (shown_by S.Store tables.old) (Admits lists.now (NewRejudging rejudging.now))) }
{
    let row = lists.rejudgings().len();
    insert_row(
        tables,
        TableName::Rejudgings,
        &rejudging_cells(row as u64 + 1, rejudging),
    )
}

// The member at a place, from 0, of the rejudging that comes after those of the lists.
fn insert_member<S: Alter>(
    tables: &mut Tables<S>,
    lists: &Lists,
    place: usize,
    member: &Member,
) -> Result<(), StoreError>
    requires { place + 1 < 2 ^ 63 }
    ensures { Step result (shown_by S.Store tables.old) (shown_by S.Store tables.new) (counts_of tables.old) (counts_of tables.new) Full
        (HasMember lists.now place member.now) (MakesNone (shown_by S.Store tables.old) Full) }
{
    let rejudging = lists.rejudgings().len();
    if !both_fit(member.team, member.number) {
        return tables.insert(TableName::Members, &[ValueRef::Null; 7]);
    }
    let settings = &lists.fixed().settings;
    tables.insert(
        TableName::Members,
        &member_cells(settings, rejudging as u64 + 1, place as u64 + 1, member),
    )
}

pub(crate) fn set_rejudging<S: Alter>(
    tables: &mut Tables<S>,
    lists: &Lists,
    n: usize,
    state: RejudgingState,
) -> Result<(), StoreError>
    ensures { Appends result (shown_by S.Store tables.old) (shown_by S.Store tables.new) (counts_of tables.old) (counts_of tables.new) lists.now (SetRejudging n state) }
{
    // no rejudging has a number that is too large for a cell
    if !fits(n) {
        return Ok(());
    }
    change_row(
        tables,
        RowChange::RejudgingState,
        &state_cells(n as u64, state),
    )
}

// The number of a rejudging and its state.
fn state_cells<'a>(n: u64, state: RejudgingState) -> [ValueRef<'a>; 2]
    requires { n < 2 ^ 63 }
    ensures { lent result ≡ state_given n state }
{
    [number(n), number(state_number(state))]
}

pub(crate) fn set_member<S: Alter>(
    tables: &mut Tables<S>,
    lists: &Lists,
    n: usize,
    place: usize,
    state: &MemberState,
) -> Result<(), StoreError>
    ensures { Appends result (shown_by S.Store tables.old) (shown_by S.Store tables.new) (counts_of tables.old) (counts_of tables.new) lists.now (SetMember n place state.now) }
{
    // nor has a member such a place
    if !both_fit(n, place) {
        return Ok(());
    }
    let settings = &lists.fixed().settings;
    change_row(
        tables,
        RowChange::MemberState,
        &member_state_cells(settings, n as u64, place as u64 + 1, state),
    )
}

// The number of a rejudging, the place in it, from 1, and the member's state.
fn member_state_cells<'a>(
    settings: &'a Settings,
    n: u64,
    place: u64,
    state: &'a MemberState,
) -> [ValueRef<'a>; 5]
    requires rejudging { n < 2 ^ 63 }
    requires place { place < 2 ^ 63 }
    ensures { lent result ≡ member_state_given settings.now n place state.now }
{
    [
        number(n),
        number(place),
        type_cell(settings, state),
        account_cell(state),
        number(is_ready(state) as u64),
    ]
}
