//! One change of a contest in its tables.
ghost use Rattle.contest_store_tables.specs.Connected.{shown_by, counts_of};
ghost use Rattle.contest_store_changes.specs.Additions.{Appends};

use crate::list_rows::{insert_clarification, insert_proposal, insert_release, insert_submission};
use crate::mark_rows::{set_finalized, set_start, set_thaw};
use crate::one_row::insert_row;
use crate::rejudging_rows::{insert_rejudging, set_member, set_rejudging};
use crate::settings_rows::{set_digest, set_duration, set_team_name};
use crate::team_row::insert_team;
use contest_lists::Lists;
use contest_store::StoreError;
use contest_store_reading::{
    account_cells, group_cells, language_cells, problem_cells, type_cells,
};
use contest_store_tables::{TableName, Tables};
use contest_types::Entry;
use sqlite::Alter;
use std::alloc::Global;

/// Makes one change in the tables of a contest with these lists, within a transaction.
///
/// # Errors
///
/// `Memory` where a growth was refused, and `Fault` where the connection failed for another cause,
/// as it does of a number that is larger than a cell's, which no number of a valid contest is. Each
/// is counted, and no change stands then that wasn't committed.
pub fn write_entry<S: Alter>(
    tables: &mut Tables<S>,
    alloc: Global,
    lists: &Lists,
    entry: &Entry,
) -> Result<(), StoreError>
    ensures { Appends result (shown_by S.Store tables.old) (shown_by S.Store tables.new) (counts_of tables.old) (counts_of tables.new) lists.now entry.now }
{
    let settings = &lists.fixed().settings;
    match entry {
        Entry::NewSubmission(row) => insert_submission(tables, lists, row),
        Entry::NewProposal(row) => insert_proposal(tables, lists, row),
        Entry::NewRelease(row) => insert_release(tables, lists, row),
        Entry::NewClarification(row) => insert_clarification(tables, lists, row),
        Entry::NewRejudging(row) => insert_rejudging(tables, lists, row),
        Entry::SetMember(n, place, state) => set_member(tables, lists, *n, *place, state),
        Entry::SetRejudging(n, state) => set_rejudging(tables, lists, *n, *state),
        Entry::SetStart(start) => set_start(tables, lists, *start),
        Entry::SetThaw(thaw) => set_thaw(tables, lists, *thaw),
        Entry::SetFinalized(finalized) => set_finalized(tables, lists, *finalized),
        Entry::SetDuration(duration, freeze) => set_duration(tables, lists, *duration, *freeze),
        Entry::SetTeamName(team, name) => set_team_name(tables, lists, *team, name),
        Entry::SetDigest(id, digest) => set_digest(tables, lists, id, digest),
        Entry::NewType(row) => {
            let number = settings.judgement_types().len() as u64 + 1;
            insert_row(tables, TableName::Items, &type_cells(number, row))
        }
        Entry::NewLanguage(row) => {
            let number = settings.languages().len() as u64 + 1;
            insert_row(tables, TableName::Items, &language_cells(number, row))
        }
        Entry::NewProblem(row) => {
            let number = settings.problems().len() as u64 + 1;
            insert_row(tables, TableName::Items, &problem_cells(number, row))
        }
        Entry::NewGroup(row) => {
            let number = settings.groups().len() as u64 + 1;
            insert_row(tables, TableName::Items, &group_cells(number, row))
        }
        Entry::NewTeam(row) => insert_team(tables, alloc, lists, row),
        Entry::NewAccount(row) => {
            insert_row(tables, TableName::Accounts, &account_cells(settings, row))
        }
    }
}
