//! New rows of the lists. Where cells don't hold a thing's numbers, which those of a valid contest
//! are far below, a row of nothing but `NULL` is inserted in its place: the connection refuses
//! that.
ghost use Rattle.std.specs.Prelude.{◌≡◌, ◌↔◌, ◌<◌, ◌+◌, ◌^◌, IsTrue};
ghost use Rattle.contest_types.specs.declared.entry.Entry.TheVariants.{NewSubmission, NewProposal};
ghost use Rattle.contest_types.specs.declared.entry.Entry.TheVariants.{NewRelease};
ghost use Rattle.contest_types.specs.declared.entry.Entry.TheVariants.{NewClarification};
ghost use Rattle.contest_store_rows.specs.ListRows.{audience_number};
ghost use Rattle.contest_store_tables.specs.Connected.{shown_by, counts_of};
ghost use Rattle.contest_store_changes.specs.Additions.{Appends};

use crate::one_row::insert_row;
use contest_lists::Lists;
use contest_store::StoreError;
use contest_store_rows::{
    ReplyId, clarification_cells, proposal_cells, release_cells, submission_cells,
};
use contest_store_tables::{TableName, Tables};
use contest_types::{Addressee, Clarification, Proposal, Release, Submission};
use sqlite::Alter;
use sqlite::types::ValueRef;

/// Whether a cell holds the number after this one.
pub(crate) fn fits(n: usize) -> bool
    ensures { IsTrue result ↔ (n + 1 < 2 ^ 63) }
{
    n < i64::MAX as usize
}

/// Whether cells hold the numbers after both.
pub(crate) fn both_fit(n: usize, m: usize) -> bool
    ensures { IsTrue result ↔ (n + 1 < 2 ^ 63) × (m + 1 < 2 ^ 63) }
{
    fits(n) && fits(m)
}

pub(crate) fn insert_submission<S: Alter>(
    tables: &mut Tables<S>,
    lists: &Lists,
    submission: &Submission,
) -> Result<(), StoreError>
    ensures { Appends result (shown_by S.Store tables.old) (shown_by S.Store tables.new) (counts_of tables.old) (counts_of tables.new) lists.now (NewSubmission submission.now) }
{
    let row = lists.submissions().len();
    if !both_fit(submission.team, submission.number) {
        return insert_row(tables, TableName::Submissions, &[ValueRef::Null; 9]);
    }
    insert_row(
        tables,
        TableName::Submissions,
        &submission_cells(&lists.fixed().settings, row as u64 + 1, submission),
    )
}

pub(crate) fn insert_proposal<S: Alter>(
    tables: &mut Tables<S>,
    lists: &Lists,
    proposal: &Proposal,
) -> Result<(), StoreError>
    ensures { Appends result (shown_by S.Store tables.old) (shown_by S.Store tables.new) (counts_of tables.old) (counts_of tables.new) lists.now (NewProposal proposal.now) }
{
    let row = lists.proposals().len();
    if !both_fit(proposal.team, proposal.number) {
        return insert_row(tables, TableName::Proposals, &[ValueRef::Null; 6]);
    }
    insert_row(
        tables,
        TableName::Proposals,
        &proposal_cells(&lists.fixed().settings, row as u64 + 1, proposal),
    )
}

pub(crate) fn insert_release<S: Alter>(
    tables: &mut Tables<S>,
    lists: &Lists,
    release: &Release,
) -> Result<(), StoreError>
    ensures { Appends result (shown_by S.Store tables.old) (shown_by S.Store tables.new) (counts_of tables.old) (counts_of tables.new) lists.now (NewRelease release.now) }
{
    let row = lists.releases().len();
    if !release_fits(release) {
        return insert_row(tables, TableName::Releases, &[ValueRef::Null; 6]);
    }
    insert_row(
        tables,
        TableName::Releases,
        &release_cells(&lists.fixed().settings, row as u64 + 1, release),
    )
}

fn release_fits(release: &Release) -> bool
    ensures { IsTrue result ↔ ((release.now.team + 1 < 2 ^ 63) × (release.now.number + 1 < 2 ^ 63)) × (release.now.round + 1 < 2 ^ 63) }
{
    both_fit(release.team, release.number) && fits(release.round)
}

pub(crate) fn insert_clarification<S: Alter>(
    tables: &mut Tables<S>,
    lists: &Lists,
    clarification: &Clarification,
) -> Result<(), StoreError>
    ensures { Appends result (shown_by S.Store tables.old) (shown_by S.Store tables.new) (counts_of tables.old) (counts_of tables.new) lists.now (NewClarification clarification.now) }
{
    let row = lists.clarifications().len();
    if !clarification_fits(clarification) {
        return insert_row(tables, TableName::Notices, &[ValueRef::Null; 11]);
    }
    let reply = ReplyId::of(clarification.reply);
    insert_row(
        tables,
        TableName::Notices,
        &clarification_cells(
            &lists.fixed().settings,
            row as u64 + 1,
            clarification,
            &reply,
        ),
    )
}

/// Whether cells hold the numbers of a clarification.
pub(crate) fn clarification_fits(clarification: &Clarification) -> bool
    ensures { IsTrue result ↔ (audience_number clarification.now.addressee < 2 ^ 63) × (clarification.now.number + 1 < 2 ^ 63) }
{
    audience_fits(clarification.addressee) && fits(clarification.number)
}

fn audience_fits(addressee: Addressee) -> bool
    ensures { IsTrue result ↔ (audience_number addressee < 2 ^ 63) }
{
    match addressee {
        Addressee::All => true,
        Addressee::Team(place) | Addressee::Group(place) => fits(place),
    }
}
