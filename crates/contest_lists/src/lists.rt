//! The lists of a contest in memory.
ghost use Rattle.std.specs.Prelude.{◌≡◌, ◌<◌, ◌≤◌, ◌+◌, ◌⊎◌, ◌++◌, ◌∷◌, List, [], All, IfOk};
ghost use Rattle.std.specs.Prelude.{IfNone, IfSome, OnOk, OnErr, length, option_map, slice_get};
ghost use Rattle.std.specs.Prelude.{slice_set, Some, true, false};
ghost use Rattle.contest_types.specs.Addable.{is_addable};
ghost use Rattle.contest_types.specs.State.{add, changed_at, of_proposal, of_release};
ghost use Rattle.contest_types.specs.State.{submissions_of, with_member_state};
ghost use Rattle.contest_types.specs.declared.submission.Submission.{Submission};
ghost use Rattle.contest_types.specs.declared.rejudging.Member.{Member as TheMember};
ghost use Rattle.contest_types.specs.declared.rejudging.Rejudging.{Rejudging as TheRejudging};
ghost use Rattle.contest_lists.specs.Lists.{filed, places_of, unfiled, with_submissions};
ghost use Rattle.contest_lists.specs.RowsAdded.{HasSameSettings, added_releases, added_submissions};
ghost use Rattle.contest_lists.specs.RowsAdded.{is_setting_or_mark};
ghost use Rattle.contest_lists.specs.RowsOn.{count_on, last_row};

use crate::copies::{CopyRow, copies, without_file};
use crate::fixed_changes::changed_fixed;
use crate::indexed_rows::IndexedRows;
use crate::indexed_submissions::IndexedSubmissions;
use contest_types::{
    Clarification, Entry, Fixed, Member, MemberState, Proposal, Rejudging, RejudgingState, Release,
    Rows, Submission,
};
use std::alloc::{AllocError, Global};
use std::marker::Model;
use std::mem::replace;
use std::rc::Rc;

/// The settings, accounts and marks of a contest, and its rows in the order in which they were
/// accepted, each submission without its file. Contracts see a contest.
#[derive(Drop)]
pub struct Lists {
    pub(crate) fixed: Rc<Fixed>,
    pub(crate) submissions: IndexedSubmissions,
    pub(crate) proposals: IndexedRows<Proposal>,
    pub(crate) releases: IndexedRows<Release>,
    pub(crate) clarifications: Vec<Clarification>,
    pub(crate) rejudgings: Vec<Rejudging>,
}

impl Model for Lists {
    ghost use Rattle.contest_types.specs.State.{ContestState};

    ghost Value = { ContestState };

    ghost view = { λ l. record {
      fixed = l.fixed.value;
      submissions = l.submissions;
      proposals = l.proposals;
      releases = l.releases;
      clarifications = l.clarifications.items;
      rejudgings = l.rejudgings.items;
    } };
}

impl Lists {
    /// A contest with no rows.
    pub fn new(alloc: Global, fixed: Rc<Fixed>) -> Lists
        ensures { result ≡ with_submissions fixed.value [] }
    {
        Lists {
            fixed,
            submissions: IndexedSubmissions::new(alloc),
            proposals: IndexedRows::new(alloc),
            releases: IndexedRows::new(alloc),
            clarifications: Vec::new(alloc),
            rejudgings: Vec::new(alloc),
        }
    }

    /// The settings, the accounts and the marks.
    pub fn fixed(&self) -> &Fixed
        ensures { result.now ≡ self.now.fixed }
    {
        &self.fixed
    }

    /// The submissions, each without its file.
    pub fn submissions(&self) -> &[Submission]
        ensures { result.now ≡ self.now.submissions }
    {
        self.submissions.as_slice()
    }

    /// The places among them, from 0, of those of the team at a place, in their order. It is as
    /// quick whatever other teams submitted.
    pub fn places_of(&self, team: usize) -> &[usize]
        ensures places { result.now ≡ places_of team self.now.submissions }
        ensures within { All (λ place. place < length self.now.submissions) result.now }
    {
        self.submissions.places_of(team)
    }

    /// One of the submissions of the team at a place, from 0, by its place, from 0, among its own.
    pub fn submission_of(&self, team: usize, own_place: usize) -> Option<&Submission>
        ensures { option_map (λ s. s.now) result ≡ slice_get (submissions_of team self.now.submissions) own_place }
    {
        let place = *row_at(self.places_of(team), own_place)?;
        row_at(self.submissions(), place)
    }

    /// The proposed verdicts.
    pub fn proposals(&self) -> &[Proposal]
        ensures { result.now ≡ self.now.proposals }
    {
        self.proposals.as_slice()
    }

    /// How many verdicts were proposed for the submission with a number, from 1, of the team at a
    /// place, from
    /// 0. It is as quick whatever was proposed for others; so are the next four.
    pub fn proposals_for(&self, team: usize, number: usize) -> usize
        ensures { result ≡ count_on of_proposal self.now.proposals team number }
    {
        self.proposals.count_on(team, number)
    }

    /// The last verdict that was proposed for it, if one was.
    pub fn last_proposal(&self, team: usize, number: usize) -> Option<&Proposal>
        ensures { option_map (λ p. p.now) result ≡ last_row of_proposal self.now.proposals team number }
    {
        self.proposals.last_on(team, number)
    }

    /// How many verdicts were released on it.
    pub fn releases_on(&self, team: usize, number: usize) -> usize
        ensures { result ≡ count_on of_release self.now.releases team number }
    {
        self.releases.count_on(team, number)
    }

    /// The round of the next release on it, from 1.
    pub fn next_round(&self, team: usize, number: usize) -> usize
        ensures { result ≡ count_on of_release self.now.releases team number + 1 }
    {
        self.releases.next_on(team, number)
    }

    /// The last verdict that was released on it, if one was.
    pub fn last_release(&self, team: usize, number: usize) -> Option<&Release>
        ensures { option_map (λ r. r.now) result ≡ last_row of_release self.now.releases team number }
    {
        self.releases.last_on(team, number)
    }

    /// The verdicts that were released.
    pub fn releases(&self) -> &[Release]
        ensures { result.now ≡ self.now.releases }
    {
        self.releases.as_slice()
    }

    /// The clarifications.
    pub fn clarifications(&self) -> &[Clarification]
        ensures { result.now ≡ self.now.clarifications }
    {
        self.clarifications.as_slice()
    }

    /// The rejudgings.
    pub fn rejudgings(&self) -> &[Rejudging]
        ensures { result.now ≡ self.now.rejudgings }
    {
        self.rejudgings.as_slice()
    }

    /// A copy of the lists.
    ///
    /// # Errors
    ///
    /// Want of memory alone.
    pub fn copied(&self, alloc: Global) -> Result<Lists, AllocError>
        ensures { IfOk result (λ copy. copy ≡ self.now) }
    {
        Ok(Lists {
            fixed: self.fixed.clone()?,
            submissions: self.submissions.copied(alloc)?,
            proposals: self.proposals.copied(alloc)?,
            releases: self.releases.copied(alloc)?,
            clarifications: copies(alloc, &self.clarifications)?,
            rejudgings: copies(alloc, &self.rejudgings)?,
        })
    }

    /// Makes one change, if it may be made; of a submission the file is left out. Whatever the
    /// change, it adds no submission and no release but its own, and no account changes the
    /// settings or the marks.
    ///
    /// # Errors
    ///
    /// Want of memory alone. The lists are then as before.
    pub fn add(&mut self, alloc: Global, entry: &Entry) -> Result<(), AllocError>
        ensures ok { OnOk result ((submissions : List Submission) → is_addable (filed submissions self.old) entry.now ≡ true → self.new ≡ add self.old (unfiled entry.now)) }
        ensures err { OnErr result (self.new ≡ self.old) }
        ensures submissions { OnOk result (self.new.submissions ≡ self.old.submissions ++ added_submissions entry.now) }
        ensures releases { OnOk result (self.new.releases ≡ self.old.releases ++ added_releases entry.now) }
        ensures fixed { OnOk result (is_setting_or_mark entry.now ≡ false → HasSameSettings self.old.fixed self.new.fixed) }
    {
        match entry {
            Entry::NewSubmission(row) => self.submissions.push(without_file(alloc, row)?),
            Entry::NewProposal(row) => self.proposals.push(row.copied(alloc)?),
            Entry::NewRelease(row) => self.releases.push(*row),
            Entry::NewClarification(row) => push(&mut self.clarifications, row.copied(alloc)?),
            Entry::NewRejudging(row) => push(&mut self.rejudgings, row.copied(alloc)?),
            Entry::SetMember(n, place, state) => {
                let state = state.copied(alloc)?;
                set_member(alloc, &mut self.rejudgings, *n, *place, state);
                Ok(())
            }
            Entry::SetRejudging(n, state) => {
                set_rejudging(&mut self.rejudgings, *n, *state);
                Ok(())
            }
            entry => {
                self.fixed = changed_fixed(alloc, &self.fixed, entry)?;
                Ok(())
            }
        }
    }
}

fn row_at<T>(rows: &[T], place: usize) -> Option<&T>
    ensures { option_map (λ row. row.now) result ≡ slice_get rows.now place }
{
    rows.get(place)
}

/// Adds a row at the end. Where memory is refused the rows are as before.
///
/// # Errors
///
/// Want of memory alone.
pub fn push<T: Drop>(rows: &mut Vec<T>, row: T) -> Result<(), AllocError>
    ensures ok { OnOk result (rows.new.items ≡ rows.old.items ++ row ∷ []) }
    ensures err { OnErr result (rows.new.items ≡ rows.old.items) }
{
    rows.push(row)?;
    Ok(())
}

// Rejudgings are counted from 1; where there is none with this number nothing changes.
fn set_rejudging(rejudgings: &mut Vec<Rejudging>, n: usize, state: RejudgingState)
    ensures { rejudgings.new.items ≡ changed_at 1 n (λ (r : TheRejudging). record r { state = state }) rejudgings.old.items }
{
    match place_of(n, rejudgings.len()) {
        Some(place) => put_state(rejudgings, place, state),
        None => {}
    }
}

fn set_member(
    alloc: Global,
    rejudgings: &mut Vec<Rejudging>,
    n: usize,
    place: usize,
    state: MemberState,
)
    ensures { rejudgings.new.items ≡ changed_at 1 n (with_member_state place state) rejudgings.old.items }
{
    match place_of(n, rejudgings.len()) {
        Some(at) => put_member_state(alloc, rejudgings, at, place, state),
        None => {}
    }
}

// The place, from 0, of what has this number, from 1.
fn place_of(n: usize, len: usize) -> Option<usize>
    ensures there { IfSome result (λ place. (n ≡ 1 + place) × (place < len)) }
    ensures nowhere { IfNone result ((n < 1) ⊎ (1 + len ≤ n)) }
{
    if n >= 1 && n <= len {
        Some(n - 1)
    } else {
        None
    }
}

fn put_state(rejudgings: &mut Vec<Rejudging>, place: usize, state: RejudgingState)
    requires { place < length rejudgings.old.items }
    ensures { (r : TheRejudging) → slice_get rejudgings.old.items place ≡ Some r → rejudgings.new.items ≡ slice_set rejudgings.old.items place (record r { state = state }) }
{
    rejudgings[place].state = state;
}

fn put_member_state(
    alloc: Global,
    rejudgings: &mut Vec<Rejudging>,
    at: usize,
    place: usize,
    state: MemberState,
)
    requires { at < length rejudgings.old.items }
    ensures { (r : TheRejudging) → slice_get rejudgings.old.items at ≡ Some r → rejudgings.new.items ≡ slice_set rejudgings.old.items at (with_member_state place state r) }
{
    let rejudging = &mut rejudgings[at];
    let members = replace(&mut rejudging.members, Rows::new(alloc));
    rejudging.members = with_state(members, place, state);
}

// The members with the one at a place, from 0, in this state; where there is none as they are.
fn with_state(members: Rows<Member>, place: usize, state: MemberState) -> Rows<Member>
    ensures { result ≡ changed_at 0 place (λ (m : TheMember). record m { state = state }) members }
{
    let members = members.into_vec();
    if place < members.len() {
        Rows::from_vec(with_state_at(members, place, state))
    } else {
        Rows::from_vec(members)
    }
}

fn with_state_at(members: Vec<Member>, place: usize, state: MemberState) -> Vec<Member>
    requires { place < length members.items }
    ensures { (m : TheMember) → slice_get members.items place ≡ Some m → result.items ≡ slice_set members.items place (record m { state = state }) }
{
    let mut members = members;
    members[place].state = state;
    members
}
