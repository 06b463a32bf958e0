//! Rows that are on submissions, how many are on each, and which of them is the last.
ghost use Rattle.std.specs.Prelude.{◌≡◌, ◌<◌, ◌+◌, ◌^◌, ◌++◌, ◌∷◌, ℕ, [], IfOk, OnOk, OnErr};
ghost use Rattle.std.specs.Prelude.{option_map};
ghost use Rattle.contest_lists.specs.RowIndex.{IsIndexed, next_in, noted_with, standing_in};
ghost use Rattle.contest_lists.specs.RowsOn.{count_on, last_row};

use crate::OnSubmission;
use crate::copies::{CopyRow, copies};
use contest_types::Rows;
use std::alloc::{AllocError, Global};
use std::collections::HashMap;
use std::marker::Model;

/// How a submission stands among rows.
#[derive(Clone, Copy)]
struct Standing {
    /// Which the next one on it will be, from 1.
    next: usize,
    /// The place of the last of them.
    last: usize,
}

/// How each submission stands that a row is on, by the place of its team and its number.
type Standings = HashMap<(usize, usize), Standing>;

/// Rows in the order in which they were made. How a submission stands among them is found without a
/// look at those on others. Contracts see the list of them.
#[derive(Drop)]
pub(crate) struct IndexedRows<R: OnSubmission + Drop> {
    rows: Vec<R>,
    standings: Standings,
}

impl<R: OnSubmission + Drop> Model for IndexedRows<R> {
    ghost use Rattle.std.specs.Prelude.{List};
    ghost use Rattle.contest_lists.specs.RowIndex.{IsIndexed, standing_in};

    ghost Value = { List R };

    ghost view = { λ s. s.rows.items };

    ghost invariant = { λ s. IsIndexed R.of (standing_in s.standings) s.rows.items };
}

impl<R: OnSubmission + Drop> IndexedRows<R> {
    /// No rows.
    pub(crate) fn new(alloc: Global) -> IndexedRows<R>
        ensures { result ≡ [] }
    {
        IndexedRows {
            rows: Vec::new(alloc),
            standings: HashMap::new(alloc),
        }
    }

    /// These rows.
    ///
    /// # Errors
    ///
    /// Want of memory alone.
    pub(crate) fn from_rows(alloc: Global, rows: Rows<R>) -> Result<IndexedRows<R>, AllocError>
        ensures { IfOk result (λ indexed. indexed ≡ rows) }
    {
        let rows = rows.into_vec();
        let standings = standings_of(alloc, &rows)?;
        Ok(IndexedRows { rows, standings })
    }

    /// All of them.
    pub(crate) fn as_slice(&self) -> &[R]
        ensures { result.now ≡ self.now }
    {
        self.rows.as_slice()
    }

    /// How many are on the submission with a number, from 1, of the team at a place, from 0.
    pub(crate) fn count_on(&self, team: usize, number: usize) -> usize
        ensures { result ≡ count_on R.of self.now team number }
    {
        self.next_on(team, number) - 1
    }

    /// Which the next one on it will be, from 1.
    pub(crate) fn next_on(&self, team: usize, number: usize) -> usize
        ensures { result ≡ count_on R.of self.now team number + 1 }
    {
        next_of(&self.standings, (team, number))
    }

    /// The last of those, if there is one.
    pub(crate) fn last_on(&self, team: usize, number: usize) -> Option<&R>
        ensures { option_map (λ r. r.now) result ≡ last_row R.of self.now team number }
    {
        self.rows.get(self.standings.get(&(team, number))?.last)
    }

    /// Adds a row at the end. Where memory is refused nothing is changed.
    ///
    /// # Errors
    ///
    /// Want of memory alone.
    pub(crate) fn push(&mut self, row: R) -> Result<(), AllocError>
        ensures ok { OnOk result (self.new ≡ self.old ++ row ∷ []) }
        ensures err { OnErr result (self.new ≡ self.old) }
    {
        self.rows.reserve(1)?;
        note(&mut self.standings, row.submission(), self.rows.len())?;
        match self.rows.push(row) {
            Ok(()) => Ok(()),
            Err(_) => unreachable!(),
        }
    }
}

impl<R: OnSubmission + CopyRow + Drop> IndexedRows<R> {
    /// A copy of the rows.
    ///
    /// # Errors
    ///
    /// Want of memory alone.
    pub(crate) fn copied(&self, alloc: Global) -> Result<IndexedRows<R>, AllocError>
        ensures { IfOk result (λ copy. copy ≡ self.now) }
    {
        IndexedRows::from_rows(alloc, Rows::from_vec(copies(alloc, &self.rows)?))
    }
}

// How each submission stands, in one pass over the rows.
fn standings_of<R: OnSubmission>(alloc: Global, rows: &Vec<R>) -> Result<Standings, AllocError>
    ensures { IfOk result (λ standings. IsIndexed R.of (standing_in standings) rows.now.items) }
{
    let mut standings = HashMap::new(alloc);
    for place in 0..rows.len() {
        note(&mut standings, rows[place].submission(), place)?;
    }
    Ok(standings)
}

// Notes one more row, which is the last so far on its submission. Where memory is refused the same
// is noted as before.
fn note(
    standings: &mut Standings,
    submission: (usize, usize),
    place: usize,
) -> Result<(), AllocError>
    requires { next_in standings.old submission.0 submission.1 + 1 < 2 ^ 64 }
    ensures ok { OnOk result ((team number : ℕ) → standing_in standings.new team number ≡ noted_with (standing_in standings.old) submission place team number) }
    ensures err { OnErr result ((team number : ℕ) → standing_in standings.new team number ≡ standing_in standings.old team number) }
{
    let standing = Standing {
        next: next_of(standings, submission) + 1,
        last: place,
    };
    standings.insert(submission, standing)?;
    Ok(())
}

// Which the next row on a submission will be, from 1.
fn next_of(standings: &Standings, submission: (usize, usize)) -> usize
    ensures { result ≡ next_in standings.now submission.0 submission.1 }
{
    match standings.get(&submission) {
        Some(standing) => standing.next,
        None => 1,
    }
}
